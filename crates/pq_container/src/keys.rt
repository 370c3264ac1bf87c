//! Key values, each from its Thrift struct.
ghost use Rattle.std.specs.Prelude.{◌≡◌, ℕ, List, IfOk, IfErr, OnErr, option_map, map};
ghost use Rattle.std.specs.Option.{option_copied};
ghost use Rattle.columns_base.specs.declared.error.Error.TheVariants.{OutOfSpec};
ghost use Rattle.columns_base.specs.declared.error.S.TheVariants.{S1};
ghost use Rattle.pq_thrift.specs.Value.{view, values_view};
ghost use Rattle.pq_metadata.specs.Footer.{SpellsKey, HasKeys};
ghost use Rattle.pq_metadata.specs.Ids.{Each};
ghost use Rattle.pq_tree.specs.Reads.{Refuses};
ghost use Rattle.pq_tree.specs.Views.{key_view};

use crate::fields::{needed_text, optional_text};
use crate::kinds::{as_list, as_struct};
use crate::texts::owned_text;
use columns_base::{Error, S};
use pq_thrift::Thrift;
use pq_tree::KeyValue;
use std::alloc::Global;

/// The pair that the struct spells. `OutOfSpec(S1)` where it is no `KeyValue`.
pub fn key_from(alloc: Global, value: &Thrift) -> Result<KeyValue, Error>
    ensures found { IfOk result (λ k. SpellsKey (view value.now) (key_view k)) }
    ensures refused { IfErr result (Refuses (OutOfSpec S1) (SpellsKey (view value.now))) }
{
    let Some(fields) = as_struct(value) else {
        return Err(Error::OutOfSpec(S::S1));
    };
    let key = needed_text(fields, 1)?;
    let text = optional_text(fields, 2)?;
    Ok(KeyValue {
        key: String::from_str(alloc, key)?,
        value: owned_text(alloc, text)?,
    })
}

#[tactic(auto, using(crate::proofs::Eachs::each_next, crate::proofs::Eachs::each_refused))]
fn each_key_from(alloc: Global, values: &[Thrift]) -> Result<Vec<KeyValue>, Error>
    ensures found { IfOk result (λ ks. Each SpellsKey (values_view values.now) (map key_view ks.items)) }
    ensures refused { IfErr result (Refuses (OutOfSpec S1) (Each SpellsKey (values_view values.now))) }
{
    let mut keys = Vec::new(alloc);
    for value in values {
        keys.push(key_from(alloc, value)?)?;
    }
    Ok(keys)
}

/// The pairs of the list. No list counts as an empty one.
pub fn keys_from(alloc: Global, list: Option<&Thrift>) -> Result<Vec<KeyValue>, Error>
    ensures found { IfOk result (λ ks. HasKeys (option_map view (option_copied list.entry)) (map key_view ks.items)) }
    ensures refused { IfErr result (Refuses (OutOfSpec S1) (HasKeys (option_map view (option_copied list.entry)))) }
{
    let Some(list) = list else {
        return Ok(Vec::new(alloc));
    };
    match as_list(list) {
        Some(values) => each_key_from(alloc, values),
        None => Err(Error::OutOfSpec(S::S1)),
    }
}
