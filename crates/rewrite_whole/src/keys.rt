//! The key values of a file.
ghost use Rattle.std.specs.Prelude.{◌≡◌, ◌≢◌, ◌↔◌, IsTrue, IfOk, IfErr, None, filter, is_some, map, not};
ghost use Rattle.columns_base.specs.declared.error.Error.TheVariants.{Memory};
ghost use Rattle.columns_core.specs.Meta.{text_at};
ghost use Rattle.pq_tree.specs.TreeViews.{pairs_view};
ghost use Rattle.pq_tree.specs.Views.{key_view};
ghost use Rattle.pq_files.specs.Room.{are_same};
ghost use Rattle.schema_key.specs.Inferred.{counting, gathered};
ghost use Rattle.schema_key.specs.Key.{keys_in, schema_key};
ghost use Rattle.rewrite_whole.specs.Keys.{text_in};

use columns_base::Result;
use pq_tree::KeyValue;
use schema_key::{KeyRule, the_last_counts};
use std::alloc::Global;

/// The key under which a file carries its Arrow schema.
const SCHEMA_KEY: &str = "ARROW:schema";

#[tactic(auto, using(crate::proofs::SameTexts::told_by))]
fn is_schema_key(key: &str) -> bool
    ensures { result ≡ are_same key.now schema_key }
{
    key == SCHEMA_KEY
}

/// Whether a pair is of that key, and has a text.
fn is_schema(entry: &KeyValue) -> bool
    ensures { result ≡ is_some (text_in (key_view entry.now)) }
{
    is_schema_key(entry.key.as_str()) && entry.value.is_some()
}

/// Whether some pair is.
fn has_schema(entries: &[KeyValue]) -> bool
    ensures { IsTrue result ↔ (text_at schema_key (gathered (map key_view entries.now)) ≢ None) }
{
    the_last_counts();
    for entry in entries {
        if is_schema(entry) {
            return true;
        }
    }
    false
}

/// Whether such a text counts: under `Ignore` none does.
pub fn has_key(rule: KeyRule, entries: &Option<Vec<KeyValue>>) -> bool
    ensures { IsTrue result ↔ (counting rule (gathered (pairs_view entries.now)) ≢ None) }
{
    match rule {
        KeyRule::Use => match entries {
            Some(entries) => has_schema(entries),
            None => false,
        },
        KeyRule::Ignore => false,
    }
}

fn other_pairs(alloc: Global, entries: &[KeyValue]) -> Result<Vec<KeyValue>>
    ensures ok { IfOk result (λ v. map key_view v.items ≡ filter (λ k. not (are_same k.key schema_key))
        (map key_view entries.now)) }
    ensures err { IfErr result (λ e. e ≡ Memory) }
{
    let mut others = Vec::new(alloc);
    for entry in entries {
        if !is_schema_key(entry.key.as_str()) {
            others.push(entry.clone(alloc)?)?;
        }
    }
    Ok(others)
}

/// The pairs but for the schema's, in their order.
pub fn other_keys(alloc: Global, entries: &Option<Vec<KeyValue>>) -> Result<Option<Vec<KeyValue>>>
    ensures ok { IfOk result (λ o. keys_in o ≡ filter (λ k. not (are_same k.key schema_key)) (pairs_view entries.now)) }
    ensures err { IfErr result (λ e. e ≡ Memory) }
{
    match entries {
        Some(entries) => Ok(Some(other_pairs(alloc, entries)?)),
        None => Ok(None),
    }
}
