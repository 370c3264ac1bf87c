//! Statistics of a column, and the lists of its metadata that are only looked through.
ghost use Rattle.std.specs.Prelude.{◌≡◌, ◌⊎◌, ℕ, ℤ, List, IfOk, IfErr, OnErr, OnOk, option_map};
ghost use Rattle.std.specs.Option.{option_copied};
ghost use Rattle.columns_base.specs.declared.error.Error.TheVariants.{OutOfSpec, Memory};
ghost use Rattle.columns_base.specs.declared.error.S.TheVariants.{S1};
ghost use Rattle.pq_thrift.specs.Value.{int32, binary, view, values_view, fields_view};
ghost use Rattle.pq_metadata.specs.Footer.{AreAll, HasStatistics, SaysStatistics};
ghost use Rattle.pq_metadata.specs.Ids.{Each, Holds};
ghost use Rattle.pq_tree.specs.Reads.{HasNone, Refuses};
ghost use Rattle.pq_tree.specs.Views.{bytes_view, statistics_view};

use crate::fields::{optional_binary, optional_i64};
use crate::kinds::{as_binary, as_i32, as_list, as_struct};
use crate::misfit::Misfit;
use columns_base::{Error, S};
use pq_thrift::Thrift;
use pq_tree::Statistics;
use std::alloc::Global;

fn check_i32(value: &Thrift) -> Result<(), Misfit>
    ensures found { OnOk result ((x : ℤ) × (view value.now ≡ int32 x)) }
    ensures refused { OnErr result (HasNone (λ x. view value.now ≡ int32 x)) }
{
    match as_i32(value) {
        Some(_) => Ok(()),
        None => Err(Misfit),
    }
}

#[tactic(auto, using(crate::proofs::Eachs::each_none, crate::proofs::Eachs::each_some_next))]
fn check_each_i32(values: &[Thrift]) -> Result<(), Misfit>
    ensures found { OnOk result ((xs : List ℤ) × Each (λ v z. v ≡ int32 z) (values_view values.now) xs) }
    ensures refused { OnErr result (HasNone (Each (λ v z. v ≡ int32 z) (values_view values.now))) }
{
    for value in values {
        check_i32(value)?;
    }
    Ok(())
}

fn check_binary(value: &Thrift) -> Result<(), Misfit>
    ensures found { OnOk result ((x : List ℕ) × (view value.now ≡ binary x)) }
    ensures refused { OnErr result (HasNone (λ x. view value.now ≡ binary x)) }
{
    match as_binary(value) {
        Some(_) => Ok(()),
        None => Err(Misfit),
    }
}

#[tactic(auto, using(crate::proofs::Eachs::each_none, crate::proofs::Eachs::each_some_next))]
fn check_each_binary(values: &[Thrift]) -> Result<(), Misfit>
    ensures found { OnOk result ((xs : List (List ℕ)) × Each (λ v s. v ≡ binary s) (values_view values.now) xs) }
    ensures refused { OnErr result (HasNone (Each (λ v s. v ≡ binary s) (values_view values.now))) }
{
    for value in values {
        check_binary(value)?;
    }
    Ok(())
}

/// Whether the list, if there is one, is of numbers of 32 bits.
pub fn check_numbers(list: Option<&Thrift>) -> Result<(), Misfit>
    ensures found { OnOk result (AreAll int32 (option_map view (option_copied list.entry))) }
    ensures refused { OnErr result (¬ (AreAll int32 (option_map view (option_copied list.entry)))) }
{
    let Some(list) = list else {
        return Ok(());
    };
    match as_list(list) {
        Some(values) => check_each_i32(values),
        None => Err(Misfit),
    }
}

/// Whether the list, if there is one, is of byte strings.
pub fn check_binaries(list: Option<&Thrift>) -> Result<(), Misfit>
    ensures found { OnOk result (AreAll binary (option_map view (option_copied list.entry))) }
    ensures refused { OnErr result (¬ (AreAll binary (option_map view (option_copied list.entry)))) }
{
    let Some(list) = list else {
        return Ok(());
    };
    match as_list(list) {
        Some(values) => check_each_binary(values),
        None => Err(Misfit),
    }
}

fn owned_bytes(alloc: Global, bytes: Option<&[u8]>) -> Result<Option<Vec<u8>>, Error>
    ensures same { IfOk result (λ copy. option_map bytes_view copy ≡ option_copied bytes.entry) }
    ensures refused { IfErr result (λ e. e ≡ Memory) }
{
    match bytes {
        Some(bytes) => Ok(Some(Vec::from_slice(alloc, bytes)?)),
        None => Ok(None),
    }
}

fn statistics_of(alloc: Global, fields: &[(i16, Thrift)]) -> Result<Statistics, Error>
    ensures found { IfOk result (λ s. HasStatistics (fields_view fields.now) (statistics_view s)) }
    ensures refused { IfErr result (Refuses (OutOfSpec S1) (HasStatistics (fields_view fields.now))) }
{
    let _max = optional_binary(fields, 1)?;
    let _min = optional_binary(fields, 2)?;
    let null_count = optional_i64(fields, 3)?;
    let _distinct_count = optional_i64(fields, 4)?;
    let max_value = optional_binary(fields, 5)?;
    let min_value = optional_binary(fields, 6)?;
    Ok(Statistics {
        null_count,
        max_value: owned_bytes(alloc, max_value)?,
        min_value: owned_bytes(alloc, min_value)?,
    })
}

/// The statistics, if there are any. `OutOfSpec(S1)` where the value spells none.
pub fn statistics_from(alloc: Global, value: Option<&Thrift>) -> Result<Option<Statistics>, Error>
    ensures found { IfOk result (λ s. SaysStatistics (option_map view (option_copied value.entry))
        (option_map statistics_view s)) }
    ensures refused { IfErr result (Refuses (OutOfSpec S1)
        (SaysStatistics (option_map view (option_copied value.entry)))) }
{
    let Some(value) = value else {
        return Ok(None);
    };
    match as_struct(value) {
        Some(fields) => Ok(Some(statistics_of(alloc, fields)?)),
        None => Err(Error::OutOfSpec(S::S1)),
    }
}
