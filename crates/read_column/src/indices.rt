//! Indices of a dictionary's entries.
ghost use Rattle.std.specs.Prelude.{◌≡◌, ◌*◌, ◌/◌, ◌<◌, ◌≤◌, ◌∷◌, IfErr, IfOk, IsTrue, length, min, replicate};
ghost use Rattle.columns_base.specs.declared.error.Error.TheVariants.{Memory};
ghost use Rattle.pq_runs.specs.Hybrid.{given, hybrid};
ghost use Rattle.pq_runs.specs.Taking.{IsPackedRun, IsRepeatedRun};
ghost use Rattle.read_column.specs.Dictionary.{IsLaid, indices_in};
ghost use Rattle.read_column.specs.Lookups.{LaysRun};

use crate::entries::Entries;
use crate::lookup::{push_copies, push_packed};
use columns_base::Result;
use pq_runs::hybrid_rle::{Decoder, Run};
use pq_runs::whole_number;
use std::alloc::Global;

// The bytes of runs that are left, and how many numbers are called for.
#[derive(Drop)]
struct Runs<'a> {
    bytes: &'a [u8],
    left: usize,
}

// How many packed numbers stand in the bytes, of those that are called for.
fn standing(body: &[u8], width: u32, left: usize) -> usize
    requires { 0 < width }
    ensures { result ≡ min left (8 * length body.now / width) }
{
    let all = 8 * body.len() as u128 / u128::from(width);
    if all < left as u128 {
        all as usize
    } else {
        left
    }
}

// Appends the entries at the copies of an index that are called for. Gives whether there are such.
fn take_copies<'a>(
    values: &mut Vec<u8>,
    entries: &Entries,
    runs: &mut Runs<'a>,
    width: u32,
    value: &[u8],
    count: usize,
    rest: &'a [u8],
) -> Result<bool>
    requires some { 0 < runs.old.left }
    requires fits { width ≤ 32 }
    requires run { IsRepeatedRun width runs.old.bytes.now value.now count rest.now }
    ensures ok { IfOk result
        (λ all. LaysRun entries.now all width runs.old.left runs.old.bytes.now runs.new.left runs.new.bytes.now
        values.old.items values.new.items) }
    ensures rest { runs.new.bytes.now ≡ rest.now }
    ensures err { IfErr result (λ e. e ≡ Memory) }
{
    let count = count.min(runs.left);
    runs.bytes = rest;
    runs.left -= count;
    push_copies(values, entries, whole_number(value), count)
}

// Appends the entries at the packed indices that are called for, up to the first that is past the entries. Gives whether all were appended.
fn take_packed<'a>(
    values: &mut Vec<u8>,
    entries: &Entries,
    runs: &mut Runs<'a>,
    width: u32,
    body: &[u8],
    rest: &'a [u8],
) -> Result<bool>
    requires some { 0 < runs.old.left }
    requires wide { 0 < width }
    requires fits { width ≤ 32 }
    requires run { IsPackedRun width runs.old.bytes.now body.now rest.now }
    ensures ok { IfOk result
        (λ all. LaysRun entries.now all width runs.old.left runs.old.bytes.now runs.new.left runs.new.bytes.now
        values.old.items values.new.items) }
    ensures rest { runs.new.bytes.now ≡ rest.now }
    ensures err { IfErr result (λ e. e ≡ Memory) }
{
    let count = standing(body, width, runs.left);
    runs.bytes = rest;
    runs.left -= count;
    push_packed(values, entries, body, width, count)
}

// Appends the entries at the indices of the run at the front that are called for. Gives whether there is a run, and all of these are indices of entries.
fn take_run(
    values: &mut Vec<u8>,
    entries: &Entries,
    runs: &mut Runs<'_>,
    width: u32,
) -> Result<bool>
    requires some { 0 < runs.old.left }
    requires wide { 0 < width }
    requires fits { width ≤ 32 }
    ensures ok { IfOk result
        (λ all. LaysRun entries.now all width runs.old.left runs.old.bytes.now runs.new.left runs.new.bytes.now
        values.old.items values.new.items) }
    ensures shorter { IfOk result (λ all. IsTrue all → length runs.new.bytes.now < length runs.old.bytes.now) }
    ensures err { IfErr result (λ e. e ≡ Memory) }
{
    let mut decoder = Decoder::new(runs.bytes, width);
    match decoder.next() {
        Some(Ok(Run::Repeated(value, count))) => {
            take_copies(values, entries, runs, width, value, count, decoder.values)
        }
        Some(Ok(Run::Packed(body))) => {
            take_packed(values, entries, runs, width, body, decoder.values)
        }
        Some(Err(_)) => Ok(false),
        None => Ok(false),
    }
}

// The entries at the indices of some runs, one behind the other.
fn laid_runs(
    alloc: Global,
    entries: &Entries,
    bytes: &[u8],
    width: u32,
    count: usize,
) -> Result<Vec<u8>>
    requires wide { 0 < width }
    requires fits { width ≤ 32 }
    ensures ok { IfOk result (λ values. IsLaid entries.now (hybrid width count bytes.now) values.items) }
    ensures err { IfErr result (λ e. e ≡ Memory) }
{
    let mut values = Vec::new(alloc);
    entries.expect_room(&mut values, count, bytes.len());
    let mut runs = Runs { bytes, left: count };
    'runs: while runs.left > 0 {
        let all = take_run(&mut values, entries, &mut runs, width)?;
        if !all {
            return Ok(values);
        }
    }
    Ok(values)
}

// So many copies of the first entry, if there is one.
fn laid_copies(alloc: Global, entries: &Entries, count: usize) -> Result<Vec<u8>>
    ensures ok { IfOk result (λ values. IsLaid entries.now (given (replicate count 0)) values.items) }
    ensures err { IfErr result (λ e. e ≡ Memory) }
{
    let mut values = Vec::new(alloc);
    push_copies(&mut values, entries, 0, count)?;
    Ok(values)
}

// The entries at so many indices of this width, as far as they can be read and are those of entries.
fn laid_indices(
    alloc: Global,
    entries: &Entries,
    width: u8,
    runs: &[u8],
    count: usize,
) -> Result<Vec<u8>>
    ensures ok { IfOk result (λ values. IsLaid entries.now (indices_in count (width ∷ runs.now)) values.items) }
    ensures err { IfErr result (λ e. e ≡ Memory) }
{
    if width > 32 {
        return Ok(Vec::new(alloc));
    }
    if width == 0 {
        return laid_copies(alloc, entries, count);
    }
    laid_runs(alloc, entries, runs, u32::from(width), count)
}

/// The entries at the indices of a section, one behind the other: of as many as the page has values, as far as the indices can be read and are
/// those of entries (Parquet format, Encodings, "Dictionary Encoding").
///
/// # Errors
///
/// `Memory`.
pub fn plain_values(
    alloc: Global,
    entries: &Entries,
    section: &[u8],
    count: usize,
) -> Result<Vec<u8>>
    ensures ok { IfOk result (λ values. IsLaid entries.now (indices_in count section.now) values.items) }
    ensures err { IfErr result (λ e. e ≡ Memory) }
{
    match section {
        [] => Ok(Vec::new(alloc)),
        [width, runs @ ..] => laid_indices(alloc, entries, *width, runs, count),
    }
}
