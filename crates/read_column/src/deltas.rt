//! Pages of deltas.
ghost use Rattle.std.specs.Prelude.{◌≡◌, ◌⊎◌, ◌+◌, ◌<◌, ◌≤◌, ◌^◌, [], IfErr, IfOk, MatchOption, MatchResult, cond, length, nat_eq, replicate};
ghost use Rattle.columns_base.specs.declared.error.Error.TheVariants.{Memory, OutOfSpec};
ghost use Rattle.columns_base.specs.declared.error.S.TheVariants.{S4, S6};
ghost use Rattle.pq_tree.specs.Views.{physical_view};
ghost use Rattle.read_column.specs.Deltas.{AreTurned, HasFault, SpellNone, deltas_in, levels_at, present_in};

use columns_base::{Error, PhysicalType, Result, S};
use pq_delta_reads::{push_plain_i32, push_plain_i64, push_plain_strings};
use read_walk::{NestedPage, PairBlock};
use std::alloc::Global;

/// As which values the deltas of a column's pages are read: those of a flat column whose physical type has a delta encoding.
#[derive(Clone, Copy, Debug, PartialEq, Eq)]
pub enum Deltas {
    Unread,
    Int32,
    Int64,
    /// Byte strings, by their lengths.
    Strings,
}

/// Those of a column of this physical type, flat or not.
pub fn deltas_of(physical_type: PhysicalType, is_flat: bool) -> Deltas
    ensures { result ≡ deltas_in is_flat (physical_view physical_type) }
{
    if !is_flat {
        return Deltas::Unread;
    }
    match physical_type {
        PhysicalType::Int32 => Deltas::Int32,
        PhysicalType::Int64 => Deltas::Int64,
        PhysicalType::ByteArray => Deltas::Strings,
        _ => Deltas::Unread,
    }
}

// One where a level is this one, and else none.
#[inline(always)]
fn count_one(found: u32, level: u32) -> u32
    ensures is { result ≡ cond (nat_eq found level) 1 0 }
    ensures most { result ≤ 1 }
{
    if found == level { 1 } else { 0 }
}

// How many of the levels are this one.
fn count_equal(levels: &[u32], level: u32) -> u32
    requires { length levels.now ≤ 64 }
    ensures { result ≡ levels_at level levels.now }
{
    let mut count = 0;
    for i in 0..levels.len() {
        count += count_one(levels[i], level);
    }
    count
}

// The same, of a level that may have more bits than they have.
fn count_level(levels: &[u32], level: usize) -> usize
    requires { length levels.now ≤ 64 }
    ensures { result ≡ levels_at level levels.now }
{
    if level > u32::MAX as usize {
        return 0;
    }
    count_equal(levels, level as u32) as usize
}

// How many of so many copies of a level are this one.
fn count_copies(copies: usize, copied: usize, level: usize) -> usize
    ensures { result ≡ levels_at level (replicate copies copied) }
{
    if copied == level { copies } else { 0 }
}

// Takes the next pairs, and gives how many of them are at this definition level.
fn count_next(
    pairs: &mut NestedPage<'_>,
    block: &mut PairBlock,
    level: usize,
) -> Option<Result<usize>>
    ensures { MatchOption result (pairs.old ≡ [])
        (λ r. MatchResult r (λ n. (n + present_in level pairs.new ≡ present_in level pairs.old)
        × (HasFault pairs.new → HasFault pairs.old) × (length pairs.new < length pairs.old)) (λ e. (e ≡ OutOfSpec S4)
        × HasFault pairs.old)) }
{
    if let Some((_, copied, copies)) = pairs.next_copies(usize::MAX) {
        return Some(Ok(count_copies(copies, copied, level)));
    }
    match pairs.next_block(usize::MAX, block) {
        None => None,
        Some(Ok(_)) => Some(Ok(count_level(block.defs(), level))),
        Some(Err(error)) => Some(Err(error)),
    }
}

/// How many pairs are at the greatest definition level.
///
/// # Errors
///
/// S4 where a pair cannot be read.
pub fn count_present(pairs: NestedPage<'_>, max_definition: usize) -> Result<usize>
    requires { present_in max_definition pairs < 2 ^ 64 }
    ensures ok { IfOk result (λ n. n ≡ present_in max_definition pairs.entry) }
    ensures err { IfErr result (λ e. (e ≡ OutOfSpec S4) × HasFault pairs.entry) }
{
    let mut pairs = pairs;
    let mut block = PairBlock::new();
    let mut count = 0;
    'runs: while let Some(next) = count_next(&mut pairs, &mut block, max_definition) {
        match next {
            Ok(some) => count += some,
            Err(error) => return Err(error),
        }
    }
    Ok(count)
}

/// The values of a section of deltas, as plain bytes (Parquet format, Encodings, "Delta Encoding", "Delta-length byte array" and "Plain").
///
/// # Errors
///
/// S6 where the section does not begin with so many values; `Memory`.
pub fn plain_deltas(alloc: Global, deltas: Deltas, section: &[u8], count: usize) -> Result<Vec<u8>>
    ensures ok { IfOk result (λ values. AreTurned deltas count section.now values.items) }
    ensures err { IfErr result (λ e. (e ≡ Memory) ⊎ ((e ≡ OutOfSpec S6) × SpellNone deltas count section.now)) }
{
    let mut values = Vec::new(alloc);
    let turned = match deltas {
        Deltas::Unread => Err(Error::OutOfSpec(S::S6)),
        Deltas::Int32 => push_plain_i32(section, count, &mut values),
        Deltas::Int64 => push_plain_i64(section, count, &mut values),
        Deltas::Strings => push_plain_strings(section, count, &mut values),
    };
    match turned {
        Ok(()) => Ok(values),
        Err(error) => Err(error),
    }
}
