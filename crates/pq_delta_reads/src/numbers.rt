//! Sections of numbers, spelled plain.

ghost use Rattle.std.specs.Prelude.{◌≡◌, ◌⊎◌, ◌++◌, ◌<◌, ◌≤◌, ◌+◌, ◌*◌, ℕ, List, take, OnOk, OnErr, IfErr};
ghost use Rattle.std.specs.Int.{w32, w64};
ghost use Rattle.shredding.specs.Slot.{number};
ghost use Rattle.columns_base.specs.declared.error.Error.TheVariants.{Memory};
ghost use Rattle.pq_tree.specs.Physical.{int32, int64};
ghost use Rattle.pq_files.specs.Delta.{AreDeltas};
ghost use Rattle.pq_files.specs.Plain.{IsOne, InARow};
ghost use Rattle.pq_runs.specs.Delta.{wrapped};
ghost use Rattle.pq_runs.specs.Hybrid.{fault};
ghost use Rattle.pq_runs.specs.Writing.{Extends};
ghost use Rattle.pq_delta_reads.specs.Blocks.{values_of};
ghost use Rattle.pq_delta_reads.specs.Sections.{TurnsPlain, SpellsNone};

use crate::decoder::Decoder;
use columns_base::{Error, Result, S};
use std::alloc::AllocError;

// The low 32 bits of a number, lowest byte first.
#[inline(always)]
fn low_bytes(value: i64) -> [u8; 4]
    ensures { IsOne int32 result (number (wrapped w32 value)) }
{
    ((value.cast_unsigned() % (1 << 32)) as u32).to_le_bytes()
}

// Bytes take their places, and those before them stay.
#[inline(always)]
fn put_four(places: &mut [u8; 128], at: usize, bytes: [u8; 4])
    requires { at + 4 ≤ 128 }
    ensures { take (at + 4) places.new ≡ take at places.old ++ bytes }
{
    places[at..at + 4].copy_from_slice(&bytes);
}

// Puts the first numbers, one behind the other.
#[inline(always)]
fn put_low(places: &mut [u8; 128], numbers: &[u64; 32], count: usize)
    requires { count ≤ 32 }
    ensures { InARow int32 (take (4 * count) places.new) (values_of w32 (take count numbers.now)) }
{
    for i in 0..count {
        put_four(places, 4 * i, low_bytes(numbers[i].cast_signed()));
    }
}

// Appends the first numbers, of 32 bits each.
fn push_low(
    out: &mut Vec<u8>,
    places: &mut [u8; 128],
    numbers: &[u64; 32],
    count: usize,
) -> std::result::Result<(), AllocError>
    requires { count ≤ 32 }
    ensures ok { OnOk result ((text : List ℕ) × (out.new.items ≡ out.old.items ++ text)
        × InARow int32 text (values_of w32 (take count numbers.now))) }
    ensures err { OnErr result (out.new.items ≡ out.old.items) }
{
    if count == 32 {
        put_low(places, numbers, 32);
    } else {
        put_low(places, numbers, count);
    }
    out.extend_from_slice(&places[..4 * count])
}

// A number of 64 bits, lowest byte first.
#[inline(always)]
fn whole_bytes(value: i64) -> [u8; 8]
    ensures { IsOne int64 result (number (wrapped w64 value)) }
{
    value.to_le_bytes()
}

// Bytes take their places, and those before them stay.
#[inline(always)]
fn put_eight(places: &mut [u8; 256], at: usize, bytes: [u8; 8])
    requires { at + 8 ≤ 256 }
    ensures { take (at + 8) places.new ≡ take at places.old ++ bytes }
{
    places[at..at + 8].copy_from_slice(&bytes);
}

// Puts the first numbers, one behind the other.
#[inline(always)]
fn put_whole(places: &mut [u8; 256], numbers: &[u64; 32], count: usize)
    requires { count ≤ 32 }
    ensures { InARow int64 (take (8 * count) places.new) (values_of w64 (take count numbers.now)) }
{
    for i in 0..count {
        put_eight(places, 8 * i, whole_bytes(numbers[i].cast_signed()));
    }
}

// Appends the first numbers, of 64 bits each.
fn push_whole(
    out: &mut Vec<u8>,
    places: &mut [u8; 256],
    numbers: &[u64; 32],
    count: usize,
) -> std::result::Result<(), AllocError>
    requires { count ≤ 32 }
    ensures ok { OnOk result ((text : List ℕ) × (out.new.items ≡ out.old.items ++ text)
        × InARow int64 text (values_of w64 (take count numbers.now))) }
    ensures err { OnErr result (out.new.items ≡ out.old.items) }
{
    if count == 32 {
        put_whole(places, numbers, 32);
    } else {
        put_whole(places, numbers, count);
    }
    out.extend_from_slice(&places[..8 * count])
}

/// Makes room for so many bytes, if there is memory, but for no more than 256 for each byte that stands there.
pub fn expect_room(out: &mut Vec<u8>, size: usize, there: usize)
    ensures { out.new.items ≡ out.old.items }
{
    let _room = out.reserve(size.min(there.saturating_mul(256)));
}

/// Appends the plain spelling of the INT32 values with which a section of deltas begins: four bytes each, lowest first (Parquet format, Encodings,
/// "Delta Encoding" and "Plain"). The last miniblock may be cut behind its last needed byte, and what follows is not looked at.
///
/// # Errors
///
/// S6 exactly where the section begins with no list of `count` values, or want of memory. `out` has what it had in front.
pub fn push_plain_i32(section: &[u8], count: usize, out: &mut Vec<u8>) -> Result<()>
    ensures ok { OnOk result (TurnsPlain (AreDeltas w32) int32 count section.now out.old.items out.new.items) }
    ensures err { IfErr result (λ e. (e ≡ Memory) ⊎ ((e ≡ fault) × SpellsNone (AreDeltas w32) count section.now)) }
    ensures kept { Extends out.old.items out.new.items }
{
    let mut decoder = Decoder::try_new(section)?;
    if decoder.len() != count {
        return Err(Error::OutOfSpec(S::S6));
    }
    expect_room(out, count.saturating_mul(4), section.len());
    let mut numbers = [0; 32];
    let mut places = [0; 128];
    while let Some(item) = decoder.next_block(&mut numbers) {
        match item {
            Ok(count) => push_low(out, &mut places, &numbers, count)?,
            Err(error) => return Err(error),
        }
    }
    Ok(())
}

/// Appends the plain spelling of the INT64 values with which a section of deltas begins: eight bytes each, lowest first (Parquet format, Encodings,
/// "Delta Encoding" and "Plain"). The last miniblock may be cut behind its last needed byte, and what follows is not looked at.
///
/// # Errors
///
/// S6 exactly where the section begins with no list of `count` values, or want of memory. `out` has what it had in front.
pub fn push_plain_i64(section: &[u8], count: usize, out: &mut Vec<u8>) -> Result<()>
    ensures ok { OnOk result (TurnsPlain (AreDeltas w64) int64 count section.now out.old.items out.new.items) }
    ensures err { IfErr result (λ e. (e ≡ Memory) ⊎ ((e ≡ fault) × SpellsNone (AreDeltas w64) count section.now)) }
    ensures kept { Extends out.old.items out.new.items }
{
    let mut decoder = Decoder::try_new(section)?;
    if decoder.len() != count {
        return Err(Error::OutOfSpec(S::S6));
    }
    expect_room(out, count.saturating_mul(8), section.len());
    let mut numbers = [0; 32];
    let mut places = [0; 256];
    while let Some(item) = decoder.next_block(&mut numbers) {
        match item {
            Ok(count) => push_whole(out, &mut places, &numbers, count)?,
            Err(error) => return Err(error),
        }
    }
    Ok(())
}
