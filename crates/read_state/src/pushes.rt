//! Lengths and validities that grow.
ghost use Rattle.std.specs.Prelude.{◌≡◌, ℕ, ◌+◌, ◌<◌, ◌≤◌, ◌^◌, ◌++◌, ◌∷◌, ◌↔◌, IsTrue, IfErr, MatchResult, OnOk, IsOk, [], vec_len, vec_capacity, replicate, length, None};
ghost use Rattle.columns_base.specs.declared.error.Error.{Error};
ghost use Rattle.read_laws.specs.State.{kept_list};
ghost use Rattle.read_laws.specs.Step.{bit, rising};
ghost use Rattle.read_state.specs.Kinds.{start_of, starts_of, item_count, unless_negative};

use columns_base::{Error, Result};
use columns_core::MutableBitmap;

/// A place as a length of 64 bits.
pub fn length_of(place: usize) -> i64
    ensures { start_of result ≡ place }
{
    (place as u64).cast_signed()
}

/// A place more.
///
/// # Errors
///
/// `Memory`.
pub fn push_length(lengths: &mut Vec<i64>, place: usize) -> Result<()>
    ensures ok { OnOk result (starts_of lengths.new.items ≡ starts_of lengths.old.items ++ place ∷ []) }
    ensures err { IfErr result (λ e. e ≡ Error.Memory) }
{
    lengths.push(length_of(place))?;
    Ok(())
}

// As many copies of a place more.
fn push_copies(lengths: &mut Vec<i64>, first: usize, count: usize) -> Result<()>
    ensures ok { OnOk result (starts_of lengths.new.items ≡ starts_of lengths.old.items ++ rising first 0 count) }
    ensures err { IfErr result (λ e. (e ≡ Error.Memory) × (lengths.new.items ≡ lengths.old.items)) }
{
    let Some(size) = lengths.len().checked_add(count) else {
        return Err(Error::Memory);
    };
    lengths.resize(size, length_of(first))?;
    Ok(())
}

// As many places, each above the one before by 1, within room that is there.
fn fill_rising(lengths: &mut Vec<i64>, first: usize, count: usize)
    requires fits { first + count ≤ 2 ^ 64 }
    requires room { vec_len lengths.old + count ≤ vec_capacity lengths.old }
    ensures { starts_of lengths.new.items ≡ starts_of lengths.old.items ++ rising first 1 count }
{
    for i in 0..count {
        lengths.push(length_of(first + i)).unwrap();
    }
}

// The same with memory taken first.
fn push_rising(lengths: &mut Vec<i64>, first: usize, count: usize) -> Result<()>
    requires fits { first + count ≤ 2 ^ 64 }
    ensures ok { OnOk result (starts_of lengths.new.items ≡ starts_of lengths.old.items ++ rising first 1 count) }
    ensures err { IfErr result (λ e. (e ≡ Error.Memory) × (lengths.new.items ≡ lengths.old.items)) }
{
    lengths.reserve(count)?;
    fill_rising(lengths, first, count);
    Ok(())
}

/// As many places more, equal ones, or each above the one before by 1 where they `grow`.
///
/// # Errors
///
/// `Memory`; the lengths are then as before.
pub fn push_places(lengths: &mut Vec<i64>, first: usize, grows: bool, count: usize) -> Result<()>
    requires fits { first + count ≤ 2 ^ 64 }
    ensures ok { OnOk result (starts_of lengths.new.items ≡ starts_of lengths.old.items
        ++ rising first (bit grows) count) }
    ensures err { IfErr result (λ e. (e ≡ Error.Memory) × (lengths.new.items ≡ lengths.old.items)) }
{
    if grows {
        push_rising(lengths, first, count)
    } else {
        push_copies(lengths, first, count)
    }
}

/// As many equal validities more.
///
/// # Errors
///
/// `Memory`; the validities are then as before. Not where there is room.
pub fn push_validities(validity: &mut MutableBitmap, is_valid: bool, count: usize) -> Result<()>
    ensures ok { OnOk result (validity.new.0 ≡ validity.old.0 ++ replicate count is_valid) }
    ensures err { IfErr result (λ e. (e ≡ Error.Memory) × (validity.new.0 ≡ validity.old.0)) }
    ensures reserved { count ≤ validity.old.1 → IsOk result }
{
    if count == 1 {
        validity.push(is_valid)
    } else {
        validity.extend_constant(count, is_valid)
    }
}

/// A number of pushes with so many more.
///
/// # Errors
///
/// `Memory` where no `usize` counts them.
pub fn more(pushes: usize, count: usize) -> Result<usize>
    ensures { MatchResult result (λ n. n ≡ pushes + count) (λ e. e ≡ Error.Memory) }
{
    match pushes.checked_add(count) {
        Some(sum) => Ok(sum),
        None => Err(Error::Memory),
    }
}

/// The last length, 0 where there is none or it is negative.
pub fn last_length(lengths: &[i64]) -> usize
    ensures { result ≡ item_count (kept_list None (starts_of lengths.now)) }
{
    if lengths.len() == 0 {
        return 0;
    }
    unsigned_or_none(lengths[lengths.len() - 1].cast_unsigned())
}

// 0 in the place of a number with a sign bit.
fn unsigned_or_none(length: u64) -> usize
    ensures { result ≡ unless_negative length }
{
    if length < 0x8000_0000_0000_0000 {
        length as usize
    } else {
        0
    }
}
