//! The innermost part of a state: its offsets, mask and size.
ghost use Rattle.std.specs.Prelude.{◌≡◌, ◌⊎◌, ◌<◌, ◌≤◌, ◌++◌, ◌∷◌, [], pos, length, map, Some, IsTrue, IfOk, IfErr, MatchOption, option_map};
ghost use Rattle.columns_base.specs.declared.error.Error.{Error};
ghost use Rattle.columns_base.specs.declared.error.A.{A};
ghost use Rattle.columns_base.specs.declared.error.V.{V};
ghost use Rattle.columns_slots.specs.Slots.{IsPlaces};
ghost use Rattle.read_laws.specs.State.{kept_list, kept_struct};
ghost use Rattle.read_state.specs.Kinds.{kept_box, starts_of};
ghost use Rattle.read_nested.specs.Made.{innermost, AreOf, HasOffsets, IsNoList, IsNoStruct, IsPopped};

use columns_base::{A, Error, Result, V};
use columns_core::{Bitmap, MutableBitmap, Offset, OffsetsBuffer};
use read_state::{Nested, NestedBox, NestedState};
use std::alloc::Global;

/// Takes the innermost part, if there is one.
pub(crate) fn take_part(nested: &mut NestedState) -> Option<NestedBox>
    ensures part { option_map kept_box result ≡ innermost nested.old }
    ensures taken { IsPopped nested.old nested.new }
{
    nested.pop()
}

/// The mask of these validities, where there are any.
pub(crate) fn mask_of(validity: Option<MutableBitmap>) -> Result<Option<Bitmap>>
    ensures ok { IfOk result (λ m. m ≡ option_map (λ b. b.0) validity) }
    ensures err { IfErr result (λ e. e ≡ Error.Memory) }
{
    match validity {
        None => Ok(None),
        Some(bits) => Ok(Some(bits.into_bitmap()?)),
    }
}

// How many places are made at once, few enough that they are still at hand when they are written.
const BLOCK: usize = 256;

// The offset of a number, and whether it fits.
#[inline(always)]
fn offset_of<O: Offset>(n: usize) -> (O, bool)
    ensures { IsTrue result.1 → O.number result.0 ≡ pos n }
{
    match O::from_usize(n) {
        Some(offset) => (offset, true),
        None => (O::zero(), false),
    }
}

// Writes starts as offsets to the places, and tells whether all fit. No start ends the loop, so that several are written by one instruction.
fn fill_offsets<O: Offset>(places: &mut [O], starts: &[i64]) -> bool
    requires { length places.old ≡ length starts.now }
    ensures { IsTrue result → map O.number places.new ≡ map pos (starts_of starts.now) }
{
    let mut fits = true;
    for i in 0..starts.len() {
        let (offset, here) = offset_of::<O>(starts[i].cast_unsigned() as usize);
        places[i] = offset;
        fits &= here;
    }
    fits
}

// The same where each start has at most 31 bits, and true only there: whether it has is asked of all starts at once.
fn fill_low<O: Offset>(places: &mut [O], starts: &[i64]) -> bool
    requires { length places.old ≡ length starts.now }
    ensures { IsTrue result → map O.number places.new ≡ map pos (starts_of starts.now) }
{
    let mut fits = true;
    let mut all = 0;
    for i in 0..starts.len() {
        let start = starts[i].cast_unsigned() as usize;
        let (offset, here) = offset_of::<O>(start % 0x8000_0000);
        places[i] = offset;
        fits &= here;
        all |= start;
    }
    if all >= 0x8000_0000 {
        return false;
    }
    fits
}

// Appends starts as offsets, and tells whether all fit.
fn append_block<O: Offset>(offsets: &mut Vec<O>, starts: &[i64]) -> Result<bool>
    ensures ok { IfOk result (λ fits. IsTrue fits → map O.number offsets.new.items
        ≡ map O.number offsets.old.items ++ map pos (starts_of starts.now)) }
    ensures err { IfErr result (λ e. e ≡ Error.Memory) }
{
    let before = offsets.len();
    let Some(size) = before.checked_add(starts.len()) else {
        return Err(Error::Memory);
    };
    offsets.resize(size, O::zero())?;
    if fill_low(&mut offsets[before..], starts) {
        return Ok(true);
    }
    Ok(fill_offsets(&mut offsets[before..], starts))
}

// The same block by block.
fn append_blocks<O: Offset>(offsets: &mut Vec<O>, starts: &[i64]) -> Result<bool>
    ensures ok { IfOk result (λ fits. IsTrue fits → map O.number offsets.new.items
        ≡ map O.number offsets.old.items ++ map pos (starts_of starts.now)) }
    ensures err { IfErr result (λ e. e ≡ Error.Memory) }
{
    let mut at = 0;
    while at < starts.len() {
        let end = at + (starts.len() - at).min(BLOCK);
        if !append_block(offsets, &starts[at..end])? {
            return Ok(false);
        }
        at = end;
    }
    Ok(true)
}

// The starts of a list's items as offsets, one by one up to the first that does not fit.
#[inline(never)]
fn offsets_each<O: Offset>(
    alloc: Global,
    starts: &[i64],
    end: usize,
    last: O,
) -> Result<OffsetsBuffer<O>>
    requires last { O.number last ≡ pos end }
    requires fits { end < O.limit }
    ensures ok { IfOk result (λ os. os ≡ starts_of starts.now ++ end ∷ []) }
    ensures err { IfErr result (λ e. (e ≡ Error.Memory) ⊎ ((e ≡ Error.InvalidArgumentError A.A8)
        × ¬ (IsPlaces (starts_of starts.now ++ end ∷ []) end))) }
{
    let mut made: Vec<O> = Vec::with_capacity(alloc, starts.len())?;
    for i in 0..starts.len() {
        let Some(offset) = O::from_usize(starts[i].cast_unsigned() as usize) else {
            return Err(Error::InvalidArgumentError(A::A8));
        };
        made.push(offset)?;
    }
    made.push(last)?;
    OffsetsBuffer::try_from_vec(made)
}

// The starts of a list's items as offsets, with the end of the last. A8 where they fall or pass the end.
fn offsets_of<O: Offset>(
    alloc: Global,
    starts: &[i64],
    end: usize,
    last: O,
) -> Result<OffsetsBuffer<O>>
    requires last { O.number last ≡ pos end }
    requires fits { end < O.limit }
    ensures ok { IfOk result (λ os. os ≡ starts_of starts.now ++ end ∷ []) }
    ensures err { IfErr result (λ e. (e ≡ Error.Memory) ⊎ ((e ≡ Error.InvalidArgumentError A.A8)
        × ¬ (IsPlaces (starts_of starts.now ++ end ∷ []) end))) }
{
    let mut offsets: Vec<O> = Vec::with_capacity(alloc, starts.len().saturating_add(1))?;
    if !append_blocks(&mut offsets, starts)? {
        return offsets_each(alloc, starts, end, last);
    }
    offsets.push(last)?;
    OffsetsBuffer::try_from_vec(offsets)
}

/// The starts and the validities of a list's part.
pub(crate) fn list_inner(part: Option<NestedBox>) -> Option<(Vec<i64>, Option<MutableBitmap>)>
    ensures { MatchOption result (IsNoList (option_map kept_box part)) (λ r. option_map kept_box part
        ≡ Some (kept_list (option_map (λ b. b.0) r.1) (starts_of r.0.items))) }
{
    let mut part = part?;
    if !part.is_repeated() {
        return None;
    }
    Some(part.inner())
}

/// The size and the validities of a struct's part.
pub(crate) fn struct_inner(part: Option<NestedBox>) -> Option<(usize, Option<MutableBitmap>)>
    ensures { MatchOption result (IsNoStruct (option_map kept_box part)) (λ r. option_map kept_box part
        ≡ Some (kept_struct (option_map (λ b. b.0) r.1) r.0)) }
{
    let mut part = part?;
    if !part.is_required() {
        return None;
    }
    let size = part.len();
    let (_, validity) = part.inner();
    Some((size, validity))
}

/// The offsets and the mask of a list's part whose items end there.
///
/// # Errors
///
/// V1 where the end passes the offset type, else A8 where there is no list's part or its starts fall or pass the end; `Memory`.
pub(crate) fn list_parts<O: Offset>(
    alloc: Global,
    part: Option<NestedBox>,
    end: usize,
) -> Result<(OffsetsBuffer<O>, Option<Bitmap>)>
    ensures ok { IfOk result (λ r. (end < O.limit) × AreOf (option_map kept_box part) end r.0 r.1) }
    ensures err { IfErr result (λ e. (e ≡ Error.Memory) ⊎ ((e ≡ Error.Overflow V.V1) × (O.limit ≤ end))
        ⊎ ((e ≡ Error.InvalidArgumentError A.A8) × (end < O.limit) × ¬ (HasOffsets (option_map kept_box part) end))) }
{
    let Some(last) = O::from_usize(end) else {
        return Err(Error::Overflow(V::V1));
    };
    let Some((starts, validity)) = list_inner(part) else {
        return Err(Error::InvalidArgumentError(A::A8));
    };
    let offsets = offsets_of(alloc, &starts, end, last)?;
    let mask = mask_of(validity)?;
    Ok((offsets, mask))
}
