//! The walk to the nulls that are reached.
ghost use Rattle.std.specs.Prelude.{◌≡◌, ◌↔◌, ◌+◌, ◌<◌, ◌≤◌, Some, IsTrue};
ghost use Rattle.columns_array.specs.Boxed.{all_boxed, boxed};
ghost use Rattle.columns_core.specs.View.{fields_view};
ghost use Rattle.columns_slots.specs.Slots.{AreLong, AreTyped, mask_of, tree_len};
ghost use Rattle.typed_rows.specs.Own.{AreKept, AreOwn, AreRows};

use crate::entries::entry;
use crate::inner::{Inner, inner_of};
use columns_array::{ArrayBox, DictionaryArray};
use columns_core::{Bitmap, Field};

/// Whether so many slots of an array from a position on are slots of a field of its type that may be null or not: each null that is reached
/// stands where it may. What lies beneath a null is not looked at.
#[cycle(own)]
pub fn are_own(array: &ArrayBox, is_nullable: bool, from: usize, count: usize) -> bool
    requires { from + count ≤ tree_len (boxed array.now) }
    ensures { IsTrue result ↔ AreOwn is_nullable (boxed array.now) from count }
{
    match array.validity() {
        None => kept_are_own(array, is_nullable, from, count),
        Some(mask) => masked_are_own(array, mask, is_nullable, from, count),
    }
}

// The same of an array with a mask, run by run of what it keeps.
#[cycle(own)]
fn masked_are_own(
    array: &ArrayBox,
    mask: &Bitmap,
    is_nullable: bool,
    from: usize,
    count: usize,
) -> bool
    requires mask { mask_of (boxed array.now) ≡ Some mask.now }
    requires within { from + count ≤ tree_len (boxed array.now) }
    ensures { IsTrue result ↔ AreOwn is_nullable (boxed array.now) from count }
{
    array.know();
    let _length = array.len();
    let end = from + count;
    let mut at = from;
    while at < end {
        let kept = mask.run_end(at, end, false);
        if kept > at && !is_nullable {
            return false;
        }
        let next = mask.run_end(kept, end, true);
        if !kept_are_own(array, is_nullable, kept, next - kept) {
            return false;
        }
        at = next;
    }
    true
}

// The same of positions that the array's own mask keeps.
#[cycle(own)]
fn kept_are_own(array: &ArrayBox, is_nullable: bool, from: usize, count: usize) -> bool
    requires within { from + count ≤ tree_len (boxed array.now) }
    requires kept { AreKept (boxed array.now) from count }
    ensures { IsTrue result ↔ AreOwn is_nullable (boxed array.now) from count }
{
    match inner_of(array, from, count) {
        Inner::Nulls => is_nullable || count == 0,
        Inner::Values => true,
        Inner::Items(values, nullable, first, size) => are_own(values, nullable, first, size),
        Inner::Fields(fields, arrays) => fields_are_own(fields, arrays, from, count),
        Inner::Entries(keyed) => entries_are_own(keyed, is_nullable, from, count),
    }
}

// Whether the entries that keys number are slots of such a field.
#[cycle(own)]
fn entries_are_own(keyed: &DictionaryArray, is_nullable: bool, from: usize, count: usize) -> bool
    requires within { from + count ≤ tree_len keyed.now }
    requires kept { AreKept keyed.now from count }
    ensures { IsTrue result ↔ AreOwn is_nullable keyed.now from count }
{
    keyed.know();
    let _length = keyed.len();
    for i in from..from + count {
        if !are_own(keyed.values(), is_nullable, entry(keyed.keys(), i), 1) {
            return false;
        }
    }
    true
}

/// Whether so many rows of arrays from a place on are rows of fields of their types: each null that is reached stands where its field
/// may be null.
#[cycle(own)]
pub fn fields_are_own(fields: &[Field], arrays: &[ArrayBox], from: usize, count: usize) -> bool
    requires typed { AreTyped (fields_view fields.now) (all_boxed arrays.now) }
    requires within { AreLong (from + count) (all_boxed arrays.now) }
    ensures { IsTrue result ↔ AreRows (fields_view fields.now) (all_boxed arrays.now) from count }
{
    'fields: for k in 0..arrays.len() {
        if !are_own(&arrays[k], fields[k].is_nullable, from, count) {
            return false;
        }
    }
    true
}
