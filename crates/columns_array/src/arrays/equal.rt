//! Equality of arrays: whether types and slots are the same.
//!
//! Slots are compared place by place. What lies beneath a null is not looked at, a key is compared by the entry that it numbers, and a
//! list by its items, so that arrays with other keys, entries or offsets are equal where they stand for the same. No memory is taken.
ghost use Rattle.std.specs.Prelude.{◌≡◌, ◌↔◌, ℕ, ◌+◌, ◌<◌, ◌≤◌, IsTrue};
ghost use Rattle.shredding.specs.Slot.{null, value, bytes};
ghost use Rattle.shredding.specs.Parts.{slots_from};
ghost use Rattle.columns_slots.specs.Slots.{slot_at, slots_at, slots, tree_len, type_of, AreLong};
ghost use Rattle.columns_array.specs.Boxed.{boxed, all_boxed};
ghost use Rattle.columns_array.specs.Cells.{cell_slot, HasPlaces};

use super::ArrayBox;
use super::cells::Cell;
use columns_core::is_same_type;

fn is_same_bytes(a: &[u8], b: &[u8]) -> bool
    ensures { IsTrue result ↔ a.now ≡ b.now }
{
    a == b
}

/// Whether a cell holds a byte string.
fn is_string(cell: &Cell<'_>, text: &[u8]) -> bool
    ensures { IsTrue result ↔ cell_slot cell.now ≡ value (bytes text.now) }
{
    match cell {
        Cell::Bytes(found) => is_same_bytes(found, text),
        Cell::Interval(found) => is_same_bytes(found, text),
        _ => false,
    }
}

/// Whether two cells stand for the same slot.
#[cycle(same)]
#[tactic(auto, using(crate::proofs::Same::items_told, crate::proofs::Same::items_count, crate::proofs::Same::fields_told))]
fn is_same_cell(a: &Cell<'_>, b: &Cell<'_>) -> bool
    requires left { HasPlaces a.now }
    requires right { HasPlaces b.now }
    ensures { IsTrue result ↔ cell_slot a.now ≡ cell_slot b.now }
{
    match a {
        Cell::Null => matches!(b, Cell::Null),
        Cell::Truth(x) => match b {
            Cell::Truth(y) => x == y,
            _ => false,
        },
        Cell::Number(x) => match b {
            Cell::Number(y) => x == y,
            _ => false,
        },
        Cell::Bytes(x) => is_string(b, x),
        Cell::Interval(x) => is_string(b, x),
        Cell::Items(x, first, count) => match b {
            Cell::Items(y, other_first, other_count) => {
                count == other_count && is_same_run(x, *first, y, *other_first, *count)
            }
            _ => false,
        },
        Cell::Fields(xs, i) => match b {
            Cell::Fields(ys, j) => are_same_fields(xs, *i, ys, *j),
            _ => false,
        },
    }
}

/// Whether the slots at two places are the same.
#[cycle(same)]
fn is_same_slot(a: &ArrayBox, i: usize, b: &ArrayBox, j: usize) -> bool
    requires left { i < tree_len (boxed a.now) }
    requires right { j < tree_len (boxed b.now) }
    ensures { IsTrue result ↔ slot_at (boxed a.now) i ≡ slot_at (boxed b.now) j }
{
    let x = a.cell(i);
    let y = b.cell(j);
    is_same_cell(&x, &y)
}

/// Whether it is an array of nulls alone.
fn is_all_null(a: &ArrayBox) -> bool
    ensures { IsTrue result → (i : ℕ) → slot_at (boxed a.now) i ≡ null }
{
    matches!(a, ArrayBox::Null(_))
}

/// Whether two runs of as many slots are the same.
#[cycle(same)]
#[tactic(auto, using(crate::proofs::Same::run_more, crate::proofs::Same::runs_of_nulls))]
fn is_same_run(a: &ArrayBox, a_from: usize, b: &ArrayBox, b_from: usize, count: usize) -> bool
    requires left { a_from + count ≤ tree_len (boxed a.now) }
    requires right { b_from + count ≤ tree_len (boxed b.now) }
    ensures { IsTrue result ↔ slots_from (slot_at (boxed a.now)) a_from count
        ≡ slots_from (slot_at (boxed b.now)) b_from count }
{
    if is_all_null(a) && is_all_null(b) {
        return true;
    }
    // places are within a `usize`
    let _lengths = (a.len(), b.len());
    for k in 0..count {
        if !is_same_slot(a, a_from + k, b, b_from + k) {
            return false;
        }
    }
    true
}

/// Whether two structs have the same fields, each at its place.
#[cycle(same)]
#[tactic(auto, using(crate::proofs::Same::fields_more, crate::proofs::Same::none_yet, crate::proofs::Same::field_same, crate::proofs::Same::fields_agree, crate::proofs::Same::fields_count, crate::proofs::Boxes::long_at, crate::proofs::Boxes::size_at))]
fn are_same_fields(a: &[ArrayBox], i: usize, b: &[ArrayBox], j: usize) -> bool
    requires left { AreLong (i + 1) (all_boxed a.now) }
    requires right { AreLong (j + 1) (all_boxed b.now) }
    ensures { IsTrue result ↔ slots_at (all_boxed a.now) i ≡ slots_at (all_boxed b.now) j }
{
    if a.len() != b.len() {
        return false;
    }
    for k in 0..a.len() {
        if !is_same_slot(&a[k], i, &b[k], j) {
            return false;
        }
    }
    true
}

impl ArrayBox {
    /// Whether both are of the same type and stand for the same slots. It takes no memory. What lies beneath a null is not looked at, a
    /// null entry of a dictionary is a null slot, and neither keys nor offsets count beside what they stand for.
    #[tactic(auto, using(crate::proofs::Same::slots_same))]
    pub fn equal(&self, other: &ArrayBox) -> bool
        ensures { IsTrue result ↔ (type_of (boxed self.now) ≡ type_of (boxed other.now))
            × (slots (boxed self.now) ≡ slots (boxed other.now)) }
    {
        let count = self.len();
        is_same_type(self.data_type(), other.data_type())
            && count == other.len()
            && is_same_run(self, 0, other, 0, count)
    }
}
