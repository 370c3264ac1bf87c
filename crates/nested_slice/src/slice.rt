//! Cuts of paths and of their leaf arrays.
ghost use Rattle.std.specs.Prelude.{◌≡◌, ◌+◌, ◌-◌, ◌≤◌, [], ◌∷◌, length, map, take, drop};
ghost use Rattle.shredding.specs.Parts.{list_part, IsPath, MaskFits, slot_count, path_slots, path_way};
ghost use Rattle.columns_core.specs.Rising.{IsRising};
ghost use Rattle.columns_slots.specs.Slots.{slot_at, tree_len, cut, cut_mask};
ghost use Rattle.columns_array.specs.Boxed.{boxed};
ghost use Rattle.levels.specs.Nested.{part_of, parts_of, is_large};
ghost use Rattle.levels.specs.InBounds.{AreWithin, IsInBounds, bounded_slots};
ghost use Rattle.levels.specs.Ranges.{leaf_count_or};
ghost use Rattle.nested_slice.specs.CutPath.{cut_part, first_beneath, count_beneath, cut_parts, leaf_rows, part_mask, Rises, AreRising};
ghost use Rattle.nested_slice.specs.Laws.{IsReadAsCut};

use columns_array::ArrayBox;
use columns_core::{Bitmap, Offset};
use columns_leaf::validity::cut_validity;
use levels::{ListNested, Nested};

// Some rows of a part: the first and their number.
#[derive(Clone, Copy)]
struct Rows {
    first: usize,
    count: usize,
}

// Cuts lists to these rows, and gives the rows of the next part that their items are.
fn slice_list<O: Offset>(list: &mut ListNested<O>, rows: Rows) -> Rows
    requires mask { MaskFits list.old.validity (length list.old.offsets - 1) }
    requires within { rows.first + rows.count ≤ length list.old.offsets - 1 }
    ensures cut { list_part list.new.is_optional list.new.validity list.new.offsets
        ≡ cut_part (list_part list.old.is_optional list.old.validity list.old.offsets) rows.first rows.count }
    ensures first { result.first ≡ first_beneath
        (list_part list.old.is_optional list.old.validity list.old.offsets) rows.first }
    ensures count { result.count ≡ count_beneath
        (list_part list.old.is_optional list.old.validity list.old.offsets) rows.first rows.count }
    ensures rises { IsRising list.old.offsets }
{
    list.offsets.know();
    cut_validity(&mut list.validity, rows.first, rows.count);
    list.offsets.slice_ranges(rows.first, rows.count);
    let first = list.offsets.place(0);
    Rows {
        first,
        count: list.offsets.place(rows.count) - first,
    }
}

// Cuts a part that is no list to these rows, which are those of the next part too.
fn slice_flat(mask: &mut Option<Bitmap>, len: &mut usize, rows: Rows) -> Rows
    requires mask { MaskFits mask.old len.old }
    requires within { rows.first + rows.count ≤ len.old }
    ensures mask { mask.new ≡ cut_mask mask.old rows.first rows.count }
    ensures len { len.new ≡ rows.count }
    ensures same { result ≡ rows }
{
    cut_validity(mask, rows.first, rows.count);
    *len = rows.count;
    rows
}

// Cuts a part to these rows, and gives the rows of the next part that they reach.
fn slice_part(part: &mut Nested, rows: Rows) -> Rows
    requires mask { MaskFits (part_mask (part_of part.old)) (slot_count (part_of part.old ∷ [])) }
    requires within { rows.first + rows.count ≤ slot_count (part_of part.old ∷ []) }
    ensures cut { part_of part.new ≡ cut_part (part_of part.old) rows.first rows.count }
    ensures kind { is_large part.new ≡ is_large part.old }
    ensures first { result.first ≡ first_beneath (part_of part.old) rows.first }
    ensures count { result.count ≡ count_beneath (part_of part.old) rows.first rows.count }
    ensures rises { Rises (part_of part.old) }
{
    match part {
        Nested::Primitive(mask, _, len) => slice_flat(mask, len, rows),
        Nested::List(list) => slice_list(list, rows),
        Nested::LargeList(list) => slice_list(list, rows),
        Nested::Struct(mask, _, len) => slice_flat(mask, len, rows),
    }
}

// Cuts all parts of a path to these rows, and gives the positions of the leaf that they reach.
fn slice_parts(nested: &mut [Nested], rows: Rows) -> Rows
    requires within { AreWithin (parts_of nested.old) }
    requires rows { rows.first + rows.count ≤ slot_count (parts_of nested.old) }
    ensures parts { parts_of nested.new ≡ cut_parts (parts_of nested.old) rows.first rows.count }
    ensures kinds { map is_large nested.new ≡ map is_large nested.old }
    ensures leaf { (result.first, result.count) ≡ leaf_rows (parts_of nested.old) rows.first rows.count }
    ensures rises { AreRising (parts_of nested.old) }
{
    let mut rows = rows;
    for part in nested.iter_mut() {
        rows = slice_part(part, rows);
    }
    rows
}

/// Cuts a path in bounds and its leaf array to `current_length` rows from the row `current_offset` on. Lengths, masks and leaf values then
/// describe exactly these rows, and the path is well formed; the offsets of lists keep their numbers, so that places in a part count from
/// the first offset above it (Arrow columnar format, "Variable-size List Layout"). The parts keep their kinds, and whether they are
/// optional. It takes no memory.
///
/// The conditions can be tested: `is_in_bounds` tells paths in bounds, `slot_count` the number of rows, and `levels::leaf_len` the length of
/// the leaf array.
pub fn slice_parquet_array(
    primitive_array: &mut ArrayBox,
    nested: &mut [Nested],
    current_offset: usize,
    current_length: usize,
)
    requires in_bounds { IsInBounds (parts_of nested.old) }
    requires rows { current_offset + current_length ≤ slot_count (parts_of nested.old) }
    requires leaf { tree_len (boxed primitive_array.old) ≡ leaf_count_or 0 (parts_of nested.old) }
    ensures path { IsPath (parts_of nested.new) }
    ensures length { slot_count (parts_of nested.new) ≡ current_length }
    ensures leaf { tree_len (boxed primitive_array.new) ≡ leaf_count_or 0 (parts_of nested.new) }
    ensures slots { path_slots (slot_at (boxed primitive_array.new)) (parts_of nested.new)
        ≡ take current_length (drop current_offset
        (bounded_slots (slot_at (boxed primitive_array.old)) (parts_of nested.old))) }
    ensures read { IsReadAsCut (parts_of nested.old) (parts_of nested.new) current_offset current_length }
    ensures parts { parts_of nested.new ≡ cut_parts (parts_of nested.old) current_offset current_length }
    ensures kinds { map is_large nested.new ≡ map is_large nested.old }
    ensures way { path_way (parts_of nested.new) ≡ path_way (parts_of nested.old) }
    ensures array { boxed primitive_array.new ≡ cut (boxed primitive_array.old)
        (leaf_rows (parts_of nested.old) current_offset current_length).0
        (leaf_rows (parts_of nested.old) current_offset current_length).1 }
{
    let rows = Rows {
        first: current_offset,
        count: current_length,
    };
    let leaf = slice_parts(nested, rows);
    primitive_array.know();
    primitive_array.slice(leaf.first, leaf.count);
}
