//! What positions of an array hold, that its own mask keeps.
ghost use Rattle.std.specs.Prelude.{◌≡◌, ◌+◌, ◌≤◌, true};
ghost use Rattle.columns_array.specs.Boxed.{boxed};
ghost use Rattle.columns_slots.specs.Slots.{tree_len};
ghost use Rattle.typed_rows.specs.Inner.{IsInner};
ghost use Rattle.typed_rows.specs.Own.{AreKept, is_leaf_tree};

use crate::types::{fields_of, items_are_nullable, width_of};
use columns_array::{
    ArrayBox, DictionaryArray, FixedSizeListArray, LargeListArray, ListArray, MapArray, StructArray,
};
use columns_core::Field;

// What a walk to the nulls of an array goes on with.
#[derive(Clone, Copy, Drop)]
pub enum Inner<'a> {
    // nothing: all positions are null
    Nulls,
    // nothing: each position has a value
    Values,
    // so many items from a place on, which may be null or not
    Items(&'a ArrayBox, bool, usize, usize),
    // the same positions of the arrays of a struct's fields
    Fields(&'a [Field], &'a [ArrayBox]),
    // the entries that the keys number
    Entries(&'a DictionaryArray),
}

fn small_items(lists: &ListArray, from: usize, count: usize) -> Inner<'_>
    requires within { from + count ≤ tree_len lists.now }
    requires kept { AreKept lists.now from count }
    ensures { IsInner lists.now from count result }
{
    lists.know();
    let _length = lists.len();
    let first = lists.offsets().place(from);
    let end = lists.offsets().place(from + count);
    Inner::Items(
        lists.values(),
        items_are_nullable(lists.data_type()),
        first,
        end - first,
    )
}

fn large_items(lists: &LargeListArray, from: usize, count: usize) -> Inner<'_>
    requires within { from + count ≤ tree_len lists.now }
    requires kept { AreKept lists.now from count }
    ensures { IsInner lists.now from count result }
{
    lists.know();
    let _length = lists.len();
    let first = lists.offsets().place(from);
    let end = lists.offsets().place(from + count);
    Inner::Items(
        lists.values(),
        items_are_nullable(lists.data_type()),
        first,
        end - first,
    )
}

fn map_entries(maps: &MapArray, from: usize, count: usize) -> Inner<'_>
    requires within { from + count ≤ tree_len maps.now }
    requires kept { AreKept maps.now from count }
    ensures { IsInner maps.now from count result }
{
    maps.know();
    let _length = maps.len();
    let first = maps.offsets().place(from);
    let end = maps.offsets().place(from + count);
    Inner::Items(
        maps.field(),
        items_are_nullable(maps.data_type()),
        first,
        end - first,
    )
}

fn fixed_items(lists: &FixedSizeListArray, from: usize, count: usize) -> Inner<'_>
    requires within { from + count ≤ tree_len lists.now }
    requires kept { AreKept lists.now from count }
    ensures { IsInner lists.now from count result }
{
    lists.know();
    let _length = lists.len();
    let _items = lists.values().len();
    let width = width_of(lists.data_type());
    Inner::Items(
        lists.values(),
        items_are_nullable(lists.data_type()),
        from * width,
        count * width,
    )
}

fn struct_fields(structs: &StructArray, from: usize, count: usize) -> Inner<'_>
    requires within { from + count ≤ tree_len structs.now }
    requires kept { AreKept structs.now from count }
    ensures { IsInner structs.now from count result }
{
    structs.know();
    Inner::Fields(fields_of(structs.data_type()), structs.values())
}

fn values_of(array: &ArrayBox, from: usize, count: usize) -> Inner<'_>
    requires leaf { is_leaf_tree (boxed array.now) ≡ true }
    requires within { from + count ≤ tree_len (boxed array.now) }
    requires kept { AreKept (boxed array.now) from count }
    ensures { IsInner (boxed array.now) from count result }
{
    array.know();
    Inner::Values
}

pub fn inner_of(array: &ArrayBox, from: usize, count: usize) -> Inner<'_>
    requires within { from + count ≤ tree_len (boxed array.now) }
    requires kept { AreKept (boxed array.now) from count }
    ensures { IsInner (boxed array.now) from count result }
{
    match array {
        ArrayBox::Null(_) => Inner::Nulls,
        ArrayBox::Dictionary(keyed) => Inner::Entries(keyed),
        ArrayBox::List(lists) => small_items(lists, from, count),
        ArrayBox::LargeList(lists) => large_items(lists, from, count),
        ArrayBox::Map(maps) => map_entries(maps, from, count),
        ArrayBox::FixedSizeList(lists) => fixed_items(lists, from, count),
        ArrayBox::Struct(structs) => struct_fields(structs, from, count),
        _ => values_of(array, from, count),
    }
}
