//! The present items of lists, counted and added up.
ghost use Rattle.std.specs.Prelude.{◌≡◌, ◌+◌, ◌<◌, ◌≤◌, ◌^◌, ◌++◌, List, ℤ, flat_map, length};
ghost use Rattle.shredding.specs.Parts.{keeps, slots_from};
ghost use Rattle.columns_array.specs.Boxed.{boxed};
ghost use Rattle.columns_core.specs.Tree.{t_int32};
ghost use Rattle.columns_slots.specs.Slots.{child_of, count_of, first_of, mask_of, offsets_of, slot_at, slots, tree_len, type_of};
ghost use Rattle.sample_rows.specs.Fields.{items_type};
ghost use Rattle.sample_rows.specs.Parts.{numbers_tree};
ghost use Rattle.sample_rows.specs.Present.{items_of, number_in, numbers_in as list_numbers};
ghost use Rattle.sample_rows.specs.Totals.{AreOf, totals_view};

use crate::kinds::{lists_in, numbers_in};
use crate::totals::Totals;
use columns_array::{ArrayBox, ListArray};
use columns_leaf::PrimitiveArray;

fn is_present(numbers: &PrimitiveArray<i32>, i: usize) -> bool
    requires { i < length numbers.now.1.0 }
    ensures { result ≡ keeps numbers.now.1.1 i }
{
    numbers.know();
    match numbers.validity() {
        Some(mask) => mask.get_bit(i),
        None => true,
    }
}

/// One item more, if it is present.
fn add_item(totals: Totals, numbers: &PrimitiveArray<i32>, i: usize) -> Totals
    requires within { i < length numbers.now.1.0 }
    requires typed { numbers.now.0 ≡ t_int32 }
    requires room { totals.count + 1 < 2 ^ 64 }
    ensures are { (zs : List ℤ) → AreOf totals zs → AreOf result
        (zs ++ number_in (slot_at (numbers_tree numbers.now) i)) }
    ensures few { result.count ≤ totals.count + 1 }
{
    if !is_present(numbers, i) {
        return totals;
    }
    totals.with(numbers.values()[i])
}

/// So many items more, from a place on, as far as they are present.
#[tactic(auto, using(crate::proofs::Counted::adds_none, crate::proofs::Counted::adds_more))]
fn add_items(totals: Totals, numbers: &PrimitiveArray<i32>, first: usize, count: usize) -> Totals
    requires within { first + count ≤ length numbers.now.1.0 }
    requires typed { numbers.now.0 ≡ t_int32 }
    requires room { totals.count + count < 2 ^ 64 }
    ensures are { (zs : List ℤ) → AreOf totals zs → AreOf result
        (zs ++ flat_map number_in (slots_from (slot_at (numbers_tree numbers.now)) first count)) }
    ensures few { result.count ≤ totals.count + count }
{
    let _count = numbers.len();
    let mut totals = totals;
    for i in 0..count {
        totals = add_item(totals, numbers, first + i);
    }
    totals
}

/// Whether a row has a list.
fn has_list(lists: &ListArray, row: usize) -> bool
    requires { row < tree_len lists.now }
    ensures { result ≡ keeps (mask_of lists.now) row }
{
    lists.know();
    match lists.validity() {
        Some(mask) => mask.get_bit(row),
        None => true,
    }
}

/// Where the items of a row begin, and how many they are.
#[tactic(auto, using(columns_leaf::proofs::Texts::step_of_places))]
fn range_of(lists: &ListArray, row: usize) -> (usize, usize)
    requires { row < tree_len lists.now }
    ensures first { result.0 ≡ first_of (offsets_of lists.now) row }
    ensures count { result.1 ≡ count_of (offsets_of lists.now) row }
    ensures end { result.0 + result.1 ≡ first_of (offsets_of lists.now) (row + 1) }
    ensures within { result.0 + result.1 ≤ tree_len (child_of lists.now) }
    ensures fits { result.0 + result.1 < 2 ^ 64 }
{
    lists.know();
    let offsets = lists.offsets();
    let _count = offsets.len_proxy();
    let first = offsets.place(row);
    let end = offsets.place(row + 1);
    (first, end - first)
}

/// The items of one row more, as far as they are present.
#[tactic(auto, using(crate::proofs::Counted::null_numbers, crate::proofs::Counted::nothing_more))]
fn add_row(totals: Totals, lists: &ListArray, numbers: &PrimitiveArray<i32>, row: usize) -> Totals
    requires within { row < tree_len lists.now }
    requires items { numbers_tree numbers.now ≡ child_of lists.now }
    requires typed { numbers.now.0 ≡ t_int32 }
    requires few { totals.count ≤ first_of (offsets_of lists.now) row }
    ensures are { (zs : List ℤ) → AreOf totals zs → AreOf result (zs ++ list_numbers (slot_at lists.now row)) }
    ensures few { result.count ≤ first_of (offsets_of lists.now) (row + 1) }
{
    lists.know();
    let (first, count) = range_of(lists, row);
    if !has_list(lists, row) {
        return totals;
    }
    add_items(totals, numbers, first, count)
}

/// The items of all rows, as far as they are present.
#[tactic(auto, using(crate::proofs::Counted::adds_none, crate::proofs::Counted::adds_more))]
fn count_lists(lists: &ListArray, numbers: &PrimitiveArray<i32>) -> Totals
    requires items { numbers_tree numbers.now ≡ child_of lists.now }
    requires typed { numbers.now.0 ≡ t_int32 }
    ensures { totals_view result ≡ items_of (slots lists.now) }
{
    let mut totals = Totals::none();
    for row in 0..lists.len() {
        totals = add_row(totals, lists, numbers, row);
    }
    totals
}

/// How many items of the lists are present, and their sum.
///
/// The array is of the type of the field `items` of the sample. It takes no memory.
pub fn count_items(array: &ArrayBox) -> Totals
    requires { type_of (boxed array.now) ≡ items_type }
    ensures { totals_view result ≡ items_of (slots (boxed array.now)) }
{
    let lists = lists_in(array).unwrap();
    lists.know();
    let numbers = numbers_in(lists.values()).unwrap();
    count_lists(lists, numbers)
}
