//! The column of items.
ghost use Rattle.std.specs.Prelude.{◌≡◌, ◌+◌, ◌<◌, ◌≤◌, ◌^◌, ◌++◌, IfOk, IfErr, Some, map, length};
ghost use Rattle.shredding.specs.Parts.{MaskFits};
ghost use Rattle.columns_array.specs.Boxed.{boxed};
ghost use Rattle.columns_array.specs.Fits.{FitsLists};
ghost use Rattle.columns_core.specs.Shapes.{base};
ghost use Rattle.columns_core.specs.View.{type_view};
ghost use Rattle.columns_slots.specs.Slots.{tree_len};
ghost use Rattle.columns_slots.specs.Tree.{list_array as list_tree};
ghost use Rattle.columns_slots.specs.Types.{small_item};
ghost use Rattle.sample_rows.specs.Parts.{AreItems, has_list, item_array, item_count, item_marks, item_numbers};
ghost use Rattle.sample_rows.specs.Columns.{IsColumn};
ghost use Rattle.sample_rows.specs.Fields.{items_type};
ghost use Rattle.sample_rows.specs.Rows.{each_row, items_slot};

use columns_array::{ArrayBox, ListArray};
use columns_base::{Error, Result};
use columns_core::{Bitmap, DataType, MutableBitmap, Offsets, OffsetsBuffer};
use columns_leaf::PrimitiveArray;
use std::alloc::Global;

/// Which of so many rows have a list.
#[tactic(auto, using(crate::proofs::Tables::row_more))]
fn listed(alloc: Global, count: u32) -> Result<Bitmap>
    ensures ok { IfOk result (λ m. m ≡ each_row has_list count) }
    ensures err { IfErr result (λ e. e ≡ Error.Memory) }
{
    let mut mask = MutableBitmap::with_capacity(alloc, count as usize)?;
    for i in 0..count {
        mask.push(i % 5 != 0)?;
    }
    mask.into_bitmap()
}

/// How many items a row has.
fn count_items(row: u32) -> u32
    ensures is { result ≡ item_count row }
    ensures few { result ≤ 3 }
{
    if row % 5 == 0 { 0 } else { row % 4 }
}

/// The numbers of a row's items behind the others.
#[tactic(auto, using(crate::proofs::Tables::one_more, crate::proofs::Tables::none_more))]
fn push_numbers(numbers: &mut Vec<i32>, row: u32) -> Result<()>
    requires { row < 1000000 }
    ensures ok { IfOk result (λ _. numbers.new.items ≡ numbers.old.items ++ item_numbers row) }
    ensures err { IfErr result (λ e. e ≡ Error.Memory) }
{
    for i in 0..count_items(row) {
        numbers.push((row + i) as i32)?;
    }
    Ok(())
}

/// Which of a row's items are present, behind those of the others.
#[tactic(auto, using(crate::proofs::Tables::one_more, crate::proofs::Tables::none_more))]
fn push_marks(mask: &mut MutableBitmap, row: u32) -> Result<()>
    requires { row < 1000000 }
    ensures ok { IfOk result (λ _. mask.new.0 ≡ mask.old.0 ++ item_marks row) }
    ensures err { IfErr result (λ e. e ≡ Error.Memory) }
{
    for i in 0..count_items(row) {
        mask.push((row + i) % 7 != 0)?;
    }
    Ok(())
}

/// The items of some rows: where those of each row begin, their numbers, and which are present.
#[derive(Drop)]
struct Items {
    offsets: Offsets<i32>,
    numbers: Vec<i32>,
    mask: MutableBitmap,
}

/// The items of one row more.
#[tactic(auto, using(crate::proofs::Strung::rows_more))]
fn push_row(items: &mut Items, row: u32) -> Result<()>
    requires row { row < 1000000 }
    requires are { AreItems row items.old.offsets.0 items.old.numbers.items items.old.mask.0 }
    ensures ok { IfOk result (λ _. AreItems (row + 1) items.new.offsets.0 items.new.numbers.items items.new.mask.0) }
    ensures err { IfErr result (λ e. e ≡ Error.Memory) }
{
    push_numbers(&mut items.numbers, row)?;
    push_marks(&mut items.mask, row)?;
    items.offsets.try_push_usize(count_items(row) as usize)
}

/// The items of so many rows.
#[tactic(auto, using(crate::proofs::Strung::no_rows))]
fn gather(alloc: Global, count: u32) -> Result<Items>
    requires { count ≤ 1000000 }
    ensures ok { IfOk result (λ items. AreItems count items.offsets.0 items.numbers.items items.mask.0) }
    ensures err { IfErr result (λ e. e ≡ Error.Memory) }
{
    let mut items = Items {
        offsets: Offsets::with_capacity(alloc, count as usize)?,
        numbers: Vec::new(alloc),
        mask: MutableBitmap::new(alloc),
    };
    for i in 0..count {
        push_row(&mut items, i)?;
    }
    Ok(items)
}

/// The items as an array.
fn item_values(alloc: Global, numbers: Vec<i32>, mask: Bitmap) -> Result<ArrayBox>
    requires { MaskFits (Some mask) (length numbers.items) }
    ensures ok { IfOk result (λ a. boxed a ≡ item_array numbers.items mask) }
    ensures err { IfErr result (λ e. e ≡ Error.Memory) }
{
    PrimitiveArray::try_new(alloc, DataType::Int32, numbers, Some(mask)).map(ArrayBox::Int32)
}

/// Parts that make an array of lists.
fn list_array(
    alloc: Global,
    data_type: DataType,
    offsets: OffsetsBuffer<i32>,
    values: ArrayBox,
    mask: Bitmap,
) -> Result<ListArray>
    requires few { tree_len (boxed values) < 2 ^ 31 }
    requires fit { FitsLists (small_item (base (type_view data_type))) offsets (boxed values) (Some mask) }
    ensures ok { IfOk result (λ a. a ≡ list_tree (type_view data_type) offsets (boxed values) (Some mask)) }
    ensures err { IfErr result (λ e. e ≡ Error.Memory) }
{
    ListArray::try_new(alloc, data_type, offsets, values, Some(mask))
}

/// The lists of so many rows, as an array of the type.
#[tactic(auto, using(crate::proofs::Slots::items_are, crate::proofs::Fitting::items_fit, crate::proofs::Fitting::items_few, crate::proofs::Fitting::items_marked))]
pub fn lists(alloc: Global, data_type: DataType, count: u32) -> Result<ListArray>
    requires count { count ≤ 1000000 }
    requires typed { type_view data_type ≡ items_type }
    ensures ok { IfOk result (λ a. IsColumn items_type items_slot count a) }
    ensures err { IfErr result (λ e. e ≡ Error.Memory) }
{
    let items = gather(alloc, count)?;
    let offsets = items.offsets.into_buffer()?;
    let values = item_values(alloc, items.numbers, items.mask.into_bitmap()?)?;
    let mask = listed(alloc, count)?;
    list_array(alloc, data_type, offsets, values, mask)
}
