//! What one position of an array holds, whichever kind the array is of.
ghost use Rattle.std.specs.Prelude.{◌≡◌, ◌+◌, ◌-◌, ◌<◌, ◌≤◌, true, map, slice_index_or, [], length as list_length};
ghost use Rattle.shredding.specs.Parts.{keeps};
ghost use Rattle.shredding.specs.Slot.{truth};
ghost use Rattle.columns_core.specs.View.{type_view};
ghost use Rattle.columns_core.specs.Shapes.{base};
ghost use Rattle.columns_core.specs.Natives.{interval_bytes, four_bytes, two_power_32};
ghost use Rattle.columns_slots.specs.Slots.{slot_at, leaf_at, first_of, count_of, tree_len, tree_size, mask_of, is_null, IsPlaces};
ghost use Rattle.columns_slots.specs.Bytes.{pieces, pieces_values, chunks, chunks_values};
ghost use Rattle.columns_leaf.specs.Fixed.{fixed_width, fixed_count};
ghost use Rattle.columns_array.specs.Boxed.{boxed};
ghost use Rattle.columns_array.specs.Cells.{content, cell_slot, IsCell, IsValue, is_interval};

use super::keys::entry;
use super::{
    ArrayBox, DictionaryArray, FixedSizeListArray, LargeListArray, ListArray, MapArray, StructArray,
};
use columns_core::{DataType, DaysMs, NativeType, Offset, OffsetsBuffer};
use columns_leaf::{BinaryArray, BooleanArray, FixedSizeBinaryArray, PrimitiveArray, Utf8Array};

/// One slot, as the array has it: null, a value, so many items of an array from a place on, or one position of the arrays of a struct's
/// fields. An interval is its 12 bytes.
#[derive(Drop)]
pub(crate) enum Cell<'a> {
    Null,
    Truth(bool),
    Number(i128),
    Interval([u8; 12]),
    Bytes(&'a [u8]),
    Items(&'a ArrayBox, usize, usize),
    Fields(&'a [ArrayBox], usize),
}

fn four(n: u32) -> [u8; 4]
    ensures { result ≡ four_bytes n }
{
    n.to_le_bytes()
}

fn four_of(number: i32) -> [u8; 4]
    ensures { result ≡ four_bytes (two_power_32 number) }
{
    four(number.cast_unsigned())
}

fn interval(months: i32, days: i32, milliseconds: i32) -> [u8; 12]
    ensures { result ≡ interval_bytes months days milliseconds }
{
    let [a, b, c, d] = four_of(months);
    let [e, f, g, h] = four_of(days);
    let [i, j, k, l] = four_of(milliseconds);
    [a, b, c, d, e, f, g, h, i, j, k, l]
}

fn is_months(data_type: &DataType) -> bool
    ensures { result ≡ is_interval (base (type_view data_type.now)) }
{
    match data_type.base() {
        DataType::Interval(_) => true,
        _ => false,
    }
}

/// A stored number as a cell.
pub(crate) trait Stored: NativeType {
    /// The value that it stands for in an array of the type.
    fn cell(self, data_type: &DataType) -> Cell<'static>
        ensures { IsValue result (Self.value (base (type_view data_type.now)) self) };
}

impl Stored for i8 {
    fn cell(self, _data_type: &DataType) -> Cell<'static> {
        Cell::Number(i128::from(self))
    }
}

impl Stored for i16 {
    fn cell(self, _data_type: &DataType) -> Cell<'static> {
        Cell::Number(i128::from(self))
    }
}

impl Stored for i32 {
    fn cell(self, data_type: &DataType) -> Cell<'static> {
        if is_months(data_type) {
            return Cell::Interval(interval(self, 0, 0));
        }
        Cell::Number(i128::from(self))
    }
}

impl Stored for i64 {
    fn cell(self, _data_type: &DataType) -> Cell<'static> {
        Cell::Number(i128::from(self))
    }
}

impl Stored for i128 {
    fn cell(self, _data_type: &DataType) -> Cell<'static> {
        Cell::Number(self)
    }
}

impl Stored for u8 {
    fn cell(self, _data_type: &DataType) -> Cell<'static> {
        Cell::Number(i128::from(self))
    }
}

impl Stored for u16 {
    fn cell(self, _data_type: &DataType) -> Cell<'static> {
        Cell::Number(i128::from(self))
    }
}

impl Stored for u32 {
    fn cell(self, _data_type: &DataType) -> Cell<'static> {
        Cell::Number(i128::from(self))
    }
}

impl Stored for u64 {
    fn cell(self, _data_type: &DataType) -> Cell<'static> {
        Cell::Number(i128::from(self))
    }
}

impl Stored for DaysMs {
    fn cell(self, _data_type: &DataType) -> Cell<'static> {
        Cell::Interval(interval(0, self.days, self.milliseconds))
    }
}

#[tactic(auto, using(crate::proofs::Cells::leaf_mapped))]
fn number_at<T: Stored>(array: &PrimitiveArray<T>, i: usize) -> Cell<'static>
    requires { i < list_length array.now.1.0 }
    ensures { IsValue result (leaf_at (map (T.value (base array.now.0)) array.now.1.0) i) }
{
    array.values()[i].cell(array.data_type())
}

/// The string between an offset and the next.
#[tactic(auto, using(columns_leaf::proofs::Texts::step_of_places, columns_slots::proofs::Strings::pieces_at))]
fn string_at<'a, O: Offset>(offsets: &OffsetsBuffer<O>, bytes: &'a [u8], i: usize) -> &'a [u8]
    requires places { IsPlaces offsets.now (list_length bytes.now) }
    requires within { i + 1 < list_length offsets.now }
    ensures { result.now ≡ slice_index_or (pieces offsets.now bytes.now) i [] }
{
    let _count = offsets.len_proxy();
    let start = offsets.place(i);
    let end = offsets.place(i + 1);
    &bytes[start..end]
}

/// The text or byte string at a position.
#[tactic(auto, using(crate::proofs::Cells::piece_mapped))]
fn text_cell<O: Offset>(array: &Utf8Array<O>, i: usize) -> Cell<'_>
    requires { i < list_length array.now.1.0 - 1 }
    ensures { IsValue result (leaf_at (pieces_values array.now.1.0 array.now.1.1.0) i) }
{
    array.know();
    Cell::Bytes(string_at(array.offsets(), array.values(), i))
}

/// The byte string at a position.
#[tactic(auto, using(crate::proofs::Cells::piece_mapped))]
fn binary_cell<O: Offset>(array: &BinaryArray<O>, i: usize) -> Cell<'_>
    requires { i < list_length array.now.1.0 - 1 }
    ensures { IsValue result (leaf_at (pieces_values array.now.1.0 array.now.1.1.0) i) }
{
    array.know();
    Cell::Bytes(string_at(array.offsets(), array.values(), i))
}

fn string_width(data_type: &DataType) -> usize
    ensures { result ≡ fixed_width (base (type_view data_type.now)) }
{
    match data_type.base() {
        DataType::FixedSizeBinary(width) => *width,
        _ => 0,
    }
}

/// The string of its width at a position.
#[tactic(auto, using(crate::proofs::Cells::chunk_within, crate::proofs::Cells::chunks_at))]
fn chunk_at(array: &FixedSizeBinaryArray, i: usize) -> &[u8]
    requires { i < fixed_count (base array.now.0) array.now.1.0 }
    ensures { result.now ≡ slice_index_or (chunks (fixed_width (base array.now.0))
        (fixed_count (base array.now.0) array.now.1.0) array.now.1.0) i [] }
{
    let width = string_width(array.data_type());
    let bytes = array.values();
    &bytes[i * width..i * width + width]
}

/// The string of its width at a position.
#[tactic(auto, using(crate::proofs::Cells::chunk_mapped))]
fn chunk_cell(array: &FixedSizeBinaryArray, i: usize) -> Cell<'_>
    requires { i < fixed_count (base array.now.0) array.now.1.0 }
    ensures { IsValue result
        (leaf_at (chunks_values (fixed_width (base array.now.0))
        (fixed_count (base array.now.0) array.now.1.0) array.now.1.0) i) }
{
    Cell::Bytes(chunk_at(array, i))
}

#[tactic(auto, using(crate::proofs::Cells::leaf_mapped))]
fn truth_cell(array: &BooleanArray, i: usize) -> Cell<'static>
    requires { i < list_length array.now.1.0 }
    ensures { IsValue result (leaf_at (map truth array.now.1.0) i) }
{
    Cell::Truth(array.values().get_bit(i))
}

/// Where the items of a list begin, and how many they are.
#[tactic(auto, using(columns_leaf::proofs::Texts::step_of_places))]
fn range_at<O: Offset>(offsets: &OffsetsBuffer<O>, i: usize, count: usize) -> (usize, usize)
    requires places { IsPlaces offsets.now count }
    requires within { i + 1 < list_length offsets.now }
    ensures first { result.0 ≡ first_of offsets.now i }
    ensures count { result.1 ≡ count_of offsets.now i }
    ensures fits { result.0 + result.1 ≤ count }
{
    let _count = offsets.len_proxy();
    let first = offsets.place(i);
    (first, offsets.place(i + 1) - first)
}

/// Whether it is that of a null slot.
pub(crate) fn is_null_cell(cell: &Cell<'_>) -> bool
    ensures { result ≡ is_null (cell_slot cell.now) }
{
    matches!(cell, Cell::Null)
}

impl ListArray {
    /// The items of a position, whatever the mask says.
    #[tactic(auto, using(crate::proofs::Cells::some_places))]
    fn items_at(&self, i: usize) -> Cell<'_>
        requires { i < tree_len self.now }
        ensures { IsCell result (content self.now i) (tree_size self.now) }
    {
        let (first, count) = range_at(&self.offsets, i, self.values.len());
        Cell::Items(&self.values, first, count)
    }
}

impl LargeListArray {
    /// The items of a position, whatever the mask says.
    #[tactic(auto, using(crate::proofs::Cells::some_places))]
    fn items_at(&self, i: usize) -> Cell<'_>
        requires { i < tree_len self.now }
        ensures { IsCell result (content self.now i) (tree_size self.now) }
    {
        let (first, count) = range_at(&self.offsets, i, self.values.len());
        Cell::Items(&self.values, first, count)
    }
}

impl MapArray {
    /// The entries of a position, whatever the mask says.
    #[tactic(auto, using(crate::proofs::Cells::some_places))]
    fn items_at(&self, i: usize) -> Cell<'_>
        requires { i < tree_len self.now }
        ensures { IsCell result (content self.now i) (tree_size self.now) }
    {
        let (first, count) = range_at(&self.offsets, i, self.values.len());
        Cell::Items(&self.values, first, count)
    }
}

impl FixedSizeListArray {
    /// The items of a position, whatever the mask says.
    #[tactic(auto, using(crate::proofs::Cells::list_within))]
    fn items_at(&self, i: usize) -> Cell<'_>
        requires { i < tree_len self.now }
        ensures { IsCell result (content self.now i) (tree_size self.now) }
    {
        // there are no more items than a `usize` counts, so the product is within it
        let _count = self.values.len();
        Cell::Items(&self.values, i * self.width, self.width)
    }
}

impl StructArray {
    /// The fields of a position, whatever the mask says.
    #[tactic(auto, using(columns_slots::proofs::Sound::all_long))]
    fn fields_at(&self, i: usize) -> Cell<'_>
        requires { i < tree_len self.now }
        ensures { IsCell result (content self.now i) (tree_size self.now) }
    {
        Cell::Fields(&self.values, i)
    }
}

impl DictionaryArray {
    /// What the entry holds that the key at a position numbers.
    #[cycle(cells)]
    fn entry_cell(&self, i: usize) -> Cell<'_>
        requires place { i < tree_len self.now }
        requires kept { keeps (mask_of self.now) i ≡ true }
        ensures { IsCell result (content self.now i) (tree_size self.now) }
    {
        self.values.cell(entry(&self.keys, i))
    }
}

impl ArrayBox {
    /// What a position holds.
    #[cycle(cells)]
    pub(crate) fn cell(&self, i: usize) -> Cell<'_>
        requires { i < tree_len (boxed self.now) }
        ensures { IsCell result (slot_at (boxed self.now) i) (tree_size (boxed self.now)) }
    {
        if !self.keeps_at(i) {
            return Cell::Null;
        }
        self.kept_cell(i)
    }

    /// What a position holds that the array's own mask keeps.
    #[cycle(cells)]
    fn kept_cell(&self, i: usize) -> Cell<'_>
        requires place { i < tree_len (boxed self.now) }
        requires kept { keeps (mask_of (boxed self.now)) i ≡ true }
        ensures { IsCell result (content (boxed self.now) i) (tree_size (boxed self.now)) }
    {
        match self {
            ArrayBox::Null(_) => Cell::Null,
            ArrayBox::Dictionary(a) => a.entry_cell(i),
            ArrayBox::List(a) => a.items_at(i),
            ArrayBox::LargeList(a) => a.items_at(i),
            ArrayBox::FixedSizeList(a) => a.items_at(i),
            ArrayBox::Struct(a) => a.fields_at(i),
            ArrayBox::Map(a) => a.items_at(i),
            ArrayBox::Utf8(a) => text_cell(a, i),
            ArrayBox::LargeUtf8(a) => text_cell(a, i),
            ArrayBox::Binary(a) => binary_cell(a, i),
            ArrayBox::LargeBinary(a) => binary_cell(a, i),
            ArrayBox::FixedSizeBinary(a) => chunk_cell(a, i),
            ArrayBox::Boolean(a) => truth_cell(a, i),
            ArrayBox::Int8(a) => number_at(a, i),
            ArrayBox::Int16(a) => number_at(a, i),
            ArrayBox::Int32(a) => number_at(a, i),
            ArrayBox::Int64(a) => number_at(a, i),
            ArrayBox::Int128(a) => number_at(a, i),
            ArrayBox::UInt8(a) => number_at(a, i),
            ArrayBox::UInt16(a) => number_at(a, i),
            ArrayBox::UInt32(a) => number_at(a, i),
            ArrayBox::UInt64(a) => number_at(a, i),
            ArrayBox::DaysMs(a) => number_at(a, i),
        }
    }
}
