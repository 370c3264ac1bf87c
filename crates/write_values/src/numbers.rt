//! Numbers that are stored as numbers of 32 or 64 bits.
ghost use Rattle.std.specs.Prelude.{◌≡◌, ◌<◌, ◌≤◌, ◌+◌, ◌*◌, ◌^◌, ◌∷◌, ◌++◌, [], true, ℕ, length, take, map, replicate, IsTrue, OnOk, IfErr};
ghost use Rattle.columns_base.specs.declared.error.Error.TheVariants.{Memory};
ghost use Rattle.shredding.specs.Slot.{number};
ghost use Rattle.columns_core.specs.Shapes.{base, leaf_type};
ghost use Rattle.pq_tree.specs.Views.{physical_view};
ghost use Rattle.pq_files.specs.Statistics.{has_order};
ghost use Rattle.std.specs.Int.{bit_at};
ghost use Rattle.columns_slots.specs.Tree.{leaf_array};
ghost use Rattle.columns_slots.specs.Slots.{tree_len};
ghost use Rattle.shredding.specs.Parts.{IsPath};
ghost use Rattle.levels.specs.Nested.{parts_of};
ghost use Rattle.levels.specs.Ranges.{leaf_count_or};
ghost use Rattle.write_places.specs.Places.{path_places, picked, range};
ghost use Rattle.write_values.specs.Numbers.{at_place};
ghost use Rattle.write_values.specs.Rows.{AppendsRow, Measures};
ghost use Rattle.write_values.specs.Stored.{stored_at};

use crate::feeding::DeltaValues;
use crate::measure::measure_fixed;
use crate::measured::Measured;
use crate::row::LeafValues;
use columns_core::{Error, ParquetNativeType, Result};
use columns_leaf::PrimitiveArray;
use columns_native::{AsPrimitive, PlainNumber, StoredAs};
use levels::Nested;
use pq_deltas::delta_bitpacked::Encoder;
use std::alloc::AllocError;
use std::marker::PhantomData;

// A number of 32 or 64 bits, as columns have them (Parquet format, "Types": INT32 and INT64).
pub trait StoredNumber: PlainNumber {
    ghost use Rattle.std.specs.Prelude.{◌≡◌, ◌≤◌, ◌+◌, ◌++◌, ◌∷◌, [], true, length, take, OnOk};
    ghost use Rattle.std.specs.Int.{Width};
    ghost use mir.Val.{bits};
    ghost use Rattle.pq_deltas.specs.Encoding.{Feeds};
    ghost use Rattle.write_values.specs.Feeding.{AreNumbersOf};
    ghost use Rattle.shredding.specs.Slot.{Value, number};
    ghost use Rattle.pq_tree.specs.Views.{physical_view};
    ghost use Rattle.pq_files.specs.Layout.{plain_size};
    ghost use Rattle.page_statistics.specs.Spelled.{bound_text};
    ghost use Rattle.write_values.specs.Numbers.{is_number};

    // the bits of such a number
    ghost bit_width: { Width };

    // Its bytes take their place, lowest first, and those before it stay.
    fn put_le_bytes(&self, places: &mut [u8], at: usize)
        requires { at + Self.byte_count ≤ length places.old }
        ensures len { length places.new ≡ length places.old }
        ensures front { take (at + Self.byte_count) places.new ≡ take at places.old ++ Self.stored self.now };

    /// The encoder takes the number.
    ///
    /// # Errors
    ///
    /// Want of memory.
    fn push_delta(
        self,
        encoder: &mut Encoder,
        out: &mut Vec<u8>,
    ) -> std::result::Result<(), AllocError>
        ensures { OnOk result (Feeds bit_width out.old.items encoder.old out.new.items encoder.new
            (Self.plain_number self ∷ [])) };

    ghost is_number_type: { is_number (physical_view Self.physical) ≡ true };

    ghost size_is: { (v : Value) → plain_size (physical_view Self.physical) v ≡ Self.byte_count };

    ghost few_bytes: { Self.byte_count ≤ 8 };

    ghost text_is: { (x : Self) → Self.stored x ≡ bound_text (physical_view Self.physical)
        (number (Self.plain_number x)) };

    ghost is_narrow: { bits bit_width ≤ 64 };

    ghost numbers_of: { AreNumbersOf (physical_view Self.physical) bit_width };
}

impl StoredNumber for i32 {
    ghost use Rattle.std.specs.Prelude.{refl};
    ghost use Rattle.std.specs.Int.{w32};
    ghost use Rattle.std.proofs.Common.{lit≤};

    ghost bit_width = { w32 };

    ghost is_narrow = { lit≤ tt };

    ghost numbers_of = { refl };

    ghost is_number_type = { refl };

    ghost size_is = { λ v. refl };

    ghost few_bytes = { lit≤ tt };

    ghost text_is = { λ x. refl };

    fn put_le_bytes(&self, places: &mut [u8], at: usize) {
        places[at..at + 4].copy_from_slice(&self.to_le_bytes());
    }

    fn push_delta(
        self,
        encoder: &mut Encoder,
        out: &mut Vec<u8>,
    ) -> std::result::Result<(), AllocError> {
        encoder.push_i32(out, self)
    }
}

impl StoredNumber for i64 {
    ghost use Rattle.std.specs.Prelude.{refl};
    ghost use Rattle.std.specs.Int.{w64};
    ghost use Rattle.std.proofs.Common.{lit≤};

    ghost bit_width = { w64 };

    ghost is_narrow = { lit≤ tt };

    ghost numbers_of = { refl };

    ghost is_number_type = { refl };

    ghost size_is = { λ v. refl };

    ghost few_bytes = { lit≤ tt };

    ghost text_is = { λ x. refl };

    fn put_le_bytes(&self, places: &mut [u8], at: usize) {
        places[at..at + 8].copy_from_slice(&self.to_le_bytes());
    }

    fn push_delta(
        self,
        encoder: &mut Encoder,
        out: &mut Vec<u8>,
    ) -> std::result::Result<(), AllocError> {
        encoder.push(out, self)
    }
}

// A number that a column of `P` can always store: decimals, which it cannot, are none of these.
pub trait AlwaysStored<P: StoredNumber>: StoredAs<P> {
    ghost always: { (x : Self) → Self.is_storable x };
}

impl AlwaysStored<i32> for i8 {
    ghost always = { λ x. tt };
}

impl AlwaysStored<i32> for i16 {
    ghost always = { λ x. tt };
}

impl AlwaysStored<i32> for i32 {
    ghost always = { λ x. tt };
}

impl AlwaysStored<i32> for u8 {
    ghost always = { λ x. tt };
}

impl AlwaysStored<i32> for u16 {
    ghost always = { λ x. tt };
}

impl AlwaysStored<i32> for u32 {
    ghost always = { λ x. tt };
}

impl AlwaysStored<i64> for u32 {
    ghost always = { λ x. tt };
}

impl AlwaysStored<i64> for i64 {
    ghost always = { λ x. tt };
}

impl AlwaysStored<i64> for u64 {
    ghost always = { λ x. tt };
}

// Appends a number, lowest byte first.
fn push_number<T: AlwaysStored<P>, P: StoredNumber>(out: &mut Vec<u8>, value: T) -> Result<()>
    ensures ok { OnOk result (AppendsRow (physical_view P.physical) out.old.items out.new.items
        (number (T.stored_number value) ∷ [])) }
    ensures err { IfErr result (λ e. e ≡ Memory) }
{
    let stored: P = value.to_stored();
    stored.know();
    stored.push_le_bytes(out)?;
    Ok(())
}

// A number takes its place, lowest byte first, and the bytes before it stay.
fn put_number<T: AlwaysStored<P>, P: StoredNumber>(places: &mut [u8], at: usize, value: T)
    requires { at + P.byte_count ≤ length places.old }
    ensures len { length places.new ≡ length places.old }
    ensures is { AppendsRow (physical_view P.physical) (take at places.old) (take (at + P.byte_count) places.new)
        (number (T.stored_number value) ∷ []) }
{
    let stored: P = value.to_stored();
    stored.know();
    stored.put_le_bytes(places, at);
}

// Numbers stand one behind the other from the front on, in so many bytes.
fn put_numbers<T: AlwaysStored<P>, P: StoredNumber>(places: &mut [u8], values: &[T]) -> usize
    requires { length values.now * P.byte_count ≤ length places.old }
    ensures len { length places.new ≡ length places.old }
    ensures within { result ≤ length places.new }
    ensures are { AppendsRow (physical_view P.physical) [] (take result places.new)
        (map (λ x. number (T.stored_number x)) values.now) }
{
    let mut at = 0;
    for value in values {
        put_number::<T, P>(places, at, *value);
        at += P::width();
    }
    at
}

// Appends numbers one behind the other, each by itself.
fn push_each<T: AlwaysStored<P>, P: StoredNumber>(out: &mut Vec<u8>, values: &[T]) -> Result<()>
    ensures ok { OnOk result (AppendsRow (physical_view P.physical) out.old.items out.new.items
        (map (λ x. number (T.stored_number x)) values.now)) }
    ensures err { IfErr result (λ e. e ≡ Memory) }
{
    for value in values {
        push_number::<T, P>(out, *value)?;
    }
    Ok(())
}

// Where a block of at most 64 places ends.
pub fn block_end(at: usize, len: usize) -> usize
    requires { at < len }
    ensures past { at < result }
    ensures within { result ≤ len }
    ensures few { result ≤ at + 64 }
{
    if len - at < 64 { len } else { at + 64 }
}

// Where a block of at most so many numbers ends.
fn part_end(at: usize, len: usize, most: usize) -> usize
    requires some { 0 < most }
    requires more { at < len }
    ensures past { at < result }
    ensures within { result ≤ len }
    ensures few { result ≤ at + most }
{
    if len - at < most { len } else { at + most }
}

// Appends numbers one behind the other, at most so many at a time, which are spelled in a block before they are appended.
#[inline(always)]
fn push_through<T: AlwaysStored<P>, P: StoredNumber>(
    out: &mut Vec<u8>,
    values: &[T],
    block: &mut [u8],
    most: usize,
) -> Result<()>
    requires some { 0 < most }
    requires room { most * 8 ≤ length block.old }
    ensures ok { OnOk result (AppendsRow (physical_view P.physical) out.old.items out.new.items
        (map (λ x. number (T.stored_number x)) values.now)) }
    ensures err { IfErr result (λ e. e ≡ Memory) }
{
    let mut at = 0;
    while at < values.len() {
        let end = part_end(at, values.len(), most);
        let size = put_numbers::<T, P>(block, &values[at..end]);
        out.extend_from_slice(&block[..size])?;
        at = end;
    }
    Ok(())
}

// Appends numbers one behind the other, in short blocks.
fn push_blocks<T: AlwaysStored<P>, P: StoredNumber>(out: &mut Vec<u8>, values: &[T]) -> Result<()>
    ensures ok { OnOk result (AppendsRow (physical_view P.physical) out.old.items out.new.items
        (map (λ x. number (T.stored_number x)) values.now)) }
    ensures err { IfErr result (λ e. e ≡ Memory) }
{
    let mut block = [0; 512];
    push_through::<T, P>(out, values, &mut block, 64)
}

// Bytes take the places of as many.
#[inline(always)]
fn put_block(places: &mut [u8], block: &[u8])
    requires { length places.old ≡ length block.now }
    ensures { places.new ≡ block.now }
{
    for i in 0..block.len() {
        places[i] = block[i];
    }
}

// Numbers fill a block one behind the other.
#[inline(always)]
fn fill_block<T: AlwaysStored<P>, P: StoredNumber>(block: &mut [u8], values: &[T])
    requires { P.byte_count * length values.now ≡ length block.old }
    ensures len { length block.new ≡ length block.old }
    ensures are { AppendsRow (physical_view P.physical) [] block.new
        (map (λ x. number (T.stored_number x)) values.now) }
{
    for i in 0..values.len() {
        put_number::<T, P>(block, P::width() * i, values[i]);
    }
}

// So many places more.
#[inline(always)]
fn add_places(out: &mut Vec<u8>, count: usize) -> Result<()>
    ensures ok { OnOk result (out.new.items ≡ out.old.items ++ replicate count 0) }
    ensures err { IfErr result (λ e. e ≡ Memory) }
{
    let Some(end) = out.len().checked_add(count) else {
        return Err(Error::Memory);
    };
    out.resize(end, 0)?;
    Ok(())
}

// Appends as many numbers one behind the other as fill a block, which is copied to its places as a whole.
#[inline(always)]
fn push_whole<T: AlwaysStored<P>, P: StoredNumber>(out: &mut Vec<u8>, values: &[T]) -> Result<()>
    requires { P.byte_count * length values.now ≡ 4096 }
    ensures ok { OnOk result (AppendsRow (physical_view P.physical) out.old.items out.new.items
        (map (λ x. number (T.stored_number x)) values.now)) }
    ensures err { IfErr result (λ e. e ≡ Memory) }
{
    let before = out.len();
    // by two calls, since the C library clears more than 2 KiB by one instruction that repeats
    add_places(out, 2048)?;
    add_places(out, 2048)?;
    let mut block = [0; 4096];
    fill_block::<T, P>(&mut block, values);
    put_block(&mut out[before..before + 4096], &block);
    Ok(())
}

// How many numbers fill a block of 4 KiB.
#[inline(always)]
fn block_count<P: StoredNumber>() -> usize
    ensures some { 0 < result }
    ensures whole { P.byte_count * result ≡ 4096 }
{
    4096 / P::width()
}

// Appends numbers one behind the other, in long blocks.
fn push_long<T: AlwaysStored<P>, P: StoredNumber>(out: &mut Vec<u8>, values: &[T]) -> Result<()>
    ensures ok { OnOk result (AppendsRow (physical_view P.physical) out.old.items out.new.items
        (map (λ x. number (T.stored_number x)) values.now)) }
    ensures err { IfErr result (λ e. e ≡ Memory) }
{
    let count = block_count::<P>();
    let mut at = 0;
    while count <= values.len() - at {
        push_whole::<T, P>(out, &values[at..at + count])?;
        at += count;
    }
    push_blocks::<T, P>(out, &values[at..])
}

// Appends numbers one behind the other. For a few a block costs more than it saves, and a long one for fewer than thousands.
fn push_numbers<T: AlwaysStored<P>, P: StoredNumber>(out: &mut Vec<u8>, values: &[T]) -> Result<()>
    ensures ok { OnOk result (AppendsRow (physical_view P.physical) out.old.items out.new.items
        (map (λ x. number (T.stored_number x)) values.now)) }
    ensures err { IfErr result (λ e. e ≡ Memory) }
{
    if values.len() < 8 {
        push_each::<T, P>(out, values)
    } else if values.len() < 8192 {
        push_blocks::<T, P>(out, values)
    } else {
        push_long::<T, P>(out, values)
    }
}

// How many of the lowest bits of a word are set side by side, at most eight.
#[inline(always)]
fn few_ones(word: u64) -> usize
    ensures few { result ≤ 8 }
    ensures set { (i : ℕ) → i < result → bit_at word i ≡ 1 }
    ensures some { bit_at word 0 ≡ 1 → 0 < result }
{
    (word & 255).trailing_ones() as usize
}

// Numbers take their places one behind the other, and the bytes before them stay. Answers where the first so many of them end.
#[inline(always)]
fn put_first<T: AlwaysStored<P>, P: StoredNumber>(
    places: &mut [u8],
    at: usize,
    values: &[T],
    few: usize,
) -> usize
    requires few { few ≤ 8 }
    requires within { few ≤ length values.now }
    requires room { at + length values.now * P.byte_count ≤ length places.old }
    requires eight { at + 8 * P.byte_count ≤ length places.old }
    ensures at { result ≡ at + few * P.byte_count }
    ensures len { length places.new ≡ length places.old }
    ensures are { AppendsRow (physical_view P.physical) (take at places.old) (take result places.new)
        (map (λ x. number (T.stored_number x)) (take few values.now)) }
{
    let mut next = at;
    for value in values {
        put_number::<T, P>(places, next, *value);
        next += P::width();
    }
    at + few * P::width()
}

// At most eight numbers side by side take their places, and the bytes before them stay. Answers where they end. Where there are eight, all are put
// without a count; the caller may know that there are.
#[inline(always)]
fn put_run<T: AlwaysStored<P>, P: StoredNumber>(
    places: &mut [u8],
    at: usize,
    values: &[T],
    from: usize,
    few: usize,
    has_eight: bool,
) -> usize
    requires few { few ≤ 8 }
    requires within { from + few ≤ length values.now }
    requires eight { IsTrue has_eight → from + 8 ≤ length values.now }
    requires room { at + 8 * P.byte_count ≤ length places.old }
    ensures at { result ≡ at + few * P.byte_count }
    ensures len { length places.new ≡ length places.old }
    ensures are { AppendsRow (physical_view P.physical) (take at places.old) (take result places.new)
        (map (at_place (map (λ x. number (T.stored_number x)) values.now)) (range from few)) }
{
    if has_eight {
        return put_first::<T, P>(places, at, &values[from..from + 8], few);
    }
    if values.len() - from < 8 {
        put_first::<T, P>(places, at, &values[from..from + few], few)
    } else {
        put_first::<T, P>(places, at, &values[from..from + 8], few)
    }
}

// The numbers at picked places stand one behind the other from the front on, in so many bytes. They are put by runs, with room for eight more.
#[inline(always)]
fn put_some<T: AlwaysStored<P>, P: StoredNumber>(
    places: &mut [u8],
    values: &[T],
    from: usize,
    bits: u64,
    count: usize,
    has_more: bool,
) -> usize
    requires few { count ≤ 64 }
    requires low { bits < 2 ^ count }
    requires within { from + count ≤ length values.now }
    requires more { IsTrue has_more → from + count + 8 ≤ length values.now }
    requires room { (count + 8) * P.byte_count ≤ length places.old }
    ensures len { length places.new ≡ length places.old }
    ensures within { result ≤ length places.new }
    ensures are { AppendsRow (physical_view P.physical) [] (take result places.new)
        (map (at_place (map (λ x. number (T.stored_number x)) values.now)) (picked bits from count)) }
{
    let mut left = bits;
    let mut place = from;
    let mut at = 0;
    while left != 0 {
        let gap = left.trailing_zeros() as usize;
        let few = few_ones(left >> gap);
        at = put_run::<T, P>(places, at, values, place + gap, few, has_more);
        left = (left >> gap) >> few;
        place += gap + few;
    }
    at
}

// Appends the numbers at picked places one behind the other, in a block that is spelled before it is appended.
fn push_picked<T: AlwaysStored<P>, P: StoredNumber>(
    out: &mut Vec<u8>,
    values: &[T],
    from: usize,
    bits: u64,
    count: usize,
) -> Result<()>
    requires few { count ≤ 64 }
    requires low { bits < 2 ^ count }
    requires within { from + count ≤ length values.now }
    ensures ok { OnOk result (AppendsRow (physical_view P.physical) out.old.items out.new.items
        (map (at_place (map (λ x. number (T.stored_number x)) values.now)) (picked bits from count))) }
    ensures err { IfErr result (λ e. e ≡ Memory) }
{
    let mut block = [0; 576];
    let size = if values.len() - from < count + 8 {
        put_some::<T, P>(&mut block, values, from, bits, count, false)
    } else {
        put_some::<T, P>(&mut block, values, from, bits, count, true)
    };
    out.extend_from_slice(&block[..size])?;
    Ok(())
}

// The numbers of an array, as a column of `P` stores them. They have an order, so they are no intervals.
#[derive(Drop)]
pub struct Numbers<'a, T: AlwaysStored<P>, P: StoredNumber> {
    pub array: &'a PrimitiveArray<T>,
    values: &'a [T],
    stored: PhantomData<P>,
    ghost ordered: { has_order (leaf_type (base array.now.0)) ≡ true },
    ghost are: { values.now ≡ array.now.1.0 },
}

impl<'a, T: AlwaysStored<P>, P: StoredNumber> Numbers<'a, T, P> {
    // The numbers of this array.
    pub fn new(array: &'a PrimitiveArray<T>) -> Self
        requires { has_order (leaf_type (base array.now.0)) ≡ true }
        ensures { result.array.now ≡ array.now }
    {
        Numbers {
            array,
            values: array.values(),
            stored: PhantomData,
        }
    }
}

impl<'a, T: AlwaysStored<P>, P: StoredNumber> LeafValues for Numbers<'a, T, P> {
    ghost use Rattle.std.specs.Prelude.{map};
    ghost use Rattle.columns_core.specs.Shapes.{base};
    ghost use Rattle.columns_slots.specs.Tree.{leaf_array};
    ghost use Rattle.columns_slots.specs.Slots.{tree_len};
    ghost use Rattle.pq_tree.specs.Views.{physical_view};
    ghost use Rattle.write_values.specs.Numbers.{numbers_in_a_row};
    ghost use Rattle.write_values.specs.Stored.{stored_at};

    ghost count = { λ s. tree_len (leaf_array s.array.now.0
        (map (T.value (base s.array.now.0)) s.array.now.1.0) s.array.now.1.1) };

    ghost physical = { λ s. physical_view P.physical };

    ghost stored = { λ s. stored_at (leaf_array s.array.now.0
        (map (T.value (base s.array.now.0)) s.array.now.1.0) s.array.now.1.1) (physical_view P.physical) };

    ghost in_a_row = { λ s. numbers_in_a_row (physical_view P.physical) P.is_number_type };

    fn plain_size(&self, from: usize, to: usize) -> u128 {
        (to - from) as u128 * P::width() as u128
    }

    fn push_plain(&self, out: &mut Vec<u8>, from: usize, to: usize) -> Result<()> {
        self.array.know();
        push_numbers::<T, P>(out, &self.array.values()[from..to])
    }

    fn some_size(&self, from: usize, bits: u64, places: usize) -> u128 {
        bits.count_ones() as u128 * P::width() as u128
    }

    fn push_some(&self, out: &mut Vec<u8>, from: usize, bits: u64, places: usize) -> Result<()> {
        self.array.know();
        push_picked::<T, P>(out, self.array.values(), from, bits, places)
    }
}

// The number of the numbers that a path reaches and that of the bytes of their plain spelling. It takes no memory.
pub fn measure_numbers<T: AlwaysStored<P>, P: StoredNumber>(
    leaf: &Numbers<'_, T, P>,
    nested: &[Nested],
) -> Measured
    requires well { IsPath (parts_of nested.now) }
    requires leaf { leaf_count_or 0 (parts_of nested.now) ≤ tree_len
        (leaf_array leaf.now.array.now.0
        (map (T.value (base leaf.now.array.now.0)) leaf.now.array.now.1.0) leaf.now.array.now.1.1) }
    ensures { Measures (physical_view P.physical)
        (tree_len
        (leaf_array leaf.now.array.now.0
        (map (T.value (base leaf.now.array.now.0)) leaf.now.array.now.1.0) leaf.now.array.now.1.1))
        (stored_at
        (leaf_array leaf.now.array.now.0
        (map (T.value (base leaf.now.array.now.0)) leaf.now.array.now.1.0) leaf.now.array.now.1.1)
        (physical_view P.physical)) (path_places (parts_of nested.now)) result }
{
    measure_fixed(leaf, P::width(), nested)
}

impl<'a, T: AlwaysStored<P>, P: StoredNumber> DeltaValues for Numbers<'a, T, P> {
    ghost use Rattle.std.specs.Prelude.{map};
    ghost use Rattle.columns_core.specs.Shapes.{base};
    ghost use Rattle.columns_slots.specs.Tree.{leaf_array};
    ghost use Rattle.columns_slots.specs.Slots.{tree_len};
    ghost use Rattle.pq_tree.specs.Views.{physical_view};
    ghost use Rattle.write_values.specs.Stored.{stored_at};

    ghost width = { P.bit_width };

    ghost physical = { physical_view P.physical };

    ghost places = { λ s. tree_len (leaf_array s.array.now.0
        (map (T.value (base s.array.now.0)) s.array.now.1.0) s.array.now.1.1) };

    ghost at = { λ s. stored_at (leaf_array s.array.now.0
        (map (T.value (base s.array.now.0)) s.array.now.1.0) s.array.now.1.1) (physical_view P.physical) };

    ghost narrow = { P.is_narrow };

    fn len(&self) -> usize {
        self.array.len()
    }

    fn push_one(
        &self,
        encoder: &mut Encoder,
        out: &mut Vec<u8>,
        i: usize,
    ) -> std::result::Result<(), AllocError> {
        self.array.know();
        let stored: P = self.values[i].to_stored();
        stored.push_delta(encoder, out)
    }
}
