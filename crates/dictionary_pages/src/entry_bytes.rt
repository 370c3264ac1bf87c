//! The plain spelling of entries, with zero or no bytes in the place of a null one (Parquet format, Encodings, "Plain").
ghost use Rattle.std.specs.Prelude.{◌≡◌, ◌+◌, ◌-◌, ◌*◌, ◌^◌, ◌<◌, ◌≤◌, ◌++◌, ℕ, not, min, map, replicate, IfOk, IfErr};
ghost use Rattle.shredding.specs.Parts.{keeps};
ghost use Rattle.columns_array.specs.Boxed.{boxed};
ghost use Rattle.columns_base.specs.declared.error.Error.TheVariants.{Memory};
ghost use Rattle.columns_slots.specs.Slots.{mask_of, tree_len};
ghost use Rattle.pq_tree.specs.Views.{physical_view};
ghost use Rattle.pq_files.specs.Layout.{filler, plain_length, plain_size};
ghost use Rattle.pq_files.specs.Room.{max_size};
ghost use Rattle.write_places.specs.Places.{range};
ghost use Rattle.write_values.specs.Rows.{AppendsRow};
ghost use Rattle.dictionary_pages.specs.Entries.{stored_entries, stored_entry_at};
ghost use Rattle.dictionary_pages.specs.Leaves.{IsEntryLeaf};

use columns_array::ArrayBox;
use columns_base::PhysicalType;
use columns_core::Result;
use write_values::{Leaf, push_stretch, stretch_size};

// The bytes of what stands in the place of a null entry: of a zero, or of the length of no bytes.
fn filler_size(physical_type: PhysicalType) -> usize
    ensures { result ≡ plain_size (physical_view physical_type) (filler (physical_view physical_type)) }
{
    match physical_type {
        PhysicalType::Int64 => 8,
        PhysicalType::FixedLenByteArray(size) => size,
        PhysicalType::Int32 | PhysicalType::ByteArray => 4,
        PhysicalType::Boolean | PhysicalType::Int96 => 4,
        PhysicalType::Float | PhysicalType::Double => 4,
    }
}

// Entries side by side that are null, or that are not.
#[derive(Clone, Copy, Drop)]
struct Stretch {
    are_null: bool,
    end: usize,
}

// Those from a place on.
#[tactic(auto, using(columns_array::proofs::Nulls::mask_bit, columns_array::proofs::Keys::kept_bit))]
fn stretch_at(entries: &ArrayBox, from: usize, to: usize) -> Stretch
    requires some { from < to }
    requires within { to ≤ tree_len (boxed entries.now) }
    ensures after { from < result.end }
    ensures within { result.end ≤ to }
    ensures alike { (i : ℕ) → from ≤ i → i < result.end → keeps (mask_of (boxed entries.now)) i ≡ not result.are_null }
{
    entries.know();
    match entries.validity() {
        None => Stretch {
            are_null: false,
            end: to,
        },
        Some(mask) => {
            let is_there = mask.get_bit(from);
            Stretch {
                are_null: !is_there,
                end: mask.run_end(from, to, is_there),
            }
        }
    }
}

// The number of bytes of the plain spelling of a stretch from a place on.
fn size_of(
    entries: &ArrayBox,
    leaf: Leaf<'_>,
    physical_type: PhysicalType,
    from: usize,
    stretch: Stretch,
) -> u128
    requires leaf { IsEntryLeaf (boxed entries.now) (physical_view physical_type) leaf }
    requires ordered { from ≤ stretch.end }
    requires within { stretch.end ≤ tree_len (boxed entries.now) }
    requires alike { (i : ℕ) → from ≤ i → i < stretch.end → keeps (mask_of (boxed entries.now)) i
        ≡ not stretch.are_null }
    ensures { result ≡ plain_length (physical_view physical_type)
        (map (stored_entry_at (boxed entries.now) (physical_view physical_type)) (range from (stretch.end - from))) }
{
    entries.know();
    if stretch.are_null {
        return (stretch.end - from) as u128 * filler_size(physical_type) as u128;
    }
    stretch_size(leaf, from, stretch.end)
}

// The number of bytes of the plain spelling of all entries, up to the largest number.
pub fn entries_size(entries: &ArrayBox, leaf: Leaf<'_>, physical_type: PhysicalType) -> u128
    requires leaf { IsEntryLeaf (boxed entries.now) (physical_view physical_type) leaf }
    ensures { result ≡ min (plain_length (physical_view physical_type)
        (stored_entries (boxed entries.now) (physical_view physical_type))) (2 ^ 128 - 1) }
{
    let count = entries.len();
    let mut size = 0u128;
    let mut at = 0;
    while at < count {
        let stretch = stretch_at(entries, at, count);
        size = size.saturating_add(size_of(entries, leaf, physical_type, at, stretch));
        at = stretch.end;
    }
    size
}

// Appends so many fillers.
fn push_fillers(physical_type: PhysicalType, count: usize, out: Vec<u8>) -> Result<Vec<u8>>
    requires small { count * plain_size (physical_view physical_type) (filler (physical_view physical_type))
        ≤ max_size }
    ensures ok { IfOk result (λ after. after.items ≡ out.items ++ replicate
        (count * plain_size (physical_view physical_type) (filler (physical_view physical_type))) 0) }
    ensures err { IfErr result (λ e. e ≡ Memory) }
{
    let bytes = count * filler_size(physical_type);
    let mut out = out;
    out.resize(out.len() + bytes, 0)?;
    Ok(out)
}

// Appends the plain spelling of a stretch from a place on.
fn push_one(
    entries: &ArrayBox,
    leaf: Leaf<'_>,
    physical_type: PhysicalType,
    from: usize,
    stretch: Stretch,
    out: Vec<u8>,
) -> Result<Vec<u8>>
    requires leaf { IsEntryLeaf (boxed entries.now) (physical_view physical_type) leaf }
    requires ordered { from ≤ stretch.end }
    requires within { stretch.end ≤ tree_len (boxed entries.now) }
    requires alike { (i : ℕ) → from ≤ i → i < stretch.end → keeps (mask_of (boxed entries.now)) i
        ≡ not stretch.are_null }
    requires small { plain_length (physical_view physical_type) (map
        (stored_entry_at (boxed entries.now) (physical_view physical_type)) (range from (stretch.end - from)))
        ≤ max_size }
    ensures ok { IfOk result (λ after. AppendsRow (physical_view physical_type) out.items after.items
        (map (stored_entry_at (boxed entries.now) (physical_view physical_type)) (range from (stretch.end - from)))) }
    ensures err { IfErr result (λ e. e ≡ Memory) }
{
    entries.know();
    if stretch.are_null {
        let filled = push_fillers(physical_type, stretch.end - from, out)?;
        return Ok(filled);
    }
    let spelled = push_stretch(leaf, from, stretch.end, out)?;
    Ok(spelled)
}

// Appends the plain spelling of all entries, which has at most 2^31 - 1 bytes.
pub fn push_entries(
    entries: &ArrayBox,
    leaf: Leaf<'_>,
    physical_type: PhysicalType,
    out: Vec<u8>,
) -> Result<Vec<u8>>
    requires leaf { IsEntryLeaf (boxed entries.now) (physical_view physical_type) leaf }
    requires small { plain_length (physical_view physical_type) (stored_entries (boxed entries.now)
        (physical_view physical_type)) ≤ max_size }
    ensures ok { IfOk result (λ after. AppendsRow (physical_view physical_type) out.items after.items
        (stored_entries (boxed entries.now) (physical_view physical_type))) }
    ensures err { IfErr result (λ e. e ≡ Memory) }
{
    let count = entries.len();
    let mut out = out;
    let mut at = 0;
    while at < count {
        let stretch = stretch_at(entries, at, count);
        out = push_one(entries, leaf, physical_type, at, stretch, out)?;
        at = stretch.end;
    }
    Ok(out)
}
