//! The nulls of a leaf array in the mask of its path.
ghost use Rattle.std.specs.Prelude.{◌≡◌, ◌↔◌, ◌<◌, ◌≤◌, ℕ, IsTrue, false, Some, IfOk, IfErr, OnOk, length, map, replicate, slice_index_or};
ghost use Rattle.columns_base.specs.declared.error.Error.TheVariants.{Memory};
ghost use Rattle.columns_core.specs.Bits.{bits_eq};
ghost use Rattle.shredding.specs.Parts.{slot_count, path_way, MaskFits};
ghost use Rattle.columns_slots.specs.Slots.{tree_len, mask_of};
ghost use Rattle.columns_array.specs.Boxed.{boxed};
ghost use Rattle.levels.specs.InBounds.{IsInBounds};
ghost use Rattle.levels.specs.Nested.{part_of, parts_of, is_large};
ghost use Rattle.levels.specs.Ranges.{leaf_count_or};
ghost use Rattle.nested_slice.specs.CutPath.{AreRising, Rises};
ghost use Rattle.nested_paths.specs.LeafNulls.{with_leaf_mask, MergesNulls};
ghost use Rattle.nested_paths.specs.PathLeaf.{is_leaf_optional, FitsLeaf};
ghost use Rattle.nested_paths.specs.ValueMasks.{holds_values, present_slots, HasContent, KeepAlike, IsValueMask};

use columns_array::{ArrayBox, DictionaryArray};
use columns_base::Result;
use columns_core::{Bitmap, MutableBitmap};
use levels::Nested;
use std::alloc::Global;

// Where the words of 64 of two masks end that are the same.
fn same_end(a: &Bitmap, b: &Bitmap, size: usize) -> usize
    requires within { size ≤ length a.now }
    requires other { size ≤ length b.now }
    ensures within { result ≤ size }
    ensures same { (i : ℕ) → i < result → slice_index_or a.now i false ≡ slice_index_or b.now i false }
{
    let mut place = 0;
    while size - place >= 64 {
        if a.word_at(place, 64) != b.word_at(place, 64) {
            return place;
        }
        place += 64;
    }
    place
}

// Whether two masks are the same, word by word: true only where they are.
fn same_words(a: &Bitmap, b: &Bitmap) -> bool
    ensures { IsTrue result → a.now ≡ b.now }
{
    let size = a.len();
    if size != b.len() {
        return false;
    }
    let place = same_end(a, b, size);
    let count = size - place;
    if count > 64 {
        return false;
    }
    if a.word_at(place, count) != b.word_at(place, count) {
        return false;
    }
    true
}

// Whether two masks are the same.
fn same_masks(a: &Bitmap, b: &Bitmap) -> bool
    ensures { result ≡ bits_eq a.now b.now }
{
    if same_words(a, b) {
        return true;
    }
    *a == *b
}

// Whether both masks, of as many positions, keep the same ones.
fn keep_alike(mask: &Option<Bitmap>, array: &ArrayBox) -> bool
    requires { MaskFits mask.now (tree_len (boxed array.now)) }
    ensures { IsTrue result ↔ KeepAlike mask.now (mask_of (boxed array.now)) (tree_len (boxed array.now)) }
{
    array.know();
    let Some(mask) = mask else {
        return match array.validity() {
            None => true,
            Some(other) => other.unset_bits() == 0,
        };
    };
    match array.validity() {
        None => mask.unset_bits() == 0,
        Some(other) => same_masks(mask, other),
    }
}

/// Whether the array is one of the path's leaf: it has as many positions, and where the leaf is optional its mask and that of the path are
/// unset at the same ones.
pub fn fits_leaf(array: &ArrayBox, nested: &[Nested]) -> bool
    requires { IsInBounds (parts_of nested.now) }
    ensures { IsTrue result ↔ FitsLeaf (boxed array.now) (parts_of nested.now) }
{
    match &nested[nested.len() - 1] {
        Nested::Primitive(mask, is_optional, count) => {
            *count == array.len() && (!*is_optional || keep_alike(mask, array))
        }
        _ => false,
    }
}

// What the positions of an array have, nulls aside.
#[derive(Clone, Copy, Drop)]
enum Content<'a> {
    // nothing: there are nulls alone, or lists or structs
    Nothing,
    // a value each
    Values,
    // the entry of a key each
    Entries(&'a DictionaryArray),
}

fn content_of(array: &ArrayBox) -> Content<'_>
    ensures { HasContent (boxed array.now) result }
{
    match array {
        ArrayBox::Null(_) => Content::Nothing,
        ArrayBox::List(lists) => {
            lists.know();
            Content::Nothing
        }
        ArrayBox::LargeList(lists) => {
            lists.know();
            Content::Nothing
        }
        ArrayBox::Map(maps) => {
            maps.know();
            Content::Nothing
        }
        ArrayBox::Struct(structs) => {
            structs.know();
            Content::Nothing
        }
        ArrayBox::FixedSizeList(lists) => {
            lists.know();
            Content::Nothing
        }
        ArrayBox::Dictionary(keyed) => {
            keyed.know();
            Content::Entries(keyed)
        }
        _ => Content::Values,
    }
}

// Whether the slots that are not null are values.
fn holds_values(array: &ArrayBox) -> bool
    ensures { result ≡ holds_values (boxed array.now) }
{
    match content_of(array) {
        Content::Nothing => false,
        Content::Values => true,
        Content::Entries(keyed) => holds_values(keyed.values()),
    }
}

// A mask that keeps the positions that are not null.
#[tactic(auto, using(crate::proofs::Values::present_none, crate::proofs::Values::present_more))]
fn present_mask(alloc: Global, keyed: &DictionaryArray) -> Result<Bitmap>
    ensures ok { IfOk result (λ mask. mask ≡ present_slots keyed.now) }
    ensures err { IfErr result (λ e. e ≡ Memory) }
{
    let mut bits = MutableBitmap::with_capacity(alloc, keyed.len())?;
    for i in 0..keyed.len() {
        bits.push(!keyed.is_null_at(i))?;
    }
    bits.into_bitmap()
}

// A mask that keeps no position.
fn empty_mask(alloc: Global, count: usize) -> Result<Option<Bitmap>>
    ensures ok { IfOk result (λ mask. mask ≡ Some (replicate count false)) }
    ensures err { IfErr result (λ e. e ≡ Memory) }
{
    let mut bits = MutableBitmap::with_capacity(alloc, count)?;
    bits.extend_constant(count, false)?;
    Ok(Some(bits.into_bitmap()?))
}

// The same of a dictionary.
fn entry_mask(alloc: Global, keyed: &DictionaryArray) -> Result<Option<Bitmap>>
    ensures ok { IfOk result (λ mask. IsValueMask keyed.now mask) }
    ensures err { IfErr result (λ e. e ≡ Memory) }
{
    keyed.know();
    if !holds_values(keyed.values()) {
        return empty_mask(alloc, keyed.len());
    }
    if keyed.values().null_count() == 0 {
        return Ok(None);
    }
    Ok(Some(present_mask(alloc, keyed)?))
}

// A mask of the positions that have a value, or none where the array's own mask is one.
fn value_mask(alloc: Global, array: &ArrayBox) -> Result<Option<Bitmap>>
    ensures ok { IfOk result (λ mask. IsValueMask (boxed array.now) mask) }
    ensures err { IfErr result (λ e. e ≡ Memory) }
{
    match content_of(array) {
        Content::Nothing => empty_mask(alloc, array.len()),
        Content::Values => Ok(None),
        Content::Entries(keyed) => entry_mask(alloc, keyed),
    }
}

fn is_leaf_optional(nested: &[Nested]) -> bool
    requires { IsInBounds (parts_of nested.now) }
    ensures { result ≡ is_leaf_optional (parts_of nested.now) }
{
    match &nested[nested.len() - 1] {
        Nested::Primitive(_, is_optional, _) => *is_optional,
        _ => false,
    }
}

fn set_leaf_mask(nested: &mut [Nested], values: Bitmap)
    requires in_bounds { IsInBounds (parts_of nested.old) }
    ensures parts { parts_of nested.new ≡ with_leaf_mask (Some values) (parts_of nested.old) }
    ensures kinds { map is_large nested.new ≡ map is_large nested.old }
{
    let last = nested.len() - 1;
    if let Nested::Primitive(mask, _, _) = &mut nested[last] {
        *mask = Some(values);
    }
}

// The offsets of lists never fall.
fn know_rising(nested: &[Nested])
    ensures { AreRising (parts_of nested.now) }
{
    for part in nested {
        know_rising_part(part);
    }
}

fn know_rising_part(part: &Nested)
    ensures { Rises (part_of part.now) }
{
    match part {
        Nested::List(list) => list.offsets.know(),
        Nested::LargeList(list) => list.offsets.know(),
        Nested::Primitive(..) | Nested::Struct(..) => {}
    }
}

/// Merges the nulls of a leaf array into its path, so that the levels of the path are those of the slots: the mask of the leaf, where it is
/// optional, is then unset also at each position of a null array and at the keys of null entries (Arrow columnar format, "Null Layout" and
/// "Dictionary-encoded Layout"). Every other path stays as it is. It takes memory for one mask at most.
///
/// The conditions can be tested: `levels::is_in_bounds` tells paths in bounds, and `fits_leaf` their leaf arrays. What `to_nested` and
/// `to_leaves` give meets them.
///
/// # Errors
///
/// `Memory`: memory ran out. The path is then as it was.
pub fn merge_nulls(alloc: Global, array: &ArrayBox, nested: &mut [Nested]) -> Result<()>
    requires in_bounds { IsInBounds (parts_of nested.old) }
    requires fits { FitsLeaf (boxed array.now) (parts_of nested.old) }
    ensures ok { OnOk result (MergesNulls (boxed array.now) (parts_of nested.old) (parts_of nested.new)) }
    ensures in_bounds { IsInBounds (parts_of nested.new) }
    ensures leaf { leaf_count_or 0 (parts_of nested.new) ≡ tree_len (boxed array.now) }
    ensures rows { slot_count (parts_of nested.new) ≡ slot_count (parts_of nested.old) }
    ensures way { path_way (parts_of nested.new) ≡ path_way (parts_of nested.old) }
    ensures kinds { map is_large nested.new ≡ map is_large nested.old }
    ensures rising { AreRising (parts_of nested.old) }
    ensures err { IfErr result (λ e. (e ≡ Memory) × (nested.new ≡ nested.old)) }
{
    know_rising(nested);
    if !is_leaf_optional(nested) {
        return Ok(());
    }
    if let Some(values) = value_mask(alloc, array)? {
        set_leaf_mask(nested, values);
    }
    Ok(())
}
