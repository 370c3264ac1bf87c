//! The path whose nulls are those that are seen: those of its masks, and keys of null entries.
ghost use Rattle.std.specs.Prelude.{◌≡◌, ◌<◌, true, false, All, IfOk, IfErr};
ghost use Rattle.shredding.specs.Along.{IsAlong};
ghost use Rattle.shredding.specs.Parts.{IsPath, MaskFits, keeps, path_slots, path_way};
ghost use Rattle.columns_base.specs.declared.error.Error.TheVariants.{Memory};
ghost use Rattle.columns_slots.specs.Slots.{child_of, tree_len};
ghost use Rattle.levels.specs.Nested.{part_of, parts_of};
ghost use Rattle.levels.specs.Ranges.{leaf_count_or};
ghost use Rattle.nested_paths.specs.LeafNulls.{is_value};
ghost use Rattle.nested_paths.specs.Seen.{leaf_slot};
ghost use Rattle.nested_paths.specs.ValueMasks.{is_valued};
ghost use Rattle.write_places.specs.Places.{path_places};
ghost use Rattle.dictionary_pages.specs.Seen.{FitsPart, IsSeenPath, seen_bits, seen_mask, seen_parts, with_mask};

use crate::each_place::{EachPlace, take_each};
use crate::keys::entry_at;
use columns_array::DictionaryArray;
use columns_core::{Bitmap, MutableBitmap, Result};
use levels::Nested;
use std::alloc::Global;

// Whether the key at a position names a value, and no null entry.
fn has_value(array: &DictionaryArray, i: usize) -> bool
    requires within { i < tree_len array.now }
    requires entries { is_valued (child_of array.now) ≡ true }
    ensures { result ≡ is_value (leaf_slot array.now i) }
{
    array.know();
    let entry = entry_at(array.keys(), i);
    if entry >= array.values().len() {
        return true;
    }
    !array.values().is_null_at(entry)
}

// Looks for keys of null entries.
#[derive(Drop)]
struct Looking<'a> {
    array: &'a DictionaryArray,
    found: bool,
    ghost entries: { is_valued (child_of array.now) ≡ true },
}

impl<'a> EachPlace for Looking<'a> {
    ghost use Rattle.std.specs.Prelude.{◌≡◌, refl};
    ghost use Rattle.columns_slots.specs.Slots.{tree_len};
    ghost use Rattle.dictionary_pages.specs.Seen.{Looks, looks-none};

    ghost limit = { λ s. tree_len s.array.now };

    ghost has = { λ a b places. (b.array.now ≡ a.array.now) × Looks a.array.now places a.found b.found };

    ghost accepts = { λ s i. Unit {0} };

    ghost refuses = { λ s e. ⊥ };

    ghost none = { λ s. (refl, looks-none s.array.now s.found) };

    fn len(&self) -> usize {
        self.array.len()
    }

    fn take_one(&mut self, place: usize) -> Result<()> {
        self.found |= !has_value(self.array, place);
        Ok(())
    }
}

// Whether a well-formed path reaches a key of a null entry.
fn reaches_null(array: &DictionaryArray, nested: &[Nested]) -> bool
    requires well { IsPath (parts_of nested.now) }
    requires leaf { tree_len array.now ≡ leaf_count_or 0 (parts_of nested.now) }
    requires entries { is_valued (child_of array.now) ≡ true }
    ensures within { All (λ i. i < tree_len array.now) (path_places (parts_of nested.now)) }
    ensures none { result ≡ false → All (λ i. is_value (leaf_slot array.now i) ≡ true)
        (path_places (parts_of nested.now)) }
{
    let looking = Looking {
        array,
        found: false,
    };
    match take_each(looking, nested) {
        Ok(looked) => looked.found,
        Err(_) => unreachable!(),
    }
}

// Whether a mask keeps a position.
#[tactic(auto, using(columns_array::proofs::Keys::mask_long, columns_array::proofs::Keys::kept_bit))]
fn is_kept(mask: &Option<Bitmap>, i: usize, count: usize) -> bool
    requires fits { MaskFits mask.now count }
    requires within { i < count }
    ensures { result ≡ keeps mask.now i }
{
    match mask {
        Some(mask) => mask.get_bit(i),
        None => true,
    }
}

// A mask of the positions that another one keeps and whose keys number entries that are not null.
#[tactic(auto, using(crate::proofs::SeenPaths::bits_none, crate::proofs::SeenPaths::bits_more))]
fn seen_mask(alloc: Global, array: &DictionaryArray, mask: &Option<Bitmap>) -> Result<Bitmap>
    requires fits { MaskFits mask.now (tree_len array.now) }
    requires entries { is_valued (child_of array.now) ≡ true }
    ensures ok { IfOk result (λ seen. seen ≡ seen_bits array.now mask.now) }
    ensures err { IfErr result (λ e. e ≡ Memory) }
{
    let mut seen = MutableBitmap::with_capacity(alloc, array.len())?;
    for i in 0..array.len() {
        seen.push(is_kept(mask, i, array.len()) && has_value(array, i))?;
    }
    seen.into_bitmap()
}

// The part of the path with the nulls of the entries, if it is the leaf.
fn seen_part(alloc: Global, array: &DictionaryArray, part: &Nested) -> Result<Nested>
    requires fits { FitsPart array.now (part_of part.now) }
    requires entries { is_valued (child_of array.now) ≡ true }
    ensures ok { IfOk result (λ seen. part_of seen ≡ with_mask (seen_mask array.now) (part_of part.now)) }
    ensures err { IfErr result (λ e. e ≡ Memory) }
{
    match part {
        Nested::Primitive(mask, is_optional, count) => {
            let seen = seen_mask(alloc, array, mask)?;
            Ok(Nested::Primitive(Some(seen), *is_optional, *count))
        }
        _ => part.clone(),
    }
}

// The path with the nulls of the entries in the mask of its leaf. All else is shared.
#[tactic(auto, using(crate::proofs::SeenPaths::fits_at, crate::proofs::SeenPaths::parts_more))]
fn merged_path(alloc: Global, array: &DictionaryArray, nested: &[Nested]) -> Result<Vec<Nested>>
    requires fits { All (FitsPart array.now) (parts_of nested.now) }
    requires entries { is_valued (child_of array.now) ≡ true }
    ensures ok { IfOk result (λ path. parts_of path.items ≡ seen_parts array.now (parts_of nested.now)) }
    ensures err { IfErr result (λ e. e ≡ Memory) }
{
    let mut path = Vec::with_capacity(alloc, nested.len())?;
    for part in nested {
        path.push(seen_part(alloc, array, part)?)?;
    }
    Ok(path)
}

fn copy_part(part: &Nested) -> Result<Nested>
    ensures ok { IfOk result (λ p. p ≡ part.now) }
    ensures err { IfErr result (λ e. e ≡ Memory) }
{
    part.clone()
}

// The same path. Its masks and offsets are shared.
fn copy_path(alloc: Global, nested: &[Nested]) -> Result<Vec<Nested>>
    ensures ok { IfOk result (λ path. path.items ≡ nested.now) }
    ensures err { IfErr result (λ e. e ≡ Memory) }
{
    let mut path = Vec::with_capacity(alloc, nested.len())?;
    for part in nested {
        path.push(copy_part(part)?)?;
    }
    Ok(path)
}

// The path whose nulls are those that are seen.
pub fn seen_path(alloc: Global, array: &DictionaryArray, nested: &[Nested]) -> Result<Vec<Nested>>
    requires well { IsPath (parts_of nested.now) }
    requires leaf { tree_len array.now ≡ leaf_count_or 0 (parts_of nested.now) }
    requires entries { is_valued (child_of array.now) ≡ true }
    requires along { All (IsAlong (path_way (parts_of nested.now)))
        (path_slots (leaf_slot array.now) (parts_of nested.now)) }
    ensures ok { IfOk result (λ seen. IsSeenPath array.now (parts_of nested.now) (parts_of seen.items)) }
    ensures err { IfErr result (λ e. e ≡ Memory) }
{
    if reaches_null(array, nested) {
        let path = merged_path(alloc, array, nested)?;
        return Ok(path);
    }
    let path = copy_path(alloc, nested)?;
    Ok(path)
}
