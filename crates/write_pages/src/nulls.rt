//! The nulls of arrays of nulls alone, in the masks of their paths (Arrow columnar format, "Null Layout").
ghost use Rattle.std.specs.Prelude.{◌≡◌, ◌⊎◌, ◌≤◌, ℕ, List, Some, true, false, map, replicate, All, IfOk, IfErr};
ghost use Rattle.shredding.specs.Along.{IsAlong};
ghost use Rattle.shredding.specs.Parts.{IsPath, path_slots, path_way};
ghost use Rattle.columns_array.specs.Boxed.{boxed};
ghost use Rattle.columns_base.specs.declared.error.Error.TheVariants.{Memory, InvalidArgumentError};
ghost use Rattle.columns_base.specs.declared.error.A.TheVariants.{A8};
ghost use Rattle.columns_core.specs.Shapes.{base};
ghost use Rattle.columns_slots.specs.Slots.{tree_len, type_of};
ghost use Rattle.columns_slots.specs.Types.{is_null_type};
ghost use Rattle.levels.specs.Nested.{part_of, parts_of};
ghost use Rattle.levels.specs.Ranges.{leaf_count_or};
ghost use Rattle.nested_paths.specs.Seen.{leaf_slot};
ghost use Rattle.write_places.specs.Places.{path_places};
ghost use Rattle.write_pages.specs.Nulls.{IsSeenPath, LooksAt, hidden};

use columns_array::ArrayBox;
use columns_core::{A, Bitmap, DataType, Error, MutableBitmap, Result};
use levels::Nested;
use std::alloc::Global;
use write_places::{Taker, take_places};

/// Whether the array has nulls alone.
pub fn is_null(array: &ArrayBox) -> bool
    ensures { result ≡ is_null_type (base (type_of (boxed array.now))) }
{
    matches!(array.data_type().base(), DataType::Null)
}

// Looks whether there is a place, of so many.
#[derive(Drop)]
struct Looking {
    places: usize,
    is_some: bool,
}

impl Taker for Looking {
    ghost use Rattle.std.specs.Prelude.{◌≡◌, ℕ, List, refl};
    ghost use Rattle.write_pages.specs.Nulls.{LooksAt, looks_none};

    ghost limit = { λ s. s.places };

    ghost has = { λ a b taken. (b.places ≡ a.places) × LooksAt a.places taken a.is_some b.is_some };

    ghost sound = { λ s. Unit {0} };

    ghost accepts = { λ s taken. Unit {0} };

    ghost refuses = { λ s e. ⊥ };

    ghost none = { λ s. (refl, looks_none s.places s.is_some) };

    ghost front = { λ s xs ys h. tt };

    ghost back = { λ s xs ys h. tt };

    fn take(&mut self, from: usize, to: usize) -> Result<()> {
        self.is_some = true;
        Ok(())
    }

    fn take_some(&mut self, from: usize, bits: u64, count: usize) -> Result<()> {
        self.is_some |= bits.count_ones() > 0;
        Ok(())
    }
}

// Whether the path reaches a place of its leaf, which has so many.
fn reaches_place(places: usize, nested: &[Nested]) -> bool
    requires well { IsPath (parts_of nested.now) }
    requires leaf { leaf_count_or 0 (parts_of nested.now) ≤ places }
    ensures { LooksAt places (path_places (parts_of nested.now)) false result }
{
    let mut looking = Looking {
        places,
        is_some: false,
    };
    match take_places(&mut looking, nested) {
        Ok(()) => looking.is_some,
        Err(_) => unreachable!(),
    }
}

// A mask that keeps no position.
fn empty_mask(alloc: Global, count: usize) -> Result<Bitmap>
    ensures ok { IfOk result (λ mask. mask ≡ replicate count false) }
    ensures err { IfErr result (λ e. e ≡ Memory) }
{
    let mut bits = MutableBitmap::with_capacity(alloc, count)?;
    bits.extend_constant(count, false)?;
    bits.into_bitmap()
}

// The part, of which no position is kept if it is a leaf.
fn hidden_part(alloc: Global, part: &Nested) -> Result<Nested>
    ensures ok { IfOk result (λ p. part_of p ≡ hidden (part_of part.now)) }
    ensures err { IfErr result (λ e. e ≡ Memory) }
{
    match part {
        Nested::Primitive(_, is_optional, count) => {
            let mask = empty_mask(alloc, *count)?;
            Ok(Nested::Primitive(Some(mask), *is_optional, *count))
        }
        Nested::List(_) | Nested::LargeList(_) | Nested::Struct(..) => part.clone(),
    }
}

// The path, of whose leaf no position is kept.
fn hidden_path(alloc: Global, nested: &[Nested]) -> Result<Vec<Nested>>
    ensures ok { IfOk result (λ path. parts_of path.items ≡ map hidden (parts_of nested.now)) }
    ensures err { IfErr result (λ e. e ≡ Memory) }
{
    let mut path = Vec::with_capacity(alloc, nested.len())?;
    for part in nested {
        path.push(hidden_part(alloc, part)?)?;
    }
    Ok(path)
}

/// The well-formed path over an array of nulls alone, with its nulls in the mask of its leaf. It takes memory for one mask.
///
/// # Errors
///
/// - `InvalidArgumentError(A8)` exactly where a null is reached and the leaf is required.
/// - `Memory`.
pub fn seen_path(alloc: Global, array: &ArrayBox, nested: &[Nested]) -> Result<Vec<Nested>>
    requires null { is_null_type (base (type_of (boxed array.now))) ≡ true }
    requires well { IsPath (parts_of nested.now) }
    requires leaf { tree_len (boxed array.now) ≡ leaf_count_or 0 (parts_of nested.now) }
    ensures ok { IfOk result (λ path. IsSeenPath (boxed array.now) (parts_of nested.now) (parts_of path.items)) }
    ensures reached { IfOk result (λ _. All (IsAlong (path_way (parts_of nested.now)))
        (path_slots (leaf_slot (boxed array.now)) (parts_of nested.now))) }
    ensures err { IfErr result (λ e. (e ≡ Memory) ⊎ ((e ≡ InvalidArgumentError A8)
        × ¬ All (IsAlong (path_way (parts_of nested.now)))
        (path_slots (leaf_slot (boxed array.now)) (parts_of nested.now)))) }
{
    array.know();
    let path = hidden_path(alloc, nested)?;
    if reaches_place(array.len(), &path) {
        return Err(Error::InvalidArgumentError(A::A8));
    }
    Ok(path)
}
