//! The test of a path.
ghost use Rattle.std.specs.Prelude.{◌≡◌, ℕ, ◌+◌, ◌-◌, ◌<◌, ◌≤◌, ◌↔◌, IsTrue, length, List};
ghost use Rattle.columns_core.specs.Rising.{IsRising};
ghost use Rattle.shredding.specs.Parts.{FitsAbove, IsPath, MaskFits, item_span, list_part};
ghost use Rattle.levels.specs.Nested.{part_of, parts_of};

use crate::nested::{ListNested, Nested, slot_count};
use columns_core::{Bitmap, Offset, OffsetsBuffer};

pub(crate) fn mask_fits(mask: &Option<Bitmap>, count: usize) -> bool
    ensures { IsTrue result ↔ MaskFits mask.now count }
{
    match mask {
        None => true,
        Some(mask) => mask.len() == count,
    }
}

// The places that lists span: the last offset less the first.
#[tactic(auto, using(crate::proofs::Rising::rising))]
pub(crate) fn span<O: Offset>(offsets: &OffsetsBuffer<O>) -> usize
    ensures { result ≡ item_span offsets.now }
{
    offsets.know();
    offsets.place(offsets.len_proxy()) - offsets.place(0)
}

fn list_fits<O: Offset>(list: &ListNested<O>, rest: &[Nested]) -> bool
    ensures { IsTrue result ↔ FitsAbove (list_part list.now.is_optional list.now.validity list.now.offsets)
        (parts_of rest.now) }
{
    mask_fits(&list.validity, list.offsets.len_proxy())
        && slot_count(rest) == span(&list.offsets)
        && !rest.is_empty()
}

fn fits_above(part: &Nested, rest: &[Nested]) -> bool
    ensures { IsTrue result ↔ FitsAbove (part_of part.now) (parts_of rest.now) }
{
    match part {
        Nested::Primitive(mask, _, count) => mask_fits(mask, *count) && rest.is_empty(),
        Nested::List(list) => list_fits(list, rest),
        Nested::LargeList(list) => list_fits(list, rest),
        Nested::Struct(mask, _, count) => {
            mask_fits(mask, *count) && slot_count(rest) == *count && !rest.is_empty()
        }
    }
}

/// Whether a path is well formed: it ends in its only `Primitive`, each mask is as long as its part, and each later part has as many
/// slots as the one above it spans. A struct spans its length, a list its last offset less its first.
pub fn is_well_formed(nested: &[Nested]) -> bool
    ensures { IsTrue result ↔ IsPath (parts_of nested.now) }
{
    if nested.is_empty() {
        return false;
    }
    let mut parts = nested;
    while let Some((part, rest)) = parts.split_first() {
        if !fits_above(part, rest) {
            return false;
        }
        parts = rest;
    }
    true
}
