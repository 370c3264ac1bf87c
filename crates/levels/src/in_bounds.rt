//! The test of a path that is merely in bounds.
ghost use Rattle.std.specs.Prelude.{◌≡◌, ℕ, ◌+◌, ◌-◌, ◌<◌, ◌≤◌, ◌↔◌, IsTrue, length, List};
ghost use Rattle.shredding.specs.Parts.{list_part};
ghost use Rattle.levels.specs.InBounds.{ReachesInto, IsInBounds};
ghost use Rattle.levels.specs.Nested.{part_of, parts_of};

use crate::nested::{ListNested, Nested, slot_count};
use crate::well_formed::mask_fits;
use columns_core::Offset;

fn list_reaches_into<O: Offset>(list: &ListNested<O>, rest: &[Nested]) -> bool
    ensures { IsTrue result ↔ ReachesInto (list_part list.now.is_optional list.now.validity list.now.offsets)
        (parts_of rest.now) }
{
    let lists = list.offsets.len_proxy();
    mask_fits(&list.validity, lists)
        && list.offsets.place(lists) <= slot_count(rest)
        && !rest.is_empty()
}

fn reaches_into(part: &Nested, rest: &[Nested]) -> bool
    ensures { IsTrue result ↔ ReachesInto (part_of part.now) (parts_of rest.now) }
{
    match part {
        Nested::Primitive(mask, _, count) => mask_fits(mask, *count) && rest.is_empty(),
        Nested::List(list) => list_reaches_into(list, rest),
        Nested::LargeList(list) => list_reaches_into(list, rest),
        Nested::Struct(mask, _, count) => {
            mask_fits(mask, *count) && slot_count(rest) == *count && !rest.is_empty()
        }
    }
}

/// Whether a path is in bounds: it ends in its only `Primitive`, each mask is as long as its part, a struct's child is as long as the
/// struct, and a list's child has at least as many slots as the last offset.
pub fn is_in_bounds(nested: &[Nested]) -> bool
    ensures { IsTrue result ↔ IsInBounds (parts_of nested.now) }
{
    if nested.is_empty() {
        return false;
    }
    let mut parts = nested;
    while let Some((part, rest)) = parts.split_first() {
        if !reaches_into(part, rest) {
            return false;
        }
        parts = rest;
    }
    true
}
