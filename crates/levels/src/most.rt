//! A bound on the number of level pairs, for which no list is looked at.
ghost use Rattle.std.specs.Prelude.{◌≡◌, ℕ, ◌-◌, ◌^◌, ◌≤◌, length, min};
ghost use Rattle.shredding.specs.Slot.{Value};
ghost use Rattle.shredding.specs.Parts.{IsPath};
ghost use Rattle.levels.specs.Nested.{part_of, parts_of, nested_column};
ghost use Rattle.levels.specs.Sizes.{RisesIn, AreRising};

use crate::nested::{Nested, slot_count};
use crate::ranges::get_max_length;

// Callers learn that a list's offsets rise.
fn know(part: &Nested)
    ensures { RisesIn (part_of part.now) }
{
    match part {
        Nested::Primitive(..) => {}
        Nested::List(list) => list.offsets.know(),
        Nested::LargeList(list) => list.offsets.know(),
        Nested::Struct(..) => {}
    }
}

// Callers learn that the offsets of all lists of a path rise.
fn know_all(nested: &[Nested])
    ensures { AreRising (parts_of nested.now) }
{
    let mut parts = nested;
    while let Some((part, rest)) = parts.split_first() {
        know(part);
        parts = rest;
    }
}

/// A number that the level pairs of a path do not pass: its slots and what its lists span together, or `usize::MAX` where that is more. No
/// list is looked at, so that many pairs cost no more than few.
pub fn most_values(nested: &[Nested]) -> usize
    requires { IsPath (parts_of nested.now) }
    ensures { (values : ℕ → Value) → min (length (nested_column values nested.now)) (2 ^ 64 - 1) ≤ result }
{
    know_all(nested);
    slot_count(nested).saturating_add(get_max_length(nested))
}
