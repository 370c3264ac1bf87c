//! Parts of a state, from one on to the leaf.
ghost use Rattle.std.specs.Prelude.{◌≡◌, ◌↔◌, ℕ, ◌+◌, ◌*◌, ◌<◌, ◌≤◌, ◌^◌, ◌&&◌, ◌||◌, IsTrue, length};
ghost use Rattle.shredding.specs.Shred.{max_definition, max_repetition};
ghost use Rattle.shredding.specs.Local.{inside};
ghost use Rattle.read_laws.specs.State.{kept_way, leaf_count, count as slot_count};
ghost use Rattle.read_laws.specs.Step.{bit, pushes};
ghost use Rattle.read_state.specs.Kinds.{all_kept, HasLongItems};

use crate::boxes::NestedBox;
use crate::kinds::Nested;

/// 1 for true, 0 for false.
pub fn bit(b: bool) -> usize
    ensures { result ≡ bit b }
{
    if b { 1 } else { 0 }
}

/// Whether a pair pushes to a part beneath `depth` lists and `def` definition levels.
pub fn pushes(rep: usize, level: usize, hidden: bool, depth: usize, def: usize) -> bool
    ensures { result ≡ pushes rep level hidden depth def }
{
    hidden || (rep <= depth && def <= level)
}

/// Whether both hold. Both are looked at.
pub fn both(a: bool, b: bool) -> bool
    ensures { result ≡ (a && b) }
{
    a && b
}

/// The length of the first part.
pub fn first_len(parts: &[NestedBox]) -> usize
    ensures { result ≡ slot_count (all_kept parts.now) }
{
    match parts {
        [] => 0,
        [part, ..] => part.len(),
    }
}

/// The nullable parts and lists of the parts.
pub fn top_of(parts: &[NestedBox]) -> usize
    ensures is { result ≡ max_definition (kept_way (all_kept parts.now)) }
    ensures most { result ≤ 2 * length parts.now }
{
    match parts {
        [] => 0,
        [NestedBox::Primitive(leaf), ..] => bit(leaf.is_nullable()),
        [part, rest @ ..] => bit(part.is_nullable()) + (bit(part.is_repeated()) + top_of(rest)),
    }
}

/// The lists of the parts.
pub fn lists_of(parts: &[NestedBox]) -> usize
    ensures is { result ≡ max_repetition (kept_way (all_kept parts.now)) }
    ensures most { result ≤ length parts.now }
{
    match parts {
        [] => 0,
        [NestedBox::Primitive(_), ..] => 0,
        [part, rest @ ..] => bit(part.is_repeated()) + lists_of(rest),
    }
}

/// The nullable parts and lists down to the list of this number.
pub fn inside_of(parts: &[NestedBox], rep: usize) -> usize
    ensures is { result ≡ inside (kept_way (all_kept parts.now)) rep }
    ensures most { result ≤ 2 * length parts.now }
{
    if rep == 0 {
        return 0;
    }
    match parts {
        [] => 0,
        [NestedBox::Primitive(_), ..] => 0,
        [part, rest @ ..] => {
            let list = bit(part.is_repeated());
            bit(part.is_nullable()) + (list + inside_of(rest, rep - list))
        }
    }
}

/// The length of the leaf.
pub fn leaf_len_of(parts: &[NestedBox]) -> usize
    ensures { result ≡ leaf_count (all_kept parts.now) }
{
    match parts {
        [] => 0,
        [NestedBox::Primitive(leaf), ..] => leaf.len(),
        [_, rest @ ..] => leaf_len_of(rest),
    }
}

/// Whether a part beneath a list has more slots than offsets of 64 bits count.
pub fn has_long_items(parts: &[NestedBox]) -> bool
    ensures { IsTrue result ↔ HasLongItems (all_kept parts.now) }
{
    match parts {
        [] => false,
        [part, rest @ ..] => {
            if part.is_repeated() && first_len(rest) >= 0x8000_0000_0000_0000 {
                return true;
            }
            has_long_items(rest)
        }
    }
}
