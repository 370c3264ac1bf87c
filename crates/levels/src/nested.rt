//! The parts of a path.
ghost use Rattle.std.specs.Prelude.{◌≡◌, ℕ, ◌+◌, ◌-◌, ◌<◌, ◌≤◌, ◌*◌, ◌∷◌, [], length, false};
ghost use Rattle.shredding.specs.Parts.{slot_count, path_way};
ghost use Rattle.shredding.specs.Shred.{max_repetition, max_definition};
ghost use Rattle.levels.specs.Nested.{part_of, parts_of, is_leaf, is_list, is_nullable};

use columns_core::{Bitmap, Offset, OffsetsBuffer};

/// A list of a path: for each list the places of its items in the next part, and which lists are not null.
#[derive(Debug, Drop)]
pub struct ListNested<O: Offset> {
    /// Whether a list may be null.
    pub is_optional: bool,
    /// The places of the items in the next part, one place more than there are lists.
    pub offsets: OffsetsBuffer<O>,
    /// False where a list is null. Not looked at where `is_optional` is false.
    pub validity: Option<Bitmap>,
}

impl<O: Offset> ListNested<O> {
    /// The list of these offsets.
    pub fn new(offsets: OffsetsBuffer<O>, validity: Option<Bitmap>, is_optional: bool) -> Self
        ensures { result ≡ record { is_optional = is_optional; offsets = offsets; validity = validity } }
    {
        ListNested {
            is_optional,
            offsets,
            validity,
        }
    }
}

/// A part of a path from a field to one of its leaves. Each has its mask, whether it is optional and its length, or offsets.
#[derive(Debug, PartialEq, Eq, Drop)]
pub enum Nested {
    /// The leaf, the last part of a path.
    Primitive(Option<Bitmap>, bool, usize),
    /// A list or a map.
    List(ListNested<i32>),
    /// A list with offsets of 64 bits.
    LargeList(ListNested<i64>),
    /// A struct: the path goes on through one of its children.
    Struct(Option<Bitmap>, bool, usize),
}

impl Nested {
    /// The number of slots of this part.
    pub fn len(&self) -> usize
        ensures { result ≡ slot_count (part_of self.now ∷ []) }
    {
        match self {
            Nested::Primitive(_, _, count) | Nested::Struct(_, _, count) => *count,
            Nested::List(list) => list.offsets.len_proxy(),
            Nested::LargeList(list) => list.offsets.len_proxy(),
        }
    }

    fn is_leaf(&self) -> bool
        ensures { result ≡ is_leaf self.now }
    {
        matches!(self, Nested::Primitive(..))
    }

    fn is_list(&self) -> bool
        ensures { result ≡ is_list self.now }
    {
        matches!(self, Nested::List(_) | Nested::LargeList(_))
    }

    fn is_nullable(&self) -> bool
        ensures { result ≡ is_nullable self.now }
    {
        match self {
            Nested::Primitive(_, is_optional, _) | Nested::Struct(_, is_optional, _) =>
                *is_optional,
            Nested::List(list) => list.is_optional,
            Nested::LargeList(list) => list.is_optional,
        }
    }
}

/// The largest repetition level of a path: the number of its lists.
#[tactic(auto, using(crate::proofs::Maxima::repetition_step))]
pub fn max_rep_level(nested: &[Nested]) -> usize
    ensures { result ≡ max_repetition (path_way (parts_of nested.now)) }
{
    let mut lists: usize = 0;
    for part in nested {
        if part.is_leaf() {
            break;
        }
        if part.is_list() {
            lists += 1;
        }
    }
    lists
}

/// Whether a path may have lists: `false` only where it has none. No part is looked at behind its first list.
#[tactic(auto, using(crate::proofs::Maxima::repetition_step))]
pub fn has_lists(nested: &[Nested]) -> bool
    ensures { result ≡ false → max_repetition (path_way (parts_of nested.now)) ≡ 0 }
{
    for part in nested {
        if part.is_leaf() {
            return false;
        }
        if part.is_list() {
            return true;
        }
    }
    false
}

/// The largest definition level of a path: the number of its lists and optional parts.
#[tactic(auto, using(crate::proofs::Maxima::definition_step))]
pub fn max_def_level(nested: &[Nested]) -> usize
    ensures { result ≡ max_definition (path_way (parts_of nested.now)) }
{
    let mut levels: usize = 0;
    for part in nested {
        if part.is_nullable() {
            levels += 1;
        }
        if part.is_leaf() {
            break;
        }
        if part.is_list() {
            levels += 1;
        }
    }
    levels
}

/// The number of slots of a path: the length of its first part, and 0 where it has none.
pub fn slot_count(nested: &[Nested]) -> usize
    ensures { result ≡ slot_count (parts_of nested.now) }
{
    match nested.first() {
        None => 0,
        Some(part) => part.len(),
    }
}
