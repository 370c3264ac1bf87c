//! `==` is true exactly where all parts are the same.
ghost use Rattle.std.specs.Prelude.{◌≡◌, ◌↔◌, IsTrue};
ghost use Rattle.levels.specs.Same.{places_eq};

use crate::nested::{ListNested, Nested};
use columns_core::{Offset, OffsetsBuffer};

// Whether two lists of places are the same.
fn is_same_offsets<O: Offset>(a: &OffsetsBuffer<O>, b: &OffsetsBuffer<O>) -> bool
    ensures { IsTrue result ↔ a.now ≡ b.now }
{
    let count = a.buffer().len();
    if count != b.buffer().len() {
        return false;
    }
    for i in 0..count {
        if a.place(i) != b.place(i) {
            return false;
        }
    }
    true
}

impl<O: Offset> PartialEq for ListNested<O> {
    ghost use Rattle.levels.specs.Same.{lists_eq, lists_eq-laws};
    ghost use Rattle.std.specs.Cmp.{partial_equiv_from_equiv};

    ghost eq = { lists_eq };

    ghost laws = { partial_equiv_from_equiv lists_eq-laws };

    fn eq(&self, other: &ListNested<O>) -> bool {
        self.is_optional == other.is_optional
            && is_same_offsets(&self.offsets, &other.offsets)
            && self.validity == other.validity
    }
}

impl<O: Offset> Eq for ListNested<O> {
    ghost use Rattle.levels.specs.Same.{lists_eq-laws};

    ghost laws = { lists_eq-laws };
}

/// Whether two lists of a path are the same in all parts, as `==` says.
pub fn is_same_list<O: Offset>(a: &ListNested<O>, b: &ListNested<O>) -> bool
    ensures { IsTrue result ↔ a.now ≡ b.now }
{
    a == b
}

/// Whether two parts of a path are the same, as `==` says.
pub fn is_same_nested(a: &Nested, b: &Nested) -> bool
    ensures { IsTrue result ↔ a.now ≡ b.now }
{
    a == b
}
