//! Arrays that are written by the trees of their types: laws alone.
#![tactic(auto)]

ghost use Rattle.typed_arrays.specs.Typed.{TypedColumnsAreOwn, TypedSlotsAreRead};

/// The ways to the leaves of an array, as the tree of its type has them, are those of the columns of the type, and each leaf has the values of its column.
pub fn typed_columns_are_own()
    ensures { TypedColumnsAreOwn }
{}

/// Where the slots of an array are those of a field of its type, the tree of the type reads them all.
pub fn typed_slots_are_read()
    ensures { TypedSlotsAreRead }
{}
