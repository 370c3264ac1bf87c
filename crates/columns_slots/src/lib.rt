//! What an array stands for: one list of slots of its type.
//!
//! An array is seen as the tree of its types, values, offsets, keys and masks (Arrow columnar format, "Physical Memory Layout"). The
//! definitions stand in `specs/`, and each law on them is the contract of a function that does nothing, so that a caller may use it by
//! a call.
#![tactic(auto)]

ghost use Rattle.columns_slots.specs.Laws.{ChunksOfCuts, CutsAreOfSlots, CutsOfCuts, NullsAreMasked, PiecesOfCuts, SlotsAreCounted, SlotsAreOfType};
ghost use Rattle.columns_slots.specs.Worked.{AsWorked};

/// An array has a slot for each position.
pub fn slots_are_counted()
    ensures { SlotsAreCounted }
{}

/// A cut of an array is an array of the same type that stands for the cut of the slots.
pub fn cuts_are_of_slots()
    ensures { CutsAreOfSlots }
{}

/// A cut of a cut is one cut.
pub fn cuts_of_cuts()
    ensures { CutsOfCuts }
{}

/// The slots of an array are slots of its type, where each part counts as nullable.
pub fn slots_are_of_type()
    ensures { SlotsAreOfType }
{}

/// The null slots of an array with a mask of its own are those that the mask leaves unset.
pub fn nulls_are_masked()
    ensures { NullsAreMasked }
{}

/// Of byte strings under offsets, cut offsets give the cut strings.
pub fn pieces_of_cuts()
    ensures { PiecesOfCuts }
{}

/// Of byte strings of a width, cut bytes give the cut strings.
pub fn chunks_of_cuts()
    ensures { ChunksOfCuts }
{}

/// The definitions say of some arrays what they should.
pub fn as_worked()
    ensures { AsWorked }
{}
