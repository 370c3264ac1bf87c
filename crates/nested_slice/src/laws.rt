//! The laws of cut paths, each the contract of a function that does nothing.
ghost use Rattle.nested_slice.specs.Laws.{CutsAreRows};
ghost use Rattle.nested_slice.specs.Examples.{AsWorked};

/// After a cut of a path in bounds, lengths, masks and leaf values describe exactly the cut rows.
pub fn cuts_are_rows()
    ensures { CutsAreRows }
{}

/// The definitions say of a worked cut what they should.
pub fn as_worked()
    ensures { AsWorked }
{}
