//! Facts about the definitions.
ghost use Rattle.read_leaf.specs.PlainValues.{FrontsAreRead, NumbersAreRead, StringsAreRead};
ghost use Rattle.read_leaf.specs.Ranges.{LoadedIsStored, StringsAreStored};

/// A text is the plain spelling of numbers exactly where they are all that is read, and no byte is left.
pub fn numbers_are_read()
    ensures { NumbersAreRead }
{}

/// A text is the plain spelling of byte strings exactly where they are all that is read, and no byte is left.
pub fn strings_are_read()
    ensures { StringsAreRead }
{}

/// A value is loaded for a stored number exactly where the page table stores the value so.
pub fn loaded_is_stored()
    ensures { LoadedIsStored }
{}

/// A byte string is loaded as a value exactly where the page table stores the value so.
pub fn strings_are_stored()
    ensures { StringsAreStored }
{}

/// Bytes begin with the plain spelling of values exactly where they are the first that are read.
pub fn fronts_are_read()
    ensures { FrontsAreRead }
{}
