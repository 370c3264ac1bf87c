//! Facts about the definitions.
ghost use Rattle.read_types.specs.Reads.{LeavesAreRead};

/// The values of a leaf of each kind are read as they are stored.
pub fn leaves_are_read()
    ensures { LeavesAreRead }
{}
