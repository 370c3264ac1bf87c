//! The laws, each the contract of a function that does nothing.
ghost use Rattle.read_nested.specs.Fronts.{FrontsAgree};
ghost use Rattle.read_nested.specs.Keeps.{LeavesKeepSlots, ListsKeepSlots, StructsKeepSlots};

/// A leaf's part stands for the leaf's slots.
pub fn leaves_keep_slots()
    ensures { LeavesKeepSlots }
{}

/// The list array of a list's part stands for the slots that the part stands for.
pub fn lists_keep_slots()
    ensures { ListsKeepSlots }
{}

/// The struct array of a struct's part stands, along the way to each child, for the slots that the part stands for.
pub fn structs_keep_slots()
    ensures { StructsKeepSlots }
{}

/// Columns that agree on what their ways share build the same parts down to the struct where the ways part.
pub fn fronts_agree()
    ensures { FrontsAgree }
{}
