//! The law of the entries of columns: the contract of a function that does nothing, so that a caller may use it by a call.
ghost use Rattle.read_columns.specs.Laws.{EntriesAreHeld};

/// The entries of the arrays of a column are those of the chunk that its pages hold.
#[tactic(auto, using(crate::proofs::Entries::entries_held))]
pub fn entries_are_held()
    ensures { EntriesAreHeld }
{}
