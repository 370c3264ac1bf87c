//! A fact about the definitions.
ghost use Rattle.read_state.specs.Initial.{StatesBeginEmpty};

/// A state before the first pair fits, and stands for an empty column of its way.
pub fn states_begin_empty()
    ensures { StatesBeginEmpty }
{}
