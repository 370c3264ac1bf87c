//! Facts about the definitions.
ghost use Rattle.read_walk.specs.Spelled.{PairsAreRead};

/// A page gives exactly the pairs of its level sections, by their grammar.
pub fn pairs_are_read()
    ensures { PairsAreRead }
{}
