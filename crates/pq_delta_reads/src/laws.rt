//! Facts about the definitions.

ghost use Rattle.pq_delta_reads.specs.Read.{DeltasAreRead, HeadsAreRead, WrittenDeltasAreRead};

/// Numbers stand at the front of bytes exactly where a decoder gives them without an error.
pub fn deltas_are_read()
    ensures { DeltasAreRead }
{}

/// The header that decoders find is the one with which the bytes begin.
pub fn heads_are_read()
    ensures { HeadsAreRead }
{}

/// A decoder gives the numbers of written deltas, and takes their text.
pub fn written_deltas_are_read()
    ensures { WrittenDeltasAreRead }
{}
