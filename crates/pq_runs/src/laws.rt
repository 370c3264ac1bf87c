//! Facts about the definitions.

ghost use Rattle.pq_runs.specs.Examples.{AreWorked};
ghost use Rattle.pq_runs.specs.Spelled.{RunsAreRead, RunsAreUnique};
ghost use Rattle.pq_runs.specs.WrittenDelta.{WrittenDeltasAreDeltas};
ghost use Rattle.pq_runs.specs.WrittenRuns.{WrittenRunsAreRuns, WrittenRunsAreShort};

/// Worked examples of hybrid runs and of delta packing, and texts that spell none.
pub fn as_worked()
    ensures { AreWorked }
{}

/// Bytes begin with runs of at most one list of a length.
pub fn runs_are_unique()
    ensures { RunsAreUnique }
{}

/// The runs at the front of bytes spell a list of so many numbers exactly where the reading of as many gives it without an error.
pub fn runs_are_read()
    ensures { RunsAreRead }
{}

/// Runs as they are written are runs.
pub fn written_runs_are_runs()
    ensures { WrittenRunsAreRuns }
{}

/// Runs as they are written take few bytes: up to 8 bits at most two a number and 7, up to 32 bits five a number and 28.
pub fn written_runs_are_short()
    ensures { WrittenRunsAreShort }
{}

/// Deltas as they are written are deltas, also where a last miniblock may not be cut.
pub fn written_deltas_are_deltas()
    ensures { WrittenDeltasAreDeltas }
{}
