//! What the bits are, by the grammar of runs.
ghost use Rattle.pq_bitmaps.specs.Law.{BitsAreSpelled};

use pq_runs::runs_are_read;

/// The bits that are called for are these exactly where the runs at the front of the bytes spell their numbers, 0 and 1.
pub fn bits_are_spelled()
    ensures { BitsAreSpelled }
{
    runs_are_read();
}
