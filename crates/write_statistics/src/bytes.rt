//! The order of byte strings.
ghost use Rattle.std.specs.Ordering.{MatchOrdering};
ghost use Rattle.std.specs.Prelude.{◌≡◌, ◌≢◌};
ghost use Rattle.pq_files.specs.Statistics.{IsBefore};

use std::cmp::Ordering;

/// The order of byte strings by their bytes without a sign, where the front of a string goes before it (Parquet format, `ColumnOrder`:
/// `TYPE_ORDER` of `BYTE_ARRAY`). Takes no memory.
pub fn ord_binary(a: &[u8], b: &[u8]) -> Ordering
    ensures { MatchOrdering result (IsBefore a.now b.now × (a.now ≢ b.now)) (a.now ≡ b.now)
        (IsBefore b.now a.now × (a.now ≢ b.now)) }
{
    a.cmp(b)
}
