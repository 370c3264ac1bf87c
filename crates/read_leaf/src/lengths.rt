//! Lengths of strings.
ghost use Rattle.std.specs.Prelude.{◌≡◌, ◌+◌, ◌<◌, ◌≤◌, IfOk, IfErr, MatchOption, sum};
ghost use Rattle.std.specs.Iterator.{IsFinite, Drains};
ghost use Rattle.columns_base.specs.declared.error.Error.{Error};

use columns_base::{Error, Result};
use std::alloc::Global;

// All that the iterator gives.
pub fn collect_lengths<I: Iterator<Item = usize> + Drop>(
    alloc: Global,
    lengths: I,
) -> Result<Vec<usize>>
    requires can { I.can_next lengths }
    requires ends { IsFinite (I.remaining lengths) }
    ensures ok { IfOk result (λ all. Drains I.next_gives lengths all.items) }
    ensures err { IfErr result (λ e. e ≡ Error.Memory) }
{
    let mut all = Vec::new(alloc);
    for length in lengths {
        all.push(length)?;
    }
    Ok(all)
}

// Their sum, if it is at most this number.
pub fn sum_within(lengths: &[usize], most: usize) -> Option<usize>
    ensures { MatchOption result (most < sum lengths.now) (λ n. (n ≡ sum lengths.now) × (n ≤ most)) }
{
    let mut left = most;
    for length in lengths {
        left = left.checked_sub(*length)?;
    }
    Some(most - left)
}
