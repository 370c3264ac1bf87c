//! Equal pairs, part by part.
ghost use Rattle.std.specs.Prelude.{◌≡◌, ℕ, ◌+◌, ◌*◌, ◌<◌, ◌≤◌, ◌^◌, IfErr, OnOk, true, length};
ghost use Rattle.columns_base.specs.declared.error.Error.{Error};
ghost use Rattle.read_laws.specs.State.{count as slot_count};
ghost use Rattle.read_laws.specs.Step.{step};
ghost use Rattle.read_state.specs.Kinds.{all_kept, HasLongItems};
ghost use Rattle.read_state.specs.Ticks.{TicksAtMost};

use crate::boxes::NestedBox;
use crate::kinds::Nested;
use crate::parts::{bit, both, first_len, pushes};
use crate::steps::Steps;
use columns_base::Result;
use std::sync::ledger::Ledger;

// The place of a list's next item: the length of the part beneath. The other kinds keep none.
fn first_of(repeated: bool, rest: &[NestedBox]) -> usize
    requires { repeated ≡ true → slot_count (all_kept rest.now) < 2 ^ 63 }
    ensures is { repeated ≡ true → result ≡ slot_count (all_kept rest.now) }
    ensures fits { result < 2 ^ 63 }
{
    if repeated { first_len(rest) } else { 0 }
}

/// Pushes `count` equal pairs to the parts, which lie beneath `depth` lists and `def` definition levels.
///
/// # Errors
///
/// `Memory`; some parts may then have the pushes.
pub fn push_to<L: Ledger>(
    parts: &mut [NestedBox],
    rep: usize,
    level: usize,
    hidden: bool,
    depth: usize,
    def: usize,
    count: usize,
    steps: &mut Steps<L>,
) -> Result<()>
    requires few { def + 2 * length parts.old < 2 ^ 64 }
    requires deep { depth + length parts.old < 2 ^ 64 }
    requires block { count ≤ 2 ^ 31 }
    requires counted { HasLongItems (all_kept parts.old) → ⊥ }
    ensures ok { OnOk result (all_kept parts.new ≡ step count rep level hidden depth def (all_kept parts.old)) }
    ensures err { IfErr result (λ e. e ≡ Error.Memory) }
    ensures ticked { TicksAtMost (length parts.old) steps.old steps.new }
{
    let Some((part, rest)) = parts.split_first_mut() else {
        return Ok(());
    };
    let nullable = part.is_nullable();
    let repeated = part.is_repeated();
    let required = part.is_required();
    let next_depth = depth + bit(repeated);
    let next_def = def + (bit(nullable) + bit(repeated));
    if !pushes(rep, level, hidden, depth, def) {
        return push_to(rest, rep, level, false, next_depth, next_def, count, steps);
    }
    let first = first_of(repeated, rest);
    let grows = pushes(rep, level, false, next_depth, next_def);
    let is_there = both(nullable, def < level);
    steps.tick();
    part.push_run(first, grows, is_there, count)?;
    let hides = both(required, !is_there);
    push_to(rest, rep, level, hides, next_depth, next_def, count, steps)
}
