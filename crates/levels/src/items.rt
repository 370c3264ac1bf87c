//! Lists side by side that have items.
ghost use Rattle.std.specs.Prelude.{◌≡◌, ℕ, ◌+◌, ◌-◌, ◌<◌, ◌≤◌, length, IsTrue};
ghost use Rattle.levels.specs.Stretch.{HaveItems};

use columns_core::{Offset, OffsetsBuffer};

// Whether some lists all have items. No list ends the loop, so that several are looked at by one instruction.
fn have_items<O: Offset>(offsets: &OffsetsBuffer<O>, place: usize, end: usize) -> bool
    requires { end < length offsets.now }
    ensures { IsTrue result → HaveItems offsets.now place end }
{
    offsets.know();
    let mut all = true;
    for i in place..end {
        all &= offsets.place(i) != offsets.place(i + 1);
    }
    all
}

// The first list without items from a place on, or the end of the lists that are looked at.
#[inline(always)]
fn first_empty<O: Offset>(offsets: &OffsetsBuffer<O>, place: usize, to: usize) -> usize
    requires ordered { place ≤ to }
    requires within { to < length offsets.now }
    ensures after { place ≤ result }
    ensures within { result ≤ to }
    ensures full { HaveItems offsets.now place result }
{
    offsets.know();
    let mut end = place;
    while end < to {
        if offsets.place(end) == offsets.place(end + 1) {
            break;
        }
        end += 1;
    }
    end
}

/// Where lists end that have items, from a place on.
pub fn items_end<O: Offset>(offsets: &OffsetsBuffer<O>, place: usize, to: usize) -> usize
    requires ordered { place ≤ to }
    requires within { to < length offsets.now }
    ensures after { place ≤ result }
    ensures within { result ≤ to }
    ensures full { HaveItems offsets.now place result }
{
    // most stretches are short
    let near = place + (to - place).min(8);
    let mut end = first_empty(offsets, place, near);
    if end < near {
        return end;
    }
    while end < to {
        let next = end + (to - end).min(64);
        if !have_items(offsets, end, next) {
            return first_empty(offsets, end, next);
        }
        end = next;
    }
    end
}
