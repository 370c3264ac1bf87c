//! Reading one number after another.

ghost use Rattle.std.specs.Prelude.{◌≡◌, ◌<◌, ◌≤◌, ◌+◌, ◌*◌, ◌/◌, ◌^◌, ◌∷◌, [], length, min, Ok, Err, OnOk, IfErr, ℕ, List};
ghost use Rattle.pq_runs.specs.State.{IsState, items};
ghost use Rattle.pq_runs.specs.Taking.{IsRepeatedRun, IsPackedRun, NoRun};
ghost use Rattle.pq_runs.specs.Hybrid.{fault};

use crate::bits::{number_at, skip, whole_number};
use crate::run::{Run, take_run};
use columns_base::{Error, Result, S};

/// The run that is being read and the bytes behind it.
#[derive(Drop)]
pub struct State<'a> {
    pub bytes: &'a [u8],
    pub width: u32,
    pub left: usize,
    pub packed: &'a [u8],
    pub shift: u32,
    pub standing: usize,
    pub number: u32,
    pub copies: usize,
}

// How many packed numbers stand in the bytes, of those that are called for.
pub fn standing(body: &[u8], width: u32, left: usize) -> usize
    requires { 0 < width }
    ensures { result ≡ min left (8 * length body.now / width) }
{
    let all = 8 * body.len() as u128 / u128::from(width);
    if all < left as u128 {
        all as usize
    } else {
        left
    }
}

// Begins a run of copies.
fn begin_copies<'a>(state: &mut State<'a>, value: &'a [u8], count: usize, rest: &'a [u8])
    requires is { IsState state.old }
    requires none { state.old.copies + state.old.standing ≡ 0 }
    requires some { 0 < state.old.left }
    requires run { IsRepeatedRun state.old.width state.old.bytes.now value.now count rest.now }
    ensures is { IsState state.new }
    ensures same { items state.new ≡ items state.old }
    ensures left { state.new.left ≡ state.old.left }
    ensures bytes { state.new.bytes.now ≡ rest.now }
{
    state.number = whole_number(value);
    state.copies = if count < state.left {
        count
    } else {
        state.left
    };
    state.bytes = rest;
}

// Begins a run of packed numbers.
fn begin_packed<'a>(state: &mut State<'a>, body: &'a [u8], rest: &'a [u8])
    requires is { IsState state.old }
    requires none { state.old.copies + state.old.standing ≡ 0 }
    requires some { 0 < state.old.left }
    requires run { IsPackedRun state.old.width state.old.bytes.now body.now rest.now }
    ensures is { IsState state.new }
    ensures same { items state.new ≡ items state.old }
    ensures left { state.new.left ≡ state.old.left }
    ensures bytes { state.new.bytes.now ≡ rest.now }
{
    state.standing = standing(body, state.width, state.left);
    state.packed = body;
    state.shift = 0;
    state.bytes = rest;
}

// Ends the reading.
fn fail<'a>(state: &mut State<'a>)
    requires is { IsState state.old }
    requires none { state.old.copies + state.old.standing ≡ 0 }
    requires some { 0 < state.old.left }
    requires run { NoRun state.old.width state.old.bytes.now }
    ensures is { IsState state.new }
    ensures failed { items state.old ≡ Err fault ∷ [] }
    ensures ended { items state.new ≡ [] }
{
    state.left = 0;
}

// Reads headers until a number stands there.
pub fn find<'a>(state: &mut State<'a>) -> Result<()>
    requires is { IsState state.old }
    requires some { 0 < state.old.left }
    ensures found { OnOk result (IsState state.new × (items state.new ≡ items state.old)
        × (0 < state.new.copies + state.new.standing)) }
    ensures failed { IfErr result (λ e. IsState state.new × (items state.old ≡ Err e ∷ []) × (items state.new ≡ [])) }
{
    while state.copies == 0 && state.standing == 0 {
        match take_run(state.bytes, state.width) {
            None => {
                fail(state);
                return Err(Error::OutOfSpec(S::S6));
            }
            Some((Run::Repeated(value, count), rest)) => begin_copies(state, value, count, rest),
            Some((Run::Packed(body), rest)) => begin_packed(state, body, rest),
        }
    }
    Ok(())
}

// The number that stands there.
pub fn take<'a>(state: &mut State<'a>) -> u32
    requires is { IsState state.old }
    requires some { 0 < state.old.copies + state.old.standing }
    ensures is { IsState state.new }
    ensures first { items state.old ≡ Ok result ∷ items state.new }
{
    state.left -= 1;
    if state.copies > 0 {
        state.copies -= 1;
        return state.number;
    }
    let number = number_at(state.packed, state.shift, state.width);
    let next = state.shift + state.width;
    state.packed = skip(state.packed, (next / 8) as usize);
    state.shift = next % 8;
    state.standing -= 1;
    number
}
