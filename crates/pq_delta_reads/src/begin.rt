//! Beginning blocks and miniblocks.

ghost use Rattle.std.specs.Prelude.{◌≡◌, ◌⊎◌, ◌<◌, ◌*◌, ◌∷◌, [], length, take, drop, min, true, ℕ, slice_index, OnOk, IfErr, MatchOption};
ghost use Rattle.pq_runs.specs.DeltaReading.{there, failed};
ghost use Rattle.pq_runs.specs.Hybrid.{fault};
ghost use Rattle.pq_delta_reads.specs.Reading.{IsState, IsIdle, Keeps, later};

use crate::state::State;
use columns_base::{Error, Result, S};
use pq_numbers::{from_zigzag, take_varint};

// Begins the next block: its least delta and a width for each miniblock.
fn begin_block(state: &mut State<'_>) -> Result<()>
    requires is { IsState state.old }
    requires idle { IsIdle state.old }
    requires none { length state.old.widths.now ≡ 0 }
    ensures is { IsState state.new }
    ensures idle { IsIdle state.new }
    ensures keeps { Keeps state.old state.new }
    ensures ok { OnOk result (0 < length state.new.widths.now) }
    ensures err { IfErr result (λ e. (e ≡ fault) × (later state.new ≡ failed)) }
{
    let Some((least, rest)) = take_varint(state.bytes) else {
        return Err(Error::OutOfSpec(S::S6));
    };
    if rest.len() < state.miniblocks {
        return Err(Error::OutOfSpec(S::S6));
    }
    let (widths, behind) = rest.split_at(state.miniblocks);
    state.least = from_zigzag(least);
    state.widths = widths;
    state.bytes = behind;
    Ok(())
}

// The first so many bytes, or as many as there are, and those behind them.
fn split_up_to(bytes: &[u8], size: u128) -> (&[u8], &[u8])
    ensures are { (k : ℕ) → slice_index bytes.now k < 256 }
    ensures front { result.0.now ≡ take size bytes.now }
    ensures back { result.1.now ≡ drop size bytes.now }
{
    if size < bytes.len() as u128 {
        return bytes.split_at(size as usize);
    }
    (bytes, &[])
}

// How many packed numbers stand in the bytes, of those that are wanted.
fn standing(body: &[u8], width: u32, groups: usize, left: usize) -> usize
    requires { 8 * groups < 18446744073709551616 }
    ensures { result ≡ min (there width groups body.now) (min left (8 * groups)) }
{
    let wanted = left.min(8 * groups);
    if width == 0 {
        return wanted;
    }
    if u128::from(width) * groups as u128 <= body.len() as u128 {
        return wanted;
    }
    let all = 8 * body.len() as u128 / u128::from(width);
    if all < wanted as u128 {
        all as usize
    } else {
        wanted
    }
}

// The first width and the others.
fn split_width(widths: &[u8]) -> Option<(u32, &[u8])>
    ensures { MatchOption result (length widths.now ≡ 0) (λ x. widths.now ≡ x.0 ∷ x.1.now) }
{
    match widths {
        [] => None,
        [width, others @ ..] => Some((u32::from(*width), others)),
    }
}

// Begins the next miniblock of the block.
fn begin_miniblock(state: &mut State<'_>) -> Result<()>
    requires is { IsState state.old }
    requires idle { IsIdle state.old }
    requires some { 0 < length state.old.widths.now }
    ensures is { IsState state.new }
    ensures empty { length state.new.buffer ≡ 0 }
    ensures keeps { Keeps state.old state.new }
    ensures ok { OnOk result ((0 < state.new.standing) ⊎ (state.new.cut ≡ true)) }
    ensures err { IfErr result (λ e. (e ≡ fault) × (state.new.standing ≡ 0) × (later state.new ≡ failed)) }
{
    let Some((width, others)) = split_width(state.widths) else {
        return Ok(());
    };
    if width > 64 {
        return Err(Error::OutOfSpec(S::S6));
    }
    let size = u128::from(width) * state.groups as u128;
    let (body, rest) = split_up_to(state.bytes, size);
    let wanted = state.left.min(8 * state.groups);
    let count = standing(body, width, state.groups, state.left);
    state.packed = state.bytes;
    state.width = width;
    state.standing = count;
    state.left -= count;
    if count < wanted {
        state.cut = true;
        return Ok(());
    }
    state.missing = size - body.len() as u128;
    state.widths = others;
    state.bytes = rest;
    Ok(())
}

// Goes on to a miniblock of which a number stands there.
pub fn begin(state: &mut State<'_>) -> Result<()>
    requires is { IsState state.old }
    requires empty { length state.old.buffer ≡ 0 }
    requires none { state.old.standing ≡ 0 }
    requires some { 0 < state.old.left }
    ensures is { IsState state.new }
    ensures empty { length state.new.buffer ≡ 0 }
    ensures keeps { Keeps state.old state.new }
    ensures ok { OnOk result (0 < state.new.standing) }
    ensures err { IfErr result (λ e. (e ≡ fault) × (state.new.standing ≡ 0) × (later state.new ≡ failed)) }
{
    if state.cut {
        return Err(Error::OutOfSpec(S::S6));
    }
    if state.widths.is_empty() {
        begin_block(state)?;
    }
    begin_miniblock(state)?;
    if state.standing == 0 {
        return Err(Error::OutOfSpec(S::S6));
    }
    Ok(())
}
