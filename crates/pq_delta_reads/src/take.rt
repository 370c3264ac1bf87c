//! Handing out numbers.

ghost use Rattle.std.specs.Prelude.{◌≡◌, ◌<◌, ◌≤◌, ◌+◌, ◌∷◌, ◌++◌, [], length, take as front_of, drop, suc, Ok, Err, OnOk, IfErr, ◌+ℤ◌, pos};
ghost use Rattle.std.specs.Int.{w64};
ghost use Rattle.pq_runs.specs.Delta.{wrapped};
ghost use Rattle.pq_runs.specs.DeltaReading.{above, all, failed};
ghost use Rattle.pq_runs.specs.Hybrid.{fault};
ghost use Rattle.pq_delta_reads.specs.Blocks.{signed};
ghost use Rattle.pq_delta_reads.specs.Reading.{IsState, Keeps, items, later, left_of, stepped, total, zeroed, zeros_then};

use crate::begin::begin;
use crate::bits::unpack_into;
use crate::state::State;
use columns_base::Result;

// The bytes behind the first so many.
fn skip(bytes: &[u8], count: usize) -> &[u8]
    ensures { result.now ≡ drop count bytes.now }
{
    if count < bytes.len() {
        return &bytes[count..];
    }
    &[]
}

// Takes numbers out of the miniblock, 32 at once: they end with a whole byte.
fn fill(state: &mut State<'_>)
    requires is { IsState state.old }
    requires empty { length state.old.buffer ≡ 0 }
    requires some { 0 < state.old.standing }
    ensures is { IsState state.new }
    ensures keeps { Keeps state.old state.new }
    ensures some { 0 < length state.new.buffer }
{
    let count = state.standing.min(32);
    state.buffer.fill(state.packed, state.width, count);
    state.packed = skip(state.packed, 4 * state.width as usize);
    state.standing -= count;
}

// Ends the reading.
fn fail(state: &mut State<'_>)
    requires is { IsState state.old }
    requires empty { length state.old.buffer ≡ 0 }
    requires none { state.old.standing ≡ 0 }
    requires failed { later state.old ≡ failed }
    ensures is { IsState state.new }
    ensures failed { items state.old ≡ Err fault ∷ [] }
    ensures ended { items state.new ≡ [] }
    ensures total { total state.new ≡ total state.old }
    ensures left { left_of state.new ≡ 0 }
{
    state.left = 0;
    state.cut = false;
    state.widths = &[];
}

// Sees to it that a number of the miniblock stands there.
pub fn find_standing(state: &mut State<'_>) -> Result<()>
    requires is { IsState state.old }
    requires empty { length state.old.buffer ≡ 0 }
    requires some { 0 < left_of state.old }
    ensures is { IsState state.new }
    ensures total { total state.new ≡ total state.old }
    ensures empty { length state.new.buffer ≡ 0 }
    ensures found { OnOk result (Keeps state.old state.new × (0 < state.new.standing)) }
    ensures failed { IfErr result (λ e. (e ≡ fault) × (items state.old ≡ Err e ∷ []) × (items state.new ≡ [])
        × (left_of state.new ≡ 0)) }
{
    if state.standing == 0
        && let Err(error) = begin(state)
    {
        fail(state);
        return Err(error);
    }
    Ok(())
}

// Sees to it that a number waits.
pub fn find(state: &mut State<'_>) -> Result<()>
    requires is { IsState state.old }
    requires some { 0 < left_of state.old }
    ensures is { IsState state.new }
    ensures total { total state.new ≡ total state.old }
    ensures found { OnOk result (Keeps state.old state.new × (0 < length state.new.buffer)) }
    ensures failed { IfErr result (λ e. (e ≡ fault) × (items state.old ≡ Err e ∷ []) × (items state.new ≡ [])
        × (left_of state.new ≡ 0)) }
{
    if state.buffer.len() > 0 {
        return Ok(());
    }
    if state.standing == 0
        && let Err(error) = begin(state)
    {
        fail(state);
        return Err(error);
    }
    fill(state);
    Ok(())
}

// The number before, the least delta and a packed number, modulo 2^64.
fn next_sum(latest: i64, least: i64, number: u64) -> i64
    ensures { result ≡ wrapped w64 (latest +ℤ (least +ℤ pos number)) }
{
    latest
        .wrapping_add(least)
        .wrapping_add(number.cast_signed())
}

// The number that waits.
pub fn take(state: &mut State<'_>) -> i64
    requires is { IsState state.old }
    requires some { 0 < length state.old.buffer }
    ensures is { IsState state.new }
    ensures first { items state.old ≡ Ok result ∷ items state.new }
    ensures total { total state.new ≡ total state.old }
    ensures left { left_of state.old ≡ suc (left_of state.new) }
{
    let number = state.buffer.take();
    let next = next_sum(state.latest, state.least, number);
    state.latest = next;
    next
}

// Each packed number becomes the number that it makes of the one before it.
fn add_up(numbers: &mut [u64; 32], least: i64, latest: i64)
    ensures { all (signed numbers.new) ≡ stepped latest (all (above least numbers.old)) }
{
    let mut latest = latest;
    for number in numbers.iter_mut() {
        latest = next_sum(latest, least, *number);
        *number = latest.cast_unsigned();
    }
}

// The next numbers of the miniblock, at most 32, and how many.
pub fn take_block(state: &mut State<'_>, numbers: &mut [u64; 32]) -> usize
    requires is { IsState state.old }
    requires empty { length state.old.buffer ≡ 0 }
    requires some { 0 < state.old.standing }
    ensures is { IsState state.new }
    ensures some { 0 < result }
    ensures most { result ≤ 32 }
    ensures first { items state.old ≡ all (signed (front_of result numbers.new)) ++ items state.new }
    ensures total { total state.new ≡ total state.old }
    ensures left { left_of state.old ≡ result + left_of state.new }
{
    let count = state.standing.min(32);
    unpack_into(state.packed, state.width, numbers);
    add_up(numbers, state.least, state.latest);
    state.packed = skip(state.packed, 4 * state.width as usize);
    state.standing -= count;
    state.latest = numbers[count - 1].cast_signed();
    count
}

// Passes over the numbers of the miniblock that stand there, and gives how many these are. The number before those that follow is not kept.
pub fn pass_standing(state: &mut State<'_>) -> usize
    requires is { IsState state.old }
    requires empty { length state.old.buffer ≡ 0 }
    requires some { 0 < state.old.standing }
    ensures is { IsState state.new }
    ensures some { 0 < result }
    ensures passed { zeroed (items state.old) ≡ zeros_then result (zeroed (items state.new)) }
    ensures total { total state.new ≡ total state.old }
    ensures left { left_of state.old ≡ result + left_of state.new }
{
    let count = state.standing;
    state.standing = 0;
    count
}
