//! Levels of one bit, 64 at once as a word.
ghost use Rattle.std.specs.Prelude.{◌≡◌, ◌+◌, ◌*◌, ◌%◌, ◌^◌, ◌<◌, ◌≤◌, ◌++◌, IfSome, replicate};
ghost use Rattle.pq_numbers.specs.Bits.{digits_of};
ghost use Rattle.pq_runs.specs.Hybrid.{given};
ghost use Rattle.read_walk.specs.LevelRuns.{runs_left, IsReading};
ghost use Rattle.read_walk.specs.Words.{TakesBits};

use crate::runs::{LevelRuns, begin, drop_copies, drop_packed};
use pq_runs::low_bytes;

// The lowest bits of a word.
fn lowest(word: u64, count: usize) -> u64
    requires { count ≤ 64 }
    ensures { result ≡ word % 2 ^ count }
{
    if count == 64 {
        word
    } else {
        word % (1 << count)
    }
}

// So many bits that are all like this one.
fn repeated(bit: u32, count: usize) -> u64
    requires one { bit ≤ 1 }
    requires few { count ≤ 64 }
    ensures below { result < 2 ^ count }
    ensures bits { digits_of 2 count result ≡ replicate count bit }
{
    if bit == 0 { 0 } else { lowest(u64::MAX, count) }
}

// A word with bits behind its own.
fn joined(word: u64, done: usize, bits: u64, count: usize) -> u64
    requires word { word < 2 ^ done }
    requires bits { bits < 2 ^ count }
    requires some { 0 < count }
    requires few { done + count ≤ 64 }
    ensures { result ≡ word + 2 ^ done * bits }
{
    word + bits * (1 << done)
}

// Copies, as many as there is room for; none where they are of no bit.
fn take_copied<'a>(levels: &mut LevelRuns<'a>, room: usize) -> Option<(u64, usize)>
    requires is { IsReading levels.old }
    requires some { 0 < levels.old.copies }
    requires room { 0 < room }
    requires few { room ≤ 64 }
    ensures is { IsReading levels.new }
    ensures taken { IfSome result (λ r. TakesBits room r.0 r.1 (runs_left levels.old) (runs_left levels.new)) }
{
    let bit = levels.number;
    if bit > 1 {
        return None;
    }
    let count = levels.copies.min(room);
    drop_copies(levels, count);
    Some((repeated(bit, count), count))
}

// Packed numbers of one bit, as many as there is room for and stand in eight bytes; none where they have more bits.
fn take_packed<'a>(levels: &mut LevelRuns<'a>, room: usize) -> Option<(u64, usize)>
    requires is { IsReading levels.old }
    requires none { levels.old.copies ≡ 0 }
    requires some { 0 < levels.old.standing }
    requires room { 0 < room }
    requires few { room ≤ 64 }
    ensures is { IsReading levels.new }
    ensures taken { IfSome result (λ r. TakesBits room r.0 r.1 (runs_left levels.old) (runs_left levels.new)) }
{
    if levels.runs.num_bits != 1 {
        return None;
    }
    let word = low_bytes(levels.packed) >> levels.shift;
    let count = levels.standing.min(room).min(64 - levels.shift as usize);
    drop_packed(levels, count);
    Some((lowest(word, count), count))
}

// One bit or more.
fn take_bits<'a>(levels: &mut LevelRuns<'a>, room: usize) -> Option<(u64, usize)>
    requires is { IsReading levels.old }
    requires some { 0 < levels.old.copies + levels.old.standing }
    requires room { 0 < room }
    requires few { room ≤ 64 }
    ensures is { IsReading levels.new }
    ensures taken { IfSome result (λ r. TakesBits room r.0 r.1 (runs_left levels.old) (runs_left levels.new)) }
{
    if levels.copies > 0 {
        return take_copied(levels, room);
    }
    take_packed(levels, room)
}

/// The next 64 levels as bits; none where one is missing or no bit.
pub fn take_word<'a>(levels: &mut LevelRuns<'a>) -> Option<u64>
    requires is { IsReading levels.old }
    ensures is { IsReading levels.new }
    ensures taken { IfSome result (λ word. runs_left levels.old ≡ given (digits_of 2 64 word) ++ runs_left levels.new) }
{
    let mut word = 0;
    let mut done = 0;
    while done < 64 {
        if levels.left == 0 {
            return None;
        }
        match begin(levels) {
            Ok(()) => {}
            Err(_) => return None,
        }
        let Some((bits, count)) = take_bits(levels, 64 - done) else {
            return None;
        };
        word = joined(word, done, bits, count);
        done += count;
    }
    Some(word)
}
