//! The levels of one section, a block at a time (Parquet format, Encodings, "Run Length Encoding / Bit-Packing Hybrid").
ghost use Rattle.std.specs.Prelude.{◌≡◌, ◌<◌, ◌≤◌, ◌+◌, ◌*◌, ◌/◌, ◌^◌, ◌∷◌, ◌++◌, [], length, take, replicate, min, Ok, Err, Some, OnOk, OnSome, IfErr, IsTrue, MatchOption};
ghost use Rattle.pq_numbers.specs.Bits.{digits_of};
ghost use Rattle.pq_numbers.specs.Texts.{number_of};
ghost use Rattle.pq_numbers.specs.Varint.{varint_at};
ghost use Rattle.pq_runs.specs.Hybrid.{fault, given, hybrid};
ghost use Rattle.pq_runs.specs.Taking.{IsRun, IsRepeatedRun, IsPackedRun, NoRun};
ghost use Rattle.read_walk.specs.LevelRuns.{runs_left, IsReading, IsFilled};

use crate::bits::{put_eights, put_few, skip};
use columns_base::{Error, Result, S};
use pq_runs::hybrid_rle::{Decoder, Run};
use pq_runs::{low_bytes, number_at, whole_number};

/// The runs behind the one that is being read, how many levels are still called for, and what is left of that run: copies of a number, or
/// packed numbers from a bit of the first byte on.
#[derive(Drop)]
pub struct LevelRuns<'a> {
    pub runs: Decoder<'a>,
    pub left: usize,
    pub packed: &'a [u8],
    pub shift: u32,
    pub standing: usize,
    pub number: u32,
    pub copies: usize,
}

/// The first `count` levels of a section, `width` bits each. With 0 bits they are zeros, and no byte is looked at.
pub fn level_runs<'a>(section: &'a [u8], width: u32, count: usize) -> LevelRuns<'a>
    requires { width ≤ 32 }
    ensures is { IsReading result }
    ensures left { runs_left result ≡ hybrid width count section.now }
{
    LevelRuns {
        runs: Decoder::new(section, width),
        left: count,
        packed: section,
        shift: 0,
        standing: 0,
        number: 0,
        copies: if width == 0 { count } else { 0 },
    }
}

// How many packed numbers stand in the bytes, of those that are called for.
fn standing_in(body: &[u8], width: u32, left: usize) -> usize
    requires { 0 < width }
    ensures { result ≡ min left (8 * length body.now / width) }
{
    let there = body.len();
    if there < 0x1_0000_0000 {
        return left.min(8 * there / width as usize);
    }
    let all = 8 * there as u128 / u128::from(width);
    if all < left as u128 {
        all as usize
    } else {
        left
    }
}

// The next run; none where no run stands.
fn next_run<'a>(runs: &mut Decoder<'a>) -> Option<Run<'a>>
    ensures gives { MatchOption result (NoRun runs.old.num_bits runs.old.values.now)
        (λ run. IsRun runs.old.num_bits runs.old.values.now run runs.new.values.now) }
    ensures bits { runs.new.num_bits ≡ runs.old.num_bits }
    ensures shorter { OnSome result (length runs.new.values.now < length runs.old.values.now) }
{
    match runs.next() {
        Some(Ok(run)) => Some(run),
        Some(Err(_)) => None,
        None => None,
    }
}

// Begins a run of copies.
fn begin_copies<'a>(levels: &mut LevelRuns<'a>, value: &'a [u8], count: usize, rest: &'a [u8])
    requires is { IsReading levels.old }
    requires none { levels.old.copies + levels.old.standing ≡ 0 }
    requires some { 0 < levels.old.left }
    requires run { IsRepeatedRun levels.old.runs.num_bits levels.old.runs.values.now value.now count rest.now }
    ensures is { IsReading levels.new }
    ensures same { runs_left levels.new ≡ runs_left levels.old }
    ensures left { levels.new.left ≡ levels.old.left }
    ensures bytes { levels.new.runs.values.now ≡ rest.now }
{
    levels.number = whole_number(value);
    levels.copies = count.min(levels.left);
    levels.runs.values = rest;
}

// The bytes from the body of a run of packed numbers on, those behind it too: eight at a time can then be read of nearly all of them.
fn from_body<'a>(bytes: &'a [u8], width: u32, body: &'a [u8], rest: &'a [u8]) -> &'a [u8]
    requires { IsPackedRun width bytes.now body.now rest.now }
    ensures { result.now ≡ body.now ++ rest.now }
{
    skip(bytes, bytes.len() - rest.len() - body.len())
}

// Begins a run of packed numbers.
fn begin_packed<'a>(levels: &mut LevelRuns<'a>, body: &'a [u8], rest: &'a [u8])
    requires is { IsReading levels.old }
    requires none { levels.old.copies + levels.old.standing ≡ 0 }
    requires some { 0 < levels.old.left }
    requires run { IsPackedRun levels.old.runs.num_bits levels.old.runs.values.now body.now rest.now }
    ensures is { IsReading levels.new }
    ensures same { runs_left levels.new ≡ runs_left levels.old }
    ensures left { levels.new.left ≡ levels.old.left }
    ensures bytes { levels.new.runs.values.now ≡ rest.now }
{
    levels.standing = standing_in(body, levels.runs.num_bits, levels.left);
    levels.packed = from_body(levels.runs.values, levels.runs.num_bits, body, rest);
    levels.shift = 0;
    levels.runs.values = rest;
}

// Ends the reading.
fn end<'a>(levels: &mut LevelRuns<'a>)
    requires is { IsReading levels.old }
    requires none { levels.old.copies + levels.old.standing ≡ 0 }
    requires some { 0 < levels.old.left }
    requires run { NoRun levels.old.runs.num_bits levels.old.runs.values.now }
    ensures is { IsReading levels.new }
    ensures failed { runs_left levels.old ≡ Err fault ∷ [] }
    ensures ended { runs_left levels.new ≡ [] }
{
    levels.left = 0;
}

// Reads headers until a number stands there.
fn find<'a>(levels: &mut LevelRuns<'a>) -> Result<()>
    requires is { IsReading levels.old }
    requires some { 0 < levels.old.left }
    ensures found { OnOk result (IsReading levels.new × (runs_left levels.new ≡ runs_left levels.old)
        × (0 < levels.new.copies + levels.new.standing)) }
    ensures failed { IfErr result (λ e. IsReading levels.new × (runs_left levels.old ≡ Err e ∷ [])
        × (runs_left levels.new ≡ [])) }
{
    while levels.copies == 0 && levels.standing == 0 {
        let mut runs = Decoder::new(levels.runs.values, levels.runs.num_bits);
        match next_run(&mut runs) {
            None => {
                end(levels);
                return Err(Error::OutOfSpec(S::S6));
            }
            Some(Run::Repeated(value, count)) => begin_copies(levels, value, count, runs.values),
            Some(Run::Packed(body)) => begin_packed(levels, body, runs.values),
        }
    }
    Ok(())
}

// Begins the run whose header is this byte, where its numbers have at most eight bits and its bytes are all there.
fn begin_headed<'a>(levels: &mut LevelRuns<'a>, head: u8, tail: &'a [u8])
    requires is { IsReading levels.old }
    requires none { levels.old.copies + levels.old.standing ≡ 0 }
    requires some { 0 < levels.old.left }
    requires head { varint_at levels.old.runs.values.now ≡ Some (head, tail.now) }
    ensures is { IsReading levels.new }
    ensures same { runs_left levels.new ≡ runs_left levels.old }
    ensures left { levels.new.left ≡ levels.old.left }
{
    let width = levels.runs.num_bits as usize;
    if width == 0 || width > 8 {
        return;
    }
    let count = (head / 2) as usize;
    let size = if head % 2 == 0 { 1 } else { width * count };
    if size > tail.len() {
        return;
    }
    let (front, rest) = tail.split_at(size);
    if head % 2 == 0 {
        begin_copies(levels, front, count, rest);
    } else {
        begin_packed(levels, front, rest);
    }
}

// Begins the run whose header is one byte, where no number stands. Others are left as they are.
fn begin_short<'a>(levels: &mut LevelRuns<'a>)
    requires is { IsReading levels.old }
    requires none { levels.old.copies + levels.old.standing ≡ 0 }
    requires some { 0 < levels.old.left }
    ensures is { IsReading levels.new }
    ensures same { runs_left levels.new ≡ runs_left levels.old }
    ensures left { levels.new.left ≡ levels.old.left }
{
    match levels.runs.values {
        [] => {}
        [head, tail @ ..] => {
            if *head < 128 {
                begin_headed(levels, *head, tail);
            }
        }
    }
}

/// The same, and at once where a number stands there already.
#[inline(always)]
pub fn begin<'a>(levels: &mut LevelRuns<'a>) -> Result<()>
    requires is { IsReading levels.old }
    requires some { 0 < levels.old.left }
    ensures found { OnOk result (IsReading levels.new × (runs_left levels.new ≡ runs_left levels.old)
        × (0 < levels.new.copies + levels.new.standing)) }
    ensures failed { IfErr result (λ e. IsReading levels.new × (runs_left levels.old ≡ Err e ∷ [])
        × (runs_left levels.new ≡ [])) }
{
    if levels.copies > 0 {
        return Ok(());
    }
    if levels.standing > 0 {
        return Ok(());
    }
    begin_short(levels);
    if levels.copies > 0 {
        return Ok(());
    }
    if levels.standing > 0 {
        return Ok(());
    }
    find(levels)
}

fn fill_front(out: &mut [u32], number: u32, count: usize)
    requires { count ≤ length out.old }
    ensures { take count out.new ≡ replicate count number }
{
    for i in 0..count {
        out[i] = number;
    }
}

// As many copies as there is room for.
fn take_copies<'a>(levels: &mut LevelRuns<'a>, out: &mut [u32]) -> usize
    requires is { IsReading levels.old }
    requires some { 0 < levels.old.copies }
    requires room { 0 < length out.old }
    ensures within { result ≤ length out.old }
    ensures some { 0 < result }
    ensures is { IsReading levels.new }
    ensures left { runs_left levels.old ≡ given (take result out.new) ++ runs_left levels.new }
{
    let count = levels.copies.min(out.len());
    fill_front(out, levels.number, count);
    levels.copies -= count;
    levels.left -= count;
    count
}

/// Passes over so many of the copies.
pub fn drop_copies<'a>(levels: &mut LevelRuns<'a>, count: usize)
    requires is { IsReading levels.old }
    requires within { count ≤ levels.old.copies }
    ensures is { IsReading levels.new }
    ensures left { runs_left levels.old ≡ given (replicate count levels.old.number) ++ runs_left levels.new }
{
    levels.copies -= count;
    levels.left -= count;
}

/// Passes over so many of the packed numbers.
pub fn drop_packed<'a>(levels: &mut LevelRuns<'a>, count: usize)
    requires is { IsReading levels.old }
    requires none { levels.old.copies ≡ 0 }
    requires within { count ≤ levels.old.standing }
    requires short { count ≤ 64 }
    ensures is { IsReading levels.new }
    ensures left { runs_left levels.old ≡ given (digits_of (2 ^ levels.old.runs.num_bits) count
        (number_of levels.old.packed.now / 2 ^ levels.old.shift)) ++ runs_left levels.new }
{
    let width = levels.runs.num_bits;
    let next = levels.shift as usize + width as usize * count;
    levels.packed = skip(levels.packed, next / 8);
    levels.shift = (next % 8) as u32;
    levels.standing -= count;
    levels.left -= count;
}

// Packed numbers, as many groups of eight as stand there and as there is room for, but no more than eight.
fn take_eights<'a>(levels: &mut LevelRuns<'a>, out: &mut [u32]) -> usize
    requires is { IsReading levels.old }
    requires none { levels.old.copies ≡ 0 }
    requires some { 8 ≤ levels.old.standing }
    requires narrow { levels.old.runs.num_bits ≤ 7 }
    requires room { 8 ≤ length out.old }
    ensures within { result ≤ length out.old }
    ensures some { 0 < result }
    ensures is { IsReading levels.new }
    ensures left { runs_left levels.old ≡ given (take result out.new) ++ runs_left levels.new }
{
    let groups = levels.standing.min(out.len()).min(64) / 8;
    put_eights(
        out,
        levels.packed,
        levels.shift,
        levels.runs.num_bits,
        groups,
    );
    drop_packed(levels, 8 * groups);
    8 * groups
}

// Packed numbers, fewer than eight, where no more stand there or there is no more room.
fn take_few<'a>(levels: &mut LevelRuns<'a>, out: &mut [u32]) -> usize
    requires is { IsReading levels.old }
    requires none { levels.old.copies ≡ 0 }
    requires some { 0 < levels.old.standing }
    requires narrow { levels.old.runs.num_bits ≤ 7 }
    requires room { 0 < length out.old }
    ensures within { result ≤ length out.old }
    ensures some { 0 < result }
    ensures is { IsReading levels.new }
    ensures left { runs_left levels.old ≡ given (take result out.new) ++ runs_left levels.new }
{
    let count = levels.standing.min(out.len()).min(7);
    put_few(
        out,
        low_bytes(levels.packed) >> levels.shift,
        levels.runs.num_bits,
        count,
    );
    drop_packed(levels, count);
    count
}

// One packed number.
fn take_one<'a>(levels: &mut LevelRuns<'a>) -> u32
    requires is { IsReading levels.old }
    requires none { levels.old.copies ≡ 0 }
    requires some { 0 < levels.old.standing }
    ensures is { IsReading levels.new }
    ensures first { runs_left levels.old ≡ Ok result ∷ runs_left levels.new }
{
    let number = number_at(levels.packed, levels.shift, levels.runs.num_bits);
    drop_packed(levels, 1);
    number
}

// One number or more.
fn take_some<'a>(levels: &mut LevelRuns<'a>, out: &mut [u32]) -> usize
    requires is { IsReading levels.old }
    requires some { 0 < levels.old.copies + levels.old.standing }
    requires room { 0 < length out.old }
    ensures within { result ≤ length out.old }
    ensures some { 0 < result }
    ensures is { IsReading levels.new }
    ensures left { runs_left levels.old ≡ given (take result out.new) ++ runs_left levels.new }
{
    if levels.copies > 0 {
        return take_copies(levels, out);
    }
    if levels.runs.num_bits > 7 {
        out[0] = take_one(levels);
        return 1;
    }
    if levels.standing.min(out.len()) >= 8 {
        return take_eights(levels, out);
    }
    take_few(levels, out)
}

/// Fills the memory from the front, and says how far, and whether it ended at a level that is not there.
pub fn fill<'a>(levels: &mut LevelRuns<'a>, out: &mut [u32]) -> (usize, bool)
    requires is { IsReading levels.old }
    ensures is { IsReading levels.new }
    ensures within { result.0 ≤ length out.old }
    ensures filled { IsFilled (runs_left levels.old) out.new result.0 result.1 (runs_left levels.new) }
{
    let mut done = 0;
    while done < out.len() {
        if levels.left == 0 {
            return (done, false);
        }
        match begin(levels) {
            Ok(()) => {}
            Err(_) => return (done, true),
        }
        let part = &mut out[done..];
        done += take_some(levels, part);
    }
    (done, false)
}

/// Fills all of the memory; false where it ended before.
pub fn fill_whole<'a>(levels: &mut LevelRuns<'a>, out: &mut [u32]) -> bool
    requires is { IsReading levels.old }
    ensures is { IsReading levels.new }
    ensures filled { IsTrue result → runs_left levels.old ≡ given out.new ++ runs_left levels.new }
{
    let (count, failed) = fill(levels, out);
    if failed {
        return false;
    }
    if count < out.len() { false } else { true }
}

/// The same runs once more.
pub fn copied<'a>(levels: &LevelRuns<'a>) -> LevelRuns<'a>
    requires is { IsReading levels.now }
    ensures is { IsReading result }
    ensures left { runs_left result ≡ runs_left levels.now }
{
    LevelRuns {
        runs: Decoder::new(levels.runs.values, levels.runs.num_bits),
        left: levels.left,
        packed: levels.packed,
        shift: levels.shift,
        standing: levels.standing,
        number: levels.number,
        copies: levels.copies,
    }
}

/// No level is left.
pub fn stop_runs<'a>(levels: &mut LevelRuns<'a>)
    requires is { IsReading levels.old }
    ensures is { IsReading levels.new }
    ensures none { runs_left levels.new ≡ [] }
{
    levels.left = 0;
    levels.copies = 0;
    levels.standing = 0;
}
