//! Definition levels by the bits of words.
ghost use Rattle.std.specs.Prelude.{◌≡◌, ℕ, ◌+◌, ◌-◌, ◌<◌, ◌≤◌, ◌==◌, ◌^◌, ◌*◌, ◌++◌, [], ◌∷◌, List, All, OnOk, cond, length, slice_index, take};
ghost use Rattle.pq_runs.specs.Writing.{Extends, Keeps};
ghost use Rattle.std.specs.Int.{bit_at, to_le_bytes, w32};
ghost use Rattle.levels.specs.Nested.{parts_of};
ghost use Rattle.levels.specs.Levels.{bit};
ghost use Rattle.level_sections.specs.Planes.{plane_number, plane_numbers};
ghost use Rattle.level_sections.specs.Blocks.{flat_level, Reaches};
ghost use Rattle.level_sections.specs.Definitions.{pending_levels};

use crate::block::part_word;
use levels::{Nested, full_word};
use pq_runs::RunWriter;
use std::alloc::AllocError;

// Up to 64 numbers of three bits: the bits of a place, one of each word, count ones, twos and fours.
#[derive(Clone, Copy, Drop)]
pub struct BitPlanes {
    pub ones: u64,
    pub twos: u64,
    pub fours: u64,
}

// Levels that wait for their writer, at most 64, above one that all have.
#[derive(Clone, Copy, Drop)]
pub struct Pending {
    pub planes: BitPlanes,
    pub count: usize,
}

// Numbers of one bit.
#[inline(always)]
pub fn one_plane(word: u64) -> BitPlanes
    ensures { (i : ℕ) → plane_number result i ≡ bit_at word i }
{
    BitPlanes {
        ones: word,
        twos: 0,
        fours: 0,
    }
}

// Adds a word's bits to numbers that have room for one more.
#[inline(always)]
fn with_bits(planes: BitPlanes, word: u64) -> BitPlanes
    ensures { (i : ℕ) → plane_number planes i + bit_at word i ≤ 7
        → plane_number result i ≡ plane_number planes i + bit_at word i }
{
    let twos = planes.ones & word;
    let fours = planes.twos & twos;
    BitPlanes {
        ones: planes.ones ^ word,
        twos: planes.twos ^ twos,
        fours: planes.fours ^ fours,
    }
}

// Adds to the numbers of up to 64 slots whose bits are set what the parts say of them.
pub fn with_parts(
    planes: BitPlanes,
    parts: &[Nested],
    word: u64,
    place: usize,
    count: usize,
) -> BitPlanes
    requires reaches { Reaches (place + count) (parts_of parts.now) }
    requires some { 0 < count }
    requires few { count ≤ 64 }
    requires low { (i : ℕ) → i < count → plane_number planes i + length parts.now ≤ 7 }
    ensures { (i : ℕ) → i < count → (def : ℕ) → def + plane_number result i
        ≡ cond (bit_at word i == 1) (flat_level (parts_of parts.now) (def + plane_number planes i) (place + i))
        (def + plane_number planes i) }
{
    let mut rest = parts;
    let mut alive = word;
    let mut sums = planes;
    while let Some((part, beneath)) = rest.split_first() {
        let (is_optional, there) = part_word(part, place, count);
        alive &= there;
        if is_optional {
            sums = with_bits(sums, alive);
        }
        rest = beneath;
    }
    sums
}

// What each slot beneath a list adds to a level for the list alone.
fn list_planes(is_optional: bool) -> BitPlanes
    ensures { (i : ℕ) → i < 64 → plane_number result i ≡ bit is_optional + 1 }
{
    if !is_optional {
        return one_plane(full_word(64));
    }
    BitPlanes {
        ones: 0,
        twos: full_word(64),
        fours: 0,
    }
}

// What up to 64 slots beneath a list that is optional or not add to a level.
pub fn item_planes(is_optional: bool, rest: &[Nested], place: usize, count: usize) -> BitPlanes
    requires reaches { Reaches (place + count) (parts_of rest.now) }
    requires some { 0 < count }
    requires few { count ≤ 64 }
    requires parts { length rest.now ≤ 5 }
    ensures { (i : ℕ) → i < count → (def : ℕ) → def + plane_number result i
        ≡ flat_level (parts_of rest.now) (def + bit is_optional + 1) (place + i) }
{
    with_parts(
        list_planes(is_optional),
        rest,
        full_word(count),
        place,
        count,
    )
}

// The lowest bits of a word, and the bits of another one behind them.
#[inline(always)]
fn joined(word: u64, count: usize, bits: u64) -> u64
    requires few { count < 64 }
    ensures front { (i : ℕ) → i < count → bit_at result i ≡ bit_at word i }
    ensures back { (i : ℕ) → count + i < 64 → bit_at result (count + i) ≡ bit_at bits i }
{
    (word % (1 << count)) | (bits << count)
}

// A word whose bits from one on move up by one, and make room for one more.
#[inline(always)]
fn inserted(word: u64, at: usize, bit: u64) -> u64
    requires within { at < 64 }
    ensures below { (i : ℕ) → i < at → bit_at result i ≡ bit_at word i }
    ensures here { bit_at result at ≡ bit_at bit 0 }
    ensures above { (i : ℕ) → at + 1 + i < 64 → bit_at result (at + 1 + i) ≡ bit_at word (at + i) }
{
    let others = joined(bit, 1, word >> at);
    joined(word, at, others)
}

// One number more behind those that wait. The numbers behind them move up.
#[inline(always)]
pub fn with_number(pending: Pending, bit: u64) -> Pending
    requires room { pending.count < 64 }
    requires bit { bit ≤ 1 }
    ensures count { result.count ≡ pending.count + 1 }
    ensures behind { (i : ℕ) → result.count + i < 64 → plane_number result.planes (result.count + i)
        ≡ plane_number pending.planes (pending.count + i) }
    ensures levels { (low : ℕ) → pending_levels low result ≡ pending_levels low pending ++ (low + bit) ∷ [] }
{
    Pending {
        planes: BitPlanes {
            ones: inserted(pending.planes.ones, pending.count, bit),
            twos: inserted(pending.planes.twos, pending.count, 0),
            fours: inserted(pending.planes.fours, pending.count, 0),
        },
        count: pending.count + 1,
    }
}

// The numbers that wait, with others behind them that do not wait yet.
#[inline(always)]
pub fn with_others(pending: Pending, planes: BitPlanes) -> Pending
    requires room { pending.count ≤ 64 }
    ensures count { result.count ≡ pending.count }
    ensures behind { (i : ℕ) → pending.count + i < 64 → plane_number result.planes (pending.count + i)
        ≡ plane_number planes i }
    ensures levels { (low : ℕ) → pending_levels low result ≡ pending_levels low pending }
{
    if pending.count == 64 {
        return pending;
    }
    Pending {
        planes: BitPlanes {
            ones: joined(pending.planes.ones, pending.count, planes.ones),
            twos: joined(pending.planes.twos, pending.count, planes.twos),
            fours: joined(pending.planes.fours, pending.count, planes.fours),
        },
        count: pending.count,
    }
}

// The number at a place.
#[inline(always)]
fn number_at(planes: BitPlanes, i: usize) -> u32
    requires { i < 64 }
    ensures value { result ≡ plane_number planes i }
    ensures most { result ≤ 7 }
{
    let ones = ((planes.ones >> i) & 1) as u32;
    let twos = ((planes.twos >> i) & 1) as u32;
    let fours = ((planes.fours >> i) & 1) as u32;
    ones + 2 * twos + 4 * fours
}

// Four bits as the lowest bits of four bytes.
#[inline(always)]
fn spread(bits: u64) -> u64
    requires { bits < 16 }
    ensures { result ≡ bit_at bits 0 + 256 * bit_at bits 1 + 65536 * bit_at bits 2 + 16777216 * bit_at bits 3 }
{
    (bits * 0x0020_4081) & 0x0101_0101
}

// A word's bits from a place on as the lowest bits of four bytes.
#[inline(always)]
pub fn spread_at(word: u64, at: usize) -> u64
    requires { at < 64 }
    ensures { result ≡ bit_at word at + 256 * bit_at word (at + 1) + 65536 * bit_at word (at + 2)
        + 16777216 * bit_at word (at + 3) }
{
    spread((word >> at) % 16)
}

// Four numbers from a place on as four bytes, the first lowest.
#[inline(always)]
fn four_at(planes: BitPlanes, at: usize) -> u32
    requires { at < 64 }
    ensures { to_le_bytes w32 result ≡ plane_numbers 0 planes at 4 }
{
    let ones = spread_at(planes.ones, at) as u32;
    let twos = spread_at(planes.twos, at) as u32;
    let fours = spread_at(planes.fours, at) as u32;
    ones + 2 * twos + 4 * fours
}

// Four bytes take their places, and those before them stay.
#[inline(always)]
pub fn put_four(places: &mut [u8], at: usize, bytes: [u8; 4])
    requires { at + 4 ≤ length places.old }
    ensures len { length places.new ≡ length places.old }
    ensures front { take (at + 4) places.new ≡ take at places.old ++ bytes }
{
    places[at..at + 4].copy_from_slice(&bytes);
}

// Four numbers without a highest bit from a place on as four bytes, the first lowest.
#[inline(always)]
fn low_four_at(planes: BitPlanes, at: usize) -> u32
    requires place { at < 64 }
    requires low { planes.fours ≡ 0 }
    ensures { to_le_bytes w32 result ≡ plane_numbers 0 planes at 4 }
{
    let ones = spread_at(planes.ones, at) as u32;
    let twos = spread_at(planes.twos, at) as u32;
    ones + 2 * twos
}

// The numbers of all places, none of which has a highest bit.
#[inline(always)]
fn low_bytes_in(planes: BitPlanes) -> [u8; 64]
    requires { planes.fours ≡ 0 }
    ensures { result ≡ plane_numbers 0 planes 0 64 }
{
    let mut bytes = [0; 64];
    for i in 0..16 {
        put_four(&mut bytes, 4 * i, low_four_at(planes, 4 * i).to_le_bytes());
    }
    bytes
}

// The numbers of all places.
#[inline(always)]
fn bytes_in(planes: BitPlanes) -> [u8; 64]
    ensures { result ≡ plane_numbers 0 planes 0 64 }
{
    let mut bytes = [0; 64];
    for i in 0..16 {
        put_four(&mut bytes, 4 * i, four_at(planes, 4 * i).to_le_bytes());
    }
    bytes
}

// Numbers, each with so much more.
#[inline(always)]
fn raised(low: u8, bytes: [u8; 64]) -> [u8; 64]
    requires low { low ≤ 248 }
    requires small { (i : ℕ) → i < 64 → slice_index bytes i ≤ 7 }
    ensures { (i : ℕ) → i < 64 → slice_index result i ≡ low + slice_index bytes i }
{
    let mut numbers = [low; 64];
    for i in 0..64 {
        numbers[i] = low + bytes[i];
    }
    numbers
}

// The numbers of all places, each with so much more.
#[inline(always)]
fn all_numbers_in(low: u8, planes: BitPlanes) -> [u8; 64]
    requires { low ≤ 248 }
    ensures { (i : ℕ) → i < 64 → slice_index result i ≡ low + plane_number planes i }
{
    if planes.fours == 0 {
        raised(low, low_bytes_in(planes))
    } else {
        raised(low, bytes_in(planes))
    }
}

// The numbers of so many places, each with so much more.
#[inline(never)]
fn some_numbers_in(low: u8, planes: BitPlanes, count: usize) -> [u8; 64]
    requires low { low ≤ 248 }
    requires few { count ≤ 64 }
    ensures { (i : ℕ) → i < count → slice_index result i ≡ low + plane_number planes i }
{
    let mut numbers = [low; 64];
    for i in 0..count {
        numbers[i] = low + number_at(planes, i) as u8;
    }
    numbers
}

// The numbers of so many places, each with so much more. Many are spelled four at a time.
#[inline(always)]
fn numbers_in(low: u8, planes: BitPlanes, count: usize) -> [u8; 64]
    requires low { low ≤ 248 }
    requires few { count ≤ 64 }
    ensures { (i : ℕ) → i < count → slice_index result i ≡ low + plane_number planes i }
{
    if count <= 24 {
        return some_numbers_in(low, planes, count);
    }
    all_numbers_in(low, planes)
}

// The same of numbers that may have more than eight bits.
#[cold]
fn wide_numbers_in(low: u32, planes: BitPlanes, count: usize) -> [u32; 64]
    requires low { low ≤ 256 }
    requires few { count ≤ 64 }
    ensures { (i : ℕ) → i < count → slice_index result i ≡ low + plane_number planes i }
{
    let mut numbers = [low; 64];
    for i in 0..count {
        numbers[i] = low + number_at(planes, i);
    }
    numbers
}

// The numbers of so many places are told to a writer, each with so much more.
pub fn push_planes(
    out: &mut Vec<u8>,
    writer: &mut RunWriter,
    low: u32,
    planes: BitPlanes,
    count: usize,
) -> Result<(), AllocError>
    requires few { count ≤ 64 }
    requires low { low ≤ 256 }
    requires holds { All (λ v. v < 2 ^ writer.old.width) (plane_numbers low planes 0 count) }
    ensures width { writer.new.width ≡ writer.old.width }
    ensures added { OnOk result ((start xs : List ℕ) → Keeps start out.old.items writer.old xs
        → Keeps start out.new.items writer.new (xs ++ plane_numbers low planes 0 count)) }
    ensures kept { Extends out.old.items out.new.items }
{
    if planes.twos == 0 {
        if planes.fours == 0 {
            return writer.push_bits(out, low, planes.ones, count);
        }
    }
    if low > 248 {
        let numbers = wide_numbers_in(low, planes, count);
        return writer.push_each(out, &numbers[..count]);
    }
    let numbers = numbers_in(low as u8, planes, count);
    writer.push_bytes(out, &numbers[..count])
}
