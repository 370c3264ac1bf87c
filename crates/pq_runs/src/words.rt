//! Numbers by the bits of a word.

ghost use Rattle.std.specs.Prelude.{◌≡◌, ◌<◌, ◌≤◌, ◌+◌, ◌%◌, ◌^◌, ℕ, ◌-◌, ◌*◌, ◌/◌, ◌++◌, length, replicate, take, slice_index, IsTrue};
ghost use Rattle.pq_runs.specs.Stretches.{stretches};
ghost use Rattle.pq_runs.specs.Words.{bit_numbers};
ghost use Rattle.pq_numbers.specs.Bits.{digits_of};
ghost use Rattle.std.specs.Int.{bit_at, to_le_bytes, w32};

// One number for each bit of a word: `low` where it is 0, and one more where it is 1.
#[inline(always)]
pub fn numbers_of(low: u32, word: u64) -> [u32; 64]
    ensures { (i : ℕ) → i < 64 → slice_index result i ≡ (low + bit_at word i) % 2 ^ 32 }
{
    let mut numbers = [low; 64];
    for i in 0..64 {
        numbers[i] = low.wrapping_add(((word >> i) & 1) as u32);
    }
    numbers
}

// Four bits as the lowest bits of four bytes.
#[inline(always)]
fn spread(bits: u64) -> u64
    requires { bits < 16 }
    ensures { result ≡ bit_at bits 0 + 256 * bit_at bits 1 + 65536 * bit_at bits 2 + 16777216 * bit_at bits 3 }
{
    (bits * 0x0020_4081) & 0x0101_0101
}

// Four numbers by a word's bits from a place on, as four bytes.
#[inline(always)]
fn four_at(low: u8, word: u64, at: usize) -> u32
    requires low { low < 255 }
    requires place { at < 64 }
    ensures { to_le_bytes w32 result ≡ bit_numbers low word at 4 }
{
    let ones = spread((word >> at) % 16) as u32;
    ones + u32::from(low) * 0x0101_0101
}

// Four bytes take their places, and those before them stay.
#[inline(always)]
fn put_four(places: &mut [u8], at: usize, bytes: [u8; 4])
    requires { at + 4 ≤ length places.old }
    ensures len { length places.new ≡ length places.old }
    ensures front { take (at + 4) places.new ≡ take at places.old ++ bytes }
{
    places[at..at + 4].copy_from_slice(&bytes);
}

// The same of numbers of at most eight bits, four at once.
#[inline(always)]
pub fn narrow_numbers_of(low: u8, word: u64) -> [u8; 64]
    requires { low < 255 }
    ensures { result ≡ bit_numbers low word 0 64 }
{
    let mut numbers = [0; 64];
    for i in 0..16 {
        put_four(&mut numbers, 4 * i, four_at(low, word, 4 * i).to_le_bytes());
    }
    numbers
}

// So many copies of a number of one bit.
#[inline(always)]
pub fn copies_of(number: u32, count: usize) -> u64
    requires bit { number < 2 }
    requires few { count ≤ 8 }
    ensures low { result < 2 ^ count }
    ensures copies { digits_of (2 ^ 1) count result ≡ replicate count number }
{
    if number == 0 { 0 } else { (1 << count) - 1 }
}

// The lowest bits of a word.
#[inline(always)]
pub fn low_bits(word: u64, count: usize) -> u64
    requires { count ≤ 64 }
    ensures { result ≡ word % 2 ^ count }
{
    if count == 64 {
        return word;
    }
    word % (1 << count)
}

// Some of the lowest bits of a word.
#[inline(always)]
pub fn lower_bits(word: u64, count: usize) -> u64
    requires { count < 64 }
    ensures { result ≡ word % 2 ^ count }
{
    word % (1 << count)
}

// The bits of a word from one on that is not the lowest.
#[inline(always)]
pub fn high_bits(word: u64, from: usize) -> u64
    requires some { 1 ≤ from }
    requires few { from ≤ 64 }
    ensures { result ≡ word / 2 ^ from }
{
    (word >> (from - 1)) >> 1
}

// So many bits behind one more.
#[inline(always)]
pub fn behind_bit(word: u64, bit: u32, count: usize) -> u64
    requires bit { bit ≤ 1 }
    requires few { count < 64 }
    requires low { word < 2 ^ count }
    ensures value { result ≡ bit + 2 * word }
    ensures low { result < 2 ^ (count + 1) }
{
    u64::from(bit) + 2 * word
}

// Which bits differ from the lowest.
#[inline(always)]
fn others_of(word: u64) -> u64
    ensures { (i : ℕ) → i < 64 → bit_at result i ≡ (bit_at word i + bit_at word 0) % 2 }
{
    if word % 2 == 1 { !word } else { word }
}

// Where bits of a word end that are alike, from one on.
#[inline(always)]
pub fn stretch_end(word: u64, at: usize, count: usize) -> usize
    requires some { at < count }
    requires few { count ≤ 64 }
    ensures after { at < result }
    ensures within { result ≤ count }
    ensures alike { (i : ℕ) → at ≤ i → i < result → bit_at word i ≡ bit_at word at }
{
    let others = others_of(word >> at);
    if others == 0 {
        return count;
    }
    (at + others.trailing_zeros() as usize).min(count)
}

// Whether the numbers of so few bits are in so many stretches that they are best packed as they stand: fewer do where each is a bit, which is packed
// at once.
#[inline(always)]
pub fn are_mixed_bits(word: u64, count: usize, are_bits: bool) -> bool
    requires some { 1 ≤ count }
    requires few { count ≤ 64 }
    ensures { IsTrue result → (low : ℕ) → count + 34 ≤ 14 * stretches (bit_numbers low word 0 count) }
{
    let changes = lower_bits(word ^ (word >> 1), count - 1).count_ones();
    let stretches = changes as usize + 1;
    if 14 * stretches < count + 34 {
        return false;
    }
    if are_bits {
        return true;
    }
    if 10 * stretches < count + 34 {
        return false;
    }
    true
}
