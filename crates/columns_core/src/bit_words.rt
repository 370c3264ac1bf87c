// Runs of bits in packed bytes, 64 at a time.
ghost use Rattle.std.specs.Prelude.{◌≡◌, ◌≢◌, ℕ, ◌+◌, ◌*◌, ◌/◌, ◌%◌, ◌<◌, ◌≤◌, ◌^◌, ◌==◌, take, drop, length as list_length};
ghost use Rattle.columns_core.specs.Bits.{bit_of};
ghost use Rattle.std.specs.Int.{bit_at, to_le_bytes, w64};

use crate::bit_runs::bit_in;

// The first eight bytes as a number, the lowest first.
fn eight_bytes(bytes: &[u8]) -> u64
    requires { 8 ≤ list_length bytes.now }
    ensures { to_le_bytes w64 result ≡ take 8 bytes.now }
{
    match bytes {
        [a, b, c, d, e, f, g, h, ..] => u64::from_le_bytes([*a, *b, *c, *d, *e, *f, *g, *h]),
        _ => 0,
    }
}

// 64 bits of a word and the byte behind it, from a bit of the word on.
fn shifted_word(low: u64, high: u8, shift: usize) -> u64
    requires { shift < 8 }
    ensures { result ≡ (high * 2 ^ 64 + low) / 2 ^ shift % 2 ^ 64 }
{
    let both = u128::from(high) * 0x1_0000_0000_0000_0000 + u128::from(low);
    ((both >> shift) % 0x1_0000_0000_0000_0000) as u64
}

// The 64 bits from a place on, in one word.
fn word_in(bytes: &[u8], at: usize) -> u64
    requires { at + 64 ≤ 8 * list_length bytes.now }
    ensures { (i : ℕ) → i < 64 → (bit_at result i == 1) ≡ bit_of bytes.now (at + i) }
{
    let low = eight_bytes(&bytes[at / 8..]);
    let shift = at % 8;
    if shift == 0 {
        return low;
    }
    shifted_word(low, bytes[at / 8 + 8], shift)
}

// How many of the low bits of a word are equal to `value`, up to the first that is not.
fn run_in_word(word: u64, value: bool) -> usize
    ensures within { result ≤ 64 }
    ensures alike { (i : ℕ) → i < result → (bit_at word i == 1) ≡ value }
    ensures ended { result < 64 → (bit_at word result == 1) ≢ value }
{
    if value {
        word.trailing_ones() as usize
    } else {
        word.trailing_zeros() as usize
    }
}

// Where a run ends, bit by bit.
fn single_end(bytes: &[u8], from: usize, to: usize, value: bool) -> usize
    requires ordered { from ≤ to }
    requires within { to ≤ 8 * list_length bytes.now }
    ensures after { from ≤ result }
    ensures within { result ≤ to }
    ensures alike { (i : ℕ) → from ≤ i → i < result → bit_of bytes.now i ≡ value }
    ensures ended { result < to → bit_of bytes.now result ≢ value }
{
    for end in from..to {
        if bit_in(bytes, end) != value {
            return end;
        }
    }
    to
}

/// Where the run of bits equal to `value` ends that begins at a place, at most at the place `to`.
pub fn run_end_in(bytes: &[u8], from: usize, to: usize, value: bool) -> usize
    requires ordered { from ≤ to }
    requires within { to ≤ 8 * list_length bytes.now }
    ensures after { from ≤ result }
    ensures within { result ≤ to }
    ensures alike { (i : ℕ) → from ≤ i → i < result → bit_of bytes.now i ≡ value }
    ensures ended { result < to → bit_of bytes.now result ≢ value }
{
    let mut end = from;
    while end < to && bytes.len() - end / 8 > 8 {
        let count = run_in_word(word_in(bytes, end), value);
        if count >= to - end {
            return to;
        }
        end += count;
        if count < 64 {
            return end;
        }
    }
    single_end(bytes, end, to, value)
}

// The last bytes, from one on, with zeros behind them.
fn last_bytes(bytes: &[u8], from: usize) -> [u8; 16]
    requires within { from ≤ list_length bytes.now }
    requires few { list_length bytes.now ≤ from + 8 }
    ensures size { list_length result ≡ 16 }
    ensures front { (i : ℕ) → 8 * from + i < 8 * list_length bytes.now
        → bit_of result i ≡ bit_of bytes.now (8 * from + i) }
{
    let rest = &bytes[from..];
    let mut last = [0; 16];
    let front = &mut last[..rest.len()];
    front.copy_from_slice(rest);
    last
}

// The low bits of a word.
fn low_of(word: u64, count: usize) -> u64
    requires { count ≤ 64 }
    ensures bits { (i : ℕ) → i < count → bit_at result i ≡ bit_at word i }
    ensures low { result < 2 ^ count }
{
    if count == 64 {
        word
    } else {
        word % (1 << count)
    }
}

/// At most 64 bits from a place on, as the low bits of a word.
pub fn bits_in(bytes: &[u8], at: usize, count: usize) -> u64
    requires few { count ≤ 64 }
    requires within { at + count ≤ 8 * list_length bytes.now }
    ensures bits { (i : ℕ) → i < count → (bit_at result i == 1) ≡ bit_of bytes.now (at + i) }
    ensures low { result < 2 ^ count }
{
    if bytes.len() - at / 8 > 8 {
        return low_of(word_in(bytes, at), count);
    }
    let last = last_bytes(bytes, at / 8);
    low_of(word_in(&last, at % 8), count)
}
