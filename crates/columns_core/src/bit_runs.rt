// Runs of bits in packed bytes, eight at a time.
ghost use Rattle.std.specs.Prelude.{◌≡◌, ◌↔◌, ◌+◌, ◌*◌, ◌/◌, ◌%◌, ◌<◌, ◌≤◌, ◌^◌, [], ◌∷◌, IsTrue, count_by, not, length as list_length};
ghost use Rattle.columns_core.specs.Bits.{bits_from, bit_of};

// The bit at a place.
pub fn bit_in(bytes: &[u8], at: usize) -> bool
    requires { at < 8 * list_length bytes.now }
    ensures { result ≡ bit_of bytes.now at }
{
    let byte = bytes[at / 8];
    (byte >> (at % 8)) & 1 == 1
}

// The eight bits from a place on, in one byte.
pub fn eight_bits(bytes: &[u8], at: usize) -> u8
    requires { at + 8 ≤ 8 * list_length bytes.now }
    ensures { bits_from (result ∷ []) 0 8 ≡ bits_from bytes.now at 8 }
{
    let low = bytes[at / 8];
    let shift = at % 8;
    if shift == 0 {
        return low;
    }
    let high = bytes[at / 8 + 1];
    shifted(low, high, shift)
}

// Eight bits of two bytes, from a bit of the first on.
fn shifted(low: u8, high: u8, shift: usize) -> u8
    requires { shift < 8 }
    ensures { result ≡ (high * 2 ^ 8 + low) / 2 ^ shift % 2 ^ 8 }
{
    let both = u16::from(high) * 256 + u16::from(low);
    ((both >> shift) % 256) as u8
}

// How many bits of a byte are not set.
fn unset_of(byte: u8) -> usize
    ensures { result ≡ count_by not (bits_from (byte ∷ []) 0 8) }
{
    8 - byte.count_ones() as usize
}

// How many bits of whole bytes are not set, from a place on.
fn unset_whole(bytes: &[u8], from: usize, count: usize) -> usize
    requires within { from + 8 * count ≤ 8 * list_length bytes.now }
    requires counted { from + 8 * count < 2 ^ 64 }
    ensures { result ≡ count_by not (bits_from bytes.now from (8 * count)) }
{
    let mut unset = 0;
    for i in 0..count {
        unset += unset_of(eight_bits(bytes, from + 8 * i));
    }
    unset
}

// The same, bit by bit.
fn unset_single(bytes: &[u8], from: usize, length: usize) -> usize
    requires within { from + length ≤ 8 * list_length bytes.now }
    requires counted { from + length < 2 ^ 64 }
    ensures { result ≡ count_by not (bits_from bytes.now from length) }
{
    let mut unset = 0;
    for i in 0..length {
        unset += usize::from(!bit_in(bytes, from + i));
    }
    unset
}

/// How many of the bits from a place on are not set.
pub fn unset_in(bytes: &[u8], from: usize, length: usize) -> usize
    requires within { from + length ≤ 8 * list_length bytes.now }
    requires counted { from + length < 2 ^ 64 }
    ensures { result ≡ count_by not (bits_from bytes.now from length) }
{
    let count = length / 8;
    let rest = length % 8;
    unset_whole(bytes, from, count) + unset_single(bytes, from + 8 * count, rest)
}

// Whether two runs of whole bytes are the same.
fn is_same_whole(a: &[u8], a_from: usize, b: &[u8], b_from: usize, count: usize) -> bool
    requires within { a_from + 8 * count ≤ 8 * list_length a.now }
    requires counted { a_from + 8 * count < 2 ^ 64 }
    requires other_within { b_from + 8 * count ≤ 8 * list_length b.now }
    requires other_counted { b_from + 8 * count < 2 ^ 64 }
    ensures { IsTrue result ↔ bits_from a.now a_from (8 * count) ≡ bits_from b.now b_from (8 * count) }
{
    for i in 0..count {
        if eight_bits(a, a_from + 8 * i) != eight_bits(b, b_from + 8 * i) {
            return false;
        }
    }
    true
}

// The same, bit by bit.
fn is_same_single(a: &[u8], a_from: usize, b: &[u8], b_from: usize, length: usize) -> bool
    requires within { a_from + length ≤ 8 * list_length a.now }
    requires counted { a_from + length < 2 ^ 64 }
    requires other_within { b_from + length ≤ 8 * list_length b.now }
    requires other_counted { b_from + length < 2 ^ 64 }
    ensures { IsTrue result ↔ bits_from a.now a_from length ≡ bits_from b.now b_from length }
{
    for i in 0..length {
        if bit_in(a, a_from + i) != bit_in(b, b_from + i) {
            return false;
        }
    }
    true
}

/// Whether two runs of as many bits are the same.
pub fn is_same_run(a: &[u8], a_from: usize, b: &[u8], b_from: usize, length: usize) -> bool
    requires within { a_from + length ≤ 8 * list_length a.now }
    requires counted { a_from + length < 2 ^ 64 }
    requires other_within { b_from + length ≤ 8 * list_length b.now }
    requires other_counted { b_from + length < 2 ^ 64 }
    ensures { IsTrue result ↔ bits_from a.now a_from length ≡ bits_from b.now b_from length }
{
    let count = length / 8;
    let rest = length % 8;
    if !is_same_whole(a, a_from, b, b_from, count) {
        return false;
    }
    is_same_single(a, a_from + 8 * count, b, b_from + 8 * count, rest)
}
