//! Packed numbers of up to 64 bits.

ghost use Rattle.std.specs.Prelude.{◌≡◌, ◌<◌, ◌≤◌, ◌+◌, ◌*◌, ◌/◌, ◌%◌, ◌^◌, ◌++◌, ℕ, length, take, drop};
ghost use Rattle.pq_numbers.specs.Bits.{digits_of, unpacked};
ghost use Rattle.pq_numbers.specs.Texts.{number_of};
ghost use Rattle.pq_delta_reads.specs.Blocks.{block_of};
ghost use Rattle.pq_delta_reads.specs.Waiting.{AreWaiting, value_of};

/// Bits that were taken out of the bytes and wait to be read, lowest first, and the bytes behind them.
#[derive(Drop)]
pub struct Bits<'a> {
    pub rest: &'a [u8],
    pub held: u128,
    pub count: u32,
}

// The number of the first bytes, how many bits it has, and the bytes behind it. Behind the end stand zeros.
fn next_word(bytes: &[u8]) -> (u64, u32, &[u8])
    ensures some { 0 < result.1 }
    ensures most { result.1 ≤ 64 }
    ensures below { result.0 < 2 ^ result.1 }
    ensures value { number_of bytes.now ≡ result.0 + 2 ^ result.1 * number_of result.2.now }
{
    match bytes {
        [a, b, c, d, e, f, g, h, rest @ ..] => {
            let word = u64::from_le_bytes([*a, *b, *c, *d, *e, *f, *g, *h]);
            (word, 64, rest)
        }
        [a, rest @ ..] => (u64::from(*a), 8, rest),
        [] => (0, 64, bytes),
    }
}

// Takes more bits out of the bytes.
fn refill(bits: &mut Bits<'_>)
    requires small { bits.old.held < 2 ^ bits.old.count }
    requires few { bits.old.count < 64 }
    ensures small { bits.new.held < 2 ^ bits.new.count }
    ensures more { bits.old.count < bits.new.count }
    ensures most { bits.new.count ≤ bits.old.count + 64 }
    ensures same { value_of bits.new ≡ value_of bits.old }
{
    let (word, size, rest) = next_word(bits.rest);
    bits.held += u128::from(word) << bits.count;
    bits.count += size;
    bits.rest = rest;
}

// The number of so many bits at the front.
fn take(bits: &mut Bits<'_>, width: u32) -> u64
    requires are { AreWaiting bits.old }
    requires fits { width ≤ 64 }
    ensures are { AreWaiting bits.new }
    ensures value { result ≡ value_of bits.old % 2 ^ width }
    ensures rest { value_of bits.new ≡ value_of bits.old / 2 ^ width }
{
    while bits.count < width {
        refill(bits);
    }
    let number = (bits.held % (1 << width)) as u64;
    bits.held >>= width;
    bits.count -= width;
    number
}

// The numbers at the front of the bytes, `width` bits each, lowest bit first. Behind the end stand zeros.
pub fn unpack(bytes: &[u8], width: u32, out: &mut [u64])
    requires { width ≤ 64 }
    ensures { out.new ≡ unpacked width (length out.old) bytes.now }
{
    let mut bits = Bits {
        rest: bytes,
        held: 0,
        count: 0,
    };
    for number in out.iter_mut() {
        *number = take(&mut bits, width);
    }
}

// The number of the first eight bytes.
#[inline(always)]
fn first_word(bytes: &[u8]) -> u64
    requires { 8 ≤ length bytes.now }
    ensures { result ≡ number_of (take 8 bytes.now) }
{
    match bytes {
        [a, b, c, d, e, f, g, h, ..] => u64::from_le_bytes([*a, *b, *c, *d, *e, *f, *g, *h]),
        _ => unreachable!(),
    }
}

// The bits from a bit on. The lowest 57 are those of the bytes.
#[inline(always)]
fn word_at(bytes: &[u8], bit: u32) -> u64
    requires { bit / 8 + 8 ≤ length bytes.now }
    ensures { (w n : ℕ) → w * n ≤ 57 → digits_of (2 ^ w) n result
        ≡ digits_of (2 ^ w) n (number_of bytes.now / 2 ^ bit) }
{
    first_word(behind(bytes, (bit / 8) as usize)) >> (bit % 8)
}

// The first eight numbers, which stand in a word.
#[inline(always)]
fn by_eights(bytes: &[u8], width: u32) -> [u64; 8]
    requires fits { width ≤ 7 }
    requires enough { 8 ≤ length bytes.now }
    ensures { result ≡ unpacked width 8 bytes.now }
{
    let base: u64 = 1 << width;
    let first = word_at(bytes, 0);
    let second = first >> width;
    let third = second >> width;
    let fourth = third >> width;
    let fifth = fourth >> width;
    let sixth = fifth >> width;
    let seventh = sixth >> width;
    let eighth = seventh >> width;
    [
        first % base,
        second % base,
        third % base,
        fourth % base,
        fifth % base,
        sixth % base,
        seventh % base,
        eighth % base,
    ]
}

// The first eight numbers, four in a word.
#[inline(always)]
fn by_fours(bytes: &[u8], width: u32) -> [u64; 8]
    requires fits { width ≤ 14 }
    requires enough { width + 8 ≤ length bytes.now }
    ensures { result ≡ unpacked width 8 bytes.now }
{
    let base: u64 = 1 << width;
    let first = word_at(bytes, 0);
    let second = first >> width;
    let third = second >> width;
    let fourth = third >> width;
    let fifth = word_at(bytes, 4 * width);
    let sixth = fifth >> width;
    let seventh = sixth >> width;
    let eighth = seventh >> width;
    [
        first % base,
        second % base,
        third % base,
        fourth % base,
        fifth % base,
        sixth % base,
        seventh % base,
        eighth % base,
    ]
}

// The first eight numbers, two in a word.
#[inline(always)]
fn by_twos(bytes: &[u8], width: u32) -> [u64; 8]
    requires fits { width ≤ 28 }
    requires enough { width + 8 ≤ length bytes.now }
    ensures { result ≡ unpacked width 8 bytes.now }
{
    let base: u64 = 1 << width;
    let first = word_at(bytes, 0);
    let second = word_at(bytes, 2 * width);
    let third = word_at(bytes, 4 * width);
    let fourth = word_at(bytes, 6 * width);
    [
        first % base,
        (first >> width) % base,
        second % base,
        (second >> width) % base,
        third % base,
        (third >> width) % base,
        fourth % base,
        (fourth >> width) % base,
    ]
}

// The first eight numbers, one by one.
#[inline(always)]
fn by_ones(bytes: &[u8], width: u32) -> [u64; 8]
    requires fits { width ≤ 57 }
    requires enough { width + 8 ≤ length bytes.now }
    ensures { result ≡ unpacked width 8 bytes.now }
{
    let base: u64 = 1 << width;
    let first = word_at(bytes, 0);
    let second = word_at(bytes, width);
    let third = word_at(bytes, 2 * width);
    let fourth = word_at(bytes, 3 * width);
    let fifth = word_at(bytes, 4 * width);
    let sixth = word_at(bytes, 5 * width);
    let seventh = word_at(bytes, 6 * width);
    let eighth = word_at(bytes, 7 * width);
    [
        first % base,
        second % base,
        third % base,
        fourth % base,
        fifth % base,
        sixth % base,
        seventh % base,
        eighth % base,
    ]
}

// Eight numbers take their places, and those before them stay.
#[inline(always)]
fn put_eight(numbers: &mut [u64; 32], at: usize, eight: [u64; 8])
    requires { at + 8 ≤ 32 }
    ensures len { length numbers.new ≡ 32 }
    ensures front { take (at + 8) numbers.new ≡ take at numbers.old ++ eight }
{
    numbers[at] = eight[0];
    numbers[at + 1] = eight[1];
    numbers[at + 2] = eight[2];
    numbers[at + 3] = eight[3];
    numbers[at + 4] = eight[4];
    numbers[at + 5] = eight[5];
    numbers[at + 6] = eight[6];
    numbers[at + 7] = eight[7];
}

// The bytes behind the first so many.
#[inline(always)]
fn behind(bytes: &[u8], count: usize) -> &[u8]
    requires { count ≤ length bytes.now }
    ensures { result.now ≡ drop count bytes.now }
{
    &bytes[count..]
}

// In the place of the numbers come the first 32, eight of which stand in a word.
fn unpack_by_eights(bytes: &[u8], width: u32, numbers: &mut [u64; 32])
    requires fits { width ≤ 7 }
    requires enough { 4 * width + 8 ≤ length bytes.now }
    ensures { numbers.new ≡ block_of width bytes.now }
{
    let mut rest = bytes;
    let mut at = 0;
    while at < 32 {
        put_eight(numbers, at, by_eights(rest, width));
        rest = behind(rest, width as usize);
        at += 8;
    }
}

// The same, four in a word.
fn unpack_by_fours(bytes: &[u8], width: u32, numbers: &mut [u64; 32])
    requires fits { width ≤ 14 }
    requires enough { 4 * width + 8 ≤ length bytes.now }
    ensures { numbers.new ≡ block_of width bytes.now }
{
    let mut rest = bytes;
    let mut at = 0;
    while at < 32 {
        put_eight(numbers, at, by_fours(rest, width));
        rest = behind(rest, width as usize);
        at += 8;
    }
}

// The same, two in a word.
fn unpack_by_twos(bytes: &[u8], width: u32, numbers: &mut [u64; 32])
    requires fits { width ≤ 28 }
    requires enough { 4 * width + 8 ≤ length bytes.now }
    ensures { numbers.new ≡ block_of width bytes.now }
{
    let mut rest = bytes;
    let mut at = 0;
    while at < 32 {
        put_eight(numbers, at, by_twos(rest, width));
        rest = behind(rest, width as usize);
        at += 8;
    }
}

// The same, one in a word.
fn unpack_by_ones(bytes: &[u8], width: u32, numbers: &mut [u64; 32])
    requires fits { width ≤ 57 }
    requires enough { 4 * width + 8 ≤ length bytes.now }
    ensures { numbers.new ≡ block_of width bytes.now }
{
    let mut rest = bytes;
    let mut at = 0;
    while at < 32 {
        put_eight(numbers, at, by_ones(rest, width));
        rest = behind(rest, width as usize);
        at += 8;
    }
}

// In the place of the numbers come the first 32.
fn unpack_groups(bytes: &[u8], width: u32, numbers: &mut [u64; 32])
    requires fits { width ≤ 57 }
    requires enough { 4 * width + 8 ≤ length bytes.now }
    ensures { numbers.new ≡ block_of width bytes.now }
{
    if width <= 7 {
        unpack_by_eights(bytes, width, numbers);
    } else if width <= 14 {
        unpack_by_fours(bytes, width, numbers);
    } else if width <= 28 {
        unpack_by_twos(bytes, width, numbers);
    } else {
        unpack_by_ones(bytes, width, numbers);
    }
}

// The first 32 numbers, one by one.
#[cold]
#[inline(never)]
fn unpack_each(bytes: &[u8], width: u32) -> [u64; 32]
    requires { width ≤ 64 }
    ensures { result ≡ block_of width bytes.now }
{
    let mut numbers = [0; 32];
    unpack(bytes, width, &mut numbers);
    numbers
}

// The bytes, with zeros behind them.
fn padded(bytes: &[u8]) -> [u8; 264]
    requires { length bytes.now ≤ 264 }
    ensures { number_of result ≡ number_of bytes.now }
{
    let mut padded = [0; 264];
    padded[..bytes.len()].copy_from_slice(bytes);
    padded
}

// In the place of the numbers come the first 32 of bytes that end soon.
#[cold]
#[inline(never)]
fn unpack_end(bytes: &[u8], width: u32, numbers: &mut [u64; 32])
    requires fits { width ≤ 57 }
    requires few { length bytes.now ≤ 264 }
    ensures { numbers.new ≡ block_of width bytes.now }
{
    unpack_groups(&padded(bytes), width, numbers);
}

/// In the place of the numbers come the first 32 of the bytes, `width` bits each, lowest bit first. Behind the end stand zeros.
pub fn unpack_into(bytes: &[u8], width: u32, numbers: &mut [u64; 32])
    requires { width ≤ 64 }
    ensures { numbers.new ≡ block_of width bytes.now }
{
    if width == 0 {
        *numbers = [0; 32];
    } else if width > 57 {
        *numbers = unpack_each(bytes, width);
    } else if 4 * width as usize + 8 <= bytes.len() {
        unpack_groups(bytes, width, numbers);
    } else {
        unpack_end(bytes, width, numbers);
    }
}

/// The first 32 numbers of the bytes, `width` bits each, lowest bit first. Behind the end stand zeros.
pub fn unpack_block(bytes: &[u8], width: u32) -> [u64; 32]
    requires { width ≤ 64 }
    ensures { result ≡ block_of width bytes.now }
{
    let mut numbers = [0; 32];
    unpack_into(bytes, width, &mut numbers);
    numbers
}
