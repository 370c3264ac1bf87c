//! Numbers of a few bits each, packed lowest bit first.

ghost use Rattle.std.specs.Prelude.{◌≡◌, ℕ, ◌+◌, ◌-◌, ◌*◌, ◌/◌, ◌%◌, ◌^◌, ◌<◌, ◌≤◌, length, take, drop};
ghost use Rattle.pq_numbers.specs.Bits.{digits_of, unpacked, IsWidth};
ghost use Rattle.pq_numbers.specs.Texts.{number_of};

/// The least number of bits that holds the number: 0 for 0.
pub fn get_bit_width(max: u64) -> u32
    ensures { IsWidth max result }
{
    64 - max.leading_zeros()
}

// The number that less than eight bytes spell.
#[cold]
fn few_bytes(bytes: &[u8]) -> u64
    requires { length bytes.now < 8 }
    ensures { result ≡ number_of bytes.now }
{
    match bytes {
        [a, b, c, d, e, f, g] => u64::from_le_bytes([*a, *b, *c, *d, *e, *f, *g, 0]),
        [a, b, c, d, e, f] => u64::from_le_bytes([*a, *b, *c, *d, *e, *f, 0, 0]),
        [a, b, c, d, e] => u64::from_le_bytes([*a, *b, *c, *d, *e, 0, 0, 0]),
        [a, b, c, d] => u64::from_le_bytes([*a, *b, *c, *d, 0, 0, 0, 0]),
        [a, b, c] => u64::from_le_bytes([*a, *b, *c, 0, 0, 0, 0, 0]),
        [a, b] => u64::from_le_bytes([*a, *b, 0, 0, 0, 0, 0, 0]),
        [a] => u64::from(*a),
        _ => 0,
    }
}

/// The number that the first eight bytes spell, lowest first, or all where there are fewer.
pub fn low_bytes(bytes: &[u8]) -> u64
    ensures { result ≡ number_of (take 8 bytes.now) }
{
    match bytes {
        [a, b, c, d, e, f, g, h, ..] => u64::from_le_bytes([*a, *b, *c, *d, *e, *f, *g, *h]),
        _ => few_bytes(bytes),
    }
}

// Eight numbers of at most eight bits.
pub fn eight_of(word: u64, width: u32) -> [u32; 8]
    requires { width ≤ 8 }
    ensures { result ≡ digits_of (2 ^ width) 8 word }
{
    let base: u64 = 1 << width;
    let second = word >> width;
    let third = second >> width;
    let fourth = third >> width;
    let fifth = fourth >> width;
    let sixth = fifth >> width;
    let seventh = sixth >> width;
    let eighth = seventh >> width;
    [
        (word % base) as u32,
        (second % base) as u32,
        (third % base) as u32,
        (fourth % base) as u32,
        (fifth % base) as u32,
        (sixth % base) as u32,
        (seventh % base) as u32,
        (eighth % base) as u32,
    ]
}

/// The number that at most four bytes spell, lowest first, as a repeated number stands in a run.
pub fn whole_number(value: &[u8]) -> u32
    requires { length value.now ≤ 4 }
    ensures { result ≡ number_of value.now }
{
    match value {
        [a, b, c, d] => u32::from_le_bytes([*a, *b, *c, *d]),
        [a, b, c] => u32::from_le_bytes([*a, *b, *c, 0]),
        [a, b] => u32::from_le_bytes([*a, *b, 0, 0]),
        [a] => u32::from(*a),
        _ => 0,
    }
}

/// The number of `width` bits, at most 32, from bit `shift` of the first byte on, lowest bit first.
pub fn number_at(bytes: &[u8], shift: u32, width: u32) -> u32
    requires within { shift < 8 }
    requires fits { width ≤ 32 }
    requires enough { shift + width ≤ 8 * length bytes.now }
    ensures { result ≡ number_of bytes.now / 2 ^ shift % 2 ^ width }
{
    ((low_bytes(bytes) >> shift) % (1 << width)) as u32
}

// The bytes from a place on.
pub fn skip(bytes: &[u8], count: usize) -> &[u8]
    requires { count ≤ length bytes.now }
    ensures { result.now ≡ drop count bytes.now }
{
    &bytes[count..]
}

/// The numbers at the front of the bytes, `width` bits each, lowest bit first.
pub fn unpack(bytes: &[u8], width: u32, out: &mut [u32])
    requires fits { width ≤ 32 }
    requires enough { width * length out.old ≤ 8 * length bytes.now }
    ensures { out.new ≡ unpacked width (length out.old) bytes.now }
{
    let mut rest = bytes;
    let mut shift: u32 = 0;
    for number in out.iter_mut() {
        *number = number_at(rest, shift, width);
        let next = shift + width;
        rest = skip(rest, (next / 8) as usize);
        shift = next % 8;
    }
}
