//! Numbers of a few bits in packed bytes.
ghost use Rattle.std.specs.Prelude.{◌≡◌, ◌+◌, ◌*◌, ◌/◌, ◌%◌, ◌^◌, ◌<◌, ◌≤◌, ◌++◌, length, take, drop};
ghost use Rattle.pq_numbers.specs.Bits.{digits_of};
ghost use Rattle.pq_numbers.specs.Texts.{number_of};

use pq_runs::low_bytes;
use std::simd::prelude::*;

// Eight numbers of one bit in the front of the memory, the lowest first. Each is moved to the top of its lane, where what stands above it is lost.
fn put_bits(out: &mut [u32], word: u64)
    requires { 8 ≤ length out.old }
    ensures { out.new ≡ digits_of 2 8 word ++ drop 8 out.old }
{
    let all = Simd::<u16, 8>::splat((word % 256 * 2) as u16);
    let moved = all * Simd::<u16, 8>::from_array([16384, 8192, 4096, 2048, 1024, 512, 256, 128]);
    let numbers = moved >> Simd::<u16, 8>::splat(15);
    numbers.cast::<u32>().copy_to_slice(out);
}

/// The bits of a word as 64 numbers, the lowest first.
pub fn put_word(out: &mut [u32], word: u64)
    requires { length out.old ≡ 64 }
    ensures { out.new ≡ digits_of 2 64 word }
{
    for i in 0..8 {
        let part = &mut out[8 * i..];
        put_bits(part, word >> (8 * i));
    }
}

// The same of two bits.
fn put_pairs(out: &mut [u32], word: u64)
    requires { 8 ≤ length out.old }
    ensures { out.new ≡ digits_of 4 8 word ++ drop 8 out.old }
{
    let all = Simd::<u16, 8>::splat((word % 65536) as u16);
    let moved = all * Simd::<u16, 8>::from_array([16384, 4096, 1024, 256, 64, 16, 4, 1]);
    let numbers = moved >> Simd::<u16, 8>::splat(14);
    numbers.cast::<u32>().copy_to_slice(out);
}

// The same of three bits, four in each half of the lanes.
fn put_triples(out: &mut [u32], word: u64)
    requires { 8 ≤ length out.old }
    ensures { out.new ≡ digits_of 8 8 word ++ drop 8 out.old }
{
    let low = (word % 65536) as u16;
    let high = (word / 4096 % 65536) as u16;
    let all = Simd::<u16, 8>::from_array([low, low, low, low, high, high, high, high]);
    let moved = all * Simd::<u16, 8>::from_array([8192, 1024, 128, 16, 8192, 1024, 128, 16]);
    let numbers = moved >> Simd::<u16, 8>::splat(13);
    numbers.cast::<u32>().copy_to_slice(out);
}

// The same of four bits.
fn put_nibbles(out: &mut [u32], word: u64)
    requires { 8 ≤ length out.old }
    ensures { out.new ≡ digits_of 16 8 word ++ drop 8 out.old }
{
    let low = (word % 65536) as u16;
    let high = (word / 65536 % 65536) as u16;
    let all = Simd::<u16, 8>::from_array([low, low, low, low, high, high, high, high]);
    let moved = all * Simd::<u16, 8>::from_array([4096, 256, 16, 1, 4096, 256, 16, 1]);
    let numbers = moved >> Simd::<u16, 8>::splat(12);
    numbers.cast::<u32>().copy_to_slice(out);
}

// Eight numbers of at most seven bits in the front of the memory, the lowest first.
fn put_numbers(out: &mut [u32], word: u64, width: u32)
    requires room { 8 ≤ length out.old }
    requires narrow { width ≤ 7 }
    ensures { out.new ≡ digits_of (2 ^ width) 8 word ++ drop 8 out.old }
{
    let base: u64 = 1 << width;
    let second = word >> width;
    let third = second >> width;
    let fourth = third >> width;
    let fifth = fourth >> width;
    let sixth = fifth >> width;
    let seventh = sixth >> width;
    let eighth = seventh >> width;
    out[0] = (word % base) as u32;
    out[1] = (second % base) as u32;
    out[2] = (third % base) as u32;
    out[3] = (fourth % base) as u32;
    out[4] = (fifth % base) as u32;
    out[5] = (sixth % base) as u32;
    out[6] = (seventh % base) as u32;
    out[7] = (eighth % base) as u32;
}

// Eight numbers of at most seven bits in the front of the memory, the lowest first.
fn put_eight(out: &mut [u32], word: u64, width: u32)
    requires room { 8 ≤ length out.old }
    requires narrow { width ≤ 7 }
    ensures { out.new ≡ digits_of (2 ^ width) 8 word ++ drop 8 out.old }
{
    match width {
        1 => put_bits(out, word),
        2 => put_pairs(out, word),
        3 => put_triples(out, word),
        4 => put_nibbles(out, word),
        _ => put_numbers(out, word, width),
    }
}

// So many groups of eight packed numbers, from a bit of the first byte on, in the front of the memory.
#[inline(always)]
fn put_groups(out: &mut [u32], packed: &[u8], shift: u32, width: u32, groups: usize)
    requires room { 8 * groups ≤ length out.old }
    requires narrow { width ≤ 7 }
    requires small { shift < 8 }
    requires enough { shift + width * (8 * groups) ≤ 8 * length packed.now }
    ensures { take (8 * groups) out.new ≡ digits_of (2 ^ width) (8 * groups) (number_of packed.now / 2 ^ shift) }
{
    for i in 0..groups {
        let word = low_bytes(skip(packed, width as usize * i)) >> shift;
        let part = &mut out[8 * i..];
        put_eight(part, word, width);
    }
}

/// The same, by a loop of its own for each width that most levels have.
pub fn put_eights(out: &mut [u32], packed: &[u8], shift: u32, width: u32, groups: usize)
    requires room { 8 * groups ≤ length out.old }
    requires narrow { width ≤ 7 }
    requires small { shift < 8 }
    requires enough { shift + width * (8 * groups) ≤ 8 * length packed.now }
    ensures { take (8 * groups) out.new ≡ digits_of (2 ^ width) (8 * groups) (number_of packed.now / 2 ^ shift) }
{
    match width {
        1 => put_groups(out, packed, shift, 1, groups),
        2 => put_groups(out, packed, shift, 2, groups),
        3 => put_groups(out, packed, shift, 3, groups),
        4 => put_groups(out, packed, shift, 4, groups),
        _ => put_groups(out, packed, shift, width, groups),
    }
}

// Eight numbers of two bits in a byte each in the front of the memory, the lowest first.
fn put_byte_pairs(out: &mut [u8], word: u64)
    requires { 8 ≤ length out.old }
    ensures { out.new ≡ digits_of 4 8 word ++ drop 8 out.old }
{
    let all = Simd::<u16, 8>::splat((word % 65536) as u16);
    let moved = all * Simd::<u16, 8>::from_array([16384, 4096, 1024, 256, 64, 16, 4, 1]);
    let numbers = moved >> Simd::<u16, 8>::splat(14);
    numbers.cast::<u8>().copy_to_slice(out);
}

// The same of three bits, four in each half of the lanes.
fn put_byte_triples(out: &mut [u8], word: u64)
    requires { 8 ≤ length out.old }
    ensures { out.new ≡ digits_of 8 8 word ++ drop 8 out.old }
{
    let low = (word % 65536) as u16;
    let high = (word / 4096 % 65536) as u16;
    let all = Simd::<u16, 8>::from_array([low, low, low, low, high, high, high, high]);
    let moved = all * Simd::<u16, 8>::from_array([8192, 1024, 128, 16, 8192, 1024, 128, 16]);
    let numbers = moved >> Simd::<u16, 8>::splat(13);
    numbers.cast::<u8>().copy_to_slice(out);
}

// Eight numbers of two or three bits in a byte each in the front of the memory, the lowest first.
#[inline(always)]
fn put_byte_eight(out: &mut [u8], word: u64, width: u32)
    requires room { 8 ≤ length out.old }
    requires some { 2 ≤ width }
    requires narrow { width ≤ 3 }
    ensures { out.new ≡ digits_of (2 ^ width) 8 word ++ drop 8 out.old }
{
    if width == 2 {
        put_byte_pairs(out, word);
    } else {
        put_byte_triples(out, word);
    }
}

// So many groups of eight packed numbers of two or three bits, from a bit of the first byte on, in a byte each in the front of the memory.
#[inline(always)]
fn put_byte_groups(out: &mut [u8], packed: &[u8], shift: u32, width: u32, groups: usize)
    requires room { 8 * groups ≤ length out.old }
    requires some { 2 ≤ width }
    requires narrow { width ≤ 3 }
    requires small { shift < 8 }
    requires enough { shift + width * (8 * groups) ≤ 8 * length packed.now }
    ensures { take (8 * groups) out.new ≡ digits_of (2 ^ width) (8 * groups) (number_of packed.now / 2 ^ shift) }
{
    for i in 0..groups {
        let word = low_bytes(skip(packed, width as usize * i)) >> shift;
        let part = &mut out[8 * i..];
        put_byte_eight(part, word, width);
    }
}

/// The same, by a loop of its own for each of the two widths.
pub fn put_bytes(out: &mut [u8], packed: &[u8], shift: u32, width: u32, groups: usize)
    requires room { 8 * groups ≤ length out.old }
    requires some { 2 ≤ width }
    requires narrow { width ≤ 3 }
    requires small { shift < 8 }
    requires enough { shift + width * (8 * groups) ≤ 8 * length packed.now }
    ensures { take (8 * groups) out.new ≡ digits_of (2 ^ width) (8 * groups) (number_of packed.now / 2 ^ shift) }
{
    if width == 2 {
        put_byte_groups(out, packed, shift, 2, groups);
    } else {
        put_byte_groups(out, packed, shift, 3, groups);
    }
}

/// The lowest numbers of a word, in the front of the memory.
pub fn put_few(out: &mut [u32], word: u64, width: u32, count: usize)
    requires room { count ≤ length out.old }
    requires narrow { width ≤ 7 }
    ensures { take count out.new ≡ digits_of (2 ^ width) count word }
{
    let mut left = word;
    for i in 0..count {
        out[i] = (left % (1 << width)) as u32;
        left = left >> width;
    }
}

/// The bytes from a place on.
pub fn skip(bytes: &[u8], count: usize) -> &[u8]
    requires { count ≤ length bytes.now }
    ensures { result.now ≡ drop count bytes.now }
{
    &bytes[count..]
}
