ghost use Rattle.std.specs.Prelude.{◌<◌, ◌≤◌, ◌^◌, IsTrue};

use columns_base::{Error, Result, S};
use pq_runs::hybrid_rle::{Decoder, Run};
use pq_runs::{
    HybridRleDecoder, RunWriter, bitpacked_encode, decode, encode_bool, encode_u32, get_bit_width,
    unpack,
};
use std::alloc::Global;

const FAULT: Error = Error::OutOfSpec(S::S6);

// The standard's example of bit packing, and numbers of one and of 32 bits.
#[test]
fn packed_bits(rt: HostRuntime) {
    let widths: [(u64, u32); 5] = [(0, 0), (1, 1), (255, 8), (256, 9), (u64::MAX, 64)];
    for (max, width) in &widths {
        assert!(rt; get_bit_width(*max) == *width, "at {max}");
    }
    let mut eight = [0_u32; 8];
    unpack(&[0x88, 0xc6, 0xfa], 3, &mut eight);
    assert!(rt; eight == [0, 1, 2, 3, 4, 5, 6, 7]);
    unpack(&[0b1010_0110], 1, &mut eight);
    assert!(rt; eight == [0, 1, 1, 0, 0, 1, 0, 1]);
    let mut two = [0_u32; 2];
    unpack(&[1, 2, 3, 4, 255, 255, 255, 255], 32, &mut two);
    assert!(rt; two == [0x0403_0201, u32::MAX]);
}

// The iterator gives these numbers, and then an error exactly where there are too few.
fn gives(bytes: &[u8], width: u32, called: usize, want: &[u32]) -> Result<bool> {
    let mut left = want;
    for item in HybridRleDecoder::try_new(bytes, width, called)? {
        match (item, left) {
            (Ok(number), [first, rest @ ..]) => {
                if number != *first {
                    return Ok(false);
                }
                left = rest;
            }
            (Err(error), []) => return Ok(error == FAULT && want.len() < called),
            _ => return Ok(false),
        }
    }
    Ok(left.is_empty() && want.len() == called)
}

// The whole list is these numbers, or refused where there are too few.
fn decodes(alloc: Global, bytes: &[u8], width: u32, called: usize, want: &[u32]) -> bool {
    if width > 32 {
        return false;
    }
    match decode(alloc, bytes, width, called) {
        Ok(numbers) => numbers.as_slice() == want && want.len() == called,
        Err(error) => error == FAULT && want.len() < called,
    }
}

// Each text with its width, the numbers that are called for and those that stand there.
#[test]
fn readings(rt: HostRuntime) -> Result<()> {
    let cases: [(&[u8], u32, usize, &[u32]); 16] = [
        (&[3, 0x88, 0xc6, 0xfa], 3, 8, &[0, 1, 2, 3, 4, 5, 6, 7]),
        (&[3, 2], 1, 5, &[0, 1, 0, 0, 0]),
        (&[3, 0x4f, 2], 2, 5, &[3, 3, 0, 1, 2]),
        (&[8, 1], 1, 4, &[1, 1, 1, 1]),
        (&[8, 1], 1, 2, &[1, 1]),
        (&[3, 0x88], 3, 2, &[0, 1]),
        (&[0, 7, 4, 5, 3, 0x88, 0xc6, 0xfa], 3, 5, &[5, 5, 0, 1, 2]),
        (&[2, 0, 1], 9, 1, &[256]),
        (&[4, 1, 0, 0, 128, 9], 32, 2, &[0x8000_0001, 0x8000_0001]),
        (&[9], 0, 3, &[0, 0, 0]),
        (&[], 7, 0, &[]),
        (&[3, 0x88], 3, 3, &[0, 1]),
        (&[8, 1], 1, 5, &[1, 1, 1, 1]),
        (&[8], 1, 1, &[]),
        (&[128], 1, 1, &[]),
        (&[4, 1, 0, 0], 32, 1, &[]),
    ];
    for (i, (bytes, width, called, want)) in cases.iter().enumerate() {
        let given = gives(bytes, *width, *called, want)?;
        assert!(rt;
            given && decodes(rt.alloc(), bytes, *width, *called, want),
            "at {i}"
        );
    }
    assert!(rt; HybridRleDecoder::try_new(&[3, 2], 33, 1).is_err());
    Ok(())
}

fn is_repeated(item: Option<Result<Run>>, number: u8, times: usize) -> bool {
    match item {
        Some(Ok(Run::Repeated(value, count))) => value == [number].as_slice() && count == times,
        _ => false,
    }
}

fn is_packed(item: Option<Result<Run>>, bytes: &[u8]) -> bool {
    match item {
        Some(Ok(Run::Packed(body))) => body == bytes,
        _ => false,
    }
}

fn is_fault(item: Option<Result<Run>>) -> bool {
    match item {
        Some(Err(error)) => error == FAULT,
        _ => false,
    }
}

// Runs as they stand in the bytes, and an error where none stands.
#[test]
fn runs_one_by_one(rt: HostRuntime) {
    let mut runs = Decoder::new(&[4, 5, 3, 0x88, 0xc6, 0xfa, 3, 1, 8], 3);
    assert!(rt; is_repeated(runs.next(), 5, 2));
    assert!(rt; is_packed(runs.next(), &[0x88, 0xc6, 0xfa]));
    assert!(rt; is_packed(runs.next(), &[1, 8]));
    assert!(rt; runs.next().is_none());
    let mut none = Decoder::new(&[2], 3);
    assert!(rt; is_fault(none.next()));
}

// Numbers of 32 bits, and truth values.
fn push_numbers(out: &mut Vec<u8>, values: &[u32]) -> Result<()> {
    encode_u32(out, values.iter().copied(), values.len(), 32)
}

fn push_bools(out: &mut Vec<u8>, values: &[bool]) -> Result<()> {
    encode_bool(out, values.iter().copied(), values.len())
}

fn push_plain(out: &mut Vec<u8>, values: &[bool]) -> Result<()> {
    bitpacked_encode(out, values.iter().copied(), values.len())
}

// So many numbers, of which each stands so many times, are read as they were written.
fn turns_back(alloc: Global, count: u32, times: u32) -> Result<bool> {
    if times == 0 {
        return Ok(false);
    }
    let mut numbers: Vec<u32> = Vec::new(alloc);
    for i in 0..count {
        numbers.push((i / times).wrapping_mul(0x0101_0101))?;
    }
    let mut out = Vec::new(alloc);
    push_numbers(&mut out, &numbers)?;
    let read = decode(alloc, &out, 32, numbers.len())?;
    Ok(read.as_slice() == numbers.as_slice())
}

// All equal, in turn, and in pieces around the groups and around 504.
#[test]
fn written_and_read(rt: HostRuntime) -> Result<()> {
    let cases: [(u32, u32); 8] = [
        (0, 1),
        (1, 1),
        (7, 9),
        (8, 9),
        (9, 2),
        (504, 1),
        (505, 3),
        (2000, 700),
    ];
    for (count, times) in &cases {
        let same = turns_back(rt.alloc(), *count, *times)?;
        assert!(rt; same, "{count} in {times}");
    }
    Ok(())
}

// The runs and the plain bits of truth values.
fn are_bits(alloc: Global, values: &[bool], runs: &[u8], plain: &[u8]) -> Result<bool> {
    let mut out: Vec<u8> = Vec::new(alloc);
    push_bools(&mut out, values)?;
    let written = out.as_slice() == runs;
    out.clear();
    push_plain(&mut out, values)?;
    Ok(written && out.as_slice() == plain)
}

// Few bits are packed in whole groups, many equal ones a repeated run; plain bits have no header.
#[test]
fn bits(rt: HostRuntime) -> Result<()> {
    let cases: [(&[bool], &[u8], &[u8]); 4] = [
        (&[], &[], &[]),
        (&[true, false, true, true, false], &[3, 0b01101], &[0b01101]),
        (&[true; 8], &[3, 255], &[255]),
        (&[true; 72], &[0x90, 1, 1], &[255; 9]),
    ];
    for (i, (values, runs, plain)) in cases.iter().enumerate() {
        let same = are_bits(rt.alloc(), values, runs, plain)?;
        assert!(rt; same, "at {i}");
    }
    Ok(())
}

fn is_below(number: u32, width: u32) -> bool
    requires { width ≤ 32 }
    ensures { IsTrue result → number < 2 ^ width }
{
    u64::from(number) < 1 << width
}

// The runs that a writer of a width makes of numbers with their counts.
fn writes(alloc: Global, width: u32, pushes: &[(u32, usize)], bytes: &[u8]) -> Result<bool> {
    if width < 1 || width > 32 {
        return Ok(false);
    }
    let mut out = Vec::new(alloc);
    let mut writer = RunWriter::new(width);
    for (number, count) in pushes {
        if !is_below(*number, width) {
            writer.finish(&mut out)?;
            return Ok(false);
        }
        writer.push(&mut out, *number, *count)?;
    }
    writer.finish(&mut out)?;
    Ok(out.as_slice() == bytes)
}

// The bytes are those of the format's table: a header 2 n before a number that stands n times, 2 g + 1 before g groups of eight packed ones.
#[test]
fn numbers_in_runs(rt: HostRuntime) -> Result<()> {
    let cases: [(u32, &[(u32, usize)], &[u8]); 5] = [
        (2, &[(3, 600), (3, 0), (1, 0), (3, 400)], &[0xd0, 0x0f, 3]),
        (2, &[(3, 2), (0, 1), (1, 1), (2, 1)], &[3, 0x4f, 2]),
        (
            8,
            &[(200, 3), (255, 100)],
            &[3, 200, 200, 200, 255, 255, 255, 255, 255, 190, 1, 255],
        ),
        (9, &[(256, 1), (1, 1)], &[3, 0, 3, 0, 0, 0, 0, 0, 0, 0]),
        (1, &[], &[]),
    ];
    for (i, (width, pushes, bytes)) in cases.iter().enumerate() {
        let same = writes(rt.alloc(), *width, pushes, bytes)?;
        assert!(rt; same, "at {i}");
    }
    Ok(())
}
