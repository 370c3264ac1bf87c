use columns_base::{Error, Result, S};
use pq_delta_reads::delta_bitpacked::Decoder;
use pq_delta_reads::{push_plain_i32, push_plain_i64, push_plain_strings};
use pq_deltas::delta_bitpacked::encode;
use std::alloc::Global;

// Whether the decoder gives these numbers, and then no more or S6, and how many bytes it takes.
fn gives(bytes: &[u8], numbers: &[i64], failed: bool, size: usize) -> bool {
    let Ok(mut decoder) = Decoder::try_new(bytes) else {
        return false;
    };
    for number in numbers {
        match decoder.next() {
            Some(Ok(read)) => {
                if read != *number {
                    return false;
                }
            }
            _ => return false,
        }
    }
    let end = match decoder.next() {
        None => !failed,
        Some(Err(Error::OutOfSpec(S::S6))) => failed,
        _ => false,
    };
    end && decoder.next().is_none() && decoder.len() == 0 && decoder.consumed_bytes() == size
}

// None, one, the standard's example with its last byte and without, and blocks of 256 in two miniblocks, where 8 times 16 bytes are 128 numbers of a byte.
#[test]
fn deltas(rt: HostRuntime) {
    let cases: [(&[u8], &[i64], bool, usize); 5] = [
        (&[128, 1, 4, 0, 0], &[], false, 5),
        (&[128, 1, 4, 1, 1], &[-1], false, 5),
        (
            &[0x80, 1, 4, 8, 0x0e, 3, 2, 0, 0, 0, 0xc0, 0x3f],
            &[7, 5, 3, 1, 2, 3, 4, 5],
            false,
            18,
        ),
        (
            &[0x80, 1, 4, 8, 0x0e, 3, 2, 0, 0, 0, 0xc0],
            &[7, 5, 3, 1, 2],
            true,
            10,
        ),
        (
            &[0x80, 2, 2, 3, 0, 2, 8, 0, 5, 250],
            &[0, 6, 257],
            false,
            136,
        ),
    ];
    for (i, (bytes, numbers, failed, size)) in cases.iter().enumerate() {
        let given = gives(bytes, numbers, *failed, *size);
        assert!(rt; given, "at {i}");
    }
}

// Widths of 0 and 64, miniblocks that are not needed with widths above 64, sums that wrap, and a needed width of 65.
#[test]
fn delta_widths(rt: HostRuntime) {
    let cases: [(&[u8], &[i64], bool, usize); 5] = [
        (
            &[128, 1, 4, 4, 2, 1, 0, 0, 0, 0],
            &[1, 0, -1, -2],
            false,
            10,
        ),
        (
            &[
                128, 1, 4, 2, 0, 0, 64, 65, 200, 255, 1, 0, 0, 0, 0, 0, 0, 128,
            ],
            &[0, i64::MIN + 1],
            false,
            266,
        ),
        (
            &[
                128, 1, 4, 2, 254, 255, 255, 255, 255, 255, 255, 255, 255, 1, 2, 0, 0, 0, 0,
            ],
            &[i64::MAX, i64::MIN],
            false,
            19,
        ),
        (&[128, 1, 4, 2, 0, 0, 65, 0, 0, 0, 1], &[0], true, 10),
        (&[128, 1, 4, 2, 0, 0, 0, 0, 0], &[0], true, 5),
    ];
    for (i, (bytes, numbers, failed, size)) in cases.iter().enumerate() {
        let given = gives(bytes, numbers, *failed, *size);
        assert!(rt; given, "at {i}");
    }
}

fn is_refused(bytes: &[u8]) -> bool {
    matches!(Decoder::try_new(bytes), Err(Error::OutOfSpec(S::S6)))
}

// No bytes, a block of none, one of 64, no miniblocks, miniblocks of 16, a number of miniblocks that does not divide, a count without an end.
#[test]
fn headers(rt: HostRuntime) {
    let cases: [&[u8]; 7] = [
        &[],
        &[0, 4, 1, 1],
        &[64, 2, 1, 1],
        &[128, 1, 0, 1, 1],
        &[128, 1, 8, 1, 1],
        &[128, 1, 3, 1, 1],
        &[128, 1, 4, 129],
    ];
    for (i, bytes) in cases.iter().enumerate() {
        let refused = is_refused(bytes);
        assert!(rt; refused, "at {i}");
    }
}

fn are_narrow(alloc: Global, section: &[u8], values: &[i32]) -> Result<bool> {
    let mut out: Vec<u8> = Vec::new(alloc);
    let mut plain: Vec<u8> = Vec::new(alloc);
    push_plain_i32(section, values.len(), &mut out)?;
    for value in values {
        plain.extend_from_slice(&value.to_le_bytes())?;
    }
    Ok(out.as_slice() == plain.as_slice())
}

fn are_wide(alloc: Global, section: &[u8], values: &[i64]) -> Result<bool> {
    let mut out: Vec<u8> = Vec::new(alloc);
    let mut plain: Vec<u8> = Vec::new(alloc);
    push_plain_i64(section, values.len(), &mut out)?;
    for value in values {
        plain.extend_from_slice(&value.to_le_bytes())?;
    }
    Ok(out.as_slice() == plain.as_slice())
}

// The standard's example, no values, and a sum that wraps in 32 bits.
#[test]
fn narrow_sections(rt: HostRuntime) -> Result<()> {
    let cases: [(&[u8], &[i32]); 3] = [
        (&[128, 1, 4, 0, 0], &[]),
        (
            &[0x80, 1, 4, 8, 0x0e, 3, 2, 0, 0, 0, 0xc0, 0x3f],
            &[7, 5, 3, 1, 2, 3, 4, 5],
        ),
        (
            &[128, 1, 4, 2, 254, 255, 255, 255, 15, 2, 0, 0, 0, 0],
            &[i32::MAX, i32::MIN],
        ),
    ];
    for (i, (section, values)) in cases.iter().enumerate() {
        let same = are_narrow(rt.alloc(), section, values)?;
        assert!(rt; same, "at {i}");
    }
    Ok(())
}

// The same numbers of 64 bits, where that sum does not wrap, and bytes behind them.
#[test]
fn wide_sections(rt: HostRuntime) -> Result<()> {
    let cases: [(&[u8], &[i64]); 2] = [
        (
            &[0x80, 1, 4, 8, 0x0e, 3, 2, 0, 0, 0, 0xc0, 0x3f, 77, 78],
            &[7, 5, 3, 1, 2, 3, 4, 5],
        ),
        (
            &[128, 1, 4, 2, 254, 255, 255, 255, 15, 2, 0, 0, 0, 0],
            &[2147483647, 2147483648],
        ),
    ];
    for (i, (section, values)) in cases.iter().enumerate() {
        let same = are_wide(rt.alloc(), section, values)?;
        assert!(rt; same, "at {i}");
    }
    Ok(())
}

fn is_refused_section(alloc: Global, section: &[u8], count: usize) -> bool {
    let mut out: Vec<u8> = Vec::new(alloc);
    let narrow = push_plain_i32(section, count, &mut out);
    let wide = push_plain_i64(section, count, &mut out);
    matches!(narrow, Err(Error::OutOfSpec(S::S6))) && matches!(wide, Err(Error::OutOfSpec(S::S6)))
}

// A value too few, one too many, a byte too few, and no header.
#[test]
fn refused_sections(rt: HostRuntime) {
    let cases: [(&[u8], usize); 4] = [
        (&[0x80, 1, 4, 8, 0x0e, 3, 2, 0, 0, 0, 0xc0, 0x3f], 7),
        (&[0x80, 1, 4, 8, 0x0e, 3, 2, 0, 0, 0, 0xc0, 0x3f], 9),
        (&[0x80, 1, 4, 8, 0x0e, 3, 2, 0, 0, 0, 0xc0], 8),
        (&[], 0),
    ];
    for (i, (section, count)) in cases.iter().enumerate() {
        let refused = is_refused_section(rt.alloc(), section, *count);
        assert!(rt; refused, "at {i}");
    }
}

fn are_strings(alloc: Global, section: &[u8], count: usize, plain: &[u8]) -> Result<bool> {
    let mut out: Vec<u8> = Vec::new(alloc);
    push_plain_strings(section, count, &mut out)?;
    Ok(out.as_slice() == plain)
}

// The standard's example, no strings, and a length of 2^32 + 1, of which a column of 32 bits has the low bits.
#[test]
fn string_sections(rt: HostRuntime) -> Result<()> {
    let cases: [(&[u8], usize, &[u8]); 3] = [
        (
            b"\x80\x01\x04\x04\x0a\x00\x01\x00\x00\x00\x02\x00\x00\x00HelloWorldFoobarABCDEF",
            4,
            b"\x05\x00\x00\x00Hello\x05\x00\x00\x00World\x06\x00\x00\x00Foobar\x06\x00\x00\x00ABCDEF",
        ),
        (&[128, 1, 4, 0, 0], 0, &[]),
        (
            &[128, 1, 4, 1, 130, 128, 128, 128, 32, 65, 66],
            1,
            &[1, 0, 0, 0, 65],
        ),
    ];
    for (i, (section, count, plain)) in cases.iter().enumerate() {
        let same = are_strings(rt.alloc(), section, *count, plain)?;
        assert!(rt; same, "at {i}");
    }
    Ok(())
}

fn are_no_strings(alloc: Global, section: &[u8], count: usize) -> bool {
    let mut out: Vec<u8> = Vec::new(alloc);
    let pushed = push_plain_strings(section, count, &mut out);
    matches!(pushed, Err(Error::OutOfSpec(S::S6)))
}

// A negative length, one of 2^31, one past the end, a string too few, and two empty strings whose lengths' miniblock is cut.
#[test]
fn refused_strings(rt: HostRuntime) {
    let cases: [(&[u8], usize); 5] = [
        (&[128, 1, 4, 1, 1, 65, 66], 1),
        (&[128, 1, 4, 1, 128, 128, 128, 128, 16, 65, 66], 1),
        (&[128, 1, 4, 1, 6, 65, 66], 1),
        (&[128, 1, 4, 1, 4, 65, 66], 2),
        (&[128, 1, 4, 2, 0, 0, 1, 0, 0, 0, 0], 2),
    ];
    for (i, (section, count)) in cases.iter().enumerate() {
        let refused = are_no_strings(rt.alloc(), section, *count);
        assert!(rt; refused, "at {i}");
    }
}

fn push_wide(out: &mut Vec<u8>, values: &[i64]) -> Result<()> {
    encode(out, values.iter().copied(), values.len())
}

// What is written is read again, in more than one block.
#[test]
fn written_deltas(rt: HostRuntime) -> Result<()> {
    let mut values: Vec<i64> = Vec::new(rt.alloc());
    for i in 0..300_i64 {
        values.push(i.wrapping_mul(i))?;
    }
    values.push(i64::MIN)?;
    values.push(i64::MAX)?;
    let mut section: Vec<u8> = Vec::new(rt.alloc());
    push_wide(&mut section, &values)?;
    let same = are_wide(rt.alloc(), &section, &values)?;
    assert!(rt; same);
    Ok(())
}
