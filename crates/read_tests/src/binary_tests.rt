//! Byte strings that grow.
use columns_base::{Error, Result, S};
use read_leaf::Binary;
use std::alloc::Global;

// These strings, and so many empty ones behind them, have these offsets and bytes (Arrow columnar format, "Variable-size Binary Layout").
fn grows(
    alloc: Global,
    strings: &[&str],
    empty: usize,
    offsets: &[i32],
    bytes: &str,
) -> Result<bool> {
    let mut binary = Binary::<i32>::with_capacity(alloc, 1)?;
    for string in strings {
        binary.push(string.as_bytes())?;
    }
    binary.extend_constant(empty)?;
    let is_sized = binary.len() == offsets.len().saturating_sub(1)
        && binary.values() == bytes.as_bytes();
    let (places, content) = binary.into_parts();
    Ok(
        is_sized
            && places.into_buffer()?.buffer() == offsets
            && content.as_slice() == bytes.as_bytes(),
    )
}

#[test]
fn strings_stand_side_by_side(rt: HostRuntime) -> Result<()> {
    let rows: [(&[&str], usize, &[i32], &str); 4] = [
        (&["a", "", "bc"], 0, &[0, 1, 1, 3], "abc"),
        (&["a", "", "bc"], 2, &[0, 1, 1, 3, 3, 3], "abc"),
        (&[], 0, &[0], ""),
        (&[], 1, &[0, 0], ""),
    ];
    for (strings, empty, offsets, bytes) in &rows {
        assert!(rt; grows(rt.alloc(), strings, *empty, offsets, bytes)?);
    }
    Ok(())
}

// Behind `a`, an empty string and `bc`, strings of these lengths off the front of `text`: then these are all offsets, and this is left of the text.
fn cuts_off(
    alloc: Global,
    lengths: &[usize],
    text: &str,
    offsets: &[i32],
    left: &str,
) -> Result<bool> {
    let mut binary = Binary::<i32>::with_capacity(alloc, 3)?;
    binary.push(b"a")?;
    binary.extend_constant(1)?;
    binary.push(b"bc")?;
    let mut bytes = text.as_bytes();
    let outcome = binary.extend_lengths(lengths.iter().copied(), &mut bytes);
    if outcome.is_err() && outcome != Err(Error::OutOfSpec(S::S6)) {
        return Ok(false);
    }
    let (places, _) = binary.into_parts();
    Ok(places.into_buffer()?.buffer() == offsets && bytes == left.as_bytes())
}

#[test]
fn strings_are_cut_off_by_lengths(rt: HostRuntime) -> Result<()> {
    let rows: [(&[usize], &str, &[i32], &str); 4] = [
        (&[2, 1], "xyz!", &[0, 1, 1, 3, 5, 6], "!"),
        (&[], "xyz!", &[0, 1, 1, 3], "xyz!"),
        (&[0, 4], "xyz!", &[0, 1, 1, 3, 3, 7], ""),
        (&[9], "!", &[0, 1, 1, 3], "!"),
    ];
    for (lengths, text, offsets, left) in &rows {
        assert!(rt; cuts_off(rt.alloc(), lengths, text, offsets, left)?);
    }
    Ok(())
}
