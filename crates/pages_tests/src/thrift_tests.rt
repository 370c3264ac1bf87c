//! Texts of the Thrift compact protocol, put together by hand.
use columns_base::{Error, N, S};
use pq_thrift::{read_thrift, write_thrift};
use std::alloc::Global;
use std::test::Fail;

/// A struct's text, and the one that is written for the same value.
const TEXTS: &[(&[u8], &[u8])] = &[
    // each kind in a field: truth values, numbers, a double and bytes
    (&[0x11, 0], &[0x11, 0]),
    (&[0x12, 0], &[0x12, 0]),
    (&[0x13, 0xff, 0], &[0x13, 0xff, 0]),
    (&[0x14, 0x03, 0], &[0x14, 0x03, 0]),
    (&[0x15, 0xac, 0x02, 0], &[0x15, 0xac, 0x02, 0]),
    (&[0x16, 0x01, 0], &[0x16, 0x01, 0]),
    (
        &[0x17, 0, 0, 0, 0, 0, 0, 0xe0, 0x3f, 0],
        &[0x17, 0, 0, 0, 0, 0, 0, 0xe0, 0x3f, 0],
    ),
    (&[0x18, 2, 97, 98, 0], &[0x18, 2, 97, 98, 0]),
    // lists, sets, maps and a struct
    (&[0x19, 0x21, 1, 2, 0], &[0x19, 0x21, 1, 2, 0]),
    (&[0x1a, 0x25, 2, 4, 0], &[0x1a, 0x25, 2, 4, 0]),
    (&[0x1b, 0x00, 0], &[0x1b, 0x00, 0]),
    (&[0x1b, 1, 0x85, 1, 97, 4, 0], &[0x1b, 1, 0x85, 1, 97, 4, 0]),
    (&[0x1c, 0, 0], &[0x1c, 0, 0]),
    // an id behind its header, a padded varint, and a size below 15 in the long form
    (&[0x05, 0x02, 0x02, 0], &[0x15, 0x02, 0]),
    (&[0x15, 0x82, 0x00, 0], &[0x15, 0x02, 0]),
    (&[0x19, 0xf3, 0x01, 7, 0], &[0x19, 0x13, 7, 0]),
    // an empty list of a type that is none, and the ids -32768 and 16
    (&[0x19, 0x0f, 0], &[0x19, 0x0f, 0]),
    (&[0x01, 0xff, 0xff, 0x03, 0], &[0x01, 0xff, 0xff, 0x03, 0]),
    (&[0x05, 0x20, 0x02, 0], &[0x05, 0x20, 0x02, 0]),
];

/// Whether the text is read to its end, and the value and its clone are written as the other one.
fn is_written_as(alloc: Global, text: &[u8], written: &[u8]) -> Result<bool, Fail> {
    let (read, taken) = read_thrift(alloc, text)?;
    let copy = read.clone()?;
    let mut out = Vec::new(alloc);
    write_thrift(&read, &mut out)?;
    Ok(taken == text.len() && copy == read && out.as_slice() == written)
}

#[test]
fn texts_are_read_and_written_again(rt: HostRuntime) -> Result<(), Fail> {
    for (text, written) in TEXTS {
        assert!(rt; is_written_as(rt.alloc(), text, written)?);
    }
    Ok(())
}

/// Texts outside of the grammar.
const OUTSIDE: &[&[u8]] = &[
    // no end, and a text cut
    &[0x15, 0x02],
    &[0x18, 3, 97, 98],
    // the types 0 and 13
    &[0x10, 0],
    &[0x19, 0x1d, 0, 0],
    // a number of 17 bits for an id, and one of 33 for 32 bits
    &[0x01, 0x80, 0x80, 0x04, 0],
    &[0x15, 0x80, 0x80, 0x80, 0x80, 0x10, 0],
    // an id that steps past 32,767
    &[0x01, 0xfe, 0xff, 0x03, 0x11, 0],
    // more elements than there is text
    &[0x19, 0xf1, 0x80, 0x80, 0x80, 0x80, 0x08, 1, 1],
];

fn is_refused(alloc: Global, text: &[u8], error: Error) -> bool {
    match read_thrift(alloc, text) {
        Ok(_) => false,
        Err(given) => given == error,
    }
}

#[test]
fn other_texts_are_refused(rt: HostRuntime) {
    for text in OUTSIDE {
        assert!(rt; is_refused(rt.alloc(), text, Error::OutOfSpec(S::S1)));
    }
}

/// Whether as many structs, one in the other, are refused as too deep where their ends are missing.
fn is_too_deep(alloc: Global, heads: usize) -> Result<bool, Fail> {
    let text = vec![in alloc; 0x1c; heads]?;
    Ok(is_refused(alloc, &text, Error::NotYetImplemented(N::N7)))
}

#[test]
fn structs_nest_to_128(rt: HostRuntime) -> Result<(), Fail> {
    assert!(rt; !is_too_deep(rt.alloc(), 127)?);
    assert!(rt; is_too_deep(rt.alloc(), 128)?);
    Ok(())
}
