//! Headers of data pages in the spelling that most writers choose, and what is wrong in some of them.
use columns_base::{Error, S};
use pq_container::read_page_header;
use std::alloc::Global;
use std::test::Fail;

/// Bytes, and how many of them are the header in front, where one stands there.
type Case = (&'static [u8], Option<usize>);

const CASES: &[Case] = &[
    // no statistics, and bytes behind
    (
        b"\x15\x00\x15\x2a\x15\x2a\x2c\x15\x0a\x15\x00\x15\x06\x15\x06\x00\x00more",
        Some(17),
    ),
    // a count of nulls and two bounds
    (
        b"\x15\x00\x15\x2a\x15\x2a\x2c\x15\x0a\x15\x00\x15\x06\x15\x06\x1c\x36\x04\x28\x01b\x18\x01a\x00\x00\x00",
        Some(27),
    ),
    // a text without bytes, and a truth value
    (
        b"\x15\x00\x15\x2a\x15\x2a\x2c\x15\x0a\x15\x00\x15\x06\x15\x06\x1c\x18\x00\x62\x00\x00\x00",
        Some(22),
    ),
    // sizes of two bytes and of three, of which the last is padding
    (
        b"\x15\x00\x15\x80\x01\x15\x80\x80\x00\x2c\x15\x0a\x15\x00\x15\x06\x15\x06\x00\x00",
        Some(20),
    ),
    // a negative size, a negative count, and a number of 33 bits
    (
        b"\x15\x00\x15\x2a\x15\x01\x2c\x15\x0a\x15\x00\x15\x06\x15\x06\x00\x00",
        None,
    ),
    (
        b"\x15\x00\x15\x2a\x15\x2a\x2c\x15\x01\x15\x00\x15\x06\x15\x06\x00\x00",
        None,
    ),
    (
        b"\x15\x00\x15\x80\x80\x80\x80\x10\x15\x2a\x2c\x15\x0a\x15\x00\x15\x06\x15\x06\x00\x00",
        None,
    ),
    // a text of statistics that ends beyond the bytes
    (
        b"\x15\x00\x15\x2a\x15\x2a\x2c\x15\x0a\x15\x00\x15\x06\x15\x06\x1c\x58\x05a\x00\x00\x00",
        None,
    ),
    // a number in the place of statistics, and a field behind them
    (
        b"\x15\x00\x15\x2a\x15\x2a\x2c\x15\x0a\x15\x00\x15\x06\x15\x06\x15\x02\x00\x00",
        Some(19),
    ),
    (
        b"\x15\x00\x15\x2a\x15\x2a\x2c\x15\x0a\x15\x00\x15\x06\x15\x06\x1c\x00\x15\x02\x00\x00",
        Some(21),
    ),
];

/// Whether the header in front takes as many bytes as the row says, and is refused where it says none.
fn is_so(alloc: Global, case: &Case) -> bool {
    match read_page_header(alloc, case.0) {
        Ok((_, size)) => case.1 == Some(size),
        Err(error) => case.1.is_none() && error == Error::OutOfSpec(S::S3),
    }
}

#[test]
fn data_pages_are_told_from_their_bytes(rt: HostRuntime) -> Result<(), Fail> {
    for case in CASES {
        assert!(rt; is_so(rt.alloc(), case));
    }
    Ok(())
}
