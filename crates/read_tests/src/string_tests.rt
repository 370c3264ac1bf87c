//! Bytes by hand.
use columns_base::{Error, Result, S};
use read_iters::{BinaryIter, SizedBinaryIter};

// Whether the next item is this string, the end, or S6 where there is none.
fn is_next(item: Option<Result<&[u8]>>, wanted: &str) -> bool {
    match item {
        Some(Ok(string)) => string == wanted.as_bytes(),
        Some(Err(error)) => wanted == "S6" && error == Error::OutOfSpec(S::S6),
        None => wanted == "end",
    }
}

#[test]
fn a_cut_string_is_refused_once(rt: HostRuntime) {
    let mut strings = BinaryIter::new(&[2, 0, 0, 0, 104, 105, 3, 0, 0, 0, 97]);
    assert!(rt; is_next(strings.next(), "hi"));
    assert!(rt; is_next(strings.next(), "S6"));
    assert!(rt; is_next(strings.next(), "end"));
}

#[test]
fn fewer_strings_than_wanted_are_refused_once(rt: HostRuntime) {
    let mut strings = SizedBinaryIter::new(&[1, 0, 0, 0, 97], 2);
    assert!(rt; is_next(strings.next(), "a"));
    assert!(rt; is_next(strings.next(), "S6"));
    assert!(rt; is_next(strings.next(), "end"));
}
