//! Bits by hand: 22 is 10110 from the highest bit down, so that the first bits are 0, 1, 1, 0, 1.
use columns_base::Result;
use pq_bitmaps::{
    FilteredHybridEncoded, FilteredHybridRleDecoderIter, HybridDecoderBitmapIter, Interval,
};
use pq_runs::hybrid_rle::Decoder;
use std::collections::VecDeque;

// Of a bitmap its offset and length, of copies 10 and their number, of a skipped part 20 and the set bits; 30 of an error, 40 of nothing.
fn told(part: Option<Result<FilteredHybridEncoded<'_>>>) -> (usize, usize) {
    match part {
        Some(Ok(FilteredHybridEncoded::Bitmap { offset, length, .. })) => (offset, length),
        Some(Ok(FilteredHybridEncoded::Repeated { length, .. })) => (10, length),
        Some(Ok(FilteredHybridEncoded::Skipped(set))) => (20, set),
        Some(Err(_)) => (30, 0),
        None => (40, 0),
    }
}

#[test]
fn set_bits_that_are_passed_over_are_counted(rt: HostRuntime) -> Result<()> {
    let bits = HybridDecoderBitmapIter::new(Decoder::new(&[3, 22], 1), 5);
    let mut rows = VecDeque::new(rt.alloc());
    rows.push_back(Interval {
        start: 1,
        length: 1,
    })?;
    rows.push_back(Interval {
        start: 4,
        length: 1,
    })?;
    let mut parts = FilteredHybridRleDecoderIter::new(bits, rows);
    assert!(rt; parts.len() == 2);
    assert!(rt; told(parts.next()) == (20, 0));
    assert!(rt; told(parts.next()) == (1, 1));
    assert!(rt; told(parts.next()) == (20, 1));
    assert!(rt; told(parts.next()) == (4, 1));
    assert!(rt; told(parts.next()) == (40, 0));
    Ok(())
}

#[test]
fn a_repeated_two_is_refused_once(rt: HostRuntime) {
    let mut bits = HybridDecoderBitmapIter::new(Decoder::new(&[4, 1, 4, 2], 1), 3);
    assert!(rt; matches!(bits.next(), Some(Ok(_))));
    assert!(rt; matches!(bits.next(), Some(Err(_))));
    assert!(rt; matches!(bits.next(), None));
}
