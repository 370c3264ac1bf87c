//! The validity of selected rows. 22 is 10110 from the highest bit down, so that of its first five bits the second, the third and the fifth are set.
use columns_base::Result;
use pq_bitmaps::{
    FilteredHybridEncoded, FilteredHybridRleDecoderIter, HybridDecoderBitmapIter, Interval,
};
use pq_runs::hybrid_rle::Decoder;
use std::alloc::Global;
use std::collections::VecDeque;

// Of a bitmap its offset and length, of copies 10 and their number, of a skipped part 20 and the set bits; 30 of an error, 40 of nothing.
fn told(part: Option<Result<FilteredHybridEncoded<'_>>>) -> (usize, usize) {
    match part {
        Some(Ok(FilteredHybridEncoded::Bitmap { offset, length, .. })) => (offset, length),
        Some(Ok(FilteredHybridEncoded::Repeated { length, .. })) => (10, length),
        Some(Ok(FilteredHybridEncoded::Skipped(set))) => (20, set),
        Some(Err(_)) => (30, 0),
        None => (40, 0),
    }
}

// So many rows of a page of five, from this one on.
fn gives(
    alloc: Global,
    runs: &[u8],
    start: usize,
    length: usize,
    want: &[(usize, usize)],
) -> Result<bool> {
    if start > 5 || length > 5 - start {
        return Ok(false);
    }
    let mut rows = VecDeque::new(alloc);
    rows.push_back(Interval { start, length })?;
    let bits = HybridDecoderBitmapIter::new(Decoder::new(runs, 1), 5);
    let mut parts = FilteredHybridRleDecoderIter::new(bits, rows);
    for part in want {
        if told(parts.next()) != *part {
            return Ok(false);
        }
    }
    Ok(told(parts.next()) == (40, 0))
}

#[test]
fn what_is_passed_over_is_counted(rt: HostRuntime) -> Result<()> {
    let cases: [(&[u8], usize, usize, &[(usize, usize)]); 6] = [
        (&[3, 22], 1, 3, &[(20, 0), (1, 3)]),
        (&[3, 22], 0, 5, &[(0, 5)]),
        (&[3, 22], 2, 1, &[(20, 1), (2, 1)]),
        (&[3, 22], 4, 1, &[(20, 2), (4, 1)]),
        (&[10, 1], 1, 3, &[(20, 1), (10, 3)]),
        (&[10, 0], 3, 2, &[(20, 0), (10, 2)]),
    ];
    for (runs, start, length, want) in &cases {
        assert!(rt; gives(rt.alloc(), runs, *start, *length, want)?);
    }
    Ok(())
}
