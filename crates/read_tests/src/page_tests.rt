//! The level pairs of a page.
use columns_base::{Error, Result, S};
use read_walk::{NestedPage, PairBlock, decode_levels};
use std::alloc::Global;

const REPS: &[u8] = &[3, 0b0000_0010];

const DEFS: &[u8] = &[3, 75, 3];

// The page gives these pairs, and S4 behind them where it ends too early.
fn gives(reps: &[u8], defs: &[u8], count: usize, want: &[(u32, u32)]) -> Result<bool> {
    let mut left = want;
    for item in NestedPage::try_new(reps, 1, defs, 3, count)? {
        match (item, left) {
            (Ok(pair), [first, rest @ ..]) => {
                if pair != *first {
                    return Ok(false);
                }
                left = rest;
            }
            (Err(error), []) => {
                return Ok(error == Error::OutOfSpec(S::S4) && want.len() < count);
            }
            _ => return Ok(false),
        }
    }
    Ok(left.is_empty() && want.len() == count)
}

#[test]
fn pairs_are_given(rt: HostRuntime) {
    let rows: [(&[u8], &[u8], usize, &[(u32, u32)]); 5] = [
        (REPS, DEFS, 5, &[(0, 3), (1, 2), (0, 0), (0, 1), (0, 3)]),
        (REPS, DEFS, 2, &[(0, 3), (1, 2)]),
        (
            &[6, 0, 4, 1],
            &[10, 2],
            5,
            &[(0, 2), (0, 2), (0, 2), (1, 2), (1, 2)],
        ),
        (&[6, 0], &[10, 2], 5, &[(0, 2), (0, 2), (0, 2)]),
        (&[], &[10, 2], 5, &[]),
    ];
    for (reps, defs, count, want) in &rows {
        assert!(rt; gives(reps, defs, *count, want) == Ok(true));
    }
}

// The next block begins as many rows, and has as many pairs.
fn takes(page: &mut NestedPage<'_>, rows: usize, begun: usize, pairs: usize) -> bool {
    let mut block = PairBlock::new();
    match page.next_block(rows, &mut block) {
        Some(Ok(taken)) => taken == begun && block.reps().len() == pairs,
        Some(Err(_)) => false,
        None => begun == 0 && pairs == 0,
    }
}

#[test]
fn blocks_end_with_their_rows(rt: HostRuntime) -> Result<()> {
    let mut page = NestedPage::try_new(REPS, 1, DEFS, 3, 5)?;
    assert!(rt; takes(&mut page, 0, 0, 0));
    assert!(rt; takes(&mut page, 2, 2, 3));
    assert!(rt; takes(&mut page, 9, 2, 2));
    assert!(rt; takes(&mut page, 9, 0, 0));
    Ok(())
}
