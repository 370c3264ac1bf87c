use columns_base::Result;
use pq_deltas::delta_bitpacked::{encode, encode_i32};
use std::alloc::Global;

fn push_wide(out: &mut Vec<u8>, values: &[i64]) -> Result<()> {
    encode(out, values.iter().copied(), values.len())
}

fn push_narrow(out: &mut Vec<u8>, values: &[i32]) -> Result<()> {
    encode_i32(out, values.iter().copied(), values.len())
}

fn are_wide(alloc: Global, values: &[i64], bytes: &[u8]) -> Result<bool> {
    let mut out: Vec<u8> = Vec::new(alloc);
    push_wide(&mut out, values)?;
    Ok(out.as_slice() == bytes)
}

fn are_narrow(alloc: Global, values: &[i32], bytes: &[u8]) -> Result<bool> {
    let mut out: Vec<u8> = Vec::new(alloc);
    push_narrow(&mut out, values)?;
    Ok(out.as_slice() == bytes)
}

// The standard's two examples, in blocks of 128: equal differences take no bits. The last one wraps.
#[test]
fn wide_deltas(rt: HostRuntime) -> Result<()> {
    let cases: [(&[i64], &[u8]); 5] = [
        (&[], &[128, 1, 4, 0, 0]),
        (&[-1], &[128, 1, 4, 1, 1]),
        (&[1, 2, 3, 4, 5], &[128, 1, 4, 5, 2, 2, 0, 0, 0, 0]),
        (
            &[7, 5, 3, 1, 2, 3, 4, 5],
            &[128, 1, 4, 8, 14, 3, 2, 0, 0, 0, 192, 63, 0, 0, 0, 0, 0, 0],
        ),
        (
            &[i64::MAX, i64::MIN],
            &[
                128, 1, 4, 2, 254, 255, 255, 255, 255, 255, 255, 255, 255, 1, 2, 0, 0, 0, 0,
            ],
        ),
    ];
    for (i, (values, bytes)) in cases.iter().enumerate() {
        let same = are_wide(rt.alloc(), values, bytes)?;
        assert!(rt; same, "at {i}");
    }
    Ok(())
}

// Numbers of 32 bits wrap in 32 bits.
#[test]
fn narrow_deltas(rt: HostRuntime) -> Result<()> {
    let cases: [(&[i32], &[u8]); 2] = [
        (
            &[7, 5, 3, 1, 2, 3, 4, 5],
            &[128, 1, 4, 8, 14, 3, 2, 0, 0, 0, 192, 63, 0, 0, 0, 0, 0, 0],
        ),
        (
            &[i32::MAX, i32::MIN],
            &[128, 1, 4, 2, 254, 255, 255, 255, 15, 2, 0, 0, 0, 0],
        ),
    ];
    for (i, (values, bytes)) in cases.iter().enumerate() {
        let same = are_narrow(rt.alloc(), values, bytes)?;
        assert!(rt; same, "at {i}");
    }
    Ok(())
}

// 129 differences are a full block and one of a single number, each of which has its own least one.
#[test]
fn two_blocks_of_deltas(rt: HostRuntime) -> Result<()> {
    let mut values: Vec<i64> = Vec::new(rt.alloc());
    for i in 0..129 {
        values.push(i)?;
    }
    values.push(1000)?;
    // 872 above 128, in zigzag 1,744
    let bytes = [128, 1, 4, 130, 1, 0, 2, 0, 0, 0, 0, 0xd0, 0x0d, 0, 0, 0, 0];
    let same = are_wide(rt.alloc(), &values, &bytes)?;
    assert!(rt; same);
    Ok(())
}
