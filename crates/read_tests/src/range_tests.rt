//! The least and the greatest number of each type as they are stored, and the next ones outside of it (Parquet format, LogicalTypes, "Numeric Types").
use columns_base::{Error, Result, S};
use read_leaf::{FromStored, StoredNumber};
use read_pieces::{LeafReader, PlainBytes, extend_leaf};
use read_state::{InitNested, init_nested};
use read_types::Numbers;
use read_walk::NestedPage;
use std::alloc::Global;

// The number of a required row that has these plain bytes.
fn number_of<T: FromStored<P>, P: StoredNumber>(alloc: Global, bytes: &[u8]) -> Result<Option<T>> {
    let mut nested = init_nested(alloc, &[InitNested::Primitive(false)], 0)?;
    let leaf = Numbers::<T, P>::new();
    let mut values = leaf.begin(alloc)?;
    let mut page = NestedPage::try_new(&[], 0, &[], 0, 1)?;
    let mut bytes = PlainBytes {
        values: bytes,
        bit: 0,
    };
    extend_leaf(&leaf, &mut page, &mut bytes, &mut nested, &mut values, 1)?;
    let (mut numbers, _validity) = values.into_parts();
    Ok(numbers.pop())
}

// Whether the number of 32 bits is read as this one, or refused where there is none.
fn is_small<T: FromStored<i32> + PartialEq>(alloc: Global, stored: i32, want: Option<T>) -> bool {
    match (number_of::<T, i32>(alloc, &stored.to_le_bytes()), want) {
        (Ok(Some(number)), Some(want)) => number == want,
        (Err(error), None) => error == Error::OutOfSpec(S::S7),
        _ => false,
    }
}

// The same of a number of 64 bits.
fn is_wide<T: FromStored<i64> + PartialEq>(alloc: Global, stored: i64, want: Option<T>) -> bool {
    match (number_of::<T, i64>(alloc, &stored.to_le_bytes()), want) {
        (Ok(Some(number)), Some(want)) => number == want,
        (Err(error), None) => error == Error::OutOfSpec(S::S7),
        _ => false,
    }
}

#[test]
fn numbers_of_eight_bits(rt: HostRuntime) {
    let signed: [(i32, Option<i8>); 6] = [
        (127, Some(127)),
        (128, None),
        (300, None),
        (-1, Some(-1)),
        (-128, Some(-128)),
        (-129, None),
    ];
    for (stored, want) in &signed {
        assert!(rt; is_small(rt.alloc(), *stored, *want), "at {stored}");
    }
    let unsigned: [(i32, Option<u8>); 5] = [
        (0, Some(0)),
        (255, Some(255)),
        (256, None),
        (300, None),
        (-1, None),
    ];
    for (stored, want) in &unsigned {
        assert!(rt; is_small(rt.alloc(), *stored, *want), "at {stored}");
    }
}

#[test]
fn numbers_of_sixteen_bits(rt: HostRuntime) {
    let signed: [(i32, Option<i16>); 5] = [
        (300, Some(300)),
        (32_767, Some(32_767)),
        (32_768, None),
        (-32_768, Some(-32_768)),
        (-32_769, None),
    ];
    for (stored, want) in &signed {
        assert!(rt; is_small(rt.alloc(), *stored, *want), "at {stored}");
    }
    let unsigned: [(i32, Option<u16>); 4] = [
        (0, Some(0)),
        (65_535, Some(65_535)),
        (65_536, None),
        (-1, None),
    ];
    for (stored, want) in &unsigned {
        assert!(rt; is_small(rt.alloc(), *stored, *want), "at {stored}");
    }
}

// Stored with a sign, the upper half is below 0. Stored as 64 bits, numbers of 32 bits have no sign.
#[test]
fn numbers_without_a_sign(rt: HostRuntime) {
    let small: [(i32, Option<u32>); 4] = [
        (1, Some(1)),
        (-1, Some(4_294_967_295)),
        (i32::MAX, Some(2_147_483_647)),
        (i32::MIN, Some(2_147_483_648)),
    ];
    for (stored, want) in &small {
        assert!(rt; is_small(rt.alloc(), *stored, *want), "at {stored}");
    }
    let wide: [(i64, Option<u32>); 4] = [
        (1, Some(1)),
        (4_294_967_295, Some(4_294_967_295)),
        (4_294_967_296, None),
        (-1, None),
    ];
    for (stored, want) in &wide {
        assert!(rt; is_wide(rt.alloc(), *stored, *want), "at {stored}");
    }
    let widest: [(i64, Option<u64>); 3] = [
        (1, Some(1)),
        (-1, Some(18_446_744_073_709_551_615)),
        (i64::MIN, Some(9_223_372_036_854_775_808)),
    ];
    for (stored, want) in &widest {
        assert!(rt; is_wide(rt.alloc(), *stored, *want), "at {stored}");
    }
}
