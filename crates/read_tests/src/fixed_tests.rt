//! Decimals, intervals and nulls alone, from plain bytes (Parquet format, Encodings, "Plain"; LogicalTypes, "DECIMAL" and "INTERVAL").
ghost use Rattle.std.specs.Prelude.{◌≡◌, true};
ghost use Rattle.columns_core.specs.Shapes.{base};
ghost use Rattle.columns_core.specs.View.{type_view};

use crate::array_tests::three;
use columns_array::ArrayBox;
use columns_base::{Error, Result, S};
use columns_core::{DataType, DaysMs, IntervalUnit};
use read_pieces::{LeafReader, PlainBytes, extend_leaf};
use read_state::{InitNested, init_nested};
use read_types::{Fixed, LeafArray, Nulls, Numbers};
use read_walk::NestedPage;
use std::alloc::Global;
use std::marker::PhantomData;

fn fixed<T>(size: usize) -> Fixed<T> {
    Fixed {
        size,
        value: PhantomData,
    }
}

// A value, a null and a value: these decimals.
fn has_decimals(array: Result<ArrayBox>, want: &[i128]) -> bool {
    match array {
        Ok(ArrayBox::Int128(array)) => array.values() == want && array.null_count() == 1,
        _ => false,
    }
}

// 123 and -1
fn makes_decimals(alloc: Global) -> bool {
    let bytes = &[123, 0, 0, 0, 255, 255, 255, 255];
    has_decimals(
        three(
            &Numbers::<i128, i32>::new(),
            alloc,
            bytes,
            DataType::Decimal(9, 2),
        ),
        &[123, 0, -1],
    )
}

// 2^40 and -2
fn makes_wide_decimals(alloc: Global) -> bool {
    let bytes = &[
        0, 0, 0, 0, 0, 1, 0, 0, 254, 255, 255, 255, 255, 255, 255, 255,
    ];
    has_decimals(
        three(
            &Numbers::<i128, i64>::new(),
            alloc,
            bytes,
            DataType::Decimal(18, 0),
        ),
        &[1_099_511_627_776, 0, -2],
    )
}

fn makes_fixed_decimals(alloc: Global, size: usize, bytes: &[u8], want: &[i128]) -> bool {
    has_decimals(
        three(&fixed::<i128>(size), alloc, bytes, DataType::Decimal(38, 0)),
        want,
    )
}

#[test]
fn decimals_are_made(rt: HostRuntime) {
    assert!(rt; makes_decimals(rt.alloc()));
    assert!(rt; makes_wide_decimals(rt.alloc()));
}

#[test]
fn decimals_of_fixed_bytes_are_made(rt: HostRuntime) {
    let alloc = rt.alloc();
    // of one byte: -128 and 127
    assert!(rt; makes_fixed_decimals(alloc, 1, &[0x80, 0x7f], &[-128, 0, 127]));
    // the highest byte first: 258 and -2
    assert!(rt; makes_fixed_decimals(alloc, 2, &[1, 2, 255, 254], &[258, 0, -2]));
    // of nine bytes: -1 and 1
    assert!(rt;
        makes_fixed_decimals(
            alloc,
            9,
            &[
                255, 255, 255, 255, 255, 255, 255, 255, 255, 0, 0, 0, 0, 0, 0, 0, 0, 1
            ],
            &[-1, 0, 1]
        )
    );
}

// Intervals of months from their twelve bytes each.
fn makes_months(alloc: Global, bytes: &[u8]) -> Result<ArrayBox> {
    three(
        &fixed::<i32>(12),
        alloc,
        bytes,
        DataType::Interval(IntervalUnit::YearMonth),
    )
}

fn has_months(array: Result<ArrayBox>, want: &[i32]) -> bool {
    match array {
        Ok(ArrayBox::Int32(array)) => array.values() == want && array.null_count() == 1,
        _ => false,
    }
}

fn is_outside(array: Result<ArrayBox>) -> bool {
    match array {
        Ok(_) => false,
        Err(error) => error == Error::OutOfSpec(S::S7),
    }
}

#[test]
fn months_are_made(rt: HostRuntime) {
    let alloc = rt.alloc();
    // 14 and -1
    let bytes = &[
        14, 0, 0, 0, 0, 0, 0, 0, 0, 0, 0, 0, 255, 255, 255, 255, 0, 0, 0, 0, 0, 0, 0, 0,
    ];
    assert!(rt; has_months(makes_months(alloc, bytes), &[14, 0, -1]));
    // a day besides
    let bytes = &[
        14, 0, 0, 0, 1, 0, 0, 0, 0, 0, 0, 0, 1, 0, 0, 0, 0, 0, 0, 0, 0, 0, 0, 0,
    ];
    assert!(rt; is_outside(makes_months(alloc, bytes)));
}

fn makes_days(alloc: Global, bytes: &[u8]) -> Result<ArrayBox> {
    three(
        &fixed::<DaysMs>(12),
        alloc,
        bytes,
        DataType::Interval(IntervalUnit::DayTime),
    )
}

// The first has so many days and milliseconds.
fn has_days(array: Result<ArrayBox>, days: i32, milliseconds: i32) -> bool {
    match array {
        Ok(ArrayBox::DaysMs(array)) => match array.values() {
            [first, ..] => {
                first.days == days && first.milliseconds == milliseconds && array.null_count() == 1
            }
            _ => false,
        },
        _ => false,
    }
}

#[test]
fn days_are_made(rt: HostRuntime) {
    let alloc = rt.alloc();
    // 3 days and 1000 milliseconds
    let bytes = &[
        0, 0, 0, 0, 3, 0, 0, 0, 232, 3, 0, 0, 0, 0, 0, 0, 0, 0, 0, 0, 0, 0, 0, 0,
    ];
    assert!(rt; has_days(makes_days(alloc, bytes), 3, 1000));
    // a month besides
    let bytes = &[
        0, 0, 0, 1, 3, 0, 0, 0, 232, 3, 0, 0, 0, 0, 0, 0, 0, 0, 0, 0, 0, 0, 0, 0,
    ];
    assert!(rt; is_outside(makes_days(alloc, bytes)));
}

// A column of three slots, of which these levels say which have a number.
fn makes_nulls(alloc: Global, definitions: &[u8], bytes: &[u8]) -> Result<ArrayBox> {
    let mut nested = init_nested(alloc, &[InitNested::Primitive(true)], 0)?;
    let mut values = Nulls.begin(alloc)?;
    let mut page = NestedPage::try_new(&[], 0, definitions, 1, 3)?;
    let mut bytes = PlainBytes {
        values: bytes,
        bit: 0,
    };
    extend_leaf(&Nulls, &mut page, &mut bytes, &mut nested, &mut values, 3)?;
    Nulls.into_array(alloc, values, DataType::Null)
}

fn has_nulls(array: Result<ArrayBox>, want: usize) -> bool {
    match array {
        Ok(ArrayBox::Null(array)) => array.len() == want,
        _ => false,
    }
}

fn fails_with(array: Result<ArrayBox>, want: Error) -> bool {
    match array {
        Ok(_) => false,
        Err(error) => error == want,
    }
}

#[test]
fn nulls_are_made(rt: HostRuntime) {
    let alloc = rt.alloc();
    // a run of three levels 0; and the levels 1, 0, 1, with a number or without one
    assert!(rt; has_nulls(makes_nulls(alloc, &[6, 0], &[]), 3));
    assert!(rt;
        fails_with(
            makes_nulls(alloc, &[3, 0b101], &[]),
            Error::OutOfSpec(S::S6)
        )
    );
    assert!(rt;
        fails_with(
            makes_nulls(alloc, &[3, 0b101], &[0, 0, 0, 0, 0, 0, 0, 0]),
            Error::OutOfSpec(S::S7)
        )
    );
}
