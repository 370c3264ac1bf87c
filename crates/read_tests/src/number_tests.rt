//! Lists of numbers.
ghost use Rattle.std.specs.Prelude.{◌≡◌, ◌<◌};

use columns_base::{Error, Result, S};
use columns_core::MutableBitmap;
use read_leaf::{NumberValues, PlainNumbers, PrimitiveDecoder};
use read_state::{InitNested, Nested, NestedBox, NestedState, Steps, init_nested};
use read_walk::{NestedPage, extend_levels};
use std::alloc::Global;
use std::marker::Brand;
use std::sync::ledger::{Blank, Ledger};

// The rows [1, null], null, [], [2].
const REPS: &[u8] = &[3, 0b0000_0010];

const DEFS: &[u8] = &[3, 75, 3];

const VALUES: &[u8] = &[1, 0, 0, 0, 2, 0, 0, 0];

// The walk of so many rows of a nullable list of nullable numbers, from a page of so many pairs. Its steps are counted in a ledger of their own.
fn walk_in<L: Ledger>(
    alloc: Global,
    sections: (&[u8], &[u8]),
    count: usize,
    values: &[u8],
    rows: usize,
    blank: Blank,
) -> Result<(NestedState, NumberValues<i16>)>
    requires name { blank.name ≡ L.name }
    requires parts { blank.parts ≡ L.parts }
    requires some { 0 < blank.parts }
{
    let mut steps: Steps<L> = Steps::new(blank);
    let mut nested = init_nested(
        alloc,
        &[InitNested::List(true), InitNested::Primitive(true)],
        0,
    )?;
    let mut decoded = NumberValues::<i16>::new(alloc);
    let mut page = NestedPage::try_new(sections.0, 1, sections.1, 3, count)?;
    let mut values = PlainNumbers { values };
    let decoder = PrimitiveDecoder::<i16, i32>::new();
    extend_levels(
        &mut page,
        &mut values,
        &mut nested,
        &mut decoded,
        &decoder,
        rows,
        &mut steps,
    )?;
    Ok((nested, decoded))
}

fn walk(
    alloc: Global,
    sections: (&[u8], &[u8]),
    count: usize,
    values: &[u8],
    rows: usize,
) -> Result<(NestedState, NumberValues<i16>)> {
    walk_in::<Brand>(alloc, sections, count, values, rows, Blank::new(1))
}

// As many truth values are false.
fn has_nulls(validity: MutableBitmap, nulls: usize) -> Result<bool> {
    Ok(validity.into_bitmap()?.unset_bits() == nulls)
}

// The list has these lengths of the part beneath, and as many of its validities are false.
fn has_lengths(part: Option<NestedBox>, want: &[i64], nulls: usize) -> Result<bool> {
    match part {
        Some(mut part) => match part.inner() {
            (lengths, Some(validity)) => {
                Ok(has_nulls(validity, nulls)? && lengths.as_slice() == want)
            }
            _ => Ok(false),
        },
        None => Ok(false),
    }
}

fn reads_rows(alloc: Global) -> Result<bool> {
    let (mut nested, decoded) = walk(alloc, (REPS, DEFS), 5, VALUES, 4)?;
    let (numbers, validity) = decoded.into_parts();
    let _leaf = nested.pop();
    Ok(
        numbers.as_slice() == [1, 0, 2].as_slice()
            && has_nulls(validity, 1)?
            && has_lengths(nested.pop(), &[0, 2, 2, 2], 1)?,
    )
}

fn reads_some(alloc: Global) -> Result<bool> {
    let (mut nested, decoded) = walk(alloc, (REPS, DEFS), 5, VALUES, 2)?;
    let _leaf = nested.pop();
    Ok(decoded.len() == 2 && has_lengths(nested.pop(), &[0, 2], 1)?)
}

#[test]
fn rows_are_read(rt: HostRuntime) -> Result<()> {
    assert!(rt; reads_rows(rt.alloc())?);
    assert!(rt; reads_some(rt.alloc())?);
    Ok(())
}

// The walk is refused for this reason.
fn refuses(
    alloc: Global,
    sections: (&[u8], &[u8]),
    count: usize,
    values: &[u8],
    want: Error,
) -> bool {
    match walk(alloc, sections, count, values, 9) {
        Ok(_) => false,
        Err(error) => error == want,
    }
}

#[test]
fn faults_are_told(rt: HostRuntime) {
    let rows: [(&[u8], &[u8], &[u8], S); 6] = [
        // a page that ends before its pairs
        (&[3], DEFS, VALUES, S::S4),
        // the first pair goes on with a row
        (&[3, 1], DEFS, VALUES, S::S5),
        // a second item of an empty list
        (&[3, 0b0000_1000], DEFS, VALUES, S::S10),
        // one value is cut
        (REPS, DEFS, &[1, 0, 0, 0, 2, 0, 0], S::S6),
        // 32768 is no number of 16 bits
        (REPS, DEFS, &[1, 0, 0, 0, 0, 128, 0, 0], S::S7),
        // a definition level past the greatest of a way, which has two bits
        (REPS, &[3, 75], VALUES, S::S4),
    ];
    for (reps, defs, values, fault) in &rows {
        assert!(rt;
            refuses(
                rt.alloc(),
                (reps, defs),
                5,
                values,
                Error::OutOfSpec(*fault)
            )
        );
    }
}
