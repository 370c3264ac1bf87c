//! Sixteen level pairs of optional lists of optional structs of an optional list of optional numbers.
ghost use Rattle.std.specs.Prelude.{◌≡◌, ◌<◌};

use crate::array_tests::has_bits;
use columns_base::Result;
use columns_core::MutableBitmap;
use read_leaf::{NumberValues, PlainNumbers, PrimitiveDecoder};
use read_state::{InitNested, Nested, NestedBox, NestedState, Steps, init_nested};
use read_walk::{NestedPage, extend_levels};
use std::alloc::Global;
use std::marker::Brand;
use std::sync::ledger::{Blank, Ledger};

const PARTS: [InitNested; 4] = [
    InitNested::List(true),
    InitNested::Struct(true),
    InitNested::List(true),
    InitNested::Primitive(true),
];

// Repetition 0, 1, 0, 0, 1, 1, 0, 1, 1, 0, 0, 1, 1, 2, 0, 0 and definition 6, 6, 0, 6, 2, 6, 3, 3, 3, 1, 6, 5, 6, 6, 0, 4, in groups of eight packed levels.
const PACKED: (&[u8], &[u8]) = (&[5, 4, 69, 65, 9], &[5, 54, 44, 111, 139, 107, 131]);

// The same levels as copies.
const COPIES: (&[u8], &[u8]) = (
    &[2, 0, 2, 1, 4, 0, 4, 1, 2, 0, 4, 1, 4, 0, 4, 1, 2, 2, 4, 0],
    &[
        4, 6, 2, 0, 2, 6, 2, 2, 2, 6, 6, 3, 2, 1, 2, 6, 2, 5, 4, 6, 2, 0, 2, 4,
    ],
);

// The numbers 10 to 16.
const VALUES: &[u8] = &[
    10, 0, 0, 0, 11, 0, 0, 0, 12, 0, 0, 0, 13, 0, 0, 0, 14, 0, 0, 0, 15, 0, 0, 0, 16, 0, 0, 0,
];

// What the pairs build, walked by so many rows and then by so many more. The steps of both are counted in one ledger of their own.
fn walk_in<L: Ledger>(
    alloc: Global,
    sections: (&[u8], &[u8]),
    rows: (usize, usize),
    blank: Blank,
) -> Result<(NestedState, NumberValues<i32>)>
    requires name { blank.name ≡ L.name }
    requires parts { blank.parts ≡ L.parts }
    requires some { 0 < blank.parts }
{
    let mut steps: Steps<L> = Steps::new(blank);
    let mut nested = init_nested(alloc, &PARTS, 0)?;
    let mut decoded = NumberValues::<i32>::new(alloc);
    let mut page = NestedPage::try_new(sections.0, 2, sections.1, 6, 16)?;
    let mut values = PlainNumbers { values: VALUES };
    let decoder = PrimitiveDecoder::<i32, i32>::new();
    extend_levels(
        &mut page,
        &mut values,
        &mut nested,
        &mut decoded,
        &decoder,
        rows.0,
        &mut steps,
    )?;
    extend_levels(
        &mut page,
        &mut values,
        &mut nested,
        &mut decoded,
        &decoder,
        rows.1,
        &mut steps,
    )?;
    Ok((nested, decoded))
}

fn walk(
    alloc: Global,
    sections: (&[u8], &[u8]),
    rows: (usize, usize),
) -> Result<(NestedState, NumberValues<i32>)> {
    walk_in::<Brand>(alloc, sections, rows, Blank::new(1))
}

fn is_mask(mask: Option<MutableBitmap>, count: usize, want: u64) -> Result<bool> {
    match mask {
        Some(mask) => Ok(has_bits(&mask.into_bitmap()?, count, want)),
        None => Ok(false),
    }
}

// The part has these lengths of the part beneath, and a mask of so many places.
fn is_part(part: Option<NestedBox>, want: &[i64], count: usize, mask: u64) -> Result<bool> {
    match part {
        Some(mut part) => {
            let (lengths, validity) = part.inner();
            Ok(lengths.as_slice() == want && is_mask(validity, count, mask)?)
        }
        None => Ok(false),
    }
}

fn are_numbers(decoded: NumberValues<i32>) -> Result<bool> {
    let (numbers, validity) = decoded.into_parts();
    Ok(
        numbers.as_slice() == [10, 11, 12, 13, 14, 0, 15, 16].as_slice()
            && has_bits(&validity.into_bitmap()?, 8, 0b1101_1111),
    )
}

// The rows are [{[10]}, {[11]}], null, [{[12]}, null, {[13]}], [{null}, {null}, {null}], [], [{[14]}, {[null]}, {[15, 16]}], null, [{[]}].
fn builds(alloc: Global, sections: (&[u8], &[u8]), rows: (usize, usize)) -> Result<bool> {
    let (mut nested, decoded) = walk(alloc, sections, rows)?;
    let _leaf = nested.pop();
    let inner = is_part(
        nested.pop(),
        &[0, 1, 2, 3, 3, 4, 4, 4, 4, 5, 6, 8],
        12,
        0b1111_0001_0111,
    )?;
    let middle = is_part(nested.pop(), &[], 12, 0b1111_1111_0111)?;
    let outer = is_part(nested.pop(), &[0, 2, 2, 5, 8, 8, 11, 11], 8, 0b1011_1101)?;
    Ok(inner && middle && outer && are_numbers(decoded)?)
}

#[test]
fn lists_of_structs_of_a_list_are_built(rt: HostRuntime) -> Result<()> {
    for rows in [(8, 0), (3, 5), (1, 7), (6, 100), (0, 8)] {
        assert!(rt; builds(rt.alloc(), PACKED, rows)?);
        assert!(rt; builds(rt.alloc(), COPIES, rows)?);
    }
    Ok(())
}
