//! Cuts worked out by hand: what the parts and the leaf's values are afterwards. Leaf value i of each path is the number i.
use crate::parts::{Part, build, is_path};
use columns_array::ArrayBox;
use columns_core::DataType;
use columns_leaf::PrimitiveArray;
use levels::{Nested, is_in_bounds, leaf_len, slot_count};
use nested_slice::slice_parquet_array;
use std::alloc::Global;
use std::test::Fail;

struct Case {
    name: &'static str,
    path: &'static [Part],
    offset: usize,
    length: usize,
    cut: &'static [Part],
    // the numbers of the leaf after the cut
    numbers: &'static [i32],
}

const STRUCTS: &[Part] = &[
    Part::List(true, &[true, false, true, true], &[0, 2, 3, 3, 6]),
    Part::Struct(true, &[true, true, true, false, true, true], 6),
    Part::List(false, &[], &[0, 1, 1, 2, 5, 6, 8]),
    Part::Leaf(
        true,
        &[true, true, true, true, true, true, false, true, true],
        9,
    ),
];

const CASES: &[Case] = &[
    Case {
        name: "lists of structs of lists",
        path: STRUCTS,
        offset: 1,
        length: 3,
        cut: &[
            Part::List(true, &[false, true, true], &[2, 3, 3, 6]),
            Part::Struct(true, &[true, false, true, true], 4),
            Part::List(false, &[], &[1, 2, 5, 6, 8]),
            Part::Leaf(true, &[true, true, true, true, true, false, true], 7),
        ],
        numbers: &[1, 2, 3, 4, 5, 6, 7],
    },
    Case {
        name: "a list of no item",
        path: &[
            Part::List(false, &[], &[0, 2, 3, 3]),
            Part::Leaf(false, &[], 4),
        ],
        offset: 2,
        length: 1,
        cut: &[Part::List(false, &[], &[3, 3]), Part::Leaf(false, &[], 0)],
        numbers: &[],
    },
    Case {
        name: "large lists that begin later, over items that no list has",
        path: &[
            Part::LargeList(true, &[false, true, true], &[2, 4, 5, 5]),
            Part::Leaf(false, &[], 6),
        ],
        offset: 0,
        length: 2,
        cut: &[
            Part::LargeList(true, &[false, true], &[2, 4, 5]),
            Part::Leaf(false, &[], 3),
        ],
        numbers: &[2, 3, 4],
    },
];

// The numbers from 0 on.
fn numbers(alloc: Global, count: usize) -> Result<ArrayBox, Fail> {
    let mut values = Vec::new(alloc);
    let mut next: i32 = 0;
    for _ in 0..count {
        values.push(next)?;
        next = next.wrapping_add(1);
    }
    let array = PrimitiveArray::try_new(alloc, DataType::Int32, values, None)?;
    Ok(ArrayBox::Int32(array))
}

fn has_numbers(array: &ArrayBox, numbers: &[i32]) -> bool {
    match array {
        ArrayBox::Int32(found) => found.values() == numbers,
        _ => false,
    }
}

// Cuts the path and its leaf where the conditions hold.
fn cut(array: &mut ArrayBox, path: &mut [Nested], offset: usize, length: usize) {
    if !is_in_bounds(path) || array.len() != leaf_len(path) {
        return;
    }
    let rows = slot_count(path);
    if offset > rows || length > rows - offset {
        return;
    }
    slice_parquet_array(array, path, offset, length);
}

fn is_as_worked(alloc: Global, case: &Case) -> Result<bool, Fail> {
    let mut path = build(alloc, case.path)?;
    let mut array = numbers(alloc, leaf_len(&path))?;
    cut(&mut array, &mut path, case.offset, case.length);
    Ok(has_numbers(&array, case.numbers) && is_path(&path, alloc, case.cut)?)
}

#[test]
fn cuts_are_as_worked_by_hand(rt: HostRuntime) -> Result<(), Fail> {
    for case in CASES {
        assert!(rt; is_as_worked(rt.alloc(), case)?, "{}", case.name);
    }
    Ok(())
}
