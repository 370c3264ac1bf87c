//! Lists and maps of the innermost part of a state, and what is no such part (Arrow columnar format, "Variable-size List Layout", "Fixed-Size List
//! Layout" and "Map Layout").
use crate::fields::{item, optional};
use columns_array::{ArrayBox, StructArray};
use columns_base::{A, Error, Result, V};
use columns_core::DataType;
use columns_leaf::{NullArray, PrimitiveArray};
use read_nested::{create_list, create_map};
use read_state::{Nested, NestedBox, NestedState, NestedValid};
use std::alloc::Global;

// More items than an offset of 32 bits counts.
const MANY: usize = 3_000_000_000;

fn nulls(alloc: Global, count: usize) -> Result<ArrayBox> {
    Ok(ArrayBox::Null(NullArray::try_new(alloc, DataType::Null, count)?))
}

fn numbers(alloc: Global, count: usize) -> Result<ArrayBox> {
    let mut values = Vec::new(alloc);
    values.resize(count, 7)?;
    Ok(ArrayBox::Int32(PrimitiveArray::try_new(alloc, DataType::Int32, values, None)?))
}

// The state of a required list whose rows have their items from these places on.
fn state(alloc: Global, starts: &[usize]) -> Result<NestedState> {
    let mut part = NestedValid::with_capacity(alloc, starts.len())?;
    for start in starts {
        part.push_run(*start, false, true, 1)?;
    }
    let mut nested = Vec::new(alloc);
    nested.push(NestedBox::Valid(part))?;
    Ok(NestedState::new(nested))
}

fn list_of(
    alloc: Global,
    data_type: DataType,
    starts: &[usize],
    values: ArrayBox,
) -> Result<ArrayBox> {
    let mut nested = state(alloc, starts)?;
    create_list(alloc, data_type, &mut nested, values)
}

fn fails_with(array: Result<ArrayBox>, want: Error) -> bool {
    match array {
        Ok(_) => false,
        Err(error) => error == want,
    }
}

fn has_places(array: Result<ArrayBox>, want: &[i64]) -> bool {
    match array {
        Ok(ArrayBox::LargeList(list)) => list.offsets().buffer() == want,
        _ => false,
    }
}

#[test]
fn offsets_count_the_items(rt: HostRuntime) -> Result<()> {
    let alloc = rt.alloc();
    let small = DataType::List(item(alloc, DataType::Null)?);
    let large = DataType::LargeList(item(alloc, DataType::Null)?);
    assert!(rt;
        fails_with(
            list_of(alloc, small, &[0], nulls(alloc, MANY)?),
            Error::Overflow(V::V1)
        )
    );
    assert!(rt;
        has_places(
            list_of(alloc, large, &[0], nulls(alloc, MANY)?),
            &[0, 3_000_000_000]
        )
    );
    Ok(())
}

// Three rows of two items each want six.
fn pairs_of(alloc: Global, count: usize) -> Result<ArrayBox> {
    let data_type = DataType::FixedSizeList(item(alloc, DataType::Int32)?, 2);
    list_of(alloc, data_type, &[0, 2, 4], numbers(alloc, count)?)
}

fn has_pairs(array: Result<ArrayBox>) -> bool {
    match array {
        Ok(ArrayBox::FixedSizeList(list)) => list.len() == 3 && list.null_count() == 0,
        _ => false,
    }
}

#[test]
fn a_fixed_size_wants_as_many_items(rt: HostRuntime) {
    let alloc = rt.alloc();
    assert!(rt; has_pairs(pairs_of(alloc, 6)));
    for count in &[4, 5, 7, 8] {
        assert!(rt; fails_with(pairs_of(alloc, *count), Error::InvalidArgumentError(A::A8)));
    }
}

fn entry_type(alloc: Global) -> Result<DataType> {
    let key = optional(alloc, "key", DataType::Int32)?;
    let value = optional(alloc, "value", DataType::Int32)?;
    Ok(DataType::Struct(Vec::from_array(alloc, [key, value])?))
}

fn entries(alloc: Global, count: usize) -> Result<ArrayBox> {
    let values = Vec::from_array(alloc, [numbers(alloc, count)?, numbers(alloc, count)?])?;
    Ok(ArrayBox::Struct(StructArray::try_new(alloc, entry_type(alloc)?, values, None)?))
}

fn maps_of(alloc: Global, starts: &[usize], count: usize) -> Result<ArrayBox> {
    let entry = optional(alloc, "entries", entry_type(alloc)?)?;
    let data_type = DataType::Map(Box::new(alloc, entry)?, false);
    let mut nested = state(alloc, starts)?;
    create_map(alloc, data_type, &mut nested, entries(alloc, count)?)
}

fn has_maps(array: Result<ArrayBox>, want: &[i32]) -> bool {
    match array {
        Ok(ArrayBox::Map(map)) => map.offsets().buffer() == want && map.null_count() == 0,
        _ => false,
    }
}

#[test]
fn maps_have_the_offsets_of_their_entries(rt: HostRuntime) {
    let alloc = rt.alloc();
    let rows: [(&[usize], usize, &[i32]); 4] = [
        (&[0, 2], 3, &[0, 2, 3]),
        (&[0, 0, 3], 3, &[0, 0, 3, 3]),
        (&[0], 0, &[0, 0]),
        (&[], 0, &[0]),
    ];
    for (starts, count, want) in &rows {
        assert!(rt; has_maps(maps_of(alloc, starts, *count), want));
    }
    // the second row would begin past the entries, or in front of the first
    let refused: [&[usize]; 2] = [&[0, 4], &[2, 1]];
    for starts in &refused {
        assert!(rt;
            fails_with(
                maps_of(alloc, starts, 3),
                Error::InvalidArgumentError(A::A8)
            )
        );
    }
}

fn list_of_no_part(alloc: Global) -> Result<ArrayBox> {
    let mut nested = NestedState::new(Vec::new(alloc));
    let data_type = DataType::List(item(alloc, DataType::Int32)?);
    create_list(alloc, data_type, &mut nested, numbers(alloc, 0)?)
}

#[test]
fn other_types_and_parts_are_no_lists(rt: HostRuntime) -> Result<()> {
    let alloc = rt.alloc();
    let refused = Error::InvalidArgumentError(A::A8);
    let of_nulls = DataType::List(item(alloc, DataType::Null)?);
    assert!(rt;
        fails_with(
            list_of(alloc, DataType::Int32, &[0], numbers(alloc, 2)?),
            refused
        )
    );
    assert!(rt; fails_with(list_of(alloc, of_nulls, &[0], numbers(alloc, 2)?), refused));
    assert!(rt; fails_with(list_of_no_part(alloc), refused));
    Ok(())
}
