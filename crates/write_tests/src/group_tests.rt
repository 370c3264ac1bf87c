//! Chunks of one column as groups.
use crate::fields::{encodings, field, numbers_in, schema_of};
use crate::options::V1;
use columns_array::{ArrayBox, Chunk};
use columns_base::{A, Error, Result};
use columns_core::{DataType, Schema};
use columns_leaf::NullArray;
use row_groups::RowGroupIterator;
use std::alloc::Global;
use write_groups::RowGroupIter;

fn schema(alloc: Global, data_type: DataType, is_nullable: bool) -> Result<Schema> {
    schema_of(alloc, field(alloc, "n", data_type, is_nullable)?)
}

// The numbers 5 and 6, or null and 6.
fn numbers(alloc: Global, is_null: bool) -> Result<ArrayBox> {
    numbers_in(alloc, &[5, 6], &[!is_null, true])
}

// 1: two numbers. 2: a null and a number. 3: two arrays. 9: an error.
fn outcome(alloc: Global, code: u8) -> Result<Chunk> {
    if code == 9 {
        return Err(Error::ReadFault);
    }
    let mut arrays = Vec::new(alloc);
    arrays.push(numbers(alloc, code == 2)?)?;
    if code == 3 {
        arrays.push(numbers(alloc, false)?)?;
    }
    Chunk::try_new(arrays)
}

// 0: nothing. 1: a group. 8: A8. 9: the error.
fn code_of(given: Option<Result<RowGroupIter>>) -> u8 {
    match given {
        None => 0,
        Some(Ok(_)) => 1,
        Some(Err(error)) => {
            if error == Error::InvalidArgumentError(A::A8) {
                8
            } else if error == Error::ReadFault {
                9
            } else {
                7
            }
        }
    }
}

// Whether the iterator over these outcomes gives these answers.
fn gives(alloc: Global, is_nullable: bool, codes: &[u8], wanted: &[u8]) -> Result<bool> {
    let mut outcomes = Vec::new(alloc);
    for code in codes {
        outcomes.push(outcome(alloc, *code))?;
    }
    let schema = schema(alloc, DataType::Int32, is_nullable)?;
    let encodings = encodings(alloc, 1, 1)?;
    let mut groups = RowGroupIterator::try_new(
        alloc,
        outcomes.into_iter(),
        &schema,
        V1,
        encodings,
    )?;
    let mut are_same = true;
    for code in wanted {
        are_same = are_same && code_of(groups.next()) == *code;
    }
    Ok(are_same)
}

#[test]
fn groups_come_up_to_an_error(rt: HostRuntime) -> Result<()> {
    let alloc = rt.alloc();
    assert!(rt; gives(alloc, false, &[1, 1], &[1, 1, 0])?);
    assert!(rt; gives(alloc, false, &[1, 9, 1], &[1, 9, 0])?);
    assert!(rt; gives(alloc, false, &[3, 1], &[8, 0])?);
    Ok(())
}

#[test]
fn a_null_wants_a_nullable_field(rt: HostRuntime) -> Result<()> {
    let alloc = rt.alloc();
    assert!(rt; gives(alloc, false, &[1, 2, 1], &[1, 8, 0])?);
    assert!(rt; gives(alloc, true, &[2, 1], &[1, 1, 0])?);
    Ok(())
}

// What comes of a chunk of so many nulls in a required field of nulls.
fn code_of_nulls(alloc: Global, count: usize) -> Result<u8> {
    let nulls = ArrayBox::Null(NullArray::try_new(alloc, DataType::Null, count)?);
    let chunk = Chunk::try_new(Vec::from_array(alloc, [nulls])?);
    let outcomes = Vec::from_array(alloc, [chunk])?;
    let schema = schema(alloc, DataType::Null, false)?;
    let encodings = encodings(alloc, 1, 1)?;
    let mut groups = RowGroupIterator::try_new(
        alloc,
        outcomes.into_iter(),
        &schema,
        V1,
        encodings,
    )?;
    Ok(code_of(groups.next()))
}

#[test]
fn a_required_field_of_nulls_takes_no_rows(rt: HostRuntime) -> Result<()> {
    let alloc = rt.alloc();
    assert!(rt; code_of_nulls(alloc, 0)? != 8);
    assert!(rt; code_of_nulls(alloc, 1)? == 8);
    Ok(())
}

// Whether so many lists of so many encodings are refused for one field.
fn is_refused(alloc: Global, lists: usize, count: usize) -> Result<bool> {
    let none: Vec<Result<Chunk>> = Vec::new(alloc);
    let schema = schema(alloc, DataType::Int32, true)?;
    let encodings = encodings(alloc, lists, count)?;
    Ok(RowGroupIterator::try_new(alloc, none.into_iter(), &schema, V1, encodings).is_err())
}

#[test]
fn encodings_are_counted(rt: HostRuntime) -> Result<()> {
    let alloc = rt.alloc();
    assert!(rt; !is_refused(alloc, 1, 1)?);
    assert!(rt; is_refused(alloc, 2, 1)?);
    assert!(rt; is_refused(alloc, 1, 2)?);
    assert!(rt; is_refused(alloc, 0, 1)?);
    Ok(())
}
