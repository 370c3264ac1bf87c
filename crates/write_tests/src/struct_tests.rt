//! The pages of a struct's children, by hand (Dremel paper, section 4.1; Parquet format, "Nested Encoding", "Data Pages"; Encodings, "Plain" and "Run
//! Length Encoding / Bit-Packing Hybrid").
use crate::fields::{field, numbers};
use crate::options::V2;
use columns_array::{ArrayBox, StructArray};
use columns_base::{A, Error, PhysicalType, Result};
use columns_core::{Bitmap, DataType};
use columns_leaf::BooleanArray;
use levels::Nested;
use nested_paths::{to_leaves, to_nested};
use pq_pages::Page;
use pq_tree::{Encoding, FieldInfo, ParquetType, PrimitiveType, Repetition};
use std::alloc::Global;
use write_pages::{PageIter, array_to_columns};

/// The definition levels 1, 1, 0, 1 as a packed run of eight, and the truth values false, false and true.
const TRUTHS: &[u8] = &[3, 0b1011, 0b100];

/// The same levels, and the numbers 42, 28 and 31.
const NUMBERS: &[u8] = &[3, 0b1011, 42, 0, 0, 0, 28, 0, 0, 0, 31, 0, 0, 0];

// The type of structs of a truth value and a number.
fn pair(alloc: Global) -> Result<DataType> {
    let truth = field(alloc, "b", DataType::Boolean, false)?;
    let number = field(alloc, "c", DataType::Int32, false)?;
    Ok(DataType::Struct(Vec::from_array(alloc, [truth, number])?))
}

// Structs of a truth value and a number, of which the third is null.
fn structs(alloc: Global) -> Result<ArrayBox> {
    let truths = Bitmap::from_slice(alloc, &[false, false, true, true])?;
    let truths = BooleanArray::try_new(alloc, DataType::Boolean, truths, None)?;
    let numbers = numbers(alloc, &[42, 28, 19, 31], None)?;
    let values = Vec::from_array(alloc, [ArrayBox::Boolean(truths), numbers])?;
    let mask = Bitmap::from_slice(alloc, &[true, true, false, true])?;
    Ok(ArrayBox::Struct(StructArray::try_new(alloc, pair(alloc)?, values, Some(mask))?))
}

fn info(alloc: Global, name: &str, repetition: Repetition) -> Result<FieldInfo> {
    Ok(FieldInfo {
        name: String::from_str(alloc, name)?,
        repetition,
        id: None,
    })
}

fn leaf(alloc: Global, name: &str, physical_type: PhysicalType) -> Result<ParquetType> {
    Ok(ParquetType::PrimitiveType(PrimitiveType {
        field_info: info(alloc, name, Repetition::Required)?,
        logical_type: None,
        converted_type: None,
        physical_type,
    }))
}

fn tree(alloc: Global) -> Result<ParquetType> {
    let truth = leaf(alloc, "b", PhysicalType::Boolean)?;
    let number = leaf(alloc, "c", PhysicalType::Int32)?;
    Ok(ParquetType::GroupType {
        field_info: info(alloc, "struct", Repetition::Optional)?,
        logical_type: None,
        converted_type: None,
        fields: Vec::from_array(alloc, [truth, number])?,
    })
}

// Whether the path has four optional structs, the third of them null, over a required leaf.
fn is_in_struct(path: &[Nested]) -> bool {
    match path {
        [
            Nested::Struct(Some(mask), true, 4),
            Nested::Primitive(None, false, 4),
        ] => { mask.len() == 4 && mask.unset_bits() == 1 && mask.run_end(0, 4, true) == 2 }
        _ => false,
    }
}

// Whether the only page has this body.
fn has_body(pages: &mut PageIter, body: &[u8]) -> Result<bool> {
    match pages.next_page() {
        Some(Ok(Page::Data(page))) => Ok(page.buffer() == body && pages.next_page().is_none()),
        Some(Err(error)) => Err(error),
        _ => Ok(false),
    }
}

// Whether each child has a path and a page of its own.
fn are_written(alloc: Global, array: &ArrayBox, tree: &ParquetType) -> Result<bool> {
    let found = to_nested(alloc, array, tree)?;
    let [first, second] = found.as_slice() else {
        return Ok(false);
    };
    // a path of a schema is no deeper
    if first.len() > 128 || second.len() > 128 {
        return Err(Error::InvalidArgumentError(A::A8));
    }
    let encodings = [Encoding::Plain, Encoding::Plain];
    let mut columns = array_to_columns(alloc, array, tree, V2, &encodings)?;
    let [truths, numbers] = columns.as_mut_slice() else {
        return Ok(false);
    };
    Ok(
        is_in_struct(first)
            && is_in_struct(second)
            && has_body(truths, TRUTHS)?
            && has_body(numbers, NUMBERS)?,
    )
}

#[test]
fn a_struct_has_a_column_for_each_child(rt: HostRuntime) -> Result<()> {
    let alloc = rt.alloc();
    let array = structs(alloc)?;
    assert!(rt; are_written(alloc, &array, &tree(alloc)?)?);
    assert!(rt; to_leaves(alloc, &array)?.len() == 2);
    Ok(())
}
