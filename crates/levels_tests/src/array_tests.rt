//! The paths and leaves of arrays, and the nulls that a path sees.
use crate::parts::{Part, is_path, mask};
use columns_array::{ArrayBox, DictionaryArray, ListArray, StructArray};
use columns_base::{PhysicalType, Result as Answer};
use columns_core::{DataType, Field, IntegerType, Metadata, OffsetsBuffer};
use columns_leaf::{DictionaryKeys, NullArray, PrimitiveArray};
use levels::{Nested, is_in_bounds};
use nested_paths::{fits_leaf, merge_nulls, to_leaves, to_nested, to_parquet_leaves};
use pq_tree::{FieldInfo, ParquetType, PrimitiveType, Repetition};
use std::alloc::Global;
use std::test::Fail;

// ---- arrays

fn field(alloc: Global, array: &ArrayBox) -> Answer<Field> {
    Ok(Field {
        name: String::from_str(alloc, "f")?,
        data_type: array.data_type().clone(alloc)?,
        is_nullable: true,
        metadata: Metadata::new(alloc),
    })
}

fn numbers(alloc: Global, values: &[i32], bits: &[bool]) -> Result<ArrayBox, Fail> {
    let values = values.to_vec(alloc)?;
    let validity = mask(alloc, bits)?;
    let array = PrimitiveArray::try_new(alloc, DataType::Int32, values, validity)?;
    Ok(ArrayBox::Int32(array))
}

fn lists(alloc: Global, items: ArrayBox, offsets: &[i32]) -> Result<ArrayBox, Fail> {
    let data_type = DataType::List(Box::new(alloc, field(alloc, &items)?)?);
    let offsets = OffsetsBuffer::try_from_vec(offsets.to_vec(alloc)?)?;
    let array = ListArray::try_new(alloc, data_type, offsets, items, None)?;
    Ok(ArrayBox::List(array))
}

fn structs(alloc: Global, value: ArrayBox, bits: &[bool]) -> Result<ArrayBox, Fail> {
    let fields = vec![in alloc; field(alloc, &value)?]?;
    let values = vec![in alloc; value]?;
    let validity = mask(alloc, bits)?;
    let array = StructArray::try_new(alloc, DataType::Struct(fields), values, validity)?;
    Ok(ArrayBox::Struct(array))
}

// The keys 1, 0, null and 1 over 7 and 8, of which the second may be null.
fn keyed(alloc: Global, is_null: bool) -> Result<ArrayBox, Fail> {
    let entries = numbers(alloc, &[7, 8], &[true, !is_null])?;
    let keys = Vec::from_array(alloc, [1u8, 0, 9, 1])?;
    let validity = mask(alloc, &[true, true, false, true])?;
    let keys = PrimitiveArray::try_new(alloc, DataType::UInt8, keys, validity)?;
    let value_type = Box::new(alloc, DataType::Int32)?;
    let data_type = DataType::Dictionary(IntegerType::UInt8, value_type, false);
    let array = DictionaryArray::try_new(alloc, data_type, DictionaryKeys::UInt8(keys), entries)?;
    Ok(ArrayBox::Dictionary(array))
}

fn nulls(alloc: Global) -> Result<ArrayBox, Fail> {
    Ok(ArrayBox::Null(NullArray::try_new(alloc, DataType::Null, 2)?))
}

// ---- trees

fn info(alloc: Global, repetition: Repetition) -> Result<FieldInfo, Fail> {
    Ok(FieldInfo {
        name: String::from_str(alloc, "a")?,
        repetition,
        id: None,
    })
}

fn leaf(alloc: Global) -> Result<ParquetType, Fail> {
    Ok(ParquetType::PrimitiveType(PrimitiveType {
        field_info: info(alloc, Repetition::Optional)?,
        logical_type: None,
        converted_type: None,
        physical_type: PhysicalType::Int32,
    }))
}

fn over(alloc: Global, repetition: Repetition, node: ParquetType) -> Result<ParquetType, Fail> {
    Ok(ParquetType::GroupType {
        field_info: info(alloc, repetition)?,
        logical_type: None,
        converted_type: None,
        fields: vec![in alloc; node]?,
    })
}

// ---- paths

// A required list of optional structs of an optional number.
fn list_of_structs(alloc: Global) -> Result<ArrayBox, Fail> {
    let values = numbers(alloc, &[1, 2, 3], &[true, false, true])?;
    lists(
        alloc,
        structs(alloc, values, &[true, true, false])?,
        &[0, 2, 3],
    )
}

fn list_tree(alloc: Global) -> Result<ParquetType, Fail> {
    let item = over(alloc, Repetition::Optional, leaf(alloc)?)?;
    over(
        alloc,
        Repetition::Required,
        over(alloc, Repetition::Repeated, item)?,
    )
}

const LIST_PATH: &[Part] = &[
    Part::List(false, &[], &[0, 2, 3]),
    Part::Struct(true, &[true, true, false], 3),
    Part::Leaf(true, &[true, false, true], 3),
];

fn has_list_path(alloc: Global) -> Result<bool, Fail> {
    let array = list_of_structs(alloc)?;
    let found = to_nested(alloc, &array, &list_tree(alloc)?)?;
    let leaves = to_leaves(alloc, &array)?;
    let nodes = to_parquet_leaves(alloc, list_tree(alloc)?)?;
    match (found.as_slice(), leaves.as_slice()) {
        ([path], [leaf]) => {
            Ok(leaf.len() == 3 && nodes.len() == 1 && is_path(path, alloc, LIST_PATH)?)
        }
        _ => Ok(false),
    }
}

#[test]
fn an_array_has_a_path_for_its_leaf(rt: HostRuntime) -> Result<(), Fail> {
    assert!(rt; has_list_path(rt.alloc())?);
    Ok(())
}

// ---- nulls

// Merges the nulls of a leaf array where the conditions hold.
fn merge(alloc: Global, array: &ArrayBox, path: &mut [Nested]) -> Answer<()> {
    if !is_in_bounds(path) || !fits_leaf(array, path) {
        return Ok(());
    }
    merge_nulls(alloc, array, path)
}

// Whether the path of an array that is a leaf sees these nulls.
fn sees(alloc: Global, array: &ArrayBox, part: Part) -> Result<bool, Fail> {
    let mut found = to_nested(alloc, array, &leaf(alloc)?)?;
    match found.as_mut_slice() {
        [path] => {
            merge(alloc, array, path)?;
            is_path(path, alloc, &[part])
        }
        _ => Ok(false),
    }
}

#[test]
fn the_nulls_of_leaf_arrays_are_seen(rt: HostRuntime) -> Result<(), Fail> {
    let alloc = rt.alloc();
    let no_values = Part::Leaf(true, &[false, false], 2);
    assert!(rt; sees(alloc, &nulls(alloc)?, no_values)?);
    let null_entry = Part::Leaf(true, &[false, true, false, false], 4);
    assert!(rt; sees(alloc, &keyed(alloc, true)?, null_entry)?);
    let all_entries = Part::Leaf(true, &[true, true, false, true], 4);
    assert!(rt; sees(alloc, &keyed(alloc, false)?, all_entries)?);
    Ok(())
}
