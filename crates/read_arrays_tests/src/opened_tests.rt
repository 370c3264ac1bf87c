//! Structs of iterators with a type of their own, and of dictionaries; and what is not opened beneath parts (Arrow columnar format, "Struct Layout",
//! "Dictionary-encoded Layout").
ghost use Rattle.std.specs.Prelude.{◌≡◌, IfOk};
ghost use Rattle.columns_core.specs.Shapes.{base};
ghost use Rattle.columns_core.specs.View.{type_view};

use crate::fields::optional;
use crate::keys::{TWO, indices, is_of, keyed};
use crate::pages::{Place, entries, leaf};
use crate::struct_tests::{LEFT, RIGHT, child, open_typed};
use columns_array::ArrayBox;
use columns_base::{A, Error, PhysicalType, Result};
use columns_core::{DataType, Field};
use pq_pages::{Page, VecPages};
use pq_tree::{PrimitiveType, Repetition};
use read_state::{InitNested, NestedState};
use std::alloc::Global;
use struct_iters::{NestedArrayIter, StructIterator};

// A key in a nullable struct: 1, beneath a null struct, and null; definition levels 2, 0, 1 behind their length, and the index 1.
const KEYS: &[u8] = &[3, 0, 0, 0, 3, 0b01_0010, 0, 1, 3, 1];

// The arrays of a field of one column of three rows beneath a nullable struct.
fn open(
    alloc: Global,
    pages: Vec<Result<Page>>,
    types: Vec<PrimitiveType>,
    field: Field,
    chunk_size: Option<usize>,
) -> Result<NestedArrayIter<VecPages>> {
    let source = VecPages::new(pages);
    open_typed(
        alloc,
        source,
        types,
        field,
        InitNested::Struct(true),
        3,
        chunk_size,
    )
}

// So many times the node of a number.
fn types_of(alloc: Global, count: usize) -> Result<Vec<PrimitiveType>> {
    let mut types = Vec::new(alloc);
    for _ in 0..count {
        types.push(leaf(alloc, Repetition::Optional, PhysicalType::Int32))?;
    }
    Ok(types)
}

// A number beneath a struct, with so many types, is not opened.
fn is_refused(alloc: Global, types: usize, size: Option<usize>, reason: A) -> Result<bool> {
    let types = types_of(alloc, types)?;
    let field = optional(alloc, "n", DataType::Int32)?;
    match open(alloc, Vec::new(alloc), types, field, size) {
        Ok(_) => Ok(false),
        Err(error) => Ok(error == Error::InvalidArgumentError(reason)),
    }
}

#[test]
fn sizes_and_numbers_are_refused(rt: HostRuntime) -> Result<()> {
    let alloc = rt.alloc();
    assert!(rt; is_refused(alloc, 1, Some(0), A::A1)?);
    assert!(rt; is_refused(alloc, 0, Some(0), A::A1)?);
    assert!(rt; is_refused(alloc, 0, None, A::A8)?);
    assert!(rt; is_refused(alloc, 2, Some(1), A::A8)?);
    Ok(())
}

// A type beneath an extension.
fn extended(alloc: Global, inner: DataType) -> Result<DataType>
    ensures { IfOk result (λ t. base (type_view t) ≡ base (type_view inner)) }
{
    let name = String::from_str(alloc, "pair")?;
    Ok(DataType::Extension(name, Box::new(alloc, inner)?, None))
}

// The struct of two numbers.
fn two_numbers(alloc: Global) -> Result<DataType> {
    let mut fields = Vec::new(alloc);
    fields.push(optional(alloc, "n", DataType::Int32)?)?;
    fields.push(optional(alloc, "m", DataType::Int32)?)?;
    Ok(DataType::Struct(fields))
}

// A struct type's arrays, of that type beneath an extension.
fn join(
    alloc: Global,
    iters: Vec<NestedArrayIter<VecPages>>,
    data_type: DataType,
) -> Result<StructIterator<VecPages>> {
    let DataType::Struct(fields) = data_type.clone(alloc)? else {
        return Err(Error::InvalidArgumentError(A::A8));
    };
    let structs = StructIterator::new(alloc, iters, fields)?;
    Ok(structs.with_data_type(extended(alloc, data_type)?))
}

fn is_of_type(item: Option<Result<(NestedState, ArrayBox)>>, data_type: &DataType) -> bool {
    match item {
        Some(Ok((_, array))) => array.data_type() == data_type,
        _ => false,
    }
}

fn keeps_type(alloc: Global) -> Result<bool> {
    let mut iters = Vec::new(alloc);
    iters.push(child(alloc, 3, LEFT, None)?)?;
    iters.push(child(alloc, 3, RIGHT, None)?)?;
    let mut structs = join(alloc, iters, two_numbers(alloc)?)?;
    let want = extended(alloc, two_numbers(alloc)?)?;
    Ok(is_of_type(structs.next(), &want))
}

#[test]
fn extensions_are_kept(rt: HostRuntime) -> Result<()> {
    assert!(rt; keeps_type(rt.alloc())?);
    Ok(())
}

// The arrays of a dictionary of texts beneath a nullable struct.
fn keys(alloc: Global, field: Field) -> Result<NestedArrayIter<VecPages>> {
    let mut pages = entries(alloc, TWO, 2)?;
    pages.push(indices(alloc, Place::Struct, 3, KEYS))?;
    let mut types = Vec::new(alloc);
    types.push(leaf(alloc, Repetition::Optional, PhysicalType::ByteArray))?;
    open(alloc, pages, types, field, None)
}

// The struct of one dictionary.
fn holds_keys(array: &ArrayBox) -> bool {
    match array {
        ArrayBox::Struct(array) => match array.values() {
            [child] => array.null_count() == 1 && is_of(child, &[1, 0, 0], 2),
            _ => false,
        },
        _ => false,
    }
}

fn is_keyed(item: Option<Result<(NestedState, ArrayBox)>>) -> bool {
    match item {
        Some(Ok((_, array))) => holds_keys(&array),
        _ => false,
    }
}

fn joins_keys(alloc: Global) -> Result<bool> {
    let field = optional(alloc, "d", keyed(alloc, DataType::Utf8)?)?;
    let mut iters = Vec::new(alloc);
    iters.push(keys(alloc, field.clone(alloc)?)?)?;
    let mut fields = Vec::new(alloc);
    fields.push(field)?;
    let mut structs = StructIterator::new(alloc, iters, fields)?;
    Ok(is_keyed(structs.next()))
}

#[test]
fn dictionaries_are_joined(rt: HostRuntime) -> Result<()> {
    assert!(rt; joins_keys(rt.alloc())?);
    Ok(())
}
