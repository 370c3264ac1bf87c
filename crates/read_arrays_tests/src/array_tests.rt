//! Lists and structs of numbers.
ghost use Rattle.std.specs.Prelude.{◌≤◌, IfOk};
ghost use Rattle.shredding.specs.Shape.{HasNoEmptyStruct};
ghost use Rattle.columns_core.specs.Measures.{field_nesting};
ghost use Rattle.columns_core.specs.Shapes.{shape_of};
ghost use Rattle.columns_core.specs.View.{field_view};

use crate::fields::{field, item};
use columns_array::ArrayBox;
use columns_base::{Error, Result, S};
use columns_core::{Bitmap, DataType, Field};
use columns_leaf::PrimitiveArray;
use read_nested::{create_array, create_list};
use read_pieces::ColumnPiece;
use read_state::{Nested, NestedBox, NestedOptional, NestedPrimitive, NestedState, NestedStruct};
use std::alloc::Global;

fn numbers(alloc: Global, values: &[i32], validity: Option<Bitmap>) -> Result<ArrayBox> {
    let values = values.to_vec(alloc)?;
    Ok(ArrayBox::Int32(PrimitiveArray::try_new(alloc, DataType::Int32, values, validity)?))
}

// A list's part: where the items of each push begin, and whether it is there.
fn list_part(alloc: Global, pushes: &[(usize, bool)]) -> Result<NestedBox> {
    let mut part = NestedOptional::with_capacity(alloc, 0)?;
    for (start, is_valid) in pushes {
        part.push_run(*start, false, *is_valid, 1)?;
    }
    Ok(NestedBox::Optional(part))
}

// The array of the rows [1, null], null, [], [2].
fn lists(alloc: Global) -> Result<ArrayBox> {
    let items = numbers(
        alloc,
        &[1, 0, 2],
        Some(Bitmap::from_slice(alloc, &[true, false, true])?),
    )?;
    let part = list_part(alloc, &[(0, true), (2, false), (2, true), (2, true)])?;
    let mut nested = Vec::new(alloc);
    nested.push(part)?;
    let mut state = NestedState::new(nested);
    let data_type = DataType::List(item(alloc, DataType::Int32)?);
    create_list(alloc, data_type, &mut state, items)
}

// The offsets are the starts and the number of items (Arrow columnar format, "Variable-size List Layout").
fn has_lists(array: &ArrayBox) -> bool {
    match array {
        ArrayBox::List(list) => {
            list.offsets().buffer() == [0, 2, 2, 2, 3].as_slice() && list.null_count() == 1
        }
        _ => false,
    }
}

#[test]
fn lists_have_the_offsets_of_their_items(rt: HostRuntime) -> Result<()> {
    assert!(rt; has_lists(&lists(rt.alloc())?));
    Ok(())
}

// One row of a column of an optional struct's required number.
fn column(alloc: Global, is_there: bool) -> Result<ColumnPiece> {
    let mut part = NestedStruct::with_capacity(alloc, 0)?;
    part.push_run(0, false, is_there, 1)?;
    let mut leaf = NestedPrimitive::new(alloc, false);
    leaf.push_run(0, false, true, 1)?;
    let mut nested = Vec::new(alloc);
    nested.push(NestedBox::Struct(part))?;
    nested.push(NestedBox::Primitive(leaf))?;
    Ok(ColumnPiece {
        nested: NestedState::new(nested),
        values: numbers(alloc, &[7], None)?,
    })
}

// An optional struct of two numbers.
fn pair(alloc: Global) -> Result<Field>
    ensures nesting { IfOk result (λ f. field_nesting (field_view f) ≤ 128) }
    ensures structs { IfOk result (λ f. HasNoEmptyStruct (shape_of (field_view f))) }
{
    let left = field(alloc, "a", DataType::Int32, false)?;
    let right = field(alloc, "b", DataType::Int32, false)?;
    let fields = Vec::from_array(alloc, [left, right])?;
    field(alloc, "s", DataType::Struct(fields), true)
}

// The array of such a struct, whose columns have one row each.
fn structs(alloc: Global, left: bool, right: bool) -> Result<ArrayBox> {
    let field = pair(alloc)?;
    let mut pieces = Vec::new(alloc);
    pieces.push(column(alloc, left)?)?;
    pieces.push(column(alloc, right)?)?;
    create_array(alloc, &field, pieces)
}

fn has_structs(array: &ArrayBox, nulls: usize) -> bool {
    match array {
        ArrayBox::Struct(found) => found.len() == 1 && found.null_count() == nulls,
        _ => false,
    }
}

fn disagree(alloc: Global, left: bool, right: bool) -> bool {
    match structs(alloc, left, right) {
        Err(error) => error == Error::OutOfSpec(S::S10),
        Ok(_) => false,
    }
}

#[test]
fn columns_must_agree_on_their_struct(rt: HostRuntime) -> Result<()> {
    let alloc = rt.alloc();
    assert!(rt; has_structs(&structs(alloc, true, true)?, 0));
    assert!(rt; has_structs(&structs(alloc, false, false)?, 1));
    assert!(rt; disagree(alloc, true, false));
    assert!(rt; disagree(alloc, false, true));
    Ok(())
}
