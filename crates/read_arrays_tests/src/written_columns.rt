//! A thousand rows of four fields.
use crate::fields::field;
use columns_array::{ArrayBox, ListArray, MapArray, StructArray};
use columns_base::Result;
use columns_core::{DataType, Field, MutableBitmap, Offsets};
use columns_leaf::{PrimitiveArray, Utf8Array};
use std::alloc::Global;

// The numbers of the rows.
fn numbers(alloc: Global) -> Result<Vec<i64>> {
    let mut numbers = Vec::new(alloc);
    for i in 0..1000_i64 {
        numbers.push(i)?;
    }
    Ok(numbers)
}

fn number_array(alloc: Global) -> Result<ArrayBox> {
    let numbers = numbers(alloc)?;
    Ok(ArrayBox::Int64(PrimitiveArray::try_new(alloc, DataType::Int64, numbers, None)?))
}

fn push_text(offsets: &mut Offsets<i32>, bytes: &mut Vec<u8>, text: &str) -> Result<()> {
    bytes.extend_from_slice(text.as_bytes())?;
    offsets.try_push_usize(text.len())
}

// In row i the letter n and the number i, and null in each tenth row.
fn names(alloc: Global) -> Result<ArrayBox> {
    let mut offsets = Offsets::with_capacity(alloc, 1000)?;
    let mut bytes = Vec::new(alloc);
    let mut mask = MutableBitmap::with_capacity(alloc, 1000)?;
    for i in 0..1000_u32 {
        let name = format!(in alloc; "n{i}")?;
        push_text(&mut offsets, &mut bytes, name.as_str())?;
        mask.push(i % 10 != 0)?;
    }
    let offsets = offsets.into_buffer()?;
    let mask = mask.into_bitmap()?;
    Ok(ArrayBox::Utf8(Utf8Array::try_new(alloc, DataType::Utf8, offsets, bytes, Some(mask))?))
}

// So many times a text of one letter.
fn letters(alloc: Global, letter: u8, count: usize) -> Result<ArrayBox> {
    let mut offsets = Offsets::with_capacity(alloc, count)?;
    let mut bytes = Vec::new(alloc);
    for _ in 0..count {
        bytes.push(letter)?;
        offsets.try_push_usize(1)?;
    }
    let offsets = offsets.into_buffer()?;
    Ok(ArrayBox::Utf8(Utf8Array::try_new(alloc, DataType::Utf8, offsets, bytes, None)?))
}

// In row i so many times i as the remainder of i by 3 says, and how many that are in each row.
fn thirds(alloc: Global) -> Result<(Vec<i32>, Offsets<i32>)> {
    let mut values = Vec::new(alloc);
    let mut offsets = Offsets::with_capacity(alloc, 1000)?;
    for i in 0..1000_u32 {
        let count = (i % 3) as usize;
        for _ in 0..count {
            values.push(i as i32)?;
        }
        offsets.try_push_usize(count)?;
    }
    Ok((values, offsets))
}

// Structs of two fields.
fn pair_of(
    alloc: Global,
    first: Field,
    second: Field,
    children: [ArrayBox; 2],
) -> Result<ArrayBox> {
    let data_type = DataType::Struct(Vec::from_array(alloc, [first, second])?);
    let values = Vec::from_array(alloc, children)?;
    Ok(ArrayBox::Struct(StructArray::try_new(alloc, data_type, values, None)?))
}

// Structs of these numbers and the letter p.
fn points_of(alloc: Global, values: Vec<i32>) -> Result<ArrayBox> {
    let letters = letters(alloc, b'p', values.len())?;
    let numbers = PrimitiveArray::try_new(alloc, DataType::Int32, values, None)?;
    let x = field(alloc, "x", DataType::Int32, false)?;
    let y = field(alloc, "y", DataType::Utf8, false)?;
    pair_of(alloc, x, y, [ArrayBox::Int32(numbers), letters])
}

// In row i a list of the remainder of i by 3 structs, of the number i and the letter p.
fn points(alloc: Global) -> Result<ArrayBox> {
    let (values, offsets) = thirds(alloc)?;
    let items = points_of(alloc, values)?;
    let item = field(alloc, "element", items.data_type().clone(alloc)?, false)?;
    let data_type = DataType::List(Box::new(alloc, item)?);
    let lists = ListArray::try_new(alloc, data_type, offsets.into_buffer()?, items, None)?;
    Ok(ArrayBox::List(lists))
}

// A thousand entries of the letter k and the numbers of the rows.
fn entries(alloc: Global) -> Result<ArrayBox> {
    let children = [letters(alloc, b'k', 1000)?, number_array(alloc)?];
    let key = field(alloc, "key", DataType::Utf8, false)?;
    let value = field(alloc, "value", DataType::Int64, true)?;
    pair_of(alloc, key, value, children)
}

// Offsets of one item in each row.
fn ones(alloc: Global) -> Result<Offsets<i32>> {
    let mut offsets = Offsets::with_capacity(alloc, 1000)?;
    for _ in 0..1000 {
        offsets.try_push_usize(1)?;
    }
    Ok(offsets)
}

// In row i a map of the letter k to the number i.
fn tags(alloc: Global) -> Result<ArrayBox> {
    let entries = entries(alloc)?;
    let entry = field(alloc, "key_value", entries.data_type().clone(alloc)?, false)?;
    let data_type = DataType::Map(Box::new(alloc, entry)?, false);
    let offsets = ones(alloc)?.into_buffer()?;
    Ok(ArrayBox::Map(MapArray::try_new(alloc, data_type, offsets, entries, None)?))
}

/// One of the four fields, and its rows.
#[derive(Clone, Copy)]
pub(crate) enum Column {
    Id,
    Name,
    Points,
    Tags,
}

pub(crate) fn rows_of(alloc: Global, column: Column) -> Result<ArrayBox> {
    match column {
        Column::Id => number_array(alloc),
        Column::Name => names(alloc),
        Column::Points => points(alloc),
        Column::Tags => tags(alloc),
    }
}

pub(crate) fn field_of(alloc: Global, column: Column, data_type: DataType) -> Result<Field> {
    match column {
        Column::Id => field(alloc, "id", data_type, false),
        Column::Name => field(alloc, "name", data_type, true),
        Column::Points => field(alloc, "points", data_type, true),
        Column::Tags => field(alloc, "tags", data_type, false),
    }
}
