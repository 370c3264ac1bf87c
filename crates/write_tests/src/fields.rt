//! Fields, schemas, encodings, and columns of numbers.
use columns_array::ArrayBox;
use columns_base::Result;
use columns_core::{Bitmap, DataType, Field, Metadata, Schema};
use columns_leaf::PrimitiveArray;
use pq_tree::{Encoding, ParquetType};
use std::alloc::Global;

/// A field of this name.
pub fn field(alloc: Global, name: &str, data_type: DataType, is_nullable: bool) -> Result<Field> {
    Ok(Field {
        name: String::from_str(alloc, name)?,
        data_type,
        is_nullable,
        metadata: Metadata::new(alloc),
    })
}

/// The schema of one field.
pub fn schema_of(alloc: Global, field: Field) -> Result<Schema> {
    Ok(Schema {
        fields: Vec::from_array(alloc, [field])?,
        metadata: Metadata::new(alloc),
    })
}

/// As many trees as the first of these.
pub fn trees(alloc: Global, from: &[ParquetType], count: usize) -> Result<Vec<ParquetType>> {
    let mut trees = Vec::new(alloc);
    for tree in from.iter().take(count) {
        trees.push(tree.clone(alloc)?)?;
    }
    Ok(trees)
}

// So many times PLAIN.
fn plain(alloc: Global, count: usize) -> Result<Vec<Encoding>> {
    let mut list = Vec::new(alloc);
    for _ in 0..count {
        list.push(Encoding::Plain)?;
    }
    Ok(list)
}

/// So many lists of so many times PLAIN.
pub fn encodings(alloc: Global, lists: usize, count: usize) -> Result<Vec<Vec<Encoding>>> {
    let mut all = Vec::new(alloc);
    for _ in 0..lists {
        all.push(plain(alloc, count)?)?;
    }
    Ok(all)
}

/// Numbers of 32 bits, null where the mask says so.
pub fn numbers(alloc: Global, values: &[i32], mask: Option<Bitmap>) -> Result<ArrayBox> {
    let values = values.to_vec(alloc)?;
    Ok(ArrayBox::Int32(PrimitiveArray::try_new(alloc, DataType::Int32, values, mask)?))
}

/// The same, of which those that are not there are null.
pub fn numbers_in(alloc: Global, values: &[i32], there: &[bool]) -> Result<ArrayBox> {
    numbers(alloc, values, Some(Bitmap::from_slice(alloc, there)?))
}
