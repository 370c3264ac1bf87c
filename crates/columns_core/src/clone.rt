//! `clone`, which gives an equal value.
ghost use Rattle.std.specs.Prelude.{◌≡◌, IfOk, IfErr, option_map, string_bytes};
ghost use Rattle.columns_core.specs.Tree.{t_timestamp, t_fixed_size_list, t_union, t_map, t_dictionary, t_extension};
ghost use Rattle.columns_core.specs.View.{type_view, field_view, fields_view, schema_view};

use crate::types::{DataType, Field, IntegerType, Schema, TimeUnit};
use columns_base::{Error, Result};
use std::alloc::Global;

impl DataType {
    /// A type of the same parts.
    ///
    /// # Errors
    ///
    /// `Memory`.
    pub fn clone(&self, alloc: Global) -> Result<DataType>
        ensures ok { IfOk result (λ t. type_view t ≡ type_view self.now) }
        ensures err { IfErr result (λ e. e ≡ Error.Memory) }
    {
        copy_type(self, alloc)
    }
}

impl Field {
    /// A field of the same parts.
    ///
    /// # Errors
    ///
    /// `Memory`.
    pub fn clone(&self, alloc: Global) -> Result<Field>
        ensures ok { IfOk result (λ f. field_view f ≡ field_view self.now) }
        ensures err { IfErr result (λ e. e ≡ Error.Memory) }
    {
        copy_field(self, alloc)
    }
}

impl Schema {
    /// A schema of the same parts.
    ///
    /// # Errors
    ///
    /// `Memory`.
    pub fn clone(&self, alloc: Global) -> Result<Schema>
        ensures ok { IfOk result (λ s. schema_view s ≡ schema_view self.now) }
        ensures err { IfErr result (λ e. e ≡ Error.Memory) }
    {
        Ok(Schema {
            fields: copy_fields(&self.fields, alloc)?,
            metadata: self.metadata.clone(alloc)?,
        })
    }
}

#[cycle(copy)]
fn copy_type(data_type: &DataType, alloc: Global) -> Result<DataType>
    ensures ok { IfOk result (λ t. type_view t ≡ type_view data_type.now) }
    ensures err { IfErr result (λ e. e ≡ Error.Memory) }
{
    match data_type {
        DataType::Null => Ok(DataType::Null),
        DataType::Boolean => Ok(DataType::Boolean),
        DataType::Int8 => Ok(DataType::Int8),
        DataType::Int16 => Ok(DataType::Int16),
        DataType::Int32 => Ok(DataType::Int32),
        DataType::Int64 => Ok(DataType::Int64),
        DataType::UInt8 => Ok(DataType::UInt8),
        DataType::UInt16 => Ok(DataType::UInt16),
        DataType::UInt32 => Ok(DataType::UInt32),
        DataType::UInt64 => Ok(DataType::UInt64),
        DataType::Float16 => Ok(DataType::Float16),
        DataType::Float32 => Ok(DataType::Float32),
        DataType::Float64 => Ok(DataType::Float64),
        DataType::Timestamp(unit, zone) => copy_timestamp(*unit, zone),
        DataType::Date32 => Ok(DataType::Date32),
        DataType::Date64 => Ok(DataType::Date64),
        DataType::Time32(p0) => Ok(DataType::Time32(*p0)),
        DataType::Time64(p0) => Ok(DataType::Time64(*p0)),
        DataType::Duration(p0) => Ok(DataType::Duration(*p0)),
        DataType::Interval(p0) => Ok(DataType::Interval(*p0)),
        DataType::Binary => Ok(DataType::Binary),
        DataType::FixedSizeBinary(p0) => Ok(DataType::FixedSizeBinary(*p0)),
        DataType::LargeBinary => Ok(DataType::LargeBinary),
        DataType::Utf8 => Ok(DataType::Utf8),
        DataType::LargeUtf8 => Ok(DataType::LargeUtf8),
        DataType::List(item) => copy_item(item, alloc).map(DataType::List),
        DataType::FixedSizeList(item, size) => copy_fixed_size_list(item, *size, alloc),
        DataType::LargeList(item) => copy_item(item, alloc).map(DataType::LargeList),
        DataType::Struct(fields) => copy_fields(fields, alloc).map(DataType::Struct),
        DataType::Union(fields, ids, is_sparse) => copy_union(fields, ids, *is_sparse, alloc),
        DataType::Map(entry, is_sorted) => copy_map(entry, *is_sorted, alloc),
        DataType::Dictionary(key, value, is_sorted) => {
            copy_dictionary(*key, value, *is_sorted, alloc)
        }
        DataType::Decimal(p0, p1) => Ok(DataType::Decimal(*p0, *p1)),
        DataType::Decimal256(p0, p1) => Ok(DataType::Decimal256(*p0, *p1)),
        DataType::Extension(name, inner, text) => copy_extension(name, inner, text, alloc),
    }
}

fn copy_timestamp(unit: TimeUnit, zone: &Option<String>) -> Result<DataType>
    ensures ok { IfOk result (λ t. type_view t ≡ t_timestamp unit (option_map string_bytes zone.now)) }
    ensures err { IfErr result (λ e. e ≡ Error.Memory) }
{
    Ok(DataType::Timestamp(unit, zone.clone()?))
}

#[cycle(copy)]
fn copy_item(field: &Field, alloc: Global) -> Result<Box<Field>>
    ensures ok { IfOk result (λ f. field_view f.value ≡ field_view field.now) }
    ensures err { IfErr result (λ e. e ≡ Error.Memory) }
{
    let copy = copy_field(field, alloc)?;
    Ok(Box::new(alloc, copy)?)
}

#[cycle(copy)]
fn copy_inner(data_type: &DataType, alloc: Global) -> Result<Box<DataType>>
    ensures ok { IfOk result (λ t. type_view t.value ≡ type_view data_type.now) }
    ensures err { IfErr result (λ e. e ≡ Error.Memory) }
{
    let copy = copy_type(data_type, alloc)?;
    Ok(Box::new(alloc, copy)?)
}

#[cycle(copy)]
fn copy_fixed_size_list(item: &Field, size: usize, alloc: Global) -> Result<DataType>
    ensures ok { IfOk result (λ t. type_view t ≡ t_fixed_size_list (field_view item.now) size) }
    ensures err { IfErr result (λ e. e ≡ Error.Memory) }
{
    Ok(DataType::FixedSizeList(copy_item(item, alloc)?, size))
}

#[cycle(copy)]
fn copy_map(entry: &Field, is_sorted: bool, alloc: Global) -> Result<DataType>
    ensures ok { IfOk result (λ t. type_view t ≡ t_map (field_view entry.now) is_sorted) }
    ensures err { IfErr result (λ e. e ≡ Error.Memory) }
{
    Ok(DataType::Map(copy_item(entry, alloc)?, is_sorted))
}

#[cycle(copy)]
fn copy_union(
    fields: &Vec<Field>,
    ids: &Option<Vec<i32>>,
    is_sparse: bool,
    alloc: Global,
) -> Result<DataType>
    ensures ok { IfOk result (λ t. type_view t ≡ t_union (fields_view fields.now.items)
        (option_map (λ v. v.items) ids.now) is_sparse) }
    ensures err { IfErr result (λ e. e ≡ Error.Memory) }
{
    let ids = copy_ids(ids)?;
    Ok(DataType::Union(copy_fields(fields, alloc)?, ids, is_sparse))
}

#[cycle(copy)]
fn copy_dictionary(
    key: IntegerType,
    value: &DataType,
    is_sorted: bool,
    alloc: Global,
) -> Result<DataType>
    ensures ok { IfOk result (λ t. type_view t ≡ t_dictionary key (type_view value.now) is_sorted) }
    ensures err { IfErr result (λ e. e ≡ Error.Memory) }
{
    Ok(DataType::Dictionary(key, copy_inner(value, alloc)?, is_sorted))
}

#[cycle(copy)]
fn copy_extension(
    name: &String,
    inner: &DataType,
    text: &Option<String>,
    alloc: Global,
) -> Result<DataType>
    ensures ok { IfOk result (λ t. type_view t ≡ t_extension (string_bytes name.now) (type_view inner.now)
        (option_map string_bytes text.now)) }
    ensures err { IfErr result (λ e. e ≡ Error.Memory) }
{
    Ok(DataType::Extension(name.clone()?, copy_inner(inner, alloc)?, text.clone()?))
}

#[cycle(copy)]
fn copy_field(field: &Field, alloc: Global) -> Result<Field>
    ensures ok { IfOk result (λ f. field_view f ≡ field_view field.now) }
    ensures err { IfErr result (λ e. e ≡ Error.Memory) }
{
    Ok(Field {
        name: field.name.clone()?,
        data_type: copy_type(&field.data_type, alloc)?,
        is_nullable: field.is_nullable,
        metadata: field.metadata.clone(alloc)?,
    })
}

#[cycle(copy)]
fn copy_fields(fields: &Vec<Field>, alloc: Global) -> Result<Vec<Field>>
    ensures ok { IfOk result (λ v. fields_view v.items ≡ fields_view fields.now.items) }
    ensures err { IfErr result (λ e. e ≡ Error.Memory) }
{
    let mut copies = Vec::with_capacity(alloc, fields.len())?;
    for field in fields {
        copies.push(copy_field(field, alloc)?)?;
    }
    Ok(copies)
}

fn copy_ids(ids: &Option<Vec<i32>>) -> Result<Option<Vec<i32>>>
    ensures ok { IfOk result (λ o. option_map (λ v. v.items) o ≡ option_map (λ v. v.items) ids.now) }
    ensures err { IfErr result (λ e. e ≡ Error.Memory) }
{
    let Some(ids) = ids else {
        return Ok(None);
    };
    Ok(Some(ids.clone()?))
}
