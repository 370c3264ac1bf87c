//! A schema as the tables of a message.

ghost use Rattle.std.specs.Prelude.{◌≡◌, ◌+◌, IfOk, string_bytes, option_map};
ghost use Rattle.columns_core.specs.View.{type_view, field_view, fields_view, schema_view};
ghost use Rattle.schema_fb.specs.Layout.{number, below, text};
ghost use Rattle.schema_fb.specs.Tables.{one, two, three, only, truth, optional_text, optional_numbers};
ghost use Rattle.schema_fb.specs.Tables.{integer, type_cells, encoding, next_id, children, field_object, fields_objects};
ghost use Rattle.schema_fb.specs.Tables.{dictionaries, fields_dictionaries, schema_object, message};
ghost use Rattle.schema_fb.specs.Tags.{width, is_signed};
ghost use Rattle.schema_fb.specs.Views.{cell_view, cells_view, object_view, objects_view};

use crate::entries::{carried_metadata, custom_metadata};
use crate::object::{Cell, Object, one, three, two};
use crate::tag::number_of_tag;
use columns_core::{DataType, Field, IntegerType, Schema};
use schema_codec::{number_of_interval_unit, number_of_unit};
use std::alloc::{AllocError, Global};

fn truth<'a>(b: bool) -> Cell<'a>
    ensures { cell_view result ≡ truth b }
{
    Cell::Number(if b { 1 } else { 0 })
}

fn optional_text(text: &Option<String>) -> Cell<'_>
    ensures { cell_view result ≡ optional_text (option_map string_bytes text.now) }
{
    match text {
        None => Cell::Absent,
        Some(text) => Cell::Below(Object::Text(text.as_str())),
    }
}

fn optional_numbers(ids: &Option<Vec<i32>>) -> Cell<'_>
    ensures { cell_view result ≡ optional_numbers (option_map (λ v. v.items) ids.now) }
{
    match ids {
        None => Cell::Absent,
        Some(ids) => Cell::Below(Object::Numbers(ids.as_slice())),
    }
}

/// How many bits a whole number has.
fn width(key: IntegerType) -> u64
    ensures { result ≡ width key }
{
    match key {
        IntegerType::Int8 | IntegerType::UInt8 => 8,
        IntegerType::Int16 | IntegerType::UInt16 => 16,
        IntegerType::Int32 | IntegerType::UInt32 => 32,
        IntegerType::Int64 | IntegerType::UInt64 => 64,
    }
}

fn is_signed(key: IntegerType) -> bool
    ensures { result ≡ is_signed key }
{
    match key {
        IntegerType::Int8 | IntegerType::Int16 | IntegerType::Int32 | IntegerType::Int64 => true,
        _ => false,
    }
}

fn integer<'a>(alloc: Global, key: IntegerType) -> Result<Vec<Cell<'a>>, AllocError>
    ensures { IfOk result (λ v. cells_view v.items ≡ integer key) }
{
    two(alloc, Cell::Number(width(key)), truth(is_signed(key)))
}

fn number<'a>(alloc: Global, n: u64) -> Result<Vec<Cell<'a>>, AllocError>
    ensures { IfOk result (λ v. cells_view v.items ≡ one (number n)) }
{
    one(alloc, Cell::Number(n))
}

fn numbers<'a>(alloc: Global, m: u64, n: u64) -> Result<Vec<Cell<'a>>, AllocError>
    ensures { IfOk result (λ v. cells_view v.items ≡ two (number m) (number n)) }
{
    two(alloc, Cell::Number(m), Cell::Number(n))
}

fn decimal<'a>(
    alloc: Global,
    precision: usize,
    scale: usize,
    bits: u64,
) -> Result<Vec<Cell<'a>>, AllocError>
    ensures { IfOk result (λ v. cells_view v.items ≡ three (number precision) (number scale) (number bits)) }
{
    three(
        alloc,
        Cell::Number(precision as u64),
        Cell::Number(scale as u64),
        Cell::Number(bits),
    )
}

/// The slots of a type's table; a dictionary has those of its values, and an extension those of the type within.
fn type_cells(alloc: Global, data_type: &DataType) -> Result<Vec<Cell<'_>>, AllocError>
    ensures { IfOk result (λ v. cells_view v.items ≡ type_cells (type_view data_type.now)) }
{
    match data_type {
        DataType::Int8 => integer(alloc, IntegerType::Int8),
        DataType::Int16 => integer(alloc, IntegerType::Int16),
        DataType::Int32 => integer(alloc, IntegerType::Int32),
        DataType::Int64 => integer(alloc, IntegerType::Int64),
        DataType::UInt8 => integer(alloc, IntegerType::UInt8),
        DataType::UInt16 => integer(alloc, IntegerType::UInt16),
        DataType::UInt32 => integer(alloc, IntegerType::UInt32),
        DataType::UInt64 => integer(alloc, IntegerType::UInt64),
        DataType::Float16 | DataType::Date32 => number(alloc, 0),
        DataType::Float32 | DataType::Date64 => number(alloc, 1),
        DataType::Float64 => number(alloc, 2),
        DataType::Decimal(precision, scale) => decimal(alloc, *precision, *scale, 128),
        DataType::Decimal256(precision, scale) => decimal(alloc, *precision, *scale, 256),
        DataType::Time32(unit) => numbers(alloc, number_of_unit(*unit) as u64, 32),
        DataType::Time64(unit) => numbers(alloc, number_of_unit(*unit) as u64, 64),
        DataType::Timestamp(unit, zone) => {
            two(
                alloc,
                Cell::Number(number_of_unit(*unit) as u64),
                optional_text(zone),
            )
        }
        DataType::Interval(unit) => number(alloc, number_of_interval_unit(*unit) as u64),
        DataType::Duration(unit) => number(alloc, number_of_unit(*unit) as u64),
        DataType::Union(_, ids, is_sparse) => {
            two(alloc, truth(!*is_sparse), optional_numbers(ids))
        }
        DataType::FixedSizeBinary(size) => number(alloc, *size as u64),
        DataType::FixedSizeList(_, size) => number(alloc, *size as u64),
        DataType::Map(_, is_sorted) => one(alloc, truth(*is_sorted)),
        DataType::Dictionary(_, value, _) => type_cells(alloc, value),
        DataType::Extension(_, inner, _) => type_cells(alloc, inner),
        _ => Ok(Vec::new(alloc)),
    }
}

/// The number of dictionaries in a type, if it is below 2^64. There is no memory for so many.
#[cycle(dictionaries)]
fn dictionaries(data_type: &DataType) -> Result<u64, AllocError>
    ensures { IfOk result (λ n. n ≡ dictionaries (type_view data_type.now)) }
{
    match data_type {
        DataType::List(item) => dictionaries(&item.data_type),
        DataType::FixedSizeList(item, _) => dictionaries(&item.data_type),
        DataType::LargeList(item) => dictionaries(&item.data_type),
        DataType::Struct(fields) => fields_dictionaries(fields),
        DataType::Union(fields, _, _) => fields_dictionaries(fields),
        DataType::Map(entry, _) => dictionaries(&entry.data_type),
        DataType::Dictionary(_, value, _) => plus(dictionaries(value)?, 1),
        DataType::Extension(_, inner, _) => dictionaries(inner),
        _ => Ok(0),
    }
}

/// A sum, if it is below 2^64.
fn plus(m: u64, n: u64) -> Result<u64, AllocError>
    ensures { IfOk result (λ k. k ≡ m + n) }
{
    m.checked_add(n).ok_or(AllocError)
}

#[cycle(dictionaries)]
fn fields_dictionaries(fields: &Vec<Field>) -> Result<u64, AllocError>
    ensures { IfOk result (λ n. n ≡ fields_dictionaries (fields_view fields.now.items)) }
{
    let mut total = 0;
    for field in fields {
        total = plus(total, dictionaries(&field.data_type)?)?;
    }
    Ok(total)
}

/// DictionaryEncoding, where the type is a dictionary or an extension over one.
fn encoding(alloc: Global, id: u64, data_type: &DataType) -> Result<Cell<'_>, AllocError>
    ensures { IfOk result (λ c. cell_view c ≡ encoding id (type_view data_type.now)) }
{
    match data_type {
        DataType::Dictionary(key, _, is_sorted) => {
            let index = Cell::Below(Object::Table(integer(alloc, *key)?));
            let cells = three(alloc, Cell::Number(id), index, truth(*is_sorted))?;
            Ok(Cell::Below(Object::Table(cells)))
        }
        DataType::Extension(_, inner, _) => encoding(alloc, id, inner),
        _ => Ok(Cell::Absent),
    }
}

/// The id after a type's own dictionary.
fn next_id(id: u64, data_type: &DataType) -> Result<u64, AllocError>
    ensures { IfOk result (λ n. n ≡ next_id id (type_view data_type.now)) }
{
    match data_type {
        DataType::Dictionary(_, _, _) => plus(id, 1),
        DataType::Extension(_, inner, _) => next_id(id, inner),
        _ => Ok(id),
    }
}

fn only<'a>(alloc: Global, object: Object<'a>) -> Result<Vec<Object<'a>>, AllocError>
    ensures { IfOk result (λ v. objects_view v.items ≡ only (object_view object.entry)) }
{
    let mut objects = Vec::new(alloc);
    objects.push(object)?;
    Ok(objects)
}

/// The field within a type.
#[cycle(fields)]
fn only_child(alloc: Global, id: u64, field: &Field) -> Result<Vec<Object<'_>>, AllocError>
    ensures { IfOk result (λ v. objects_view v.items ≡ only (field_object id (field_view field.now))) }
{
    only(alloc, field_object(alloc, id, field)?)
}

/// The fields within a type, where the first dictionary in them has the id.
#[cycle(fields)]
fn children(alloc: Global, id: u64, data_type: &DataType) -> Result<Vec<Object<'_>>, AllocError>
    ensures { IfOk result (λ v. objects_view v.items ≡ children id (type_view data_type.now)) }
{
    match data_type {
        DataType::List(item) => only_child(alloc, id, item),
        DataType::FixedSizeList(item, _) => only_child(alloc, id, item),
        DataType::LargeList(item) => only_child(alloc, id, item),
        DataType::Struct(fields) => fields_objects(alloc, id, fields),
        DataType::Union(fields, _, _) => fields_objects(alloc, id, fields),
        DataType::Map(entry, _) => only_child(alloc, id, entry),
        DataType::Dictionary(_, value, _) => children(alloc, id, value),
        DataType::Extension(_, inner, _) => children(alloc, id, inner),
        _ => Ok(Vec::new(alloc)),
    }
}

/// Name, nullable, type tag, type, dictionary, children, custom_metadata.
#[cycle(fields)]
fn field_object(alloc: Global, id: u64, field: &Field) -> Result<Object<'_>, AllocError>
    ensures { IfOk result (λ o. object_view o ≡ field_object id (field_view field.now)) }
{
    let data_type = &field.data_type;
    let within = children(alloc, next_id(id, data_type)?, data_type)?;
    let tag = number_of_tag(data_type);
    let mut cells = named(alloc, field.name.as_str(), field.is_nullable, tag)?;
    cells.push(Cell::Below(Object::Table(type_cells(alloc, data_type)?)))?;
    cells.push(encoding(alloc, id, data_type)?)?;
    cells.push(Cell::Below(Object::Vector(within)))?;
    cells.push(carried_metadata(alloc, data_type, &field.metadata)?)?;
    Ok(Object::Table(cells))
}

/// The first three slots of a field.
fn named<'a>(
    alloc: Global,
    name: &'a str,
    is_nullable: bool,
    tag: u8,
) -> Result<Vec<Cell<'a>>, AllocError>
    ensures { IfOk result (λ v. cells_view v.items ≡ three (below (text name.now)) (truth is_nullable) (number tag)) }
{
    let tag = Cell::Number(tag as u64);
    three(
        alloc,
        Cell::Below(Object::Text(name)),
        truth(is_nullable),
        tag,
    )
}

#[cycle(fields)]
fn fields_objects(
    alloc: Global,
    id: u64,
    fields: &Vec<Field>,
) -> Result<Vec<Object<'_>>, AllocError>
    ensures { IfOk result (λ v. objects_view v.items ≡ fields_objects id (fields_view fields.now.items)) }
{
    let mut id = id;
    let mut objects = Vec::new(alloc);
    for field in fields {
        objects.push(field_object(alloc, id, field)?)?;
        id = plus(id, dictionaries(&field.data_type)?)?;
    }
    Ok(objects)
}

/// Endianness, fields, custom_metadata.
fn schema_object(alloc: Global, schema: &Schema) -> Result<Object<'_>, AllocError>
    ensures { IfOk result (λ o. object_view o ≡ schema_object (schema_view schema.now)) }
{
    let fields = Cell::Below(Object::Vector(fields_objects(alloc, 0, &schema.fields)?));
    let metadata = custom_metadata(alloc, &schema.metadata)?;
    Ok(Object::Table(three(alloc, Cell::Absent, fields, metadata)?))
}

/// Version 4, the header's type 1, the header, bodyLength.
pub fn message(alloc: Global, schema: &Schema) -> Result<Object<'_>, AllocError>
    ensures { IfOk result (λ o. object_view o ≡ message (schema_view schema.now)) }
{
    let header = Cell::Below(schema_object(alloc, schema)?);
    let mut cells = three(alloc, Cell::Number(4), Cell::Number(1), header)?;
    cells.push(Cell::Absent)?;
    Ok(Object::Table(cells))
}
