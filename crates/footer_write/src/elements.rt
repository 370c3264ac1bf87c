//! The nodes of a schema as Thrift values (Parquet format, `SchemaElement`).
ghost use Rattle.std.specs.Prelude.{◌≡◌, ◌<◌, ◌≤◌, ◌^◌, ◌++◌, ◌∷◌, [], IfOk, OnOk, map, option_map, length, Some, None};
ghost use Rattle.pq_thrift.specs.Value.{int32, binary, struct, no_fields, view, values_view};
ghost use Rattle.pq_metadata.specs.Elements.{number_of_repetition};
ghost use Rattle.pq_tree.specs.Physical.{number_of_physical};
ghost use Rattle.pq_tree.specs.Tree.{preorder, preorder_of};
ghost use Rattle.pq_tree.specs.Types.{Logical};
ghost use Rattle.pq_tree.specs.TreeViews.{info_view, leaf_view, tree_view, trees_view, schema_view};
ghost use Rattle.pq_tree.specs.Views.{repetition_view, physical_view, converted_view, logical_view, unit_view, integer_view};
ghost use Rattle.pq_files.specs.Written.{empty, one, time_fields, number_of_converted, number_of_unit, logical_value, length_of, scale_of, precision_of, element_of, element_value, elements_of, at, i32 as small};
ghost use Rattle.footer_write.specs.Fits.{ConvertedFits, LogicalFits, PhysicalFits, TreeFits, TreesFit};
ghost use Rattle.footer_write.specs.Room.{tree_room, trees_room};

use crate::parts::{struct_of, text_from};
use pq_thrift::Thrift;
use pq_tree::{
    ConvertedType, FieldInfo, IntegerType, LogicalType, ParquetType, PhysicalType, PrimitiveType,
    Repetition, SchemaDescriptor, TimeUnit,
};
use std::alloc::{AllocError, Global};

fn number_from(physical_type: PhysicalType) -> i32
    ensures { int32 result ≡ small (number_of_physical (physical_view physical_type)) }
{
    match physical_type {
        PhysicalType::Boolean => 0,
        PhysicalType::Int32 => 1,
        PhysicalType::Int64 => 2,
        PhysicalType::Int96 => 3,
        PhysicalType::Float => 4,
        PhysicalType::Double => 5,
        PhysicalType::ByteArray => 6,
        PhysicalType::FixedLenByteArray(_) => 7,
    }
}

fn length_from(physical_type: PhysicalType) -> Option<Thrift>
    requires { PhysicalFits (physical_view physical_type) }
    ensures { option_map view result ≡ length_of (physical_view physical_type) }
{
    match physical_type {
        PhysicalType::FixedLenByteArray(length) => Some(Thrift::I32(length as i32)),
        _ => None,
    }
}

fn repetition_from(repetition: Repetition) -> i32
    ensures { result ≡ number_of_repetition (repetition_view repetition) }
{
    match repetition {
        Repetition::Required => 0,
        Repetition::Optional => 1,
        Repetition::Repeated => 2,
    }
}

fn converted_from(converted_type: ConvertedType) -> i32
    ensures { int32 result ≡ small (number_of_converted (converted_view converted_type)) }
{
    match converted_type {
        ConvertedType::Utf8 => 0,
        ConvertedType::Map => 1,
        ConvertedType::MapKeyValue => 2,
        ConvertedType::List => 3,
        ConvertedType::Enum => 4,
        ConvertedType::Decimal(_, _) => 5,
        ConvertedType::Date => 6,
        ConvertedType::TimeMillis => 7,
        ConvertedType::TimeMicros => 8,
        ConvertedType::TimestampMillis => 9,
        ConvertedType::TimestampMicros => 10,
        ConvertedType::Uint8 => 11,
        ConvertedType::Uint16 => 12,
        ConvertedType::Uint32 => 13,
        ConvertedType::Uint64 => 14,
        ConvertedType::Int8 => 15,
        ConvertedType::Int16 => 16,
        ConvertedType::Int32 => 17,
        ConvertedType::Int64 => 18,
        ConvertedType::Json => 19,
        ConvertedType::Bson => 20,
        ConvertedType::Interval => 21,
    }
}

fn some_converted(converted_type: Option<ConvertedType>) -> Option<Thrift>
    ensures { option_map view result ≡ option_map (λ c. small (number_of_converted c))
        (option_map converted_view converted_type) }
{
    match converted_type {
        Some(converted_type) => Some(Thrift::I32(converted_from(converted_type))),
        None => None,
    }
}

fn scale_from(converted_type: Option<ConvertedType>) -> Option<Thrift>
    requires { ConvertedFits (option_map converted_view converted_type) }
    ensures { option_map view result ≡ scale_of (option_map converted_view converted_type) }
{
    match converted_type {
        Some(ConvertedType::Decimal(_, scale)) => Some(Thrift::I32(scale as i32)),
        _ => None,
    }
}

fn precision_from(converted_type: Option<ConvertedType>) -> Option<Thrift>
    requires { ConvertedFits (option_map converted_view converted_type) }
    ensures { option_map view result ≡ precision_of (option_map converted_view converted_type) }
{
    match converted_type {
        Some(ConvertedType::Decimal(precision, _)) => Some(Thrift::I32(precision as i32)),
        _ => None,
    }
}

/// A struct with one field.
fn one_of(alloc: Global, id: u8, value: Thrift) -> Result<Thrift, AllocError>
    ensures { IfOk result (λ v. view v ≡ one id (view value)) }
{
    let fields = vec![in alloc; (i16::from(id), value)]?;
    Ok(Thrift::Struct(fields))
}

/// A member of a union that is a struct without fields.
fn empty_member(alloc: Global, id: u8) -> Result<Thrift, AllocError>
    ensures { IfOk result (λ v. view v ≡ one id empty) }
{
    one_of(alloc, id, Thrift::Struct(Vec::new(alloc)))
}

fn unit_from(unit: TimeUnit) -> u8
    ensures { result ≡ number_of_unit (unit_view unit) }
{
    match unit {
        TimeUnit::Milliseconds => 1,
        TimeUnit::Microseconds => 2,
        TimeUnit::Nanoseconds => 3,
    }
}

fn time_member(
    alloc: Global,
    id: u8,
    unit: TimeUnit,
    is_adjusted_to_utc: bool,
) -> Result<Thrift, AllocError>
    ensures { IfOk result (λ v. view v ≡ one id (time_fields is_adjusted_to_utc (unit_view unit))) }
{
    let unit = empty_member(alloc, unit_from(unit))?;
    let fields = vec![in alloc; (1, Thrift::Bool(is_adjusted_to_utc)), (2, unit)]?;
    one_of(alloc, id, Thrift::Struct(fields))
}

fn integer_member(alloc: Global, width: u8, is_signed: bool) -> Result<Thrift, AllocError>
    requires { width < 128 }
    ensures { IfOk result (λ v. view v ≡ logical_value (Logical.integer width is_signed)) }
{
    let fields = vec![in alloc; (1, Thrift::I8(width as i8)), (2, Thrift::Bool(is_signed))]?;
    one_of(alloc, 10, Thrift::Struct(fields))
}

fn integer_from(alloc: Global, integer: IntegerType) -> Result<Thrift, AllocError>
    ensures { IfOk result (λ v. view v ≡ logical_value (integer_view integer)) }
{
    match integer {
        IntegerType::Int8 => integer_member(alloc, 8, true),
        IntegerType::Int16 => integer_member(alloc, 16, true),
        IntegerType::Int32 => integer_member(alloc, 32, true),
        IntegerType::Int64 => integer_member(alloc, 64, true),
        IntegerType::UInt8 => integer_member(alloc, 8, false),
        IntegerType::UInt16 => integer_member(alloc, 16, false),
        IntegerType::UInt32 => integer_member(alloc, 32, false),
        IntegerType::UInt64 => integer_member(alloc, 64, false),
    }
}

fn decimal_member(alloc: Global, precision: usize, scale: usize) -> Result<Thrift, AllocError>
    requires precision_fits { precision < 2 ^ 31 }
    requires scale_fits { scale < 2 ^ 31 }
    ensures { IfOk result (λ v. view v ≡ logical_value (Logical.decimal precision scale)) }
{
    let fields = vec![in alloc;
        (1, Thrift::I32(scale as i32)),
        (2, Thrift::I32(precision as i32)),
    ]?;
    one_of(alloc, 5, Thrift::Struct(fields))
}

fn logical_from(alloc: Global, logical_type: LogicalType) -> Result<Thrift, AllocError>
    requires { LogicalFits (Some (logical_view logical_type)) }
    ensures { IfOk result (λ v. view v ≡ logical_value (logical_view logical_type)) }
{
    match logical_type {
        LogicalType::String => empty_member(alloc, 1),
        LogicalType::Map => empty_member(alloc, 2),
        LogicalType::List => empty_member(alloc, 3),
        LogicalType::Enum => empty_member(alloc, 4),
        LogicalType::Decimal(precision, scale) => decimal_member(alloc, precision, scale),
        LogicalType::Date => empty_member(alloc, 6),
        LogicalType::Time {
            unit,
            is_adjusted_to_utc,
        } => time_member(alloc, 7, unit, is_adjusted_to_utc),
        LogicalType::Timestamp {
            unit,
            is_adjusted_to_utc,
        } => time_member(alloc, 8, unit, is_adjusted_to_utc),
        LogicalType::Integer(integer) => integer_from(alloc, integer),
        LogicalType::Unknown => empty_member(alloc, 11),
        LogicalType::Json => empty_member(alloc, 12),
        LogicalType::Bson => empty_member(alloc, 13),
        LogicalType::Uuid => empty_member(alloc, 14),
    }
}

fn some_logical(
    alloc: Global,
    logical_type: Option<LogicalType>,
) -> Result<Option<Thrift>, AllocError>
    requires { LogicalFits (option_map logical_view logical_type) }
    ensures { IfOk result (λ v. option_map view v ≡ option_map logical_value (option_map logical_view logical_type)) }
{
    match logical_type {
        Some(logical_type) => Ok(Some(logical_from(alloc, logical_type)?)),
        None => Ok(None),
    }
}

fn leaf_element(alloc: Global, leaf: &PrimitiveType) -> Result<Thrift, AllocError>
    requires { TreeFits (leaf_view leaf.now) }
    ensures { IfOk result (λ v. view v ≡ element_of (Some (physical_view leaf.now.physical_type)) 0
        (info_view leaf.now.field_info leaf.now.converted_type leaf.now.logical_type)) }
{
    let name = text_from(alloc, leaf.field_info.name.as_str())?;
    let logical = some_logical(alloc, leaf.logical_type)?;
    let parts = vec![in alloc;
        (1, Some(Thrift::I32(number_from(leaf.physical_type)))),
        (2, length_from(leaf.physical_type)),
        (
            3,
            Some(Thrift::I32(repetition_from(leaf.field_info.repetition)))
        ),
        (4, Some(name)),
        (6, some_converted(leaf.converted_type)),
        (7, scale_from(leaf.converted_type)),
        (8, precision_from(leaf.converted_type)),
        (10, logical),
    ]?;
    struct_of(alloc, parts)
}

fn group_element(
    alloc: Global,
    info: &FieldInfo,
    logical_type: Option<LogicalType>,
    converted_type: Option<ConvertedType>,
    children: usize,
) -> Result<Thrift, AllocError>
    requires fits { LogicalFits (option_map logical_view logical_type) }
    requires few { children < 2 ^ 31 }
    ensures { IfOk result (λ v. view v ≡ element_of None children (info_view info.now converted_type logical_type)) }
{
    let name = text_from(alloc, info.name.as_str())?;
    let logical = some_logical(alloc, logical_type)?;
    let parts = vec![in alloc;
        (3, Some(Thrift::I32(repetition_from(info.repetition)))),
        (4, Some(name)),
        (5, Some(Thrift::I32(children as i32))),
        (6, some_converted(converted_type)),
        (10, logical),
    ]?;
    struct_of(alloc, parts)
}

/// Appends the nodes of the tree in preorder.
#[cycle(elements)]
fn push_tree(
    alloc: Global,
    tree: &ParquetType,
    elements: &mut Vec<Thrift>,
) -> Result<(), AllocError>
    requires fits { TreeFits (tree_view tree.now) }
    requires small { tree_room (tree_view tree.now) < 2 ^ 31 }
    ensures { OnOk result (map view elements.new.items ≡ map view elements.old.items
        ++ map element_value (preorder (tree_view tree.now))) }
{
    match tree {
        ParquetType::PrimitiveType(leaf) => {
            elements.push(leaf_element(alloc, leaf)?)?;
            Ok(())
        }
        ParquetType::GroupType {
            field_info,
            logical_type,
            converted_type,
            fields,
        } => {
            let count = fields.len();
            let group = group_element(alloc, field_info, *logical_type, *converted_type, count)?;
            elements.push(group)?;
            push_trees(alloc, fields, elements)
        }
    }
}

/// Appends the nodes of the trees in preorder.
#[cycle(elements)]
fn push_trees(
    alloc: Global,
    trees: &[ParquetType],
    elements: &mut Vec<Thrift>,
) -> Result<(), AllocError>
    requires fits { TreesFit (trees_view trees.now) }
    requires small { trees_room (trees_view trees.now) < 2 ^ 31 }
    ensures { OnOk result (map view elements.new.items ≡ map view elements.old.items
        ++ map element_value (preorder_of (trees_view trees.now))) }
{
    for tree in trees {
        push_tree(alloc, tree, elements)?;
    }
    Ok(())
}

fn root_element(alloc: Global, name: &str, children: usize) -> Result<Thrift, AllocError>
    requires { children < 2 ^ 31 }
    ensures { IfOk result (λ v. view v ≡ struct (at 4 (binary name.now) (at 5 (small children) no_fields))) }
{
    let name = text_from(alloc, name)?;
    let fields = vec![in alloc; (4, name), (5, Thrift::I32(children as i32))]?;
    Ok(Thrift::Struct(fields))
}

/// The root, and the nodes beneath it in preorder.
pub fn elements_from(alloc: Global, schema: &SchemaDescriptor) -> Result<Vec<Thrift>, AllocError>
    requires fits { TreesFit (schema_view schema.now).fields }
    requires small { trees_room (schema_view schema.now).fields < 2 ^ 31 }
    ensures { IfOk result (λ vs. values_view vs.items ≡ elements_of (schema_view schema.now)) }
{
    let fields = schema.fields();
    let mut elements = vec![in alloc; root_element(alloc, schema.name(), fields.len())?]?;
    push_trees(alloc, fields, &mut elements)?;
    Ok(elements)
}
