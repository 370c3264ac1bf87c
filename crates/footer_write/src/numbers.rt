//! Whether the 32-bit fields of a footer hold the numbers of a schema.
ghost use Rattle.std.specs.Prelude.{◌≡◌, ◌<◌, ◌^◌, ◌↔◌, IsTrue, option_map};
ghost use Rattle.pq_tree.specs.TreeViews.{leaf_view, tree_view, trees_view, schema_view};
ghost use Rattle.pq_tree.specs.Views.{physical_view, converted_view, logical_view};
ghost use Rattle.footer_write.specs.Fits.{IsSmall, ConvertedFits, LogicalFits, PhysicalFits, TreeFits, TreesFit};

use pq_tree::{
    ConvertedType, LogicalType, ParquetType, PhysicalType, PrimitiveType, SchemaDescriptor,
};

/// The greatest number of 32 bits.
const MAX_NUMBER: usize = 2_147_483_647;

fn is_small(number: usize) -> bool
    ensures { IsTrue result ↔ IsSmall number }
{
    number <= MAX_NUMBER
}

fn converted_fits(converted_type: Option<ConvertedType>) -> bool
    ensures { IsTrue result ↔ ConvertedFits (option_map converted_view converted_type) }
{
    match converted_type {
        Some(ConvertedType::Decimal(precision, scale)) => is_small(precision) && is_small(scale),
        _ => true,
    }
}

fn logical_fits(logical_type: Option<LogicalType>) -> bool
    ensures { IsTrue result ↔ LogicalFits (option_map logical_view logical_type) }
{
    match logical_type {
        Some(LogicalType::Decimal(precision, scale)) => is_small(precision) && is_small(scale),
        _ => true,
    }
}

fn physical_fits(physical_type: PhysicalType) -> bool
    ensures { IsTrue result ↔ PhysicalFits (physical_view physical_type) }
{
    match physical_type {
        PhysicalType::FixedLenByteArray(length) => is_small(length),
        _ => true,
    }
}

fn leaf_fits(leaf: &PrimitiveType) -> bool
    ensures { IsTrue result ↔ TreeFits (leaf_view leaf.now) }
{
    converted_fits(leaf.converted_type)
        && logical_fits(leaf.logical_type)
        && physical_fits(leaf.physical_type)
}

#[cycle(fits)]
fn tree_fits(tree: &ParquetType) -> bool
    ensures { IsTrue result ↔ TreeFits (tree_view tree.now) }
{
    match tree {
        ParquetType::PrimitiveType(leaf) => leaf_fits(leaf),
        ParquetType::GroupType {
            logical_type,
            fields,
            ..
        } => logical_fits(*logical_type) && trees_fit(fields),
    }
}

#[cycle(fits)]
fn trees_fit(trees: &[ParquetType]) -> bool
    ensures { IsTrue result ↔ TreesFit (trees_view trees.now) }
{
    for tree in trees {
        if !tree_fits(tree) {
            return false;
        }
    }
    true
}

/// Whether each number of the schema that is written passes no 32-bit field (Parquet format,
/// `SchemaElement` and `DecimalType`): fixed lengths, precisions and scales.
pub fn numbers_fit(schema: &SchemaDescriptor) -> bool
    ensures { IsTrue result ↔ TreesFit (schema_view schema.now).fields }
{
    trees_fit(schema.fields())
}
