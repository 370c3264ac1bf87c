//! A struct of a number and a list, through each call in turn.
ghost use Rattle.std.specs.Prelude.{◌≡◌, IfOk};
ghost use Rattle.columns_core.specs.Measures.{field_nesting};
ghost use Rattle.columns_core.specs.View.{field_view};

use columns_core::{DataType, Field, Metadata, Schema};
use pq_tree::{FieldInfo, ParquetType, Repetition};
use schema_fit::{agrees, fits};
use schema_from_tree::{parquet_to_arrow_schema, to_data_type};
use schema_to_tree::{n_columns, to_parquet_schema, to_parquet_type, transverse};
use std::alloc::Global;
use std::test::Fail;

type TestResult = Result<(), Fail>;

// An optional struct of a required number and an optional list of optional numbers.
fn points(alloc: Global) -> Result<Field, Fail>
    ensures { IfOk result (λ f. field_nesting (field_view f) ≡ 3) }
{
    let item = Field {
        name: String::from_str(alloc, "item")?,
        data_type: DataType::Int32,
        is_nullable: true,
        metadata: Metadata::new(alloc),
    };
    let list = Field {
        name: String::from_str(alloc, "ys")?,
        data_type: DataType::List(Box::new(alloc, item)?),
        is_nullable: true,
        metadata: Metadata::new(alloc),
    };
    let number = Field {
        name: String::from_str(alloc, "x")?,
        data_type: DataType::Int64,
        is_nullable: false,
        metadata: Metadata::new(alloc),
    };
    Ok(Field {
        name: String::from_str(alloc, "p")?,
        data_type: DataType::Struct(vec![in alloc; number, list]?),
        is_nullable: true,
        metadata: Metadata::new(alloc),
    })
}

fn mark(info: &FieldInfo) -> &'static str {
    match info.repetition {
        Repetition::Required => "!",
        Repetition::Optional => "?",
        Repetition::Repeated => "*",
    }
}

// The nodes' names behind their repetitions, children in braces.
#[cycle(outline)]
fn push_outline(text: &mut String, tree: &ParquetType) -> TestResult {
    match tree {
        ParquetType::PrimitiveType(leaf) => { write_name(text, &leaf.field_info) }
        ParquetType::GroupType {
            field_info,
            fields,
            ..
        } => {
            write_name(text, field_info)?;
            text.push_str("{")?;
            push_outlines(text, fields)?;
            text.push_str("}")?;
            Ok(())
        }
    }
}

#[cycle(outline)]
fn push_outlines(text: &mut String, trees: &[ParquetType]) -> TestResult {
    for tree in trees {
        push_outline(text, tree)?;
    }
    Ok(())
}

fn write_name(text: &mut String, info: &FieldInfo) -> TestResult {
    text.push_str(mark(info))?;
    text.push_str(&info.name)?;
    Ok(())
}

// As the format states three-level lists.
#[test]
fn a_field_has_this_tree(rt: HostRuntime) -> TestResult {
    let alloc = rt.alloc();
    let tree = to_parquet_type(alloc, &points(alloc)?)?;
    let mut text = String::new(alloc);
    push_outline(&mut text, &tree)?;
    assert!(rt; text.as_str() == "?p{!x?ys{*list{?item}}}");
    Ok(())
}

fn goes_both_ways(alloc: Global) -> Result<bool, Fail> {
    let schema = Schema {
        fields: vec![in alloc; points(alloc)?]?,
        metadata: Metadata::new(alloc),
    };
    let written = to_parquet_schema(alloc, &schema)?;
    Ok(parquet_to_arrow_schema(alloc, written.fields())? == schema.fields)
}

#[test]
fn a_schema_follows_from_its_tree(rt: HostRuntime) -> TestResult {
    assert!(rt; goes_both_ways(rt.alloc())?);
    Ok(())
}

fn fits_its_tree(alloc: Global) -> Result<bool, Fail> {
    let point = points(alloc)?;
    let tree = to_parquet_type(alloc, &point)?;
    let told = to_data_type(alloc, &tree)?;
    Ok(fits(&point, &tree) && agrees(&point, &tree) && told == Some(point.data_type))
}

#[test]
fn a_field_fits_its_tree(rt: HostRuntime) -> TestResult {
    assert!(rt; fits_its_tree(rt.alloc())?);
    Ok(())
}

fn has_two_leaves(alloc: Global) -> Result<bool, Fail> {
    let point = points(alloc)?;
    let are_long = transverse(alloc, &point.data_type, |leaf: &DataType| {
        matches!(leaf, DataType::Int64)
    })?;
    Ok(n_columns(&point.data_type)? == 2 && are_long.as_slice() == &[true, false][..])
}

#[test]
fn leaves_are_given_in_order(rt: HostRuntime) -> TestResult {
    assert!(rt; has_two_leaves(rt.alloc())?);
    Ok(())
}
