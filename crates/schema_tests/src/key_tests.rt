//! The worked value both ways, and which pair counts.
use columns_core::{DataType, Error, Field, Metadata, N, PhysicalType, Schema};
use pq_tree::{
    FieldInfo, FileMetaData, KeyValue, ParquetType, PrimitiveType, Repetition, SchemaDescriptor,
};
use schema_codec::PlainCodec;
use schema_key::{
    KeyRule, add_arrow_schema, infer_schema, read_schema_from_metadata, schema_to_metadata_key,
};
use schema_to_tree::to_parquet_schema;
use std::alloc::Global;
use std::test::Fail;

type TestResult = Result<(), Fail>;

// One nullable field `a` of 32-bit numbers.
const VALUE: &str = "/////xMAAAABAAAAAQAAAGEBBAAAAAAAAAAA";

fn numbers_a(alloc: Global) -> Result<Schema, Fail> {
    let field = Field {
        name: String::from_str(alloc, "a")?,
        data_type: DataType::Int32,
        is_nullable: true,
        metadata: Metadata::new(alloc),
    };
    Ok(Schema {
        fields: vec![in alloc; field]?,
        metadata: Metadata::new(alloc),
    })
}

fn is_pair(pair: &KeyValue, key: &str, value: &str) -> bool {
    match &pair.value {
        Some(found) => pair.key.as_str() == key && found.as_str() == value,
        None => false,
    }
}

// A file without rows of the schema, with these pairs.
fn file_of(
    alloc: Global,
    schema: &Schema,
    pairs: Option<Vec<KeyValue>>,
) -> Result<FileMetaData, Fail> {
    Ok(FileMetaData {
        schema_descr: to_parquet_schema(alloc, schema)?,
        row_groups: Vec::new(alloc),
        key_value_metadata: pairs,
    })
}

#[test]
fn a_schema_has_this_value(rt: HostRuntime) -> TestResult {
    let schema = numbers_a(rt.alloc())?;
    let entry = schema_to_metadata_key(rt.alloc(), &schema, &PlainCodec)?;
    assert!(rt; is_pair(&entry, "ARROW:schema", VALUE));
    Ok(())
}

// Whether the schema that was attached to a file is inferred of it, and of its tree alone the same.
fn is_inferred(alloc: Global, rule: KeyRule) -> Result<bool, Fail> {
    let schema = numbers_a(alloc)?;
    let pairs = add_arrow_schema(alloc, &schema, None, &PlainCodec)?;
    let file = file_of(alloc, &schema, pairs)?;
    Ok(infer_schema(alloc, &file, rule, &PlainCodec)? == schema)
}

#[test]
fn an_attached_schema_is_inferred(rt: HostRuntime) -> TestResult {
    assert!(rt; is_inferred(rt.alloc(), KeyRule::Use)?);
    assert!(rt; is_inferred(rt.alloc(), KeyRule::Ignore)?);
    Ok(())
}

#[test]
fn a_key_is_read(rt: HostRuntime) -> TestResult {
    let alloc = rt.alloc();
    let mut metadata = Metadata::new(alloc);
    let key = String::from_str(alloc, "ARROW:schema")?;
    metadata.insert(key, String::from_str(alloc, VALUE)?)?;
    let schema = read_schema_from_metadata(alloc, &mut metadata, &PlainCodec)?;
    assert!(rt; schema == Some(numbers_a(alloc)?));
    Ok(())
}

fn repeated(alloc: Global) -> FieldInfo {
    FieldInfo {
        name: String::new(alloc),
        repetition: Repetition::Repeated,
        id: None,
    }
}

// A leaf, and so many groups around it, all of them repeated.
fn deep_tree(alloc: Global, groups: usize) -> Result<ParquetType, Fail> {
    let mut tree = ParquetType::PrimitiveType(PrimitiveType {
        field_info: repeated(alloc),
        logical_type: None,
        converted_type: None,
        physical_type: PhysicalType::Int32,
    });
    for _ in 0..groups {
        tree = ParquetType::GroupType {
            field_info: repeated(alloc),
            logical_type: None,
            converted_type: None,
            fields: vec![in alloc; tree]?,
        };
    }
    Ok(tree)
}

// Why no schema is inferred of such a tree.
fn deep_refusal(alloc: Global, groups: usize) -> Result<Option<Error>, Fail> {
    let fields = vec![in alloc; deep_tree(alloc, groups)?]?;
    let file = FileMetaData {
        schema_descr: SchemaDescriptor::new(alloc, String::new(alloc), fields)?,
        row_groups: Vec::new(alloc),
        key_value_metadata: None,
    };
    match infer_schema(alloc, &file, KeyRule::Use, &PlainCodec) {
        Ok(_) => Ok(None),
        Err(error) => Ok(Some(error)),
    }
}

// A repeated node is a list and its item: 64 of them nest 128, and 65 nest 130.
#[test]
fn deep_types_are_refused(rt: HostRuntime) -> TestResult {
    assert!(rt; deep_refusal(rt.alloc(), 63)?.is_none());
    assert!(rt; deep_refusal(rt.alloc(), 64)? == Some(Error::NotYetImplemented(N::N7)));
    Ok(())
}
