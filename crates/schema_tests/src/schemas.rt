//! Schemas that are written and read again, and attached to a file.
use crate::bytes::plain_schema;
use crate::messages::FOREIGN;
use columns_core::{DataType, Field, Metadata, Schema};
use pq_tree::FileMetaData;
use schema_codec::{PlainCodec, SchemaCodec};
use schema_fb::FlatCodec;
use schema_key::{KeyRule, add_arrow_schema, attached_is_inferred, infer_schema};
use schema_to_tree::to_parquet_schema;
use std::alloc::Global;
use std::test::Fail;

type TestResult = Result<(), Fail>;

// Types that a message does not express, in the plain codec's bytes.
const ELSEWHERE: &[&[u8]] = &[
    // an extension within another, and within a dictionary
    &[34, 1, 0, 0, 0, b'x', 34, 1, 0, 0, 0, b'y', 0, 0, 0],
    &[31, 2, 34, 1, 0, 0, 0, b'x', 23, 0, 0],
    &[
        34, 1, 0, 0, 0, b'x', 31, 2, 34, 1, 0, 0, 0, b'y', 23, 0, 0, 0,
    ],
    // a dictionary of dictionaries
    &[31, 2, 31, 2, 23, 0, 0],
    // a size, a precision and a scale of 2^31
    &[21, 0, 0, 0, 128, 0, 0, 0, 0],
    &[
        26, 1, 0, 0, 0, b'x', 0, 4, 0, 0, 0, 0, 0, 0, 0, 128, 0, 0, 0, 0,
    ],
    &[32, 0, 0, 0, 128, 0, 0, 0, 0, 0, 0, 0, 0, 0, 0, 0, 0],
    &[33, 1, 0, 0, 0, 0, 0, 0, 0, 0, 0, 0, 128, 0, 0, 0, 0],
    // within a list
    &[25, 1, 0, 0, 0, b'x', 0, 31, 2, 31, 2, 23, 0, 0, 0, 0, 0, 0],
];

// The near misses: sizes of 2^31 - 1, an extension over a dictionary, dictionaries within a dictionary's list.
const WITHIN: &[&[u8]] = &[
    &[21, 255, 255, 255, 127, 0, 0, 0, 0],
    &[
        32, 255, 255, 255, 127, 0, 0, 0, 0, 255, 255, 255, 127, 0, 0, 0, 0,
    ],
    &[34, 1, 0, 0, 0, b'x', 31, 2, 23, 0, 0],
    &[31, 2, 25, 1, 0, 0, 0, b'x', 0, 31, 2, 23, 0, 0, 0, 0, 0, 0],
];

// A schema of one nullable field `a` of this type.
fn schema_of(alloc: Global, type_bytes: &[u8]) -> Result<Schema, Fail> {
    let mut bytes = Vec::new(alloc);
    bytes.extend_from_slice(&[1, 0, 0, 0, 1, 0, 0, 0, b'a', 1])?;
    bytes.extend_from_slice(type_bytes)?;
    bytes.extend_from_slice(&[0; 8])?;
    match PlainCodec.decode(alloc, &bytes)? {
        Some(schema) => Ok(schema),
        None => Err(Fail::new("no schema")),
    }
}

fn is_read_again(alloc: Global, schema: &Schema) -> Result<bool, Fail> {
    let bytes = FlatCodec.encode(alloc, schema)?;
    match FlatCodec.decode(alloc, &bytes)? {
        Some(read) => Ok(read == *schema),
        None => Ok(false),
    }
}

// Whether four zero bytes and the plain codec's bytes are written.
fn is_plain(alloc: Global, schema: &Schema) -> Result<bool, Fail> {
    let bytes = FlatCodec.encode(alloc, schema)?;
    let plain = PlainCodec.encode(alloc, schema)?;
    Ok(bytes.starts_with(&[0; 4]) && bytes[4..] == plain[..])
}

#[test]
fn each_type_is_read_as_it_was_written(rt: HostRuntime) -> TestResult {
    for (_, plain) in FOREIGN {
        let schema = plain_schema(rt.alloc(), plain)?;
        assert!(rt; is_read_again(rt.alloc(), &schema)?);
        assert!(rt; !is_plain(rt.alloc(), &schema)?);
    }
    Ok(())
}

#[test]
fn what_no_message_expresses_is_plain(rt: HostRuntime) -> TestResult {
    for type_bytes in ELSEWHERE {
        let schema = schema_of(rt.alloc(), type_bytes)?;
        assert!(rt; is_plain(rt.alloc(), &schema)?);
        assert!(rt; is_read_again(rt.alloc(), &schema)?);
    }
    for type_bytes in WITHIN {
        let schema = schema_of(rt.alloc(), type_bytes)?;
        assert!(rt; !is_plain(rt.alloc(), &schema)?);
        assert!(rt; is_read_again(rt.alloc(), &schema)?);
    }
    Ok(())
}

fn field_of(alloc: Global, name: &str, data_type: DataType) -> Result<Field, Fail> {
    Ok(Field {
        name: String::from_str(alloc, name)?,
        data_type,
        is_nullable: true,
        metadata: Metadata::new(alloc),
    })
}

fn one_field(alloc: Global, field: Field) -> Result<Schema, Fail> {
    Ok(Schema {
        fields: vec![in alloc; field]?,
        metadata: Metadata::new(alloc),
    })
}

// Fields within fields, so deep that the types nest to `depth`.
fn nested(alloc: Global, depth: usize) -> Result<Schema, Fail> {
    let mut field = field_of(alloc, "leaf", DataType::Null)?;
    for _ in 1..depth {
        let list = DataType::List(Box::new(alloc, field)?);
        field = field_of(alloc, "item", list)?;
    }
    one_field(alloc, field)
}

#[test]
fn types_nest_to_128(rt: HostRuntime) -> TestResult {
    assert!(rt; is_read_again(rt.alloc(), &nested(rt.alloc(), 128)?)?);
    assert!(rt; !is_read_again(rt.alloc(), &nested(rt.alloc(), 129)?)?);
    Ok(())
}

// A field whose metadata has this key.
fn keyed(alloc: Global, key: &str) -> Result<Schema, Fail> {
    let mut field = field_of(alloc, "a", DataType::Utf8)?;
    field.metadata.insert(String::from_str(alloc, key)?, String::from_str(alloc, "v")?)?;
    one_field(alloc, field)
}

#[test]
fn metadata_with_an_extension_key_is_plain(rt: HostRuntime) -> TestResult {
    for key in ["ARROW:extension:name", "ARROW:extension:metadata"] {
        let schema = keyed(rt.alloc(), key)?;
        assert!(rt; is_plain(rt.alloc(), &schema)?);
        assert!(rt; is_read_again(rt.alloc(), &schema)?);
    }
    let schema = keyed(rt.alloc(), "ARROW:extension")?;
    assert!(rt; !is_plain(rt.alloc(), &schema)?);
    Ok(())
}

// Whether the schema that was attached to a file of another tree is inferred of it.
fn is_inferred(alloc: Global, schema: &Schema) -> Result<bool, Fail> {
    let tree = one_field(alloc, field_of(alloc, "a", DataType::Int32)?)?;
    let file = FileMetaData {
        schema_descr: to_parquet_schema(alloc, &tree)?,
        row_groups: Vec::new(alloc),
        key_value_metadata: add_arrow_schema(alloc, schema, None, &FlatCodec)?,
    };
    Ok(infer_schema(alloc, &file, KeyRule::Use, &FlatCodec)? == *schema)
}

#[test]
fn an_attached_schema_is_inferred(rt: HostRuntime) -> TestResult {
    attached_is_inferred(&FlatCodec);
    for (_, plain) in FOREIGN {
        let schema = plain_schema(rt.alloc(), plain)?;
        assert!(rt; is_inferred(rt.alloc(), &schema)?);
    }
    Ok(())
}
