//! The bytes of each type there and back, and damaged bytes of each kind.
use columns_core::{DataType, Field, Metadata, Schema};
use schema_codec::{PlainCodec, SchemaCodec};
use std::alloc::Global;
use std::test::Fail;

type TestResult = Result<(), Fail>;

// The bytes of each type, by its tag. Where it holds a field, that is `x`, not nullable, of 32-bit numbers.
const TYPES: &[&[u8]] = &[
    &[0],
    &[1],
    &[2],
    &[3],
    &[4],
    &[5],
    &[6],
    &[7],
    &[8],
    &[9],
    &[10],
    &[11],
    &[12],
    &[13, 0, 0],
    &[13, 3, 1, 3, 0, 0, 0, b'U', b'T', b'C'],
    &[14],
    &[15],
    &[16, 1],
    &[17, 2],
    &[18, 3],
    &[19, 2],
    &[20],
    &[21, 3, 0, 0, 0, 0, 0, 0, 128],
    &[22],
    &[23],
    &[24],
    &[25, 1, 0, 0, 0, b'x', 0, 4, 0, 0, 0, 0],
    &[
        26, 1, 0, 0, 0, b'x', 0, 4, 0, 0, 0, 0, 2, 0, 0, 0, 0, 0, 0, 0,
    ],
    &[27, 1, 0, 0, 0, b'x', 0, 4, 0, 0, 0, 0],
    &[28, 0, 0, 0, 0],
    &[28, 1, 0, 0, 0, 1, 0, 0, 0, b'x', 0, 4, 0, 0, 0, 0],
    &[29, 0, 0, 0, 0, 0, 1],
    &[
        29, 1, 0, 0, 0, 1, 0, 0, 0, b'x', 0, 4, 0, 0, 0, 0, 1, 1, 0, 0, 0, 254, 255, 255, 255, 0,
    ],
    &[30, 1, 0, 0, 0, b'x', 0, 4, 0, 0, 0, 0, 1],
    &[31, 7, 23, 0],
    &[32, 38, 0, 0, 0, 0, 0, 0, 0, 9, 0, 0, 0, 0, 0, 0, 0],
    &[33, 76, 0, 0, 0, 0, 0, 0, 0, 9, 0, 0, 0, 0, 0, 0, 0],
    &[34, 2, 0, 0, 0, 195, 169, 28, 0, 0, 0, 0, 0],
    &[34, 0, 0, 0, 0, 31, 0, 0, 1, 1, 1, 0, 0, 0, b'm'],
];

// Bytes of types that spell none: a number without meaning, a truth value that is no byte of 0 or 1, a text that is no
// UTF-8 or is cut, a count past the end.
const NO_TYPES: &[&[u8]] = &[
    &[35],
    &[255],
    &[13, 4, 0],
    &[16, 4],
    &[19, 3],
    &[31, 8, 23, 0],
    &[31, 7, 23, 2],
    &[34, 1, 0, 0, 0, 255, 0, 0],
    &[34, 255, 255, 255, 255, 0, 0],
    &[28, 255, 255, 255, 255],
];

// A schema of one nullable field `a` of this type.
fn schema_of(alloc: Global, type_bytes: &[u8]) -> Result<Vec<u8>, Fail> {
    let mut bytes = Vec::new(alloc);
    bytes.extend_from_slice(&[1, 0, 0, 0, 1, 0, 0, 0, b'a', 1])?;
    bytes.extend_from_slice(type_bytes)?;
    bytes.extend_from_slice(&[0; 8])?;
    Ok(bytes)
}

fn is_written_as_read(alloc: Global, type_bytes: &[u8]) -> Result<bool, Fail> {
    let bytes = schema_of(alloc, type_bytes)?;
    match PlainCodec.decode(alloc, &bytes)? {
        Some(schema) => Ok(PlainCodec.encode(alloc, &schema)?.as_slice() == bytes.as_slice()),
        None => Ok(false),
    }
}

#[test]
fn each_type_is_written_as_it_was_read(rt: HostRuntime) -> TestResult {
    for type_bytes in TYPES {
        assert!(rt; is_written_as_read(rt.alloc(), type_bytes)?);
    }
    Ok(())
}

fn is_read(alloc: Global, type_bytes: &[u8]) -> Result<bool, Fail> {
    let bytes = schema_of(alloc, type_bytes)?;
    Ok(PlainCodec.decode(alloc, &bytes)?.is_some())
}

#[test]
fn damaged_bytes_are_no_schema(rt: HostRuntime) -> TestResult {
    for type_bytes in NO_TYPES {
        assert!(rt; !is_read(rt.alloc(), type_bytes)?);
    }
    Ok(())
}

// One field `a` of numbers, whose metadata has the value `v` under the key `k`.
fn keyed_numbers(alloc: Global) -> Result<Schema, Fail> {
    let mut metadata = Metadata::new(alloc);
    metadata.insert(String::from_str(alloc, "k")?, String::from_str(alloc, "v")?)?;
    let field = Field {
        name: String::from_str(alloc, "a")?,
        data_type: DataType::Int32,
        is_nullable: true,
        metadata,
    };
    Ok(Schema {
        fields: vec![in alloc; field]?,
        metadata: Metadata::new(alloc),
    })
}

#[test]
fn a_schema_has_these_bytes(rt: HostRuntime) -> TestResult {
    let schema = keyed_numbers(rt.alloc())?;
    let bytes = PlainCodec.encode(rt.alloc(), &schema)?;
    let wanted: &[u8] = &[
        1, 0, 0, 0, 1, 0, 0, 0, b'a', 1, 4, 1, 0, 0, 0, 1, 0, 0, 0, b'k', 1, 0, 0, 0, b'v', 0, 0,
        0, 0,
    ];
    assert!(rt; bytes.as_slice() == wanted);
    Ok(())
}
