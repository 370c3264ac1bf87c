//! Bytes and schemas from base64.
use base64::engine::general_purpose::STANDARD;
use columns_core::Schema;
use schema_codec::{PlainCodec, SchemaCodec};
use std::alloc::Global;
use std::test::Fail;

/// The bytes that base64 spells.
pub fn unspelled(alloc: Global, text: &str) -> Result<Vec<u8>, Fail> {
    Ok(STANDARD.decode(alloc, text.as_bytes())?)
}

/// The schema of plain bytes in base64.
pub fn plain_schema(alloc: Global, text: &str) -> Result<Schema, Fail> {
    let bytes = unspelled(alloc, text)?;
    match PlainCodec.decode(alloc, &bytes)? {
        Some(schema) => Ok(schema),
        None => Err(Fail::new("no schema")),
    }
}
