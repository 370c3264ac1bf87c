//! Attaching a schema to a file's pairs.

ghost use Rattle.std.specs.Prelude.{◌≡◌, ◌≤◌, ◌<◌, ◌⊎◌, ◌++◌, ◌∷◌, [], length, Some, option_map, map, string_bytes, IfOk, OnOk, IfErr};
ghost use Rattle.columns_base.specs.declared.error.Error.TheVariants.{Memory, Overflow};
ghost use Rattle.columns_base.specs.declared.error.V.TheVariants.{V3};
ghost use Rattle.columns_core.specs.View.{schema_view};
ghost use Rattle.pq_tree.specs.Views.{key_view};
ghost use Rattle.schema_codec.specs.Ranges.{max_length};
ghost use Rattle.schema_key.specs.Key.{message, value_of, schema_entry, keys_in};
ghost use Rattle.schema_key.specs.Laws.{IsDecodable};

use base64::engine::general_purpose::STANDARD;
use columns_base::{Error, Result, V};
use columns_core::Schema;
use pq_tree::KeyValue;
use schema_codec::{CodecFault, SchemaCodec};
use std::alloc::Global;

/// Under this key a file carries its Arrow schema.
pub const SCHEMA_KEY: &str = "ARROW:schema";

/// The mark and the length in front of the bytes (Arrow IPC format, "Encapsulated message format").
fn message_of(alloc: Global, bytes: &[u8]) -> Result<Vec<u8>>
    requires { length bytes.now ≤ max_length }
    ensures ok { IfOk result (λ v. v.items ≡ message bytes.now) }
    ensures err { IfErr result (λ e. e ≡ Memory) }
{
    let mut text = Vec::with_capacity(alloc, bytes.len() + 8)?;
    text.extend_from_slice(&[255; 4])?;
    text.extend_from_slice(&(bytes.len() as u32).to_le_bytes())?;
    text.extend_from_slice(bytes)?;
    Ok(text)
}

/// The base64 of the bytes behind their mark and length.
#[tactic(auto, unfolding(crate::specs::Key::value_of, crate::specs::Key::decoded))]
fn value_text(alloc: Global, bytes: &[u8]) -> Result<String>
    requires { length bytes.now ≤ max_length }
    ensures ok { IfOk result (λ t. string_bytes t ≡ value_of bytes.now) }
    ensures decodable { OnOk result (IsDecodable bytes.now) }
    ensures err { IfErr result (λ e. e ≡ Memory) }
{
    let text = message_of(alloc, bytes)?;
    Ok(STANDARD.encode(alloc, &text)?)
}

/// The pair by which a file carries the schema: the key `ARROW:schema`, and base64 of `ff ff ff ff`, of the length in
/// four bytes and of the schema's bytes.
///
/// # Errors
///
/// - `Overflow(V3)`: the schema's bytes are more than 2^31 - 1.
/// - `Memory`: memory ran out.
pub fn schema_to_metadata_key<C: SchemaCodec>(
    alloc: Global,
    schema: &Schema,
    codec: &C,
) -> Result<KeyValue>
    ensures ok { IfOk result (λ k. key_view k ≡ schema_entry (C.bytes_of codec.now (schema_view schema.now))) }
    ensures small { OnOk result (length (C.bytes_of codec.now (schema_view schema.now)) ≤ max_length) }
    ensures decodable { OnOk result (IsDecodable (C.bytes_of codec.now (schema_view schema.now))) }
    ensures err { IfErr result (λ e. (e ≡ Memory) ⊎ ((e ≡ Overflow V3)
        × (max_length < length (C.bytes_of codec.now (schema_view schema.now))))) }
{
    let bytes = match codec.encode(alloc, schema) {
        Ok(bytes) => bytes,
        Err(CodecFault::TooLarge) => return Err(Error::Overflow(V::V3)),
        Err(CodecFault::Memory) => return Err(Error::Memory),
    };
    let value = value_text(alloc, &bytes)?;
    let key = String::from_str(alloc, SCHEMA_KEY)?;
    Ok(KeyValue {
        key,
        value: Some(value),
    })
}

/// The pairs, and behind them the one that carries the schema. It is always `Some`. On a refusal the pairs are dropped.
///
/// # Errors
///
/// - `Overflow(V3)`: the schema's bytes are more than 2^31 - 1.
/// - `Memory`: memory ran out.
pub fn add_arrow_schema<C: SchemaCodec>(
    alloc: Global,
    schema: &Schema,
    key_value_metadata: Option<Vec<KeyValue>>,
    codec: &C,
) -> Result<Option<Vec<KeyValue>>>
    ensures ok { IfOk result (λ o. option_map (λ v. map key_view v.items) o
        ≡ Some (keys_in key_value_metadata ++ schema_entry (C.bytes_of codec.now (schema_view schema.now)) ∷ [])) }
    ensures small { OnOk result (length (C.bytes_of codec.now (schema_view schema.now)) ≤ max_length) }
    ensures decodable { OnOk result (IsDecodable (C.bytes_of codec.now (schema_view schema.now))) }
    ensures err { IfErr result (λ e. (e ≡ Memory) ⊎ ((e ≡ Overflow V3)
        × (max_length < length (C.bytes_of codec.now (schema_view schema.now))))) }
{
    let mut entries = match key_value_metadata {
        Some(entries) => entries,
        None => Vec::new(alloc),
    };
    let entry = schema_to_metadata_key(alloc, schema, codec)?;
    entries.push(entry)?;
    Ok(Some(entries))
}
