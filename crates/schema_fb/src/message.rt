//! A schema from its message.

ghost use Rattle.std.specs.Prelude.{◌≡◌, map};
ghost use Rattle.columns_core.specs.View.{field_view, schema_view};
ghost use Rattle.schema_codec.specs.Parse.{Gives};
ghost use Rattle.schema_codec.specs.Reading.{plain_reads};
ghost use Rattle.schema_fb.specs.Reading.{shallow_schema, schema_in, message_at, flat_reads};

use crate::fields::fields_in;
use crate::meta::metadata_in;
use crate::places::{Table, byte_in, short_in, table_at, table_in, word_at};
use columns_core::{Field, Metadata, Schema};
use schema_codec::{CodecFault, PlainCodec, Refusal, SchemaCodec};
use std::alloc::Global;

/// How deep a type may nest, itself counted.
const MAX_NESTING: u8 = 128;

/// The schema with these fields and this metadata, if its types do not nest deeper.
fn shallow_schema(fields: Vec<Field>, metadata: Metadata) -> Result<Schema, Refusal>
    ensures { Gives schema_view result (shallow_schema (map field_view fields.items) metadata) }
{
    let schema = Schema { fields, metadata };
    if schema.nests_within(usize::from(MAX_NESTING)) {
        Ok(schema)
    } else {
        Err(Refusal::Unreadable)
    }
}

/// A schema from its table. Fields, key values and bytes of texts are at most 16 times as many as there are bytes.
#[tactic(auto, unfolding(crate::specs::Reading::schema_in))]
fn schema_in(alloc: Global, bytes: &[u8], table: &Table) -> Result<Schema, Refusal>
    ensures { Gives schema_view result (schema_in bytes.now table.now) }
{
    let endianness = short_in(bytes, table, 0, 0)?;
    if endianness != 0 {
        return Err(Refusal::Unreadable);
    }
    let left = 16 * (bytes.len() as u128);
    let (fields, rest) = fields_in(alloc, bytes, table, 1, left, MAX_NESTING)?;
    let (metadata, _) = metadata_in(alloc, bytes, table, 2, rest)?;
    shallow_schema(fields, metadata)
}

/// The schema of the message at a place.
#[tactic(auto, unfolding(crate::specs::Reading::message_at))]
fn message_at(alloc: Global, bytes: &[u8], place: usize) -> Result<Schema, Refusal>
    ensures { Gives schema_view result (message_at bytes.now place) }
{
    let message = table_at(bytes, place)?;
    let kind = byte_in(bytes, &message, 1, 0)?;
    let header = table_in(bytes, &message, 2)?;
    if kind != 1 {
        return Err(Refusal::Unreadable);
    }
    schema_in(alloc, bytes, &header)
}

/// The schema that bytes of the plain codec spell.
fn read_plain(alloc: Global, bytes: &[u8]) -> Result<Schema, Refusal>
    ensures { Gives schema_view result (plain_reads bytes.now) }
{
    match PlainCodec.decode(alloc, bytes) {
        Ok(Some(schema)) => Ok(schema),
        Ok(None) => Err(Refusal::Unreadable),
        Err(_) => Err(Refusal::Memory),
    }
}

/// The schema that the bytes of a message, or behind four zero bytes those of the plain codec, tell.
#[tactic(auto, unfolding(crate::specs::Reading::flat_reads))]
pub fn read_flat(alloc: Global, bytes: &[u8]) -> Result<Schema, Refusal>
    ensures { Gives schema_view result (flat_reads bytes.now) }
{
    let offset = word_at(bytes, 0)?;
    if offset == 0 {
        return read_plain(alloc, &bytes[4..]);
    }
    message_at(alloc, bytes, offset as usize)
}
