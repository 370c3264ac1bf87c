//! The codec of Arrow's own messages.

use crate::message::read_flat;
use crate::writing::write_flat;
use columns_core::Schema;
use schema_codec::{CodecFault, Refusal, SchemaCodec};
use std::alloc::Global;

/// Schemas as Arrow's own FlatBuffers messages (Arrow IPC format, Message.fbs and Schema.fbs), as other writers put them under the key
/// `ARROW:schema`. A schema that a message does not express has four zero bytes and the plain codec's bytes: one with an extension or a
/// dictionary where its field has no place for it, with a key of extensions in a field's own metadata, or with a size past 2^31 - 1.
#[derive(Clone, Copy, Debug, PartialEq, Eq)]
pub struct FlatCodec;

impl SchemaCodec for FlatCodec {
    ghost use Rattle.schema_fb.specs.Tables.{flat_bytes};
    ghost use Rattle.schema_fb.specs.Reading.{flat_reads};
    ghost use Rattle.schema_fb.specs.Proved.Whole.{flat_again, flat_nests};

    ghost bytes_of = { λ _ s. flat_bytes s };

    ghost reads = { λ _ bytes. flat_reads bytes };

    ghost read_again = { λ _. flat_again };

    ghost shallow = { λ _. flat_nests };

    fn encode(&self, alloc: Global, schema: &Schema) -> Result<Vec<u8>, CodecFault> {
        write_flat(alloc, schema)
    }

    fn decode(&self, alloc: Global, bytes: &[u8]) -> Result<Option<Schema>, CodecFault> {
        match read_flat(alloc, bytes) {
            Ok(schema) => Ok(Some(schema)),
            Err(Refusal::Unreadable) => Ok(None),
            Err(Refusal::Memory) => Err(CodecFault::Memory),
        }
    }
}
