//! The plain codec.

use crate::codec::SchemaCodec;
use crate::fault::{CodecFault, Refusal};
use crate::reading::read_plain;
use crate::writing::push_schema;
use columns_core::Schema;
use std::alloc::Global;

/// How many bytes a schema may have.
const MAX_LENGTH: usize = 2_147_483_647;

/// Schemas in a plain form of their own: counts and lengths in four bytes, sizes in eight, the lowest first; a text
/// behind its length; a truth value as 0 or 1; a type as its tag and its parts. Each schema has one spelling.
#[derive(Clone, Copy, Debug, PartialEq, Eq)]
pub struct PlainCodec;

impl SchemaCodec for PlainCodec {
    ghost use Rattle.schema_codec.specs.Spelling.{plain_bytes};
    ghost use Rattle.schema_codec.specs.Reading.{plain_reads};
    ghost use Rattle.schema_codec.specs.Proved.Whole.{plain_again, plain_nests};

    ghost bytes_of = { λ _ s. plain_bytes s };

    ghost reads = { λ _ bytes. plain_reads bytes };

    ghost read_again = { λ _. plain_again };

    ghost shallow = { λ _. plain_nests };

    fn encode(&self, alloc: Global, schema: &Schema) -> Result<Vec<u8>, CodecFault> {
        let mut bytes = Vec::new(alloc);
        push_schema(&mut bytes, schema)?;
        if bytes.len() > MAX_LENGTH {
            return Err(CodecFault::TooLarge);
        }
        Ok(bytes)
    }

    fn decode(&self, alloc: Global, bytes: &[u8]) -> Result<Option<Schema>, CodecFault> {
        match read_plain(alloc, bytes) {
            Ok(schema) => Ok(Some(schema)),
            Err(Refusal::Unreadable) => Ok(None),
            Err(Refusal::Memory) => Err(CodecFault::Memory),
        }
    }
}
