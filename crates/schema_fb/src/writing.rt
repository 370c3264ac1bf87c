//! Writing a schema.

ghost use Rattle.std.specs.Prelude.{◌≡◌, ◌≤◌, ◌<◌, ◌++◌, ◌∷◌, [], length, IfOk, Err};
ghost use Rattle.columns_core.specs.View.{schema_view};
ghost use Rattle.schema_codec.specs.Ranges.{max_length};
ghost use Rattle.schema_codec.specs.Spelling.{plain_bytes};
ghost use Rattle.schema_codec.specs.declared.fault.CodecFault.TheVariants.{TooLarge};
ghost use Rattle.schema_fb.specs.Tables.{message_bytes, flat_bytes};

use crate::expressible::is_expressible;
use crate::pushing::{push_count, push_object};
use crate::size::front;
use crate::tables::message;
use columns_core::Schema;
use schema_codec::{CodecFault, PlainCodec, SchemaCodec};
use std::alloc::Global;

/// How many bytes a schema may have.
const MAX_LENGTH: usize = 2_147_483_647;

/// The bytes, if they are not too many.
fn within_limit(bytes: Vec<u8>) -> Result<Vec<u8>, CodecFault>
    ensures ok { IfOk result (λ v. v.items ≡ bytes.items) }
    ensures small { IfOk result (λ v. length v.items ≤ max_length) }
    ensures large { result ≡ Err TooLarge → max_length < length bytes.items }
{
    if bytes.len() > MAX_LENGTH {
        return Err(CodecFault::TooLarge);
    }
    Ok(bytes)
}

/// The offset of the message, four zero bytes, the message.
fn write_message(alloc: Global, schema: &Schema) -> Result<Vec<u8>, CodecFault>
    ensures ok { IfOk result (λ v. v.items ≡ message_bytes (schema_view schema.now)) }
    ensures small { IfOk result (λ v. length v.items ≤ max_length) }
    ensures large { result ≡ Err TooLarge → max_length < length (message_bytes (schema_view schema.now)) }
{
    let object = message(alloc, schema)?;
    let mut bytes = Vec::new(alloc);
    push_count(&mut bytes, front(&object).wrapping_add(8))?;
    bytes.extend_from_slice(&[0, 0, 0, 0])?;
    push_object(&mut bytes, &object)?;
    within_limit(bytes)
}

/// Four zero bytes and the plain codec's bytes.
fn write_plain(alloc: Global, schema: &Schema) -> Result<Vec<u8>, CodecFault>
    ensures ok { IfOk result (λ v. v.items ≡ (0 ∷ 0 ∷ 0 ∷ 0 ∷ []) ++ plain_bytes (schema_view schema.now)) }
    ensures small { IfOk result (λ v. length v.items ≤ max_length) }
    ensures large { result ≡ Err TooLarge → max_length
        < length ((0 ∷ 0 ∷ 0 ∷ 0 ∷ []) ++ plain_bytes (schema_view schema.now)) }
{
    match PlainCodec.encode(alloc, schema) {
        Ok(plain) => behind_zeros(alloc, plain.as_slice()),
        Err(fault) => Err(fault),
    }
}

fn behind_zeros(alloc: Global, plain: &[u8]) -> Result<Vec<u8>, CodecFault>
    ensures ok { IfOk result (λ v. v.items ≡ (0 ∷ 0 ∷ 0 ∷ 0 ∷ []) ++ plain.now) }
    ensures small { IfOk result (λ v. length v.items ≤ max_length) }
    ensures large { result ≡ Err TooLarge → max_length < length ((0 ∷ 0 ∷ 0 ∷ 0 ∷ []) ++ plain.now) }
{
    let mut bytes = Vec::new(alloc);
    bytes.extend_from_slice(&[0, 0, 0, 0])?;
    bytes.extend_from_slice(plain)?;
    within_limit(bytes)
}

/// The bytes of the schema: a message where that expresses it, else four zero bytes and the plain codec's bytes.
///
/// # Errors
///
/// - `TooLarge`: they are more than 2^31 - 1.
/// - `Memory`: memory ran out.
#[tactic(auto, unfolding(crate::specs::Tables::flat_bytes))]
pub fn write_flat(alloc: Global, schema: &Schema) -> Result<Vec<u8>, CodecFault>
    ensures ok { IfOk result (λ v. v.items ≡ flat_bytes (schema_view schema.now)) }
    ensures small { IfOk result (λ v. length v.items ≤ max_length) }
    ensures large { result ≡ Err TooLarge → max_length < length (flat_bytes (schema_view schema.now)) }
{
    if is_expressible(schema) {
        write_message(alloc, schema)
    } else {
        write_plain(alloc, schema)
    }
}
