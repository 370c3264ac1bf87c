//! The schema of a file.

ghost use Rattle.std.specs.Prelude.{◌≡◌, ◌≤◌, ◌<◌, ◌⊎◌, [], Some, None, option_map, option_copied, map, string_bytes, IfOk, IfSome, OnOk, IfErr};
ghost use Rattle.columns_base.specs.declared.error.Error.TheVariants.{Memory, InvalidArgumentError, NotYetImplemented};
ghost use Rattle.columns_base.specs.declared.error.A.TheVariants.{A2};
ghost use Rattle.columns_base.specs.declared.error.N.TheVariants.{N7};
ghost use Rattle.columns_core.specs.Measures.{fields_nesting};
ghost use Rattle.columns_core.specs.Meta.{text_at, without_key};
ghost use Rattle.columns_core.specs.View.{SchemaTree, schema_view, fields_of};
ghost use Rattle.pq_tree.specs.TreeViews.{trees_view};
ghost use Rattle.pq_tree.specs.Views.{key_view};
ghost use Rattle.schema_codec.specs.Ranges.{max_nesting};
ghost use Rattle.schema_from_tree.specs.FromTree.{arrow_fields};
ghost use Rattle.schema_key.specs.Inferred.{with_value, counting, gathered, inferred};
ghost use Rattle.schema_key.specs.Key.{schema_key, keys_in, unframed, decoded, schema_in, schema_under};

use crate::attach::SCHEMA_KEY;
use base64::DecodeAllocError;
use base64::engine::general_purpose::STANDARD;
use columns_base::{A, Error, N, Result};
use columns_core::{MAX_NESTING, Metadata, Schema, all_nest_within};
use pq_tree::{FileMetaData, KeyValue};
use schema_codec::SchemaCodec;
use schema_from_tree::parquet_to_arrow_schema;
use std::alloc::Global;

/// Whether the schema that a file carries under its key is used.
#[derive(Clone, Copy, Debug, PartialEq, Eq)]
pub enum KeyRule {
    /// It is used where the key is there.
    Use,
    /// It is not: the schema follows from the file's tree.
    Ignore,
}

/// The bytes behind the mark and the length, where the mark stands.
#[tactic(auto, unfolding(crate::specs::Key::unframed))]
fn without_frame(bytes: &[u8]) -> Option<&[u8]>
    ensures { option_copied result ≡ unframed bytes.now }
{
    if bytes.len() < 4 {
        return None;
    }
    if bytes[0] == 255 && bytes[1] == 255 && bytes[2] == 255 && bytes[3] == 255 {
        if bytes.len() < 8 {
            return None;
        }
        return Some(&bytes[8..]);
    }
    Some(bytes)
}

/// The bytes of a base64 text.
#[tactic(auto, unfolding(crate::specs::Key::decoded))]
fn bytes_of_text(alloc: Global, text: &str) -> Result<Vec<u8>>
    ensures ok { IfOk result (λ v. decoded text.now ≡ Some v.items) }
    ensures err { IfErr result (λ e. (e ≡ Memory) ⊎ ((e ≡ InvalidArgumentError A2) × (decoded text.now ≡ None))) }
{
    match STANDARD.decode(alloc, text.as_bytes()) {
        Ok(bytes) => Ok(bytes),
        Err(DecodeAllocError::DecodeError(_)) => Err(Error::InvalidArgumentError(A::A2)),
        Err(DecodeAllocError::OutOfMemory) => Err(Error::Memory),
    }
}

/// The schema that the bytes spell.
fn schema_of_bytes<C: SchemaCodec>(alloc: Global, bytes: &[u8], codec: &C) -> Result<Schema>
    ensures ok { IfOk result (λ s. C.reads codec.now bytes.now ≡ Some (schema_view s)) }
    ensures shallow { IfOk result (λ s. fields_nesting (schema_view s).fields ≤ max_nesting) }
    ensures err { IfErr result (λ e. (e ≡ Memory) ⊎ ((e ≡ InvalidArgumentError A2)
        × (C.reads codec.now bytes.now ≡ None))) }
{
    match codec.decode(alloc, bytes) {
        Ok(Some(schema)) => Ok(schema),
        Ok(None) => Err(Error::InvalidArgumentError(A::A2)),
        Err(_) => Err(Error::Memory),
    }
}

/// The schema that a text under the key stands for.
fn schema_from_text<C: SchemaCodec>(alloc: Global, text: &str, codec: &C) -> Result<Schema>
    ensures ok { IfOk result (λ s. schema_in (C.reads codec.now) text.now ≡ Some (schema_view s)) }
    ensures shallow { IfOk result (λ s. fields_nesting (schema_view s).fields ≤ max_nesting) }
    ensures err { IfErr result (λ e. (e ≡ Memory) ⊎ ((e ≡ InvalidArgumentError A2)
        × (schema_in (C.reads codec.now) text.now ≡ None))) }
{
    let framed = bytes_of_text(alloc, text)?;
    let Some(bytes) = without_frame(&framed) else {
        return Err(Error::InvalidArgumentError(A::A2));
    };
    schema_of_bytes(alloc, bytes, codec)
}

/// Takes the key `ARROW:schema` out, and gives the schema that its text stands for, or `None` where the key is absent.
/// The key is taken out also where the text is then refused.
///
/// # Errors
///
/// - `InvalidArgumentError(A2)`: the text is not base64, or has fewer than 4 bytes, or fewer than 8 that begin with
///   `ff ff ff ff`, or what is behind these is no schema of the codec.
/// - `Memory`: memory ran out.
pub fn read_schema_from_metadata<C: SchemaCodec>(
    alloc: Global,
    metadata: &mut Metadata,
    codec: &C,
) -> Result<Option<Schema>>
    ensures taken { metadata.new ≡ without_key schema_key metadata.old }
    ensures ok { IfOk result (λ o. schema_under (C.reads codec.now) (text_at schema_key metadata.old)
        ≡ Some (option_map schema_view o)) }
    ensures shallow { IfOk result (λ o. IfSome o (λ s. fields_nesting (schema_view s).fields ≤ max_nesting)) }
    ensures err { IfErr result (λ e. (e ≡ Memory) ⊎ ((e ≡ InvalidArgumentError A2)
        × (schema_under (C.reads codec.now) (text_at schema_key metadata.old) ≡ None))) }
{
    let Some(text) = metadata.remove(SCHEMA_KEY) else {
        return Ok(None);
    };
    match schema_from_text(alloc, text.as_str(), codec) {
        Ok(schema) => Ok(Some(schema)),
        Err(error) => Err(error),
    }
}

/// The key taken out, and its schema where the rule uses it.
fn schema_by_rule<C: SchemaCodec>(
    alloc: Global,
    metadata: &mut Metadata,
    rule: KeyRule,
    codec: &C,
) -> Result<Option<Schema>>
    ensures taken { metadata.new ≡ without_key schema_key metadata.old }
    ensures ok { IfOk result (λ o. schema_under (C.reads codec.now) (counting rule metadata.old)
        ≡ Some (option_map schema_view o)) }
    ensures shallow { IfOk result (λ o. IfSome o (λ s. fields_nesting (schema_view s).fields ≤ max_nesting)) }
    ensures err { IfErr result (λ e. (e ≡ Memory) ⊎ ((e ≡ InvalidArgumentError A2)
        × (schema_under (C.reads codec.now) (counting rule metadata.old) ≡ None))) }
{
    match rule {
        KeyRule::Use => read_schema_from_metadata(alloc, metadata, codec),
        KeyRule::Ignore => {
            let _text = metadata.remove(SCHEMA_KEY);
            Ok(None)
        }
    }
}

fn put(metadata: &mut Metadata, entry: &KeyValue) -> Result<()>
    ensures ok { OnOk result (metadata.new ≡ with_value metadata.old (key_view entry.now).key
        (key_view entry.now).«value») }
    ensures err { IfErr result (λ e. e ≡ Memory) }
{
    let Some(value) = &entry.value else {
        return Ok(());
    };
    metadata.insert(entry.key.clone()?, value.clone()?)?;
    Ok(())
}

/// The pairs with a value, of which the last of a key counts.
fn gather(alloc: Global, entries: &[KeyValue]) -> Result<Metadata>
    ensures ok { IfOk result (λ m. m ≡ gathered (map key_view entries.now)) }
    ensures err { IfErr result (λ e. e ≡ Memory) }
{
    let mut metadata = Metadata::new(alloc);
    for entry in entries {
        put(&mut metadata, entry)?;
    }
    Ok(metadata)
}

/// The pairs of a footer, none where it has no list of them.
fn gather_all(alloc: Global, entries: &Option<Vec<KeyValue>>) -> Result<Metadata>
    ensures ok { IfOk result (λ m. m ≡ gathered (keys_in entries.now)) }
    ensures err { IfErr result (λ e. e ≡ Memory) }
{
    match entries {
        Some(entries) => gather(alloc, entries),
        None => Ok(Metadata::new(alloc)),
    }
}

/// The Arrow schema of a file. Pairs without a value are passed over, and of several values of a key the last counts.
/// Under `Use`, where the key `ARROW:schema` is there, it is the schema that its value stands for. Otherwise it has the
/// fields of the file's tree, and the other pairs as its metadata.
///
/// The types that it has nest to at most 128.
///
/// # Errors
///
/// - `InvalidArgumentError(A2)`: the rule is `Use`, and the key's value stands for no schema of the codec.
/// - `NotYetImplemented(N7)`: the types that follow from the tree nest past 128. They nest no deeper than the tree, in which
///   repeated nodes count twice (`schema_from_tree::types_nest_as_trees`).
/// - `Memory`: memory ran out.
pub fn infer_schema<C: SchemaCodec>(
    alloc: Global,
    file_metadata: &FileMetaData,
    rule: KeyRule,
    codec: &C,
) -> Result<Schema>
    ensures ok { IfOk result (λ s. inferred (C.reads codec.now) rule (keys_in file_metadata.now.key_value_metadata)
        (fields_of (arrow_fields (trees_view file_metadata.now.schema_descr.fields))) ≡ Some (schema_view s)) }
    ensures shallow { IfOk result (λ s. fields_nesting (schema_view s).fields ≤ max_nesting) }
    ensures err { IfErr result (λ e. (e ≡ Memory) ⊎ ((e ≡ InvalidArgumentError A2)
        ×
        (inferred (C.reads codec.now) rule (keys_in file_metadata.now.key_value_metadata)
        (fields_of (arrow_fields (trees_view file_metadata.now.schema_descr.fields))) ≡ None))
        ⊎ ((e ≡ NotYetImplemented N7) × (s : SchemaTree) ×
        (inferred (C.reads codec.now) rule (keys_in file_metadata.now.key_value_metadata)
        (fields_of (arrow_fields (trees_view file_metadata.now.schema_descr.fields))) ≡ Some s)
        × (max_nesting < fields_nesting s.fields))) }
{
    let mut metadata = gather_all(alloc, &file_metadata.key_value_metadata)?;
    if let Some(schema) = schema_by_rule(alloc, &mut metadata, rule, codec)? {
        return Ok(schema);
    }
    let fields = parquet_to_arrow_schema(alloc, file_metadata.schema_descr.fields())?;
    if !all_nest_within(&fields, MAX_NESTING) {
        return Err(Error::NotYetImplemented(N::N7));
    }
    Ok(Schema { fields, metadata })
}
