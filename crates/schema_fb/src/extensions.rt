//! Extension types and dictionaries, which a field's table tells beside its type.

ghost use Rattle.std.specs.Prelude.{◌≡◌, Some, option_map, string_bytes};
ghost use Rattle.columns_core.specs.Tree.{t_extension, field};
ghost use Rattle.columns_core.specs.View.{type_view, field_view};
ghost use Rattle.schema_codec.specs.Parse.{Gives};
ghost use Rattle.schema_fb.specs.Reading.{key_in, keyed_in, made_field};
ghost use Rattle.schema_fb.specs.Steps.{dictionary_from};

use crate::entries::{METADATA_KEY, NAME_KEY};
use crate::leaves::{integer_in, truth_in};
use crate::places::{Table, slot, table_from};
use columns_core::{DataType, Field, IntegerType, Metadata};
use schema_codec::Refusal;
use std::alloc::Global;

/// The type of a dictionary's keys, signed numbers of 32 bits where it is absent.
#[tactic(auto, unfolding(crate::specs::Reading::key_in))]
fn key_in(bytes: &[u8], table: &Table) -> Result<IntegerType, Refusal>
    ensures { Gives (λ x. x) result (key_in bytes.now table.now) }
{
    match slot(bytes, table, 1) {
        Some(place) => {
            let key = table_from(bytes, place)?;
            integer_in(bytes, &key)
        }
        None => Ok(IntegerType::Int32),
    }
}

/// The type of a dictionary's keys, and whether its values are sorted.
fn dictionary_from(bytes: &[u8], place: usize) -> Result<(IntegerType, bool), Refusal>
    ensures { Gives (λ x. (x.0, x.1)) result (dictionary_from bytes.now place) }
{
    let table = table_from(bytes, place)?;
    let key = key_in(bytes, &table)?;
    let is_sorted = truth_in(bytes, &table, 2)?;
    Ok((key, is_sorted))
}

/// The type that a field has where this is the type of its values.
#[tactic(auto, unfolding(crate::specs::Reading::keyed_in))]
pub fn keyed_in(
    alloc: Global,
    bytes: &[u8],
    parent: &Table,
    value: DataType,
) -> Result<DataType, Refusal>
    ensures { Gives type_view result (keyed_in bytes.now parent.now (type_view value)) }
{
    match slot(bytes, parent, 4) {
        Some(place) => {
            let (key, is_sorted) = dictionary_from(bytes, place)?;
            let value = Box::new(alloc, value)?;
            Ok(DataType::Dictionary(key, value, is_sorted))
        }
        None => Ok(value),
    }
}

/// An extension over a type.
fn extension_of(
    alloc: Global,
    name: String,
    inner: DataType,
    text: Option<String>,
) -> Result<DataType, Refusal>
    ensures { Gives type_view result (Some
        (t_extension (string_bytes name) (type_view inner) (option_map string_bytes text))) }
{
    let inner = Box::new(alloc, inner)?;
    Ok(DataType::Extension(name, inner, text))
}

/// A field of these parts.
fn field_of(name: String, is_nullable: bool, data_type: DataType, metadata: Metadata) -> Field
    ensures { field_view result ≡ field (string_bytes name) (type_view data_type) is_nullable metadata }
{
    Field {
        name,
        data_type,
        is_nullable,
        metadata,
    }
}

/// The field with these parts, whose type is an extension where its metadata has the name of one.
pub fn made_field(
    alloc: Global,
    name: String,
    is_nullable: bool,
    data_type: DataType,
    mut metadata: Metadata,
) -> Result<Field, Refusal>
    ensures { Gives field_view result (Some
        (made_field (string_bytes name) is_nullable (type_view data_type) metadata)) }
{
    let Some(extension) = metadata.remove(NAME_KEY) else {
        return Ok(field_of(name, is_nullable, data_type, metadata));
    };
    let text = metadata.remove(METADATA_KEY);
    let data_type = extension_of(alloc, extension, data_type, text)?;
    Ok(field_of(name, is_nullable, data_type, metadata))
}
