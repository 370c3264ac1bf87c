//! Metadata as objects, and where an extension stands in it.

ghost use Rattle.std.specs.Prelude.{◌≡◌, IfOk, OnOk, string_bytes, option_map};
ghost use Rattle.columns_core.specs.View.{type_view};
ghost use Rattle.columns_core.specs.Meta.{Meta, with_text};
ghost use Rattle.schema_fb.specs.Extensions.{holds_key, carried, name_key, with_optional};
ghost use Rattle.schema_fb.specs.Tables.{key_value, key_values, custom_metadata};
ghost use Rattle.schema_fb.specs.Views.{cell_view, object_view, objects_view};

use crate::object::{Cell, Object, two};
use columns_core::{DataType, Metadata};
use std::alloc::{AllocError, Global};

/// The key under which a field's metadata has the name of its extension (Arrow columnar format, "Extension Types").
pub const NAME_KEY: &str = "ARROW:extension:name";

/// The key under which a field's metadata has the text of its extension.
pub const METADATA_KEY: &str = "ARROW:extension:metadata";

/// Whether metadata has an entry that tells of an extension.
pub fn holds_key(metadata: &Metadata) -> bool
    ensures { result ≡ holds_key metadata.now }
{
    metadata.get(NAME_KEY).is_some() || metadata.get(METADATA_KEY).is_some()
}

fn key_value<'a>(alloc: Global, key: &'a str, text: &'a str) -> Result<Object<'a>, AllocError>
    ensures { IfOk result (λ o. object_view o ≡ key_value (key.now, text.now)) }
{
    let cells = two(
        alloc,
        Cell::Below(Object::Text(key)),
        Cell::Below(Object::Text(text)),
    )?;
    Ok(Object::Table(cells))
}

fn owned_key_value<'a>(alloc: Global, key: &String, text: &String) -> Result<Object<'a>, AllocError>
    ensures { IfOk result (λ o. object_view o ≡ key_value (string_bytes key.now, string_bytes text.now)) }
{
    let key = Object::Owned(key.clone()?);
    let text = Object::Owned(text.clone()?);
    Ok(Object::Table(two(alloc, Cell::Below(key), Cell::Below(text))?))
}

fn key_values(alloc: Global, metadata: &Metadata) -> Result<Vec<Object<'_>>, AllocError>
    ensures { IfOk result (λ v. objects_view v.items ≡ key_values metadata.now) }
{
    let mut entries = Vec::new(alloc);
    for (key, text) in metadata.iter() {
        entries.push(key_value(alloc, key.as_str(), text.as_str())?)?;
    }
    Ok(entries)
}

/// Entries that do not borrow from the metadata.
fn owned_key_values<'a>(alloc: Global, metadata: &Metadata) -> Result<Vec<Object<'a>>, AllocError>
    ensures { IfOk result (λ v. objects_view v.items ≡ key_values metadata.now) }
{
    let mut entries = Vec::new(alloc);
    for (key, text) in metadata.iter() {
        entries.push(owned_key_value(alloc, key, text)?)?;
    }
    Ok(entries)
}

/// The vector of the entries, nothing where there is none.
fn vector_cell<'a>(entries: Vec<Object<'a>>) -> Cell<'a>
    ensures { (m : Meta) → objects_view entries.entry.items ≡ key_values m → cell_view result ≡ custom_metadata m }
{
    if entries.is_empty() {
        return Cell::Absent;
    }
    Cell::Below(Object::Vector(entries))
}

/// The vector of the metadata's entries, nothing where there is none.
pub fn custom_metadata(alloc: Global, metadata: &Metadata) -> Result<Cell<'_>, AllocError>
    ensures { IfOk result (λ c. cell_view c ≡ custom_metadata metadata.now) }
{
    let entries = key_values(alloc, metadata)?;
    Ok(vector_cell(entries))
}

/// Puts copies of a key and a text into the metadata.
fn put(alloc: Global, metadata: &mut Metadata, key: &str, text: &String) -> Result<(), AllocError>
    ensures { OnOk result (metadata.new ≡ with_text key.now (string_bytes text.now) metadata.old) }
{
    let key = String::from_str(alloc, key)?;
    match metadata.insert(key, text.clone()?) {
        Ok(_) => Ok(()),
        Err(_) => Err(AllocError),
    }
}

/// The metadata with the entries of an extension.
fn with_extension(
    alloc: Global,
    name: &String,
    text: &Option<String>,
    metadata: &Metadata,
) -> Result<Metadata, AllocError>
    ensures { IfOk result (λ m. m ≡ with_optional (option_map string_bytes text.now)
        (with_text name_key (string_bytes name.now) metadata.now)) }
{
    let Ok(mut entries) = metadata.clone(alloc) else {
        return Err(AllocError);
    };
    put(alloc, &mut entries, NAME_KEY, name)?;
    if let Some(text) = text {
        put(alloc, &mut entries, METADATA_KEY, text)?;
    }
    Ok(entries)
}

/// The metadata of a field of this type: with the entries of its extension, where it is one.
pub fn carried_metadata<'a>(
    alloc: Global,
    data_type: &DataType,
    metadata: &'a Metadata,
) -> Result<Cell<'a>, AllocError>
    ensures { IfOk result (λ c. cell_view c ≡ custom_metadata (carried (type_view data_type.now) metadata.now)) }
{
    match data_type {
        DataType::Extension(name, _, text) => {
            let all = with_extension(alloc, name, text, metadata)?;
            let entries = owned_key_values(alloc, &all)?;
            Ok(vector_cell(entries))
        }
        _ => custom_metadata(alloc, metadata),
    }
}
