//! Whether a footer says that the file, or a part of it, is encrypted.
ghost use Rattle.std.specs.Prelude.{◌≡◌, ◌⊎◌, IsTrue, MatchBool, option_map};
ghost use Rattle.std.specs.Option.{option_copied};
ghost use Rattle.pq_thrift.specs.Value.{view, values_view, fields_view};
ghost use Rattle.pq_metadata.specs.Encrypted.{AnyValue, Any, HasId, IsEncryptedChunk, HasEncryptedChunk, SaysEncrypted};

use crate::fields::last_with;
use crate::kinds::{as_list, as_struct};
use pq_thrift::Thrift;

fn has_id(value: &Thrift, id: u8) -> bool
    ensures { MatchBool result (HasId id (view value.now)) (¬ HasId id (view value.now)) }
{
    match as_struct(value) {
        Some(fields) => last_with(fields, id).is_some(),
        None => false,
    }
}

fn is_encrypted_chunk(value: &Thrift) -> bool
    ensures { MatchBool result (IsEncryptedChunk (view value.now)) (¬ IsEncryptedChunk (view value.now)) }
{
    has_id(value, 8) || has_id(value, 9)
}

fn any_chunk(values: &[Thrift]) -> bool
    ensures { MatchBool result (AnyValue IsEncryptedChunk (values_view values.now))
        (¬ AnyValue IsEncryptedChunk (values_view values.now)) }
{
    for value in values {
        if is_encrypted_chunk(value) {
            return true;
        }
    }
    false
}

fn has_encrypted_chunk(group: &Thrift) -> bool
    ensures { MatchBool result (HasEncryptedChunk (view group.now)) (¬ HasEncryptedChunk (view group.now)) }
{
    let Some(fields) = as_struct(group) else {
        return false;
    };
    let Some(columns) = last_with(fields, 1) else {
        return false;
    };
    match as_list(columns) {
        Some(values) => any_chunk(values),
        None => false,
    }
}

fn any_group(values: &[Thrift]) -> bool
    ensures { MatchBool result (AnyValue HasEncryptedChunk (values_view values.now))
        (¬ AnyValue HasEncryptedChunk (values_view values.now)) }
{
    for value in values {
        if has_encrypted_chunk(value) {
            return true;
        }
    }
    false
}

/// Whether the footer says that it, or a column of it, is encrypted.
pub fn says_encrypted(footer: &Thrift) -> bool
    ensures { MatchBool result (SaysEncrypted (view footer.now)) (¬ SaysEncrypted (view footer.now)) }
{
    let Some(fields) = as_struct(footer) else {
        return false;
    };
    if last_with(fields, 8).is_some() {
        return true;
    }
    let Some(groups) = last_with(fields, 4) else {
        return false;
    };
    match as_list(groups) {
        Some(values) => any_group(values),
        None => false,
    }
}
