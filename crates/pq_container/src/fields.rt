//! The fields of a struct, by their ids.
ghost use Rattle.std.specs.Prelude.{◌≡◌, ◌≢◌, ℕ, List, IfOk, IfSome, OnErr, Some, option_map, IsUtf8, OnOk};
ghost use Rattle.std.specs.Option.{option_copied};
ghost use Rattle.pq_thrift.specs.Value.{int16, int32, int64, binary, list, struct, view, values_view, field_view, fields_view};
ghost use Rattle.pq_metadata.specs.Ids.{get, is_number, last_field, Holds};
ghost use Rattle.pq_tree.specs.Reads.{HasNone};
ghost use Rattle.pq_metadata.specs.Kinds.{HasList, HoldsText, HasText};

use crate::kinds::{as_binary, as_i16, as_i32, as_i64, as_list, as_struct};
use crate::misfit::Misfit;
use pq_thrift::Thrift;

fn is_id(number: &i16, id: u8) -> bool
    ensures { result ≡ is_number number.now id }
{
    *number == i16::from(id)
}

/// The last field with the id, since the last one counts.
pub fn last_with(fields: &[(i16, Thrift)], id: u8) -> Option<&Thrift>
    ensures { option_map view (option_copied result) ≡ get id (fields_view fields.now) }
{
    let mut found = None;
    for (number, value) in fields {
        if is_id(number, id) {
            found = Some(value);
        }
    }
    found
}

/// The last field of all, as a union has one.
pub fn last_member(fields: &[(i16, Thrift)]) -> Option<&(i16, Thrift)>
    ensures { option_map field_view (option_copied result) ≡ last_field (fields_view fields.now) }
{
    fields.last()
}

/// The number in the last field with the id, if there is one.
pub fn optional_i16(fields: &[(i16, Thrift)], id: u8) -> Result<Option<i16>, Misfit>
    ensures found { IfOk result (Holds int16 id (fields_view fields.now)) }
    ensures refused { OnErr result (HasNone (Holds int16 id (fields_view fields.now))) }
{
    let Some(value) = last_with(fields, id) else {
        return Ok(None);
    };
    match as_i16(value) {
        Some(number) => Ok(Some(number)),
        None => Err(Misfit),
    }
}

/// The number in the last field with the id, if there is one.
pub fn optional_i32(fields: &[(i16, Thrift)], id: u8) -> Result<Option<i32>, Misfit>
    ensures found { IfOk result (Holds int32 id (fields_view fields.now)) }
    ensures refused { OnErr result (HasNone (Holds int32 id (fields_view fields.now))) }
{
    let Some(value) = last_with(fields, id) else {
        return Ok(None);
    };
    match as_i32(value) {
        Some(number) => Ok(Some(number)),
        None => Err(Misfit),
    }
}

/// The number in the last field with the id, if there is one.
pub fn optional_i64(fields: &[(i16, Thrift)], id: u8) -> Result<Option<i64>, Misfit>
    ensures found { IfOk result (Holds int64 id (fields_view fields.now)) }
    ensures refused { OnErr result (HasNone (Holds int64 id (fields_view fields.now))) }
{
    let Some(value) = last_with(fields, id) else {
        return Ok(None);
    };
    match as_i64(value) {
        Some(number) => Ok(Some(number)),
        None => Err(Misfit),
    }
}

/// The number in the last field with the id.
pub fn needed_i32(fields: &[(i16, Thrift)], id: u8) -> Result<i32, Misfit>
    ensures found { IfOk result (λ z. get id (fields_view fields.now) ≡ Some (int32 z)) }
    ensures refused { OnErr result (HasNone (λ z. get id (fields_view fields.now) ≡ Some (int32 z))) }
{
    let Some(value) = last_with(fields, id) else {
        return Err(Misfit);
    };
    match as_i32(value) {
        Some(number) => Ok(number),
        None => Err(Misfit),
    }
}

/// The number in the last field with the id.
pub fn needed_i64(fields: &[(i16, Thrift)], id: u8) -> Result<i64, Misfit>
    ensures found { IfOk result (λ z. get id (fields_view fields.now) ≡ Some (int64 z)) }
    ensures refused { OnErr result (HasNone (λ z. get id (fields_view fields.now) ≡ Some (int64 z))) }
{
    let Some(value) = last_with(fields, id) else {
        return Err(Misfit);
    };
    match as_i64(value) {
        Some(number) => Ok(number),
        None => Err(Misfit),
    }
}

/// The bytes in the last field with the id, if there are some.
pub fn optional_binary(fields: &[(i16, Thrift)], id: u8) -> Result<Option<&[u8]>, Misfit>
    ensures found { IfOk result (λ o. Holds binary id (fields_view fields.now) (option_copied o)) }
    ensures refused { OnErr result (HasNone (Holds binary id (fields_view fields.now))) }
{
    let Some(value) = last_with(fields, id) else {
        return Ok(None);
    };
    match as_binary(value) {
        Some(bytes) => Ok(Some(bytes)),
        None => Err(Misfit),
    }
}

/// That there is no field with the id.
pub fn check_absent(fields: &[(i16, Thrift)], id: u8) -> Result<(), Misfit>
    ensures found { OnOk result (get id (fields_view fields.now) ≡ None) }
    ensures refused { OnErr result (get id (fields_view fields.now) ≢ None) }
{
    match last_with(fields, id) {
        None => Ok(()),
        Some(_) => Err(Misfit),
    }
}

/// The struct in the last field with the id, if there is one.
pub fn optional_struct(fields: &[(i16, Thrift)], id: u8) -> Result<Option<&[(i16, Thrift)]>, Misfit>
    ensures found { IfOk result (λ o. Holds struct id (fields_view fields.now)
        (option_map fields_view (option_copied o))) }
    ensures refused { OnErr result (HasNone (Holds struct id (fields_view fields.now))) }
{
    let Some(value) = last_with(fields, id) else {
        return Ok(None);
    };
    match as_struct(value) {
        Some(inner) => Ok(Some(inner)),
        None => Err(Misfit),
    }
}

/// The struct in the last field with the id.
pub fn needed_struct(fields: &[(i16, Thrift)], id: u8) -> Result<&[(i16, Thrift)], Misfit>
    ensures found { IfOk result (λ inner. get id (fields_view fields.now) ≡ Some (struct (fields_view inner.now))) }
    ensures refused { OnErr result (HasNone (λ fs. get id (fields_view fields.now) ≡ Some (struct fs))) }
{
    let Some(value) = last_with(fields, id) else {
        return Err(Misfit);
    };
    match as_struct(value) {
        Some(inner) => Ok(inner),
        None => Err(Misfit),
    }
}

/// The list in the last field with the id.
pub fn needed_list(fields: &[(i16, Thrift)], id: u8) -> Result<&[Thrift], Misfit>
    ensures found { IfOk result (λ values. HasList id (fields_view fields.now) (values_view values.now)) }
    ensures refused { OnErr result (HasNone (HasList id (fields_view fields.now))) }
{
    let Some(value) = last_with(fields, id) else {
        return Err(Misfit);
    };
    match as_list(value) {
        Some(values) => Ok(values),
        None => Err(Misfit),
    }
}

fn text_from(bytes: &[u8]) -> Result<&str, Misfit>
    ensures same { IfOk result (λ text. text.now ≡ bytes.now) }
    ensures valid { OnOk result (IsUtf8 bytes.now) }
    ensures refused { OnErr result (¬ (IsUtf8 bytes.now)) }
{
    match std::str::from_utf8(bytes) {
        Ok(text) => Ok(text),
        Err(_) => Err(Misfit),
    }
}

/// The text in the last field with the id, if there is one.
pub fn optional_text(fields: &[(i16, Thrift)], id: u8) -> Result<Option<&str>, Misfit>
    ensures found { IfOk result (λ o. HoldsText id (fields_view fields.now) (option_copied o)) }
    ensures refused { OnErr result (HasNone (HoldsText id (fields_view fields.now))) }
{
    let Some(value) = last_with(fields, id) else {
        return Ok(None);
    };
    match as_binary(value) {
        Some(bytes) => Ok(Some(text_from(bytes)?)),
        None => Err(Misfit),
    }
}

/// The text in the last field with the id.
pub fn needed_text(fields: &[(i16, Thrift)], id: u8) -> Result<&str, Misfit>
    ensures found { IfOk result (λ text. HasText id (fields_view fields.now) text.now) }
    ensures refused { OnErr result (HasNone (HasText id (fields_view fields.now))) }
{
    let Some(value) = last_with(fields, id) else {
        return Err(Misfit);
    };
    match as_binary(value) {
        Some(bytes) => text_from(bytes),
        None => Err(Misfit),
    }
}
