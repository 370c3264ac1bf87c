//! Fields that may be absent.
ghost use Rattle.std.specs.Prelude.{IfOk, OnOk, option_map};
ghost use Rattle.pq_thrift.specs.Value.{truth, int16, int32, int64, binary};
ghost use Rattle.pq_tree.specs.Views.{bytes_view};
ghost use Rattle.thrift_fields.specs.Appended.{AppendsField, AppendsSome};

use crate::fields::{push_binary, push_bool, push_i32, push_i64, push_short};
use crate::head::push_head;
use std::alloc::AllocError;

// A number of 16 bits with the id.
fn push_i16(out: &mut Vec<u8>, last: u8, id: u8, number: &i16) -> Result<(), AllocError>
    ensures { OnOk result (AppendsField last id (int16 number.now) out.old.items out.new.items) }
{
    push_head(out, last, id, 4)?;
    push_short(out, number)?;
    Ok(())
}

/// Appends a number of 16 bits with the id, if there is one, behind a field with the id `last`. Gives the id of the last field then.
pub fn push_some_i16(
    out: &mut Vec<u8>,
    last: u8,
    id: u8,
    number: Option<i16>,
) -> Result<u8, AllocError>
    ensures { IfOk result (λ next. AppendsSome last id (option_map int16 number) next out.old.items out.new.items) }
{
    let Some(number) = number else {
        return Ok(last);
    };
    push_i16(out, last, id, &number)?;
    Ok(id)
}

/// Appends a number of 32 bits with the id, if there is one, behind a field with the id `last`. Gives the id of the last field then.
pub fn push_some_i32(
    out: &mut Vec<u8>,
    last: u8,
    id: u8,
    number: Option<i32>,
) -> Result<u8, AllocError>
    ensures { IfOk result (λ next. AppendsSome last id (option_map int32 number) next out.old.items out.new.items) }
{
    let Some(number) = number else {
        return Ok(last);
    };
    push_i32(out, last, id, &number)?;
    Ok(id)
}

/// Appends a number of 64 bits with the id, if there is one, behind a field with the id `last`. Gives the id of the last field then.
pub fn push_some_i64(
    out: &mut Vec<u8>,
    last: u8,
    id: u8,
    number: Option<i64>,
) -> Result<u8, AllocError>
    ensures { IfOk result (λ next. AppendsSome last id (option_map int64 number) next out.old.items out.new.items) }
{
    let Some(number) = number else {
        return Ok(last);
    };
    push_i64(out, last, id, &number)?;
    Ok(id)
}

/// Appends a truth value with the id, if there is one, behind a field with the id `last`. Gives the id of the last field then.
pub fn push_some_bool(
    out: &mut Vec<u8>,
    last: u8,
    id: u8,
    flag: Option<bool>,
) -> Result<u8, AllocError>
    ensures { IfOk result (λ next. AppendsSome last id (option_map truth flag) next out.old.items out.new.items) }
{
    let Some(flag) = flag else {
        return Ok(last);
    };
    push_bool(out, last, id, flag)?;
    Ok(id)
}

/// Appends a byte string with the id, if there is one, behind a field with the id `last`. Gives the id of the last field then.
pub(crate) fn push_some_bytes(
    out: &mut Vec<u8>,
    last: u8,
    id: u8,
    text: &Option<Vec<u8>>,
) -> Result<u8, AllocError>
    ensures { IfOk result (λ next. AppendsSome last id (option_map binary
        (option_map bytes_view text.now)) next out.old.items out.new.items) }
{
    let Some(text) = text else {
        return Ok(last);
    };
    push_binary(out, last, id, text)?;
    Ok(id)
}
