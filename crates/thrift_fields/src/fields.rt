//! Fields that stand.
ghost use Rattle.std.specs.Prelude.{◌≡◌, ◌<◌, ◌^◌, ◌++◌, OnOk, map, pos, string_bytes};
ghost use Rattle.pq_numbers.specs.Varint.{varint};
ghost use Rattle.pq_numbers.specs.Zigzag.{zigzag};
ghost use Rattle.pq_thrift.specs.Spelling.{field_head, kind_in_field, list_head, number_of};
ghost use Rattle.pq_thrift.specs.Value.{truth, int32, int64, binary, list, values_of};
ghost use Rattle.thrift_fields.specs.Appended.{AppendsField, AppendsValue, AppendsValues};

use crate::head::{push_count, push_head, push_signed};
use pq_numbers::push_varint;
use std::alloc::AllocError;

fn truth_kind(flag: bool) -> u8
    ensures is { result ≡ number_of (kind_in_field (truth flag)) }
    ensures low { result < 16 }
{
    if flag { 1 } else { 2 }
}

/// Appends a truth value with the id, behind a field with the id `last`.
pub fn push_bool(out: &mut Vec<u8>, last: u8, id: u8, flag: bool) -> Result<(), AllocError>
    ensures { OnOk result (AppendsField last id (truth flag) out.old.items out.new.items) }
{
    let kind = truth_kind(flag);
    push_head(out, last, id, kind)?;
    Ok(())
}

// A number of 16 bits.
pub(crate) fn push_short(out: &mut Vec<u8>, number: &i16) -> Result<(), AllocError>
    ensures spelled { OnOk result (out.new.items ≡ out.old.items ++ varint (zigzag number.now)) }
    ensures fits { zigzag number.now < 2 ^ 16 }
{
    push_signed(out, i64::from(*number))
}

// A number of 32 bits.
fn push_number(out: &mut Vec<u8>, number: &i32) -> Result<(), AllocError>
    ensures spelled { OnOk result (out.new.items ≡ out.old.items ++ varint (zigzag number.now)) }
    ensures fits { zigzag number.now < 2 ^ 32 }
{
    push_signed(out, i64::from(*number))
}

// A number of 64 bits.
fn push_long(out: &mut Vec<u8>, number: &i64) -> Result<(), AllocError>
    ensures spelled { OnOk result (out.new.items ≡ out.old.items ++ varint (zigzag number.now)) }
    ensures fits { zigzag number.now < 2 ^ 64 }
{
    push_signed(out, *number)
}

/// Appends a number of 32 bits with the id, behind a field with the id `last`.
pub fn push_i32(out: &mut Vec<u8>, last: u8, id: u8, number: &i32) -> Result<(), AllocError>
    ensures { OnOk result (AppendsField last id (int32 number.now) out.old.items out.new.items) }
{
    push_head(out, last, id, 5)?;
    push_number(out, number)?;
    Ok(())
}

/// Appends a number of 64 bits with the id, behind a field with the id `last`.
pub fn push_i64(out: &mut Vec<u8>, last: u8, id: u8, number: &i64) -> Result<(), AllocError>
    ensures { OnOk result (AppendsField last id (int64 number.now) out.old.items out.new.items) }
{
    push_head(out, last, id, 6)?;
    push_long(out, number)?;
    Ok(())
}

// A text behind its length.
fn push_bytes(out: &mut Vec<u8>, text: &[u8]) -> Result<(), AllocError>
    ensures { OnOk result (AppendsValue (binary text.now) out.old.items out.new.items) }
{
    push_varint(out, text.len() as u64)?;
    out.extend_from_slice(text)?;
    Ok(())
}

// A byte string with the id, behind a field with the id `last`.
pub(crate) fn push_binary(
    out: &mut Vec<u8>,
    last: u8,
    id: u8,
    text: &[u8],
) -> Result<(), AllocError>
    ensures { OnOk result (AppendsField last id (binary text.now) out.old.items out.new.items) }
{
    push_head(out, last, id, 8)?;
    push_bytes(out, text)?;
    Ok(())
}

/// Appends a text with the id, behind a field with the id `last`.
pub fn push_text(out: &mut Vec<u8>, last: u8, id: u8, text: &String) -> Result<(), AllocError>
    ensures { OnOk result (AppendsField last id (binary (string_bytes text.now)) out.old.items out.new.items) }
{
    push_binary(out, last, id, text.as_str().as_bytes())
}

/// Appends what stands in front of a struct with the id, behind a field with the id `last`.
pub fn push_struct_head(out: &mut Vec<u8>, last: u8, id: u8) -> Result<(), AllocError>
    ensures { OnOk result (out.new.items ≡ out.old.items ++ field_head (pos last) (pos id) 12) }
{
    push_head(out, last, id, 12)
}

/// Appends what stands in front of the elements of a list with the id, behind a field with the id `last`. `number` is that of their type.
pub fn push_list_head(
    out: &mut Vec<u8>,
    last: u8,
    id: u8,
    number: u8,
    count: usize,
) -> Result<(), AllocError>
    requires { number < 16 }
    ensures { OnOk result (out.new.items ≡ out.old.items
        ++ (field_head (pos last) (pos id) 9 ++ list_head number count)) }
{
    push_head(out, last, id, 9)?;
    push_count(out, number, count)
}

// The numbers of a list.
fn push_each_number(out: &mut Vec<u8>, numbers: &[i32]) -> Result<(), AllocError>
    ensures { OnOk result (AppendsValues (values_of (map int32 numbers.now)) out.old.items out.new.items) }
{
    for number in numbers {
        push_number(out, number)?;
    }
    Ok(())
}

/// Appends a list of numbers of 32 bits with the id, behind a field with the id `last`.
pub fn push_numbers(
    out: &mut Vec<u8>,
    last: u8,
    id: u8,
    numbers: &Vec<i32>,
) -> Result<(), AllocError>
    ensures { OnOk result (AppendsField last id
        (list 5 (values_of (map int32 numbers.now.items))) out.old.items out.new.items) }
{
    push_list_head(out, last, id, 5, numbers.len())?;
    push_each_number(out, numbers)?;
    Ok(())
}

// A text of a list.
fn push_item(out: &mut Vec<u8>, text: &String) -> Result<(), AllocError>
    ensures { OnOk result (AppendsValue (binary (string_bytes text.now)) out.old.items out.new.items) }
{
    push_bytes(out, text.as_str().as_bytes())
}

// The texts of a list.
fn push_each_text(out: &mut Vec<u8>, texts: &[String]) -> Result<(), AllocError>
    ensures { OnOk result
        (AppendsValues (values_of (map binary (map string_bytes texts.now))) out.old.items out.new.items) }
{
    'texts: for text in texts {
        push_item(out, text)?;
    }
    Ok(())
}

/// Appends a list of texts with the id, behind a field with the id `last`.
pub fn push_texts(
    out: &mut Vec<u8>,
    last: u8,
    id: u8,
    texts: &Vec<String>,
) -> Result<(), AllocError>
    ensures { OnOk result (AppendsField last id
        (list 8 (values_of (map binary (map string_bytes texts.now.items)))) out.old.items out.new.items) }
{
    push_list_head(out, last, id, 8, texts.len())?;
    push_each_text(out, texts)?;
    Ok(())
}
