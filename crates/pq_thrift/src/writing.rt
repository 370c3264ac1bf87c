//! Writing a value.

ghost use Rattle.std.specs.Prelude.{◌≡◌, ◌<◌, ◌-ℤ◌, ℕ, pos, List, ◌++◌, length, OnOk, OnErr, IfErr};
ghost use Rattle.columns_base.specs.declared.error.Error.TheVariants.{Memory};
ghost use Rattle.pq_numbers.specs.Varint.{varint};
ghost use Rattle.pq_numbers.specs.Zigzag.{zigzag};
ghost use Rattle.pq_thrift.specs.Value.{list, map, view, values_view, pairs_view, fields_view};
ghost use Rattle.pq_thrift.specs.Spelling.{number_of, list_head, map_head, field_head, short, kind_in_field, behind_head, spell, spell_fields, IsStruct, IsWritable, HasTypes, AreWritable, ArePairsWritable, AreFieldsWritable, Fits, FieldsFit};
ghost use Rattle.pq_thrift.specs.Written.{IsWritten};

use crate::kind::Kind;
use crate::value::Thrift;
use columns_base::Result as Outcome;
use pq_numbers::{push_varint, to_zigzag};
use std::alloc::AllocError;

fn push_signed(out: &mut Vec<u8>, n: i64) -> Result<(), AllocError>
    ensures ok { OnOk result (out.new.items ≡ out.old.items ++ varint (zigzag n)) }
{
    push_varint(out, to_zigzag(n))
}

fn push_binary(out: &mut Vec<u8>, bytes: &[u8]) -> Result<(), AllocError>
    ensures ok { OnOk result (out.new.items ≡ out.old.items ++ (varint (length bytes.now) ++ bytes.now)) }
{
    push_varint(out, bytes.len() as u64)?;
    out.extend_from_slice(bytes)
}

#[tactic(auto, unfolding(crate::specs::Spelling::list_head))]
fn push_list_head(out: &mut Vec<u8>, number: u8, count: usize) -> Result<(), AllocError>
    requires { number < 16 }
    ensures ok { OnOk result (out.new.items ≡ out.old.items ++ list_head number count) }
{
    if count < 15 {
        out.push(16 * count as u8 + number)?;
        return Ok(());
    }
    out.push(240 + number)?;
    push_varint(out, count as u64)
}

#[tactic(auto, unfolding(crate::specs::Spelling::map_head))]
fn push_map_head(out: &mut Vec<u8>, keys: u8, values: u8, count: usize) -> Result<(), AllocError>
    requires keys_low { keys < 16 }
    requires values_low { values < 16 }
    ensures ok { OnOk result (out.new.items ≡ out.old.items ++ map_head keys values count) }
{
    if count == 0 {
        out.push(0)?;
        return Ok(());
    }
    push_varint(out, count as u64)?;
    out.push(16 * keys + values)?;
    Ok(())
}

fn number_from(kind: Kind) -> u8
    ensures { result ≡ number_of kind }
{
    match kind {
        Kind::True => 1,
        Kind::False => 2,
        Kind::I8 => 3,
        Kind::I16 => 4,
        Kind::I32 => 5,
        Kind::I64 => 6,
        Kind::Double => 7,
        Kind::Binary => 8,
        Kind::List => 9,
        Kind::Set => 10,
        Kind::Map => 11,
        Kind::Struct => 12,
    }
}

fn short_step(last: i16, id: i16) -> u8
    ensures { result ≡ short (id -ℤ last) }
{
    let step = i32::from(id) - i32::from(last);
    if step >= 0 && step < 16 {
        step as u8
    } else {
        0
    }
}

#[tactic(auto, unfolding(crate::specs::Spelling::field_head))]
fn push_field_head(out: &mut Vec<u8>, last: i16, id: i16, kind: Kind) -> Result<(), AllocError>
    ensures ok { OnOk result (out.new.items ≡ out.old.items ++ field_head last id (number_of kind)) }
{
    let step = short_step(last, id);
    let number = number_from(kind);
    if step == 0 {
        out.push(number)?;
        return push_signed(out, i64::from(id));
    }
    out.push(16 * step + number)?;
    Ok(())
}

fn field_kind(value: &Thrift) -> Kind
    ensures { result ≡ kind_in_field (view value.now) }
{
    match value {
        Thrift::Bool(b) => { if *b { Kind::True } else { Kind::False } }
        Thrift::I8(_) => Kind::I8,
        Thrift::I16(_) => Kind::I16,
        Thrift::I32(_) => Kind::I32,
        Thrift::I64(_) => Kind::I64,
        Thrift::Double(_) => Kind::Double,
        Thrift::Binary(_) => Kind::Binary,
        Thrift::List(..) => Kind::List,
        Thrift::Set(..) => Kind::Set,
        Thrift::Map(..) => Kind::Map,
        Thrift::Struct(_) => Kind::Struct,
    }
}

/// A value as it stands in a list.
#[cycle(write)]
fn push_value(out: &mut Vec<u8>, value: &Thrift) -> Result<(), AllocError>
    requires { IsWritable (view value.now) }
    ensures spelled { OnOk result (out.new.items ≡ out.old.items ++ spell (view value.now)) }
    ensures fits { OnOk result (Fits (view value.now)) }
{
    match value {
        Thrift::Bool(b) => {
            out.push(if *b { 1 } else { 2 })?;
            Ok(())
        }
        Thrift::I8(n) => {
            out.push(n.cast_unsigned())?;
            Ok(())
        }
        Thrift::I16(n) => push_signed(out, i64::from(*n)),
        Thrift::I32(n) => push_signed(out, i64::from(*n)),
        Thrift::I64(n) => push_signed(out, *n),
        Thrift::Double(bytes) => out.extend_from_slice(bytes),
        Thrift::Binary(bytes) => push_binary(out, bytes),
        Thrift::List(number, values) => push_list(out, *number, values),
        Thrift::Set(number, values) => push_list(out, *number, values),
        Thrift::Map(keys, values, pairs) => push_map(out, *keys, *values, pairs),
        Thrift::Struct(fields) => push_fields(out, fields),
    }
}

#[cycle(write)]
fn push_list(out: &mut Vec<u8>, number: u8, values: &Vec<Thrift>) -> Result<(), AllocError>
    requires low { number < 16 }
    requires writable { AreWritable (values_view values.now.items) number }
    ensures spelled { OnOk result (out.new.items ≡ out.old.items ++ spell
        (list number (values_view values.now.items))) }
    ensures fits { OnOk result (Fits (list number (values_view values.now.items))) }
{
    push_list_head(out, number, values.len())?;
    for value in values {
        push_value(out, value)?;
    }
    Ok(())
}

#[cycle(write)]
fn push_map(
    out: &mut Vec<u8>,
    keys: u8,
    values: u8,
    pairs: &Vec<(Thrift, Thrift)>,
) -> Result<(), AllocError>
    requires types { HasTypes keys values (pairs_view pairs.now.items) }
    requires writable { ArePairsWritable (pairs_view pairs.now.items) keys values }
    ensures spelled { OnOk result (out.new.items ≡ out.old.items ++ spell
        (map keys values (pairs_view pairs.now.items))) }
    ensures fits { OnOk result (Fits (map keys values (pairs_view pairs.now.items))) }
{
    push_map_head(out, keys, values, pairs.len())?;
    'pairs: for (key, value) in pairs {
        push_value(out, key)?;
        push_value(out, value)?;
    }
    Ok(())
}

/// A value as it stands in a field.
#[cycle(write)]
fn push_in_field(out: &mut Vec<u8>, value: &Thrift) -> Result<(), AllocError>
    requires { IsWritable (view value.now) }
    ensures spelled { OnOk result (out.new.items ≡ out.old.items ++ behind_head (view value.now)
        (spell (view value.now))) }
    ensures fits { OnOk result (Fits (view value.now)) }
{
    match value {
        Thrift::Bool(_) => Ok(()),
        _ => push_value(out, value),
    }
}

#[cycle(write)]
fn push_fields(out: &mut Vec<u8>, fields: &Vec<(i16, Thrift)>) -> Result<(), AllocError>
    requires { AreFieldsWritable (fields_view fields.now.items) }
    ensures spelled { OnOk result (out.new.items ≡ out.old.items ++ spell_fields (fields_view fields.now.items)
        (pos 0)) }
    ensures fits { OnOk result (FieldsFit (fields_view fields.now.items)) }
{
    let mut last = 0;
    'fields: for (id, value) in fields {
        push_field_head(out, last, *id, field_kind(value))?;
        push_in_field(out, value)?;
        last = *id;
    }
    out.push(0)?;
    Ok(())
}

/// How many bytes most structs take.
const MOST_BYTES: usize = 64;

/// Appends the struct in the Thrift compact protocol. A list's size below 15 stands in its head,
/// varints have no padding, and a field's id is a step where that is 1 to 15.
///
/// Each element of a list, set or map has the type that is stated for it, where a truth value may have 1 or 2;
/// the types of an empty map are 0, and that of an empty list or set is below 16.
///
/// # Errors
///
/// `Memory`: memory ran out; `out` is then as before.
pub fn write_thrift(value: &Thrift, out: &mut Vec<u8>) -> Outcome<()>
    requires is_struct { IsStruct (view value.now) }
    requires writable { IsWritable (view value.now) }
    // What is written spells the value, without padding.
    ensures written { OnOk result ((text : List ℕ) × IsWritten text (view value.now)
        × (out.new.items ≡ out.old.items ++ text)) }
    // The same as an equation.
    ensures exact { OnOk result (out.new.items ≡ out.old.items ++ spell (view value.now)) }
    // The numbers are of their types, which the view alone does not tell.
    ensures fits { OnOk result (Fits (view value.now)) }
    ensures err { OnErr result (out.new.items ≡ out.old.items) }
    ensures memory { IfErr result (λ e. e ≡ Memory) }
{
    let mut text = Vec::with_capacity(*out.allocator(), MOST_BYTES)?;
    push_value(&mut text, value)?;
    out.extend_from_slice(&text)?;
    Ok(())
}
