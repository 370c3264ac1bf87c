//! Reading a value, from left to right.

ghost use Rattle.std.specs.Prelude.{◌≡◌, ◌≤◌, ◌++◌, ℕ, List, length, take, IfOk, Ok, Err, true, if◌then◌else◌};
ghost use Rattle.columns_base.specs.declared.error.S.TheVariants.{S1};
ghost use Rattle.columns_base.specs.declared.error.N.TheVariants.{N7};
ghost use Rattle.pq_thrift.specs.declared.fault.Fault.TheVariants.{Outside, Deep};
ghost use Rattle.pq_thrift.specs.declared.kind.Kind.TheVariants.{Struct as struct_kind, True as true_kind, False as false_kind, I32 as short_kind, I64 as long_kind};
ghost use Rattle.pq_thrift.specs.Grammar.{Spells, depth};
ghost use Rattle.pq_thrift.specs.Kinds.{is_base};
ghost use Rattle.pq_thrift.specs.Nesting.{NestsPast, IsOutside};
ghost use Rattle.pq_thrift.specs.Outcome.{told, ReadsAs};
ghost use Rattle.pq_thrift.specs.Parse.{Gives};
ghost use Rattle.pq_thrift.specs.Spelling.{IsStruct, IsWritable};
ghost use Rattle.pq_thrift.specs.Value.{Value, view, values_view, pair_view, pairs_view, fields_view};
ghost use Rattle.pq_thrift.specs.Reading.{field_with, part_with, values_at, pair_with, pairs_at, value_at, list_at, map_at, struct_at, element_at, thrift_at, max_depth};

use crate::fault::{Fault, Refusal};
use crate::heads::{take_field_head, take_list_head, take_map_head};
use crate::kind::{Kind, kind_from};
use crate::numbers::{take_binary, take_byte, take_double, take_i8, take_i16, take_i32, take_i64};
use crate::value::Thrift;
use columns_base::{Error, N, Result as Outcome, S};
use std::alloc::Global;

/// How deep a struct may nest, each value counted.
const MAX_DEPTH: u8 = 128;

/// A value of a kind, which nests to at most `depth`.
#[cycle(read)]
fn take_value(
    alloc: Global,
    kind: Kind,
    bytes: &[u8],
    depth: u8,
) -> Result<(Thrift, &[u8]), Refusal>
    ensures gives { Gives (λ x. (view x.0, x.1.now)) result (value_at depth kind bytes.now) }
    ensures no_longer { IfOk result (λ x. length x.1.now ≤ length bytes.now) }
{
    if depth == 0 {
        return Err(Refusal::Fault(Fault::Deep));
    }
    take_element(alloc, kind, bytes, depth - 1)
}

/// A value of a base type, which has no parts.
fn take_base(alloc: Global, kind: Kind, bytes: &[u8]) -> Result<(Thrift, &[u8]), Refusal>
    requires { is_base kind ≡ true }
    ensures gives { (depth : ℕ) → Gives (λ x. (view x.0, x.1.now)) result (element_at depth kind bytes.now) }
    ensures no_longer { IfOk result (λ x. length x.1.now ≤ length bytes.now) }
{
    match kind {
        Kind::True | Kind::False => {
            let (byte, rest) = take_byte(bytes)?;
            Ok((Thrift::Bool(byte == 1), rest))
        }
        Kind::I8 => {
            let (number, rest) = take_i8(bytes)?;
            Ok((Thrift::I8(number), rest))
        }
        Kind::I16 => {
            let (number, rest) = take_i16(bytes)?;
            Ok((Thrift::I16(number), rest))
        }
        Kind::I32 => {
            let (number, rest) = take_i32(bytes)?;
            Ok((Thrift::I32(number), rest))
        }
        Kind::I64 => {
            let (number, rest) = take_i64(bytes)?;
            Ok((Thrift::I64(number), rest))
        }
        Kind::Double => {
            let (number, rest) = take_double(bytes)?;
            Ok((Thrift::Double(number), rest))
        }
        Kind::Binary => {
            let (text, rest) = take_binary(alloc, bytes)?;
            Ok((Thrift::Binary(text), rest))
        }
        Kind::List | Kind::Set | Kind::Map | Kind::Struct => unreachable!(),
    }
}

/// A value of a kind, the parts of which nest to at most `depth`.
#[cycle(read)]
fn take_element(
    alloc: Global,
    kind: Kind,
    bytes: &[u8],
    depth: u8,
) -> Result<(Thrift, &[u8]), Refusal>
    ensures gives { Gives (λ x. (view x.0, x.1.now)) result (element_at depth kind bytes.now) }
    ensures no_longer { IfOk result (λ x. length x.1.now ≤ length bytes.now) }
{
    match kind {
        Kind::List => {
            let ((number, values), rest) = take_list(alloc, bytes, depth)?;
            Ok((Thrift::List(number, values), rest))
        }
        Kind::Set => {
            let ((number, values), rest) = take_list(alloc, bytes, depth)?;
            Ok((Thrift::Set(number, values), rest))
        }
        Kind::Map => {
            let ((keys, values, pairs), rest) = take_map(alloc, bytes, depth)?;
            Ok((Thrift::Map(keys, values, pairs), rest))
        }
        Kind::Struct => {
            let (fields, rest) = take_struct(alloc, bytes, depth)?;
            Ok((Thrift::Struct(fields), rest))
        }
        base => take_base(alloc, base, bytes),
    }
}

/// A value of the type that a list or map states.
#[cycle(read)]
fn take_part(alloc: Global, number: u8, bytes: &[u8], depth: u8) -> Result<(Thrift, &[u8]), Refusal>
    ensures gives { Gives (λ x. (view x.0, x.1.now)) result (part_with (value_at depth) number bytes.now) }
    ensures no_longer { IfOk result (λ x. length x.1.now ≤ length bytes.now) }
{
    let Some(kind) = kind_from(number) else {
        return Err(Refusal::Fault(Fault::Outside));
    };
    take_value(alloc, kind, bytes, depth)
}

#[cycle(read)]
#[tactic(auto, unfolding(crate::specs::Reading::list_with))]
fn take_list(alloc: Global, bytes: &[u8], depth: u8) -> Result<((u8, Vec<Thrift>), &[u8]), Refusal>
    ensures gives { Gives (λ x. ((x.0.0, values_view x.0.1.items), x.1.now)) result (list_at depth bytes.now) }
    ensures no_longer { IfOk result (λ x. length x.1.now ≤ length bytes.now) }
{
    let ((number, count), rest) = take_list_head(bytes)?;
    let (values, rest) = take_values(alloc, number, count, rest, depth)?;
    Ok(((number, values), rest))
}

/// As many values as a head states. The head is no ground to reserve memory.
#[cycle(read)]
fn take_values(
    alloc: Global,
    number: u8,
    count: u64,
    bytes: &[u8],
    depth: u8,
) -> Result<(Vec<Thrift>, &[u8]), Refusal>
    ensures gives { Gives (λ x. (values_view x.0.items, x.1.now)) result
        (values_at (part_with (value_at depth) number) count bytes.now) }
    ensures no_longer { IfOk result (λ x. length x.1.now ≤ length bytes.now) }
{
    let mut values = Vec::new(alloc);
    let mut rest = bytes;
    'values: for _ in 0..count {
        let (value, after) = take_part(alloc, number, rest, depth)?;
        values.push(value)?;
        rest = after;
    }
    Ok((values, rest))
}

#[cycle(read)]
#[tactic(auto, unfolding(crate::specs::Reading::map_with))]
fn take_map(
    alloc: Global,
    bytes: &[u8],
    depth: u8,
) -> Result<((u8, u8, Vec<(Thrift, Thrift)>), &[u8]), Refusal>
    ensures gives { Gives (λ x. ((x.0.0, x.0.1, pairs_view x.0.2.items), x.1.now)) result (map_at depth bytes.now) }
    ensures no_longer { IfOk result (λ x. length x.1.now ≤ length bytes.now) }
{
    let ((keys, values, count), rest) = take_map_head(bytes)?;
    let (pairs, rest) = take_pairs(alloc, keys, values, count, rest, depth)?;
    Ok(((keys, values, pairs), rest))
}

#[cycle(read)]
#[tactic(auto, unfolding(crate::specs::Reading::pair_with))]
fn take_pair(
    alloc: Global,
    keys: u8,
    values: u8,
    bytes: &[u8],
    depth: u8,
) -> Result<((Thrift, Thrift), &[u8]), Refusal>
    ensures gives { Gives (λ x. (pair_view x.0, x.1.now)) result (pair_with (part_with (value_at depth) keys)
        (part_with (value_at depth) values) bytes.now) }
    ensures no_longer { IfOk result (λ x. length x.1.now ≤ length bytes.now) }
{
    let (key, rest) = take_part(alloc, keys, bytes, depth)?;
    let (value, rest) = take_part(alloc, values, rest, depth)?;
    Ok(((key, value), rest))
}

/// As many pairs as a head states. The head is no ground to reserve memory.
#[cycle(read)]
fn take_pairs(
    alloc: Global,
    keys: u8,
    values: u8,
    count: u64,
    bytes: &[u8],
    depth: u8,
) -> Result<(Vec<(Thrift, Thrift)>, &[u8]), Refusal>
    ensures gives { Gives (λ x. (pairs_view x.0.items, x.1.now)) result
        (pairs_at (pair_with (part_with (value_at depth) keys) (part_with (value_at depth) values)) count bytes.now) }
    ensures no_longer { IfOk result (λ x. length x.1.now ≤ length bytes.now) }
{
    let mut pairs = Vec::new(alloc);
    let mut rest = bytes;
    'pairs: for _ in 0..count {
        let (pair, after) = take_pair(alloc, keys, values, rest, depth)?;
        pairs.push(pair)?;
        rest = after;
    }
    Ok((pairs, rest))
}

/// A truth value that stands in a field's header.
fn take_truth(truth: bool, bytes: &[u8], depth: u8) -> Result<(Thrift, &[u8]), Refusal>
    ensures gives { Gives (λ x. (view x.0, x.1.now)) result (field_with (value_at depth)
        (if truth then true_kind else false_kind) bytes.now) }
    ensures no_longer { IfOk result (λ x. length x.1.now ≤ length bytes.now) }
{
    if depth == 0 {
        return Err(Refusal::Fault(Fault::Deep));
    }
    Ok((Thrift::Bool(truth), bytes))
}

/// A number of 32 bits in a field.
fn take_short(bytes: &[u8], depth: u8) -> Result<(Thrift, &[u8]), Refusal>
    ensures gives { Gives (λ x. (view x.0, x.1.now)) result (field_with (value_at depth) short_kind bytes.now) }
    ensures no_longer { IfOk result (λ x. length x.1.now ≤ length bytes.now) }
{
    if depth == 0 {
        return Err(Refusal::Fault(Fault::Deep));
    }
    let (number, rest) = take_i32(bytes)?;
    Ok((Thrift::I32(number), rest))
}

/// A number of 64 bits in a field.
fn take_long(bytes: &[u8], depth: u8) -> Result<(Thrift, &[u8]), Refusal>
    ensures gives { Gives (λ x. (view x.0, x.1.now)) result (field_with (value_at depth) long_kind bytes.now) }
    ensures no_longer { IfOk result (λ x. length x.1.now ≤ length bytes.now) }
{
    if depth == 0 {
        return Err(Refusal::Fault(Fault::Deep));
    }
    let (number, rest) = take_i64(bytes)?;
    Ok((Thrift::I64(number), rest))
}

/// A value as it stands in a field. Most are numbers, which need no call of the cycle.
#[cycle(read)]
fn take_field(
    alloc: Global,
    kind: Kind,
    bytes: &[u8],
    depth: u8,
) -> Result<(Thrift, &[u8]), Refusal>
    ensures gives { Gives (λ x. (view x.0, x.1.now)) result (field_with (value_at depth) kind bytes.now) }
    ensures no_longer { IfOk result (λ x. length x.1.now ≤ length bytes.now) }
{
    match kind {
        Kind::True => take_truth(true, bytes, depth),
        Kind::False => take_truth(false, bytes, depth),
        Kind::I32 => take_short(bytes, depth),
        Kind::I64 => take_long(bytes, depth),
        _ => take_value(alloc, kind, bytes, depth),
    }
}

/// The fields of a struct, the values of which nest to at most `depth`.
#[cycle(read)]
fn take_struct(
    alloc: Global,
    bytes: &[u8],
    depth: u8,
) -> Result<(Vec<(i16, Thrift)>, &[u8]), Refusal>
    ensures gives { Gives (λ x. (fields_view x.0.items, x.1.now)) result (struct_at depth bytes.now) }
    ensures no_longer { IfOk result (λ x. length x.1.now ≤ length bytes.now) }
{
    let mut fields = Vec::new(alloc);
    let mut last = 0;
    let mut rest = bytes;
    'fields: loop {
        let (head, after) = take_field_head(last, rest)?;
        let Some((id, kind)) = head else {
            return Ok((fields, after));
        };
        let (value, after) = take_field(alloc, kind, after, depth)?;
        fields.push((id, value))?;
        last = id;
        rest = after;
    }
}

// The reason that the caller is told.
fn reason(refusal: Refusal) -> Error
    ensures { result ≡ told refusal }
{
    match refusal {
        Refusal::Memory => Error::Memory,
        Refusal::Fault(Fault::Outside) => Error::OutOfSpec(S::S1),
        Refusal::Fault(Fault::Deep) => Error::NotYetImplemented(N::N7),
    }
}

fn take_thrift(alloc: Global, bytes: &[u8]) -> Outcome<(Thrift, usize)>
    ensures gives { ReadsAs bytes.now result (thrift_at bytes.now) }
    ensures within { IfOk result (λ x. x.1 ≤ length bytes.now) }
{
    match take_value(alloc, Kind::Struct, bytes, MAX_DEPTH) {
        Ok((value, rest)) => Ok((value, bytes.len() - rest.len())),
        Err(refusal) => Err(reason(refusal)),
    }
}

/// Reads the struct at the front in the Thrift compact protocol, and gives it with the number of its bytes.
/// What follows it is not looked at. A value without parts nests 1, and each other one more than its deepest part.
///
/// # Errors
///
/// - `OutOfSpec(S1)`: the bytes leave the grammar.
/// - `NotYetImplemented(N7)`: before they do, from left to right, they announce a value that nests past 128:
///   by a field's header, or by the head of a list, set or map that has elements.
/// - `Memory`: memory ran out.
pub fn read_thrift(alloc: Global, bytes: &[u8]) -> Outcome<(Thrift, usize)>
    // What is read is spelled so, and nests no deeper than the limit.
    ensures ok { IfOk result (λ x. (x.1 ≤ length bytes.now) × Spells (take x.1 bytes.now) (view x.0)
        × (depth (view x.0) ≤ max_depth)) }
    // It can be written again.
    ensures writable { IfOk result (λ x. IsStruct (view x.0) × IsWritable (view x.0)) }
    // What is spelled so and nests no deeper is read, unless memory runs out.
    ensures complete { (v : Value) (text rest : List ℕ) → Spells text v → depth v ≤ max_depth → bytes.now ≡ text ++ rest
        → ReadsAs bytes.now result (Ok (v, rest)) }
    // It is too deep only where it nests past the limit, whatever follows the place where it does ..
    ensures only_deep { result ≡ Err (Error.NotYetImplemented N7) → NestsPast max_depth struct_kind bytes.now }
    // .. and there always, unless memory runs out.
    ensures deep { NestsPast max_depth struct_kind bytes.now → ReadsAs bytes.now result (Err Deep) }
    // It is outside of the grammar only where no struct stands there, and it doesn't nest past the limit before it leaves it ..
    ensures only_outside { result ≡ Err (Error.OutOfSpec S1) → IsOutside bytes.now }
    // .. and there always, unless memory runs out.
    ensures outside { IsOutside bytes.now → ReadsAs bytes.now result (Err Outside) }
    // Which of these it is.
    ensures exact { ReadsAs bytes.now result (thrift_at bytes.now) }
{
    take_thrift(alloc, bytes)
}
