//! Numbers and bytes at the front (Thrift compact protocol, "Base types").

ghost use Rattle.std.specs.Prelude.{◌≡◌, ◌<◌, ◌^◌, length, IfOk};
ghost use Rattle.pq_thrift.specs.Parse.{Gives};
ghost use Rattle.pq_thrift.specs.Numbers.{byte_at, varint_at, signed_at, int8_at, bytes_at, binary_at};

use crate::fault::{Fault, Refusal};
use pq_numbers::{from_zigzag, take_varint};
use std::alloc::Global;

pub fn take_byte(bytes: &[u8]) -> Result<(u8, &[u8]), Refusal>
    ensures gives { Gives (λ x. (x.0, x.1.now)) result (byte_at bytes.now) }
    ensures shorter { IfOk result (λ x. length x.1.now < length bytes.now) }
{
    match bytes {
        [] => Err(Refusal::Fault(Fault::Outside)),
        [byte, rest @ ..] => Ok((*byte, rest)),
    }
}

#[tactic(auto, unfolding(pq_numbers::specs::Varint::varint_up_to))]
pub fn take_number(bytes: &[u8]) -> Result<(u64, &[u8]), Refusal>
    ensures gives { Gives (λ x. (x.0, x.1.now)) result (varint_at bytes.now) }
    ensures shorter { IfOk result (λ x. length x.1.now < length bytes.now) }
{
    // Most numbers are one byte.
    if let [byte, rest @ ..] = bytes {
        if *byte < 128 {
            return Ok((u64::from(*byte), rest));
        }
    }
    match take_varint(bytes) {
        None => Err(Refusal::Fault(Fault::Outside)),
        Some((number, rest)) => Ok((number, rest)),
    }
}

#[tactic(auto, unfolding(crate::specs::Numbers::signed_at))]
pub fn take_i64(bytes: &[u8]) -> Result<(i64, &[u8]), Refusal>
    ensures gives { Gives (λ x. (x.0, x.1.now)) result (signed_at (2 ^ 64) bytes.now) }
    ensures shorter { IfOk result (λ x. length x.1.now < length bytes.now) }
{
    let (n, rest) = take_number(bytes)?;
    Ok((from_zigzag(n), rest))
}

#[tactic(auto, unfolding(crate::specs::Numbers::signed_at))]
pub fn take_i32(bytes: &[u8]) -> Result<(i32, &[u8]), Refusal>
    ensures gives { Gives (λ x. (x.0, x.1.now)) result (signed_at (2 ^ 32) bytes.now) }
    ensures shorter { IfOk result (λ x. length x.1.now < length bytes.now) }
{
    let (n, rest) = take_number(bytes)?;
    if n >= 1 << 32 {
        return Err(Refusal::Fault(Fault::Outside));
    }
    Ok((from_zigzag(n) as i32, rest))
}

#[tactic(auto, unfolding(crate::specs::Numbers::signed_at))]
pub fn take_i16(bytes: &[u8]) -> Result<(i16, &[u8]), Refusal>
    ensures gives { Gives (λ x. (x.0, x.1.now)) result (signed_at (2 ^ 16) bytes.now) }
    ensures shorter { IfOk result (λ x. length x.1.now < length bytes.now) }
{
    let (n, rest) = take_number(bytes)?;
    if n >= 1 << 16 {
        return Err(Refusal::Fault(Fault::Outside));
    }
    Ok((from_zigzag(n) as i16, rest))
}

pub fn take_i8(bytes: &[u8]) -> Result<(i8, &[u8]), Refusal>
    ensures gives { Gives (λ x. (x.0, x.1.now)) result (int8_at bytes.now) }
    ensures shorter { IfOk result (λ x. length x.1.now < length bytes.now) }
{
    match bytes {
        [] => Err(Refusal::Fault(Fault::Outside)),
        [byte, rest @ ..] => Ok((byte.cast_signed(), rest)),
    }
}

#[tactic(auto, unfolding(crate::specs::Numbers::binary_at))]
pub fn take_binary(alloc: Global, bytes: &[u8]) -> Result<(Vec<u8>, &[u8]), Refusal>
    ensures gives { Gives (λ x. (x.0.items, x.1.now)) result (binary_at bytes.now) }
    ensures shorter { IfOk result (λ x. length x.1.now < length bytes.now) }
{
    let (n, rest) = take_number(bytes)?;
    let n = n as usize;
    if rest.len() < n {
        return Err(Refusal::Fault(Fault::Outside));
    }
    let (front, rest) = rest.split_at(n);
    Ok((Vec::from_slice(alloc, front)?, rest))
}

pub fn take_double(bytes: &[u8]) -> Result<([u8; 8], &[u8]), Refusal>
    ensures gives { Gives (λ x. (x.0, x.1.now)) result (bytes_at 8 bytes.now) }
    ensures shorter { IfOk result (λ x. length x.1.now < length bytes.now) }
{
    if bytes.len() < 8 {
        return Err(Refusal::Fault(Fault::Outside));
    }
    let (front, rest) = bytes.split_at(8);
    let number = [
        front[0], front[1], front[2], front[3], front[4], front[5], front[6], front[7],
    ];
    Ok((number, rest))
}
