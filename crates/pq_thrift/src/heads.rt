//! What stands in front of the parts of a value (Thrift compact protocol, "Struct", "List and Set" and "Map").

ghost use Rattle.std.specs.Prelude.{◌≡◌, ◌≤◌, ◌<◌, length, IfOk};
ghost use Rattle.pq_thrift.specs.Parse.{Gives};
ghost use Rattle.pq_thrift.specs.Reading.{list_head_at, map_types_at, map_head_at, id_at, field_head_at};

use crate::fault::{Fault, Refusal};
use crate::kind::{Kind, kind_from};
use crate::numbers::{take_byte, take_i16, take_number};

/// The number of the elements' type, and how many elements a list or set has.
#[tactic(auto, unfolding(crate::specs::Reading::list_head_at))]
pub fn take_list_head(bytes: &[u8]) -> Result<((u8, u64), &[u8]), Refusal>
    ensures gives { Gives (λ x. (x.0, x.1.now)) result (list_head_at bytes.now) }
    ensures shorter { IfOk result (λ x. length x.1.now < length bytes.now) }
{
    let (byte, rest) = take_byte(bytes)?;
    if byte / 16 == 15 {
        let (count, rest) = take_number(rest)?;
        return Ok(((byte % 16, count), rest));
    }
    Ok(((byte % 16, u64::from(byte / 16)), rest))
}

fn take_map_types(count: u64, bytes: &[u8]) -> Result<((u8, u8, u64), &[u8]), Refusal>
    ensures gives { Gives (λ x. (x.0, x.1.now)) result (map_types_at count bytes.now) }
    ensures no_longer { IfOk result (λ x. length x.1.now ≤ length bytes.now) }
{
    if count == 0 {
        return Ok(((0, 0, 0), bytes));
    }
    let (byte, rest) = take_byte(bytes)?;
    if kind_from(byte / 16).is_none() || kind_from(byte % 16).is_none() {
        return Err(Refusal::Fault(Fault::Outside));
    }
    Ok(((byte / 16, byte % 16, count), rest))
}

/// The numbers of the types of a map's keys and values, and how many pairs it has.
#[tactic(auto, unfolding(crate::specs::Reading::map_head_at))]
pub fn take_map_head(bytes: &[u8]) -> Result<((u8, u8, u64), &[u8]), Refusal>
    ensures gives { Gives (λ x. (x.0, x.1.now)) result (map_head_at bytes.now) }
    ensures shorter { IfOk result (λ x. length x.1.now < length bytes.now) }
{
    let (count, rest) = take_number(bytes)?;
    take_map_types(count, rest)
}

fn take_id(last: i16, step: u8, bytes: &[u8]) -> Result<(i16, &[u8]), Refusal>
    requires { step < 16 }
    ensures gives { Gives (λ x. (x.0, x.1.now)) result (id_at last step bytes.now) }
    ensures no_longer { IfOk result (λ x. length x.1.now ≤ length bytes.now) }
{
    if step == 0 {
        return take_i16(bytes);
    }
    let id = i32::from(last) + i32::from(step);
    if id > 32767 {
        return Err(Refusal::Fault(Fault::Outside));
    }
    Ok((id as i16, bytes))
}

/// A field's id and kind, or `None` at the end of the struct.
#[tactic(auto, unfolding(crate::specs::Reading::field_head_at))]
pub fn take_field_head(last: i16, bytes: &[u8]) -> Result<(Option<(i16, Kind)>, &[u8]), Refusal>
    ensures gives { Gives (λ x. (x.0, x.1.now)) result (field_head_at last bytes.now) }
    ensures shorter { IfOk result (λ x. length x.1.now < length bytes.now) }
{
    let (byte, rest) = take_byte(bytes)?;
    if byte == 0 {
        return Ok((None, rest));
    }
    let Some(kind) = kind_from(byte % 16) else {
        return Err(Refusal::Fault(Fault::Outside));
    };
    let (id, rest) = take_id(last, byte / 16, rest)?;
    Ok((Some((id, kind)), rest))
}
