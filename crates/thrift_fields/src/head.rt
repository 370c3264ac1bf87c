//! What stands in front of a field's value.
ghost use Rattle.std.specs.Prelude.{◌≡◌, ◌<◌, ◌-ℤ◌, ◌++◌, OnOk, pos};
ghost use Rattle.pq_numbers.specs.Varint.{varint};
ghost use Rattle.pq_numbers.specs.Zigzag.{zigzag};
ghost use Rattle.pq_thrift.specs.Spelling.{field_head, list_head, short};

use pq_numbers::{push_varint, to_zigzag};
use std::alloc::AllocError;

fn short_step(last: u8, id: u8) -> u8
    ensures { result ≡ short (pos id -ℤ pos last) }
{
    let step = i32::from(id) - i32::from(last);
    if step >= 0 && step < 16 {
        step as u8
    } else {
        0
    }
}

/// Appends a number with a sign.
pub fn push_signed(out: &mut Vec<u8>, number: i64) -> Result<(), AllocError>
    ensures { OnOk result (out.new.items ≡ out.old.items ++ varint (zigzag number)) }
{
    push_varint(out, to_zigzag(number))
}

/// Appends what stands in front of the value of a field with the id, behind one with the id `last`.
#[tactic(auto, unfolding(pq_thrift::specs::Spelling::field_head))]
pub fn push_head(out: &mut Vec<u8>, last: u8, id: u8, kind: u8) -> Result<(), AllocError>
    requires { kind < 16 }
    ensures { OnOk result (out.new.items ≡ out.old.items ++ field_head (pos last) (pos id) kind) }
{
    let step = short_step(last, id);
    if step == 0 {
        out.push(kind)?;
        return push_signed(out, i64::from(id));
    }
    out.push(16 * step + kind)?;
    Ok(())
}

/// Appends what stands in front of the elements of a list, by the number of their type.
#[tactic(auto, unfolding(pq_thrift::specs::Spelling::list_head))]
pub fn push_count(out: &mut Vec<u8>, number: u8, count: usize) -> Result<(), AllocError>
    requires { number < 16 }
    ensures { OnOk result (out.new.items ≡ out.old.items ++ list_head number count) }
{
    if count < 15 {
        out.push(16 * count as u8 + number)?;
        return Ok(());
    }
    out.push(240 + number)?;
    push_varint(out, count as u64)
}
