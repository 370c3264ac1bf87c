//! Lists of numbers and of truth values as runs.

ghost use Rattle.std.specs.Prelude.{◌≡◌, ◌<◌, ◌≤◌, ◌^◌, ◌%◌, ℕ, List, OnOk, IfErr, All, map, Bool};
ghost use Rattle.std.specs.Iterator.{IsFinite, Drains};
ghost use Rattle.columns_base.specs.declared.error.Error.TheVariants.{Memory};
ghost use Rattle.pq_runs.specs.Listed.{count, bit};
ghost use Rattle.pq_runs.specs.Writing.{Extends, AppendsRuns};

use crate::writer::RunWriter;
use columns_base::{Error, Result};
use std::alloc::AllocError;

// The lowest bits of a number.
fn low_bits(number: u32, width: u32) -> u32
    requires { width ≤ 32 }
    ensures value { result ≡ number % 2 ^ width }
    ensures below { result < 2 ^ width }
{
    (u64::from(number) % (1 << width)) as u32
}

fn encode_numbers<I: Iterator<Item = u32>>(
    out: &mut Vec<u8>,
    values: I,
    width: u32,
) -> std::result::Result<(), AllocError>
    requires can { I.can_next values }
    requires ends { IsFinite (I.remaining values) }
    requires some { 1 ≤ width }
    requires fits { width ≤ 32 }
    ensures ok { OnOk result ((vs : List ℕ) × Drains I.next_gives values vs
        × AppendsRuns width out.old.items out.new.items (map (λ v. v % 2 ^ width) vs)) }
    ensures kept { Extends out.old.items out.new.items }
{
    let mut writer = RunWriter::new(width);
    for value in values {
        writer.push_some(out, low_bits(value, width), 1)?;
    }
    writer.finish(out)
}

/// Appends written runs of the numbers, each below `2^width`: whole groups, the last filled up with zeros, in little more than `width` bits a
/// number, and in at most `2 * width + 19` bytes for each stretch of up to `2^40` equal numbers and one byte, so long repetitions are repeated runs.
///
/// # Errors
///
/// Want of memory; `out` is then as before.
pub fn encode_u32<I: Iterator<Item = u32>>(
    out: &mut Vec<u8>,
    values: I,
    length: usize,
    width: u32,
) -> Result<()>
    requires can { I.can_next values }
    requires ends { IsFinite (I.remaining values) }
    requires fits { width ≤ 32 }
    requires gives { (vs : List ℕ) → Drains I.next_gives values vs → (count vs ≡ length) × All (λ v. v < 2 ^ width) vs }
    ensures ok { OnOk result ((vs : List ℕ) × Drains I.next_gives values vs
        × AppendsRuns width out.old.items out.new.items vs) }
    ensures err { IfErr result (λ e. (e ≡ Memory) × (out.new.items ≡ out.old.items)) }
{
    if width == 0 {
        for _value in values {}
        return Ok(());
    }
    let before = out.len();
    if encode_numbers(out, values, width).is_err() {
        out.truncate(before);
        return Err(Error::Memory);
    }
    Ok(())
}

// A truth value as a number of one bit.
fn bit_of(value: bool) -> u32
    ensures value { result ≡ bit value }
    ensures below { result < 2 }
{
    if value { 1 } else { 0 }
}

fn encode_bools<I: Iterator<Item = bool>>(
    out: &mut Vec<u8>,
    values: I,
) -> std::result::Result<(), AllocError>
    requires can { I.can_next values }
    requires ends { IsFinite (I.remaining values) }
    ensures ok { OnOk result ((vs : List Bool) × Drains I.next_gives values vs
        × AppendsRuns 1 out.old.items out.new.items (map bit vs)) }
    ensures kept { Extends out.old.items out.new.items }
{
    let mut writer = RunWriter::new(1);
    for value in values {
        writer.push_some(out, bit_of(value), 1)?;
    }
    writer.finish(out)
}

/// Appends written runs of width 1, as `encode_u32` does.
///
/// # Errors
///
/// Want of memory; `out` is then as before.
pub fn encode_bool<I: Iterator<Item = bool>>(
    out: &mut Vec<u8>,
    values: I,
    length: usize,
) -> Result<()>
    requires can { I.can_next values }
    requires ends { IsFinite (I.remaining values) }
    requires gives { (vs : List Bool) → Drains I.next_gives values vs → count vs ≡ length }
    ensures ok { OnOk result ((vs : List Bool) × Drains I.next_gives values vs
        × AppendsRuns 1 out.old.items out.new.items (map bit vs)) }
    ensures err { IfErr result (λ e. (e ≡ Memory) × (out.new.items ≡ out.old.items)) }
{
    let before = out.len();
    if encode_bools(out, values).is_err() {
        out.truncate(before);
        return Err(Error::Memory);
    }
    Ok(())
}
