//! Plain bits.

ghost use Rattle.std.specs.Prelude.{◌≡◌, ◌++◌, ℕ, List, OnOk, IfErr, map, Bool};
ghost use Rattle.std.specs.Iterator.{IsFinite, Drains};
ghost use Rattle.columns_base.specs.declared.error.Error.TheVariants.{Memory};
ghost use Rattle.pq_runs.specs.Listed.{bit, count};
ghost use Rattle.pq_runs.specs.Packing.{ArePacked};
ghost use Rattle.pq_runs.specs.Writing.{Extends};

use crate::pack::{push_rest, push_word};
use columns_base::{Error, Result};
use std::alloc::AllocError;

// Appends one bit for each value. After an error some of them may stand there.
fn push_bits<I: Iterator<Item = bool>>(
    out: &mut Vec<u8>,
    values: I,
) -> std::result::Result<(), AllocError>
    requires can { I.can_next values }
    requires ends { IsFinite (I.remaining values) }
    ensures ok { OnOk result ((vs : List Bool) × Drains I.next_gives values vs × (text : List ℕ)
        × (out.new.items ≡ out.old.items ++ text) × ArePacked 1 (map bit vs) text) }
    ensures kept { Extends out.old.items out.new.items }
{
    let mut held: u64 = 0;
    let mut bits: u32 = 0;
    for value in values {
        let one: u64 = if value { 1 } else { 0 };
        held = push_word(out, held + (one << bits), bits + 1)?;
        bits = (bits + 1) % 32;
    }
    push_rest(out, held, bits)
}

/// Appends one bit for each value, lowest first (Parquet format, Encodings, "Plain", BOOLEAN).
///
/// # Errors
///
/// Want of memory; `out` is then as before.
pub fn bitpacked_encode<I: Iterator<Item = bool>>(
    out: &mut Vec<u8>,
    values: I,
    length: usize,
) -> Result<()>
    requires can { I.can_next values }
    requires ends { IsFinite (I.remaining values) }
    requires gives { (vs : List Bool) → Drains I.next_gives values vs → count vs ≡ length }
    ensures ok { OnOk result ((vs : List Bool) × Drains I.next_gives values vs × (text : List ℕ)
        × (out.new.items ≡ out.old.items ++ text) × ArePacked 1 (map bit vs) text) }
    ensures err { IfErr result (λ e. (e ≡ Memory) × (out.new.items ≡ out.old.items)) }
{
    let before = out.len();
    if push_bits(out, values).is_err() {
        out.truncate(before);
        return Err(Error::Memory);
    }
    Ok(())
}
