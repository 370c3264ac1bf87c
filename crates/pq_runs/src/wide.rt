//! Packing numbers of up to 64 bits, as delta packing has them.

ghost use Rattle.std.specs.Prelude.{◌≡◌, ◌<◌, ◌≤◌, ◌^◌, ◌+◌, ◌-◌, ◌*◌, ◌%◌, ◌++◌, ℕ, List, length, replicate, OnOk, IfOk, All};
ghost use Rattle.pq_numbers.specs.Bits.{unpacked};
ghost use Rattle.pq_runs.specs.Packing.{HoldsIn, ArePacked};
ghost use Rattle.pq_runs.specs.Writing.{Extends};

use crate::pack::push_rest;
use std::alloc::AllocError;

// Appends the lowest eight bytes where there are as many, and gives what is left.
fn push_double_word(out: &mut Vec<u8>, held: u128, bits: u32) -> Result<u128, AllocError>
    requires most { bits < 128 }
    requires small { held < 2 ^ bits }
    ensures ok { IfOk result (λ left. (text : List ℕ) × (out.new.items ≡ out.old.items ++ text)
        × HoldsIn bits held text (bits % 64) left) }
    ensures kept { Extends out.old.items out.new.items }
{
    if bits < 64 {
        return Ok(held);
    }
    let word = (held % (1 << 64)) as u64;
    out.extend_from_slice(&word.to_le_bytes())?;
    Ok(held >> 64)
}

/// Appends the numbers in as many bytes as they need, eight bytes at once.
pub fn push_packed_wide(out: &mut Vec<u8>, numbers: &[u64], width: u32) -> Result<(), AllocError>
    requires fits { width ≤ 64 }
    requires below { All (λ v. v < 2 ^ width) numbers.now }
    ensures ok { OnOk result ((text : List ℕ) × (out.new.items ≡ out.old.items ++ text)
        × ArePacked width numbers.now text) }
    ensures kept { Extends out.old.items out.new.items }
{
    let mut held: u128 = 0;
    let mut bits: u32 = 0;
    for number in numbers {
        held = push_double_word(out, held + (u128::from(*number) << bits), bits + width)?;
        bits = (bits + width) % 64;
    }
    push_rest(out, held as u64, bits)
}
