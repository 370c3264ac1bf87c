//! Packing numbers of a few bits.

ghost use Rattle.std.specs.Prelude.{◌≡◌, ◌<◌, ◌≤◌, ◌^◌, ◌+◌, ◌*◌, ◌/◌, ◌%◌, ◌++◌, ℕ, List, length, OnOk, IfOk, All};
ghost use Rattle.pq_numbers.specs.Texts.{number_of};
ghost use Rattle.pq_runs.specs.Packing.{HoldsIn, ArePacked};
ghost use Rattle.pq_runs.specs.Writing.{Extends};

use std::alloc::AllocError;

// Appends the whole bytes of so many bits, and gives what is left.
pub fn push_whole_bytes(out: &mut Vec<u8>, held: u64, bits: u32) -> Result<u64, AllocError>
    requires { held < 2 ^ bits }
    ensures ok { IfOk result (λ left. (text : List ℕ) × (out.new.items ≡ out.old.items ++ text)
        × HoldsIn bits held text (bits % 8) left) }
    ensures kept { Extends out.old.items out.new.items }
{
    let mut left = held;
    let mut more = bits;
    while more >= 8 {
        out.push((left % 256) as u8)?;
        left /= 256;
        more -= 8;
    }
    Ok(left)
}

// Appends the lowest four bytes where there are as many, and gives what is left.
pub fn push_word(out: &mut Vec<u8>, held: u64, bits: u32) -> Result<u64, AllocError>
    requires most { bits < 64 }
    requires small { held < 2 ^ bits }
    ensures ok { IfOk result (λ left. (text : List ℕ) × (out.new.items ≡ out.old.items ++ text)
        × HoldsIn bits held text (bits % 32) left) }
    ensures kept { Extends out.old.items out.new.items }
{
    if bits < 32 {
        return Ok(held);
    }
    let word = (held % (1 << 32)) as u32;
    out.extend_from_slice(&word.to_le_bytes())?;
    Ok(held >> 32)
}

// Appends what is left, in whole bytes.
pub fn push_rest(out: &mut Vec<u8>, held: u64, bits: u32) -> Result<(), AllocError>
    requires most { bits < 64 }
    requires small { held < 2 ^ bits }
    ensures ok { OnOk result ((text : List ℕ) × (out.new.items ≡ out.old.items ++ text) × (length text ≡ (bits + 7) / 8)
        × (number_of text ≡ held)) }
    ensures kept { Extends out.old.items out.new.items }
{
    push_whole_bytes(out, held, (bits + 7) / 8 * 8)?;
    Ok(())
}

/// Appends the numbers in as many bytes as they need, four bytes at once.
pub fn push_packed(out: &mut Vec<u8>, numbers: &[u32], width: u32) -> Result<(), AllocError>
    requires fits { width ≤ 32 }
    requires below { All (λ v. v < 2 ^ width) numbers.now }
    ensures ok { OnOk result ((text : List ℕ) × (out.new.items ≡ out.old.items ++ text)
        × ArePacked width numbers.now text) }
    ensures kept { Extends out.old.items out.new.items }
{
    let mut held: u64 = 0;
    let mut bits: u32 = 0;
    for number in numbers {
        held = push_word(out, held + (u64::from(*number) << bits), bits + width)?;
        bits = (bits + width) % 32;
    }
    push_rest(out, held, bits)
}
