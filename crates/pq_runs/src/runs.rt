//! One run after another.

ghost use Rattle.std.specs.Prelude.{◌≡◌, ◌<◌, ◌≤◌, ◌^◌, ◌+◌, ◌*◌, ◌/◌, ◌%◌, ◌++◌, ℕ, List, [], length, OnOk, All};
ghost use Rattle.pq_numbers.specs.Varint.{varint};
ghost use Rattle.pq_runs.specs.Packing.{ArePacked};
ghost use Rattle.pq_runs.specs.Writing.{Extends, Wrote, IsWhole};

use crate::bit_block::BitBlock;
use crate::block::Block;
use crate::group::push_narrow;
use crate::pack::{push_packed, push_whole_bytes};
use pq_numbers::push_varint;
use std::alloc::AllocError;

// A run of packed numbers, which are whole groups.
pub fn push_groups(out: &mut Vec<u8>, numbers: &[u32], width: u32) -> Result<(), AllocError>
    requires fits { width ≤ 32 }
    requires few { length numbers.now ≤ 504 }
    requires whole { length numbers.now % 8 ≡ 0 }
    requires below { All (λ v. v < 2 ^ width) numbers.now }
    ensures ok { OnOk result ((body : List ℕ)
        × (out.new.items ≡ out.old.items ++ (varint (2 * (length numbers.now / 8) + 1) ++ body))
        × ArePacked width numbers.now body) }
    ensures kept { Extends out.old.items out.new.items }
{
    push_varint(out, 2 * (numbers.len() as u64 / 8) + 1)?;
    push_packed(out, numbers, width)
}

// The same of numbers of at most eight bits.
pub fn push_narrow_groups(out: &mut Vec<u8>, numbers: &[u8], width: u32) -> Result<(), AllocError>
    requires fits { width ≤ 8 }
    requires few { length numbers.now ≤ 504 }
    requires whole { length numbers.now % 8 ≡ 0 }
    requires below { All (λ v. v < 2 ^ width) numbers.now }
    ensures ok { OnOk result ((body : List ℕ)
        × (out.new.items ≡ out.old.items ++ (varint (2 * (length numbers.now / 8) + 1) ++ body))
        × ArePacked width numbers.now body) }
    ensures kept { Extends out.old.items out.new.items }
{
    let groups = numbers.len() as u64 / 8;
    push_varint(out, 2 * groups + 1)?;
    push_narrow(out, numbers, width)
}

// A run of packed numbers of one bit, which are whole groups.
pub fn push_bit_groups(out: &mut Vec<u8>, bits: &BitBlock) -> Result<(), AllocError>
    requires whole { length bits.now % 8 ≡ 0 }
    ensures ok { OnOk result ((body : List ℕ)
        × (out.new.items ≡ out.old.items ++ (varint (2 * (length bits.now / 8) + 1) ++ body))
        × ArePacked 1 bits.now body) }
    ensures kept { Extends out.old.items out.new.items }
{
    push_varint(out, 2 * (bits.len() as u64 / 8) + 1)?;
    out.extend_from_slice(bits.packed())
}

// A run of copies.
pub fn push_copies(out: &mut Vec<u8>, number: u32, count: u64, width: u32) -> Result<(), AllocError>
    requires fits { width ≤ 32 }
    requires few { count < 2 ^ 62 }
    requires below { number < 2 ^ width }
    ensures ok { OnOk result ((text : List ℕ) × (out.new.items ≡ out.old.items ++ (varint (2 * count) ++ text))
        × IsWhole width number text) }
    ensures kept { Extends out.old.items out.new.items }
{
    push_varint(out, 2 * count)?;
    push_whole_bytes(out, u64::from(number), (width + 7) / 8 * 8)?;
    Ok(())
}

// Writes the block, which is whole groups.
pub fn flush(out: &mut Vec<u8>, block: &mut Block, width: u32) -> Result<(), AllocError>
    requires some { 1 ≤ width }
    requires fits { width ≤ 32 }
    requires whole { length block.old % 8 ≡ 0 }
    requires below { All (λ v. v < 2 ^ width) block.old }
    ensures ok { OnOk result ((block.new ≡ []) × ((start xs : List ℕ) → Wrote width start out.old.items block.old xs
        → Wrote width start out.new.items [] xs)) }
    ensures size { OnOk result (8 * length out.new.items ≤ 8 * length out.old.items + 8 + width * length block.old) }
    ensures kept { Extends out.old.items out.new.items }
{
    if block.len() > 0 {
        block.push_run(out, width)?;
        block.clear();
    }
    Ok(())
}
