//! Blocks of delta packing.

ghost use Rattle.std.specs.Prelude.{◌≡◌, ◌<◌, ◌≤◌, ◌^◌, ◌+◌, ◌-◌, ◌*◌, ◌/◌, ◌++◌, ◌≤ℤ◌, ◌+ℤ◌, pos, ℕ, ℤ, List, length, take, drop, map, replicate, OnOk, All, Contains, FitsSigned};
ghost use Rattle.std.specs.Int.{Width};
ghost use Rattle.pq_numbers.specs.Bits.{unpacked};
ghost use Rattle.pq_runs.specs.DeltaWriting.{AreWidths, IsBlock};
ghost use Rattle.pq_runs.specs.Packing.{IsLeastWidth};
ghost use Rattle.pq_runs.specs.WrittenDelta.{WrittenMiniblocks};
ghost use Rattle.pq_runs.specs.Writing.{Extends};

use pq_numbers::{push_varint, to_zigzag};
use pq_runs::{get_bit_width, push_packed_wide};
use std::alloc::AllocError;

// The least of the deltas.
fn least_of(deltas: &[i64]) -> i64
    requires { 0 < length deltas.now }
    ensures below { All (λ d. result ≤ℤ d) deltas.now }
    ensures one { Contains deltas.now result }
{
    let mut least = deltas[0];
    for delta in deltas {
        if *delta < least {
            least = *delta;
        }
    }
    least
}

// How far each delta is above the least.
fn rises(deltas: &[i64], least: i64, out: &mut [u64])
    requires size { length out.old ≡ length deltas.now }
    requires least { All (λ d. least ≤ℤ d) deltas.now }
    ensures { map (λ m. least +ℤ pos m) out.new ≡ deltas.now }
{
    for i in 0..deltas.len() {
        out[i] = deltas[i].abs_diff(least);
    }
}

// The least width that holds the numbers.
fn width_of(numbers: &[u64]) -> u32
    ensures fits { result ≤ 64 }
    ensures least { IsLeastWidth result numbers.now }
{
    let mut most: u64 = 0;
    for number in numbers {
        if *number > most {
            most = *number;
        }
    }
    get_bit_width(most)
}

// The numbers of the first miniblock.
fn first_of(numbers: &[u64]) -> &[u64]
    ensures { result.now ≡ take 32 numbers.now }
{
    if numbers.len() < 32 {
        return numbers;
    }
    &numbers[..32]
}

// The numbers behind the first miniblock.
fn others_of(numbers: &[u64]) -> &[u64]
    ensures { result.now ≡ drop 32 numbers.now }
{
    if numbers.len() < 32 {
        return &[];
    }
    &numbers[32..]
}

// The width of each miniblock.
fn widths_of(numbers: &[u64]) -> [u8; 4]
    requires { length numbers.now ≤ 128 }
    ensures widths { AreWidths result numbers.now }
    ensures four { length result ≡ 4 }
{
    let second = others_of(numbers);
    let third = others_of(second);
    let fourth = others_of(third);
    [
        width_of(first_of(numbers)) as u8,
        width_of(first_of(second)) as u8,
        width_of(first_of(third)) as u8,
        width_of(first_of(fourth)) as u8,
    ]
}

// Appends so many zeros.
fn push_zeros(out: &mut Vec<u8>, count: usize) -> Result<(), AllocError>
    ensures ok { OnOk result (out.new.items ≡ out.old.items ++ replicate count 0) }
    ensures kept { Extends out.old.items out.new.items }
{
    for _ in 0..count {
        out.push(0)?;
    }
    Ok(())
}

// Appends a miniblock, filled up with zeros.
fn push_miniblock(out: &mut Vec<u8>, numbers: &[u64], width: u32) -> Result<(), AllocError>
    requires fits { width ≤ 64 }
    requires few { length numbers.now ≤ 32 }
    requires below { All (λ v. v < 2 ^ width) numbers.now }
    ensures ok { OnOk result ((text : List ℕ) × (out.new.items ≡ out.old.items ++ text) × (length text ≡ 4 * width)
        × (unpacked width 32 text ≡ numbers.now ++ replicate (32 - length numbers.now) 0)) }
    ensures kept { Extends out.old.items out.new.items }
{
    push_packed_wide(out, numbers, width)?;
    let width = width as usize;
    push_zeros(out, 4 * width - (width * numbers.len() + 7) / 8)
}

// Appends the miniblocks that are needed.
fn push_miniblocks(out: &mut Vec<u8>, numbers: &[u64], widths: &[u8]) -> Result<(), AllocError>
    requires { AreWidths widths.now numbers.now }
    ensures ok { OnOk result ((text : List ℕ) × (out.new.items ≡ out.old.items ++ text)
        × ((most : ℕ) → All (λ m. m < 2 ^ most) numbers.now → WrittenMiniblocks most widths.now text numbers.now)
        × (length text ≤ 8 * length numbers.now + 248)) }
    ensures kept { Extends out.old.items out.new.items }
{
    if numbers.is_empty() {
        return Ok(());
    }
    match widths {
        [] => Ok(()),
        [width, others @ ..] => {
            push_miniblock(out, first_of(numbers), u32::from(*width))?;
            push_miniblocks(out, others_of(numbers), others)
        }
    }
}

// Appends a block.
pub fn push_block(out: &mut Vec<u8>, deltas: &[i64]) -> Result<(), AllocError>
    requires some { 0 < length deltas.now }
    requires few { length deltas.now ≤ 128 }
    ensures ok { OnOk result ((text : List ℕ) × (out.new.items ≡ out.old.items ++ text)
        × ((v : Width) → All (FitsSigned v) deltas.now → IsBlock v text deltas.now)) }
    ensures kept { Extends out.old.items out.new.items }
{
    let least = least_of(deltas);
    let mut buffer = [0_u64; 128];
    let numbers = &mut buffer[..deltas.len()];
    rises(deltas, least, numbers);
    let widths = widths_of(numbers);
    push_varint(out, to_zigzag(least))?;
    out.extend_from_slice(&widths)?;
    push_miniblocks(out, numbers, &widths)
}
