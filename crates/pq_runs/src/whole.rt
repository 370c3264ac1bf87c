//! Whole lists.

ghost use Rattle.std.specs.Prelude.{◌≡◌, ◌⊎◌, ◌<◌, ◌≤◌, ◌+◌, ◌-◌, ◌*◌, ◌^◌, ◌++◌, ◌∷◌, ℕ, List, [], length, take, replicate, OnOk, IfOk, IfErr, Err};
ghost use Rattle.columns_base.specs.declared.error.Error.TheVariants.{Memory};
ghost use Rattle.pq_numbers.specs.Bits.{unpacked};
ghost use Rattle.pq_runs.specs.Hybrid.{given, runs_items, fault};
ghost use Rattle.pq_runs.specs.Spelled.{Spelled};

use crate::bits::{eight_of, low_bytes, skip, unpack, whole_number};
use crate::run::{Run, take_run};
use crate::state::standing;
use columns_base::{Error, Result, S};
use std::alloc::Global;

// The first numbers.
fn front(numbers: &[u32], count: usize) -> &[u32]
    requires { count ≤ length numbers.now }
    ensures { result.now ≡ take count numbers.now }
{
    &numbers[..count]
}

// Appends so many copies, at most 64 at once, so that no claim sizes a reserve.
fn push_copies(numbers: &mut Vec<u32>, number: u32, count: usize) -> Result<()>
    ensures ok { OnOk result (numbers.new.items ≡ numbers.old.items ++ replicate count number) }
    ensures err { IfErr result (λ e. e ≡ Memory) }
{
    let copies = [number; 64];
    let mut left = count;
    while left >= 64 {
        numbers.extend_from_slice(&copies)?;
        left -= 64;
    }
    numbers.extend_from_slice(front(&copies, left))?;
    Ok(())
}

// Appends at most 64 packed numbers.
fn push_few(numbers: &mut Vec<u32>, body: &[u8], width: u32, count: usize) -> Result<()>
    requires fits { width ≤ 32 }
    requires enough { width * count ≤ 8 * length body.now }
    requires few { count ≤ 64 }
    ensures ok { OnOk result (numbers.new.items ≡ numbers.old.items ++ unpacked width count body.now) }
    ensures err { IfErr result (λ e. e ≡ Memory) }
{
    let mut buffer = [0_u32; 64];
    let part = &mut buffer[..count];
    unpack(body, width, part);
    numbers.extend_from_slice(part)?;
    Ok(())
}

// Appends so many packed numbers of at most eight bits, eight at once.
fn push_narrow(numbers: &mut Vec<u32>, body: &[u8], width: u32, count: usize) -> Result<()>
    requires fits { width ≤ 8 }
    requires enough { width * count ≤ 8 * length body.now }
    ensures ok { OnOk result (numbers.new.items ≡ numbers.old.items ++ unpacked width count body.now) }
    ensures err { IfErr result (λ e. e ≡ Memory) }
{
    let mut rest = body;
    let mut left = count;
    while left >= 8 {
        numbers.extend_from_slice(&eight_of(low_bytes(rest), width))?;
        rest = skip(rest, width as usize);
        left -= 8;
    }
    push_few(numbers, rest, width, left)
}

// Appends so many packed numbers, 64 at once.
fn push_wide(numbers: &mut Vec<u32>, body: &[u8], width: u32, count: usize) -> Result<()>
    requires fits { width ≤ 32 }
    requires enough { width * count ≤ 8 * length body.now }
    ensures ok { OnOk result (numbers.new.items ≡ numbers.old.items ++ unpacked width count body.now) }
    ensures err { IfErr result (λ e. e ≡ Memory) }
{
    let mut rest = body;
    let mut left = count;
    while left >= 64 {
        push_few(numbers, rest, width, 64)?;
        rest = skip(rest, 8 * width as usize);
        left -= 64;
    }
    push_few(numbers, rest, width, left)
}

// Appends so many packed numbers.
fn push_unpacked(numbers: &mut Vec<u32>, body: &[u8], width: u32, count: usize) -> Result<()>
    requires fits { width ≤ 32 }
    requires enough { width * count ≤ 8 * length body.now }
    ensures ok { OnOk result (numbers.new.items ≡ numbers.old.items ++ unpacked width count body.now) }
    ensures err { IfErr result (λ e. e ≡ Memory) }
{
    if width <= 8 {
        push_narrow(numbers, body, width, count)
    } else {
        push_wide(numbers, body, width, count)
    }
}

// Appends the numbers of the run at the front that are called for, and gives the bytes behind it.
fn append_run<'a>(
    numbers: &mut Vec<u32>,
    bytes: &'a [u8],
    width: u32,
    left: usize,
) -> Result<&'a [u8]>
    requires some { 0 < width }
    requires fits { width ≤ 32 }
    requires called { 0 < left }
    ensures ok { IfOk result (λ rest. (xs : List ℕ) × (numbers.new.items ≡ numbers.old.items ++ xs) × (length xs ≤ left)
        × (runs_items (length bytes.now) width left bytes.now
        ≡ given xs ++ runs_items (length rest.now) width (left - length xs) rest.now)) }
    ensures shorter { IfOk result (λ rest. length rest.now < length bytes.now) }
    ensures err { IfErr result (λ e. (e ≡ Memory) ⊎ ((e ≡ fault)
        × (runs_items (length bytes.now) width left bytes.now ≡ Err fault ∷ []))) }
{
    match take_run(bytes, width) {
        None => Err(Error::OutOfSpec(S::S6)),
        Some((Run::Repeated(value, count), rest)) => {
            let count = if count < left { count } else { left };
            push_copies(numbers, whole_number(value), count)?;
            Ok(rest)
        }
        Some((Run::Packed(body), rest)) => {
            push_unpacked(numbers, body, width, standing(body, width, left))?;
            Ok(rest)
        }
    }
}

/// The list of so many numbers of `width` bits that the runs at the front of the bytes spell.
///
/// # Errors
///
/// S6 exactly where they spell none of this length, or want of memory.
pub fn decode(alloc: Global, bytes: &[u8], width: u32, called: usize) -> Result<Vec<u32>>
    requires fits { width ≤ 32 }
    ensures ok { IfOk result (λ numbers. Spelled width called bytes.now numbers.items) }
    ensures err { IfErr result (λ e. (e ≡ Memory) ⊎ ((e ≡ fault)
        × ((xs : List ℕ) → Spelled width called bytes.now xs → ⊥))) }
{
    let mut numbers = Vec::new(alloc);
    if width == 0 {
        push_copies(&mut numbers, 0, called)?;
        return Ok(numbers);
    }
    let mut rest = bytes;
    while numbers.len() < called {
        let left = called - numbers.len();
        rest = append_run(&mut numbers, rest, width, left)?;
    }
    Ok(numbers)
}
