//! Runs of numbers of three bits, decoded alone.
use anyhow::Result;
use pq_runs::{HybridRleDecoder, decode};
use std::alloc::Global;
use std::time::Instant;

/// How many numbers the runs have.
const COUNT: usize = 1_048_576;

/// How the numbers stand.
#[derive(Clone, Copy, Drop)]
pub enum Runs {
    /// Packed, all in one run.
    Packed,
    /// In runs of 32 copies.
    Copies,
}

// A run of 131,072 groups of eight numbers as by chance.
fn packed(alloc: Global) -> Result<Vec<u8>> {
    let mut bytes = Vec::from_slice(alloc, &[0x81, 0x80, 0x10])?;
    let mut word: u32 = 1;
    for _ in 0..393_216 {
        word = word.wrapping_mul(1_664_525).wrapping_add(1_013_904_223);
        bytes.push((word >> 24) as u8)?;
    }
    Ok(bytes)
}

fn copies(alloc: Global) -> Result<Vec<u8>> {
    let mut bytes = Vec::new(alloc);
    for i in 0..32_768_u32 {
        bytes.push(64)?;
        bytes.push((i % 8) as u8)?;
    }
    Ok(bytes)
}

// The sum of all numbers, which come one by one.
fn sum_of(bytes: &[u8]) -> Result<u32> {
    let mut sum: u32 = 0;
    for number in HybridRleDecoder::try_new(bytes, 3, COUNT)? {
        sum = sum.wrapping_add(number?);
    }
    Ok(sum)
}

// Tells how long a number took.
fn tell(rt: &HostRuntime, name: &str, nanoseconds: u128, times: usize) -> Result<()> {
    let count = (COUNT as u128).saturating_mul(times as u128).max(1);
    eprintln!(rt;
        "{name}: {} hundredths of a nanosecond a number",
        nanoseconds.saturating_mul(100) / count
    )?;
    Ok(())
}

/// Decodes the runs so many times one by one, and as often as a whole list.
pub fn measure(rt: &HostRuntime, runs: Runs, times: usize) -> Result<()> {
    let (name, whole, bytes) = match runs {
        Runs::Packed => ("packed numbers", "a list of them", packed(rt.alloc())?),
        Runs::Copies => ("copies", "a list of them", copies(rt.alloc())?),
    };
    let start = Instant::now(rt)?;
    let mut sum: u32 = 0;
    for _ in 0..times {
        sum = sum.wrapping_add(sum_of(&bytes)?);
    }
    tell(rt, name, start.elapsed(rt)?.as_nanos(), times)?;
    let start = Instant::now(rt)?;
    let mut count: usize = 0;
    for _ in 0..times {
        count = count.saturating_add(decode(rt.alloc(), &bytes, 3, COUNT)?.len());
    }
    tell(rt, whole, start.elapsed(rt)?.as_nanos(), times)?;
    println!(rt; "{name}: sum {sum}, {count} in lists")?;
    Ok(())
}
