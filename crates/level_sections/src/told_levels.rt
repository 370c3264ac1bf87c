//! Levels that are told as bytes go to their writer.
ghost use Rattle.std.specs.Prelude.{◌≡◌, ℕ, ◌+◌, ◌-◌, ◌^◌, ◌<◌, ◌≤◌, ◌++◌, All, List, IfOk, OnOk, drop, length, take};
ghost use Rattle.pq_runs.specs.Writing.{Extends, Keeps};

use pq_runs::RunWriter;
use std::alloc::AllocError;

// Some bytes of a slice.
#[inline(always)]
fn part(bytes: &[u8], at: usize, count: usize) -> &[u8]
    requires { at + count ≤ length bytes.now }
    ensures { result.now ≡ take count (drop at bytes.now) }
{
    &bytes[at..at + count]
}

// The levels of up to 64 bytes from a place on, and the place behind them.
fn push_some(
    out: &mut Vec<u8>,
    writer: &mut RunWriter,
    bytes: &[u8],
    at: usize,
) -> Result<usize, AllocError>
    requires some { at < length bytes.now }
    requires holds { All (λ v. v < 2 ^ writer.old.width) bytes.now }
    ensures width { writer.new.width ≡ writer.old.width }
    ensures after { IfOk result (λ next. (at < next) × (next ≤ length bytes.now)) }
    ensures added { IfOk result (λ next. (start xs : List ℕ) → Keeps start out.old.items writer.old xs
        → Keeps start out.new.items writer.new (xs ++ take (next - at) (drop at bytes.now))) }
    ensures kept { Extends out.old.items out.new.items }
{
    let count = (bytes.len() - at).min(64);
    writer.push_bytes(out, part(bytes, at, count))?;
    Ok(at + count)
}

// The levels of bytes.
pub fn push_told(out: &mut Vec<u8>, writer: &mut RunWriter, bytes: &[u8]) -> Result<(), AllocError>
    requires holds { All (λ v. v < 2 ^ writer.old.width) bytes.now }
    ensures width { writer.new.width ≡ writer.old.width }
    ensures added { OnOk result ((start xs : List ℕ) → Keeps start out.old.items writer.old xs
        → Keeps start out.new.items writer.new (xs ++ bytes.now)) }
    ensures kept { Extends out.old.items out.new.items }
{
    let mut at = 0;
    while at < bytes.len() {
        at = push_some(out, writer, bytes, at)?;
    }
    Ok(())
}
