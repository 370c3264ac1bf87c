//! Reads a source to its end.
ghost use Rattle.std.specs.Prelude.{ℕ, List, ◌≡◌, ◌≤◌, ◌<◌, ◌+◌, ◌++◌, ◌⊎◌, length, take, replicate, IfOk, IfErr, OnOk, OnErr, IsErrOf};
ghost use Rattle.std.specs.Io.KnownBytes.{Consumes, IsAtEnd, Keeps};
ghost use Rattle.columns_base.specs.declared.error.Error.{Error};
ghost use Rattle.columns_base.specs.declared.error.Limit.{Limit};
ghost use Rattle.pq_io.specs.Causes.{Rose};
ghost use Rattle.pq_io.specs.Reading.{GaveAll, GaveSome, GavePast};

use crate::{Failed, Source};
use columns_base::{Error, Limit, Result};
use std::alloc::Global;

/// The most bytes that a source is asked for at once.
const PULL_LENGTH: usize = 65_536;

/// How much room the vector begins with: so much that the C library moves it by pages where it grows, and copies nothing.
const FIRST_ROOM: usize = 262_144;

/// The most bytes that are cleared by one call: the C library clears longer stretches by one instruction that repeats (`rep stosb`).
const PIECE_LENGTH: usize = 2048;

// Appends so many zeros, some at a time.
fn append_zeros(bytes: &mut Vec<u8>, count: usize) -> Result<()>
    ensures ok { OnOk result (bytes.new.items ≡ bytes.old.items ++ replicate count 0) }
    ensures err { IfErr result (λ e. e ≡ Error.Memory) }
{
    let Some(end) = bytes.len().checked_add(count) else {
        return Err(Error::Memory);
    };
    while PIECE_LENGTH < end - bytes.len() {
        bytes.resize(bytes.len() + PIECE_LENGTH, 0)?;
    }
    bytes.resize(end, 0)?;
    Ok(())
}

// Moves the first bytes that are left to the places from `filled` on, and answers how many.
fn pull_behind<S: Source>(
    source: &mut S,
    places: &mut [u8],
    filled: usize,
) -> std::result::Result<usize, Failed>
    requires { filled ≤ length places.old }
    ensures len { length places.new ≡ length places.old }
    ensures gave { IfOk result (λ n. (filled + n ≤ length places.new)
        × ((bs : List ℕ) × Consumes (S.left source.old) (S.left source.new) bs
        × (take (filled + n) places.new ≡ take filled places.old ++ bs))) }
    ensures end { IfOk result (λ n. n ≡ 0 → filled < length places.old → IsAtEnd (S.left source.new)) }
    ensures failed { IfErr result (λ _. Keeps (S.left source.old) (S.left source.new)) }
    ensures later { S.faults source.old ≤ S.faults source.new }
    ensures cause { OnErr result (Rose (S.faults source.old) (S.faults source.new)) }
{
    source.pull(&mut places[filled..])
}

/// Reads all the bytes that are left, or one more than the limit. The vector begins with room for 256 KiB, and grows by what came, never by the
/// limit.
///
/// `ReadFault` comes only where the source's count of faults rose in this call, and `InputLimit(Bytes)` where it gave
/// more bytes than the limit.
pub fn read_all<S: Source>(alloc: Global, source: &mut S, byte_limit: usize) -> Result<Vec<u8>>
    ensures ok { IfOk result (λ bytes. GaveAll byte_limit (S.left source.old) (S.left source.new) bytes.items) }
    ensures some { GaveSome byte_limit (S.left source.old) (S.left source.new) }
    ensures limit { IsErrOf result (Error.InputLimit Limit.Bytes) → GavePast byte_limit (S.left source.old)
        (S.left source.new) }
    ensures later { S.faults source.old ≤ S.faults source.new }
    ensures fault { IsErrOf result Error.ReadFault → Rose (S.faults source.old) (S.faults source.new) }
    ensures only { IfErr result (λ e. (e ≡ Error.ReadFault) ⊎ (e ≡ Error.InputLimit Limit.Bytes) ⊎ (e ≡ Error.Memory)) }
{
    let mut bytes = Vec::with_capacity(alloc, FIRST_ROOM)?;
    let mut filled = 0;
    'reading: while filled <= byte_limit {
        if filled == bytes.len() {
            let room = (byte_limit - filled).saturating_add(1).min(PULL_LENGTH);
            append_zeros(&mut bytes, room)?;
        }
        match pull_behind(source, &mut bytes, filled) {
            Ok(0) => {
                bytes.truncate(filled);
                return Ok(bytes);
            }
            Ok(count) => filled += count,
            Err(_) => return Err(Error::ReadFault),
        }
    }
    Err(Error::InputLimit(Limit::Bytes))
}
