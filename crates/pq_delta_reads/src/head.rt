//! The header of delta packing.

ghost use Rattle.std.specs.Prelude.{◌≡◌, ◌<◌, Some, None, MatchOption, IfSome, true, length};
ghost use Rattle.pq_runs.specs.DeltaReading.{head_at, is_good};
ghost use Rattle.pq_delta_reads.specs.Reading.{head_of};

use pq_numbers::{from_zigzag, take_varint};

/// The numbers in a block, the miniblocks in a block, the count of all numbers, and the first number.
#[derive(Drop)]
pub struct Head {
    pub size: u64,
    pub miniblocks: u64,
    pub count: u64,
    pub first: i64,
}

// Whether blocks have a multiple of 128 numbers, in miniblocks of a multiple of 32.
fn is_good(size: u64, miniblocks: u64) -> bool
    ensures { result ≡ is_good size miniblocks }
{
    if size == 0 || miniblocks == 0 {
        return false;
    }
    size % 128 == 0 && size % miniblocks == 0 && size / miniblocks % 32 == 0
}

/// The header at the front, and the bytes behind it. `None` where none stands there.
pub fn take_head(bytes: &[u8]) -> Option<(Head, &[u8])>
    ensures gives { MatchOption result (head_at bytes.now ≡ None) (λ x. head_at bytes.now
        ≡ Some (head_of x.0 x.1.now)) }
    ensures good { IfSome result (λ x. is_good x.0.size x.0.miniblocks ≡ true) }
    ensures shorter { IfSome result (λ x. length x.1.now < length bytes.now) }
{
    let (size, rest) = take_varint(bytes)?;
    let (miniblocks, rest) = take_varint(rest)?;
    let (count, rest) = take_varint(rest)?;
    let (first, rest) = take_varint(rest)?;
    if !is_good(size, miniblocks) {
        return None;
    }
    let first = from_zigzag(first);
    let head = Head {
        size,
        miniblocks,
        count,
        first,
    };
    Some((head, rest))
}
