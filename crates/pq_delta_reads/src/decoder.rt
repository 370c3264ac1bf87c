//! Reading delta packing.

ghost use Rattle.std.specs.Prelude.{◌≡◌, ◌<◌, ◌≤◌, ◌+◌, ◌-◌, ◌^◌, ◌∷◌, [], length, min, take as front_of, drop, MatchResult, MatchOption, Some, None, nat_eq, true};
ghost use Rattle.std.specs.Iterator.{item_count};
ghost use Rattle.pq_runs.specs.DeltaReading.{head_at, is_good};
ghost use Rattle.pq_runs.specs.Listed.{count as count_of};
ghost use Rattle.pq_runs.specs.Hybrid.{fault};
ghost use Rattle.pq_delta_reads.specs.Blocks.{signed};
ghost use Rattle.pq_delta_reads.specs.Decoding.{IsBegun, IsDecoderOf, PassesBlock, Steps, StepsBlock, decoding};
ghost use Rattle.pq_delta_reads.specs.Reading.{IsState, head_of};

use crate::buffer::Buffer;
use crate::head::{Head, take_head};
use crate::state::State;
use crate::take::{find, find_standing, pass_standing, take, take_block};
use columns_base::{Error, Result, S};
use std::marker::Model;

/// The numbers that delta packing spells at the front of bytes (Parquet format, Encodings, "Delta Encoding"), one after another. Sums are taken
/// modulo 2^64, as signed numbers; a reader of 32-bit columns takes the low 32 bits. In the place of the first number that isn't there comes S6,
/// and nothing behind it. Takes no memory.
#[derive(Drop)]
pub struct Decoder<'a> {
    state: State<'a>,
}

impl<'a> Model for Decoder<'a> {
    ghost use Rattle.pq_delta_reads.specs.Decoding.{Decoding, decoding};
    ghost use Rattle.pq_delta_reads.specs.Reading.{IsState};

    ghost Value = { Decoding };

    ghost view = { λ d. decoding d.state };

    ghost invariant = { λ d. IsState d.state };
}

// The first number stands as a packed one above itself.
fn begin_state<'a>(head: &Head, body: &'a [u8], length: usize) -> State<'a>
    requires good { is_good head.now.size head.now.miniblocks ≡ true }
    requires within { count_of body.now ≤ length }
    ensures is { IsState result }
    ensures begun { IsBegun (head_of head.now body.now) (length - count_of body.now) (decoding result) }
{
    let count = head.count as usize;
    let standing = count.min(1);
    State {
        length,
        miniblocks: head.miniblocks as usize,
        groups: (head.size / head.miniblocks / 8) as usize,
        bytes: body,
        widths: &[],
        left: count - standing,
        missing: 0,
        packed: &[],
        width: 0,
        standing,
        cut: false,
        buffer: Buffer::new(),
        least: head.first,
        latest: 0,
    }
}

// A number takes the first place.
fn put_first(numbers: &mut [u64; 32], number: i64)
    ensures { signed (front_of 1 numbers.new) ≡ number ∷ [] }
{
    numbers[0] = number.cast_unsigned();
}

impl<'a> Decoder<'a> {
    /// The numbers of the delta spelling at the front of the bytes.
    ///
    /// # Errors
    ///
    /// S6 exactly where the bytes begin with no header: four varints, blocks of a multiple of 128 numbers, miniblocks of a multiple of 32.
    pub fn try_new(bytes: &'a [u8]) -> Result<Self>
        ensures { MatchResult result (IsDecoderOf bytes.now) (λ e. (e ≡ fault) × (head_at bytes.now ≡ None)) }
    {
        match take_head(bytes) {
            None => Err(Error::OutOfSpec(S::S6)),
            Some((head, body)) => Ok(Decoder {
                state: begin_state(&head, body, bytes.len()),
            }),
        }
    }

    /// How many numbers are left, by the header's count: none after an error.
    pub fn len(&self) -> usize
        ensures { result ≡ self.now.left }
    {
        self.state.buffer.len() + self.state.standing + self.state.left
    }

    /// Whether none are left.
    pub fn is_empty(&self) -> bool
        ensures { result ≡ nat_eq self.now.left 0 }
    {
        self.len() == 0
    }

    // The bytes that were taken, and those that the last miniblock lacks.
    fn taken(&self) -> u128
        ensures { result ≡ self.now.taken }
    {
        (self.state.length - self.state.bytes.len()) as u128 + self.state.missing
    }

    /// The bytes of the header, of the heads and widths of blocks and of the miniblocks that were taken so far, each as a whole. It passes the
    /// length of the bytes exactly where the last miniblock is cut, behind its last wanted number.
    pub fn consumed_bytes(&self) -> usize
        ensures { result ≡ min self.now.taken (2 ^ 64 - 1) }
    {
        let taken = self.taken();
        if taken < usize::MAX as u128 {
            taken as usize
        } else {
            usize::MAX
        }
    }

    // The bytes behind what was taken of these; none where the last miniblock is cut.
    pub(crate) fn behind<'b>(&self, bytes: &'b [u8]) -> Option<&'b [u8]>
        ensures { MatchOption result (length bytes.now < self.now.taken) (λ rest. (self.now.taken ≤ length bytes.now)
            × (rest.now ≡ drop self.now.taken bytes.now)) }
    {
        let taken = self.taken();
        if taken > bytes.len() as u128 {
            return None;
        }
        Some(&bytes[taken as usize..])
    }

    // The next numbers, at most 32, as numbers of 64 bits, and how many. In the place of the first that isn't there comes S6.
    pub(crate) fn next_block(&mut self, numbers: &mut [u64; 32]) -> Option<Result<usize>>
        ensures { StepsBlock self.old result numbers.new self.new }
    {
        if self.len() == 0 {
            return None;
        }
        if self.state.buffer.len() > 0 {
            put_first(numbers, take(&mut self.state));
            return Some(Ok(1));
        }
        match find_standing(&mut self.state) {
            Ok(()) => Some(Ok(take_block(&mut self.state, numbers))),
            Err(e) => Some(Err(e)),
        }
    }

    // Passes over the next numbers, and gives how many. In the place of the first that isn't there comes S6.
    pub(crate) fn pass_block(&mut self) -> Option<Result<usize>>
        ensures { PassesBlock self.old result self.new }
    {
        if self.len() == 0 {
            return None;
        }
        if self.state.buffer.len() > 0 {
            let _number = take(&mut self.state);
            return Some(Ok(1));
        }
        match find_standing(&mut self.state) {
            Ok(()) => Some(Ok(pass_standing(&mut self.state))),
            Err(e) => Some(Err(e)),
        }
    }
}

impl<'a> Iterator for Decoder<'a> {
    type Item = Result<i64>;

    ghost next_gives = { Steps };

    ghost remaining = { item_count (λ d. d.items) };

    fn next(&mut self) -> Option<Result<i64>> {
        if self.len() == 0 {
            return None;
        }
        match find(&mut self.state) {
            Ok(()) => Some(Ok(take(&mut self.state))),
            Err(e) => Some(Err(e)),
        }
    }
}
