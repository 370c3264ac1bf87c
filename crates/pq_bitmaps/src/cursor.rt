//! The runs that are still to come.
ghost use Rattle.std.specs.Prelude.{◌≡◌, ◌++◌, ◌+◌, ◌*◌, ◌<◌, ◌≤◌, ◌==◌, [], ◌∷◌, Err, length, min, IfOk, IfErr, MatchOption};
ghost use Rattle.pq_numbers.specs.Texts.{number_of};
ghost use Rattle.pq_runs.specs.Hybrid.{fault};
ghost use Rattle.pq_runs.specs.Taking.{IsPackedRun, IsRepeatedRun, NoRun};
ghost use Rattle.pq_bitmaps.specs.Called.{IsPart, bits_in, given_bits, bits_called};

use crate::part::HybridEncoded;
use columns_base::{Error, Result, S};
use pq_runs::hybrid_rle::{Decoder, Run};

/// The bytes behind the runs that were taken, and how many bits are still called for.
#[derive(Clone, Copy, Debug)]
pub struct Cursor<'a> {
    pub bytes: &'a [u8],
    pub left: usize,
}

// The truth value that is repeated.
fn truth_of(value: &[u8]) -> Option<bool>
    requires { length value.now ≡ 1 }
    ensures { MatchOption result (¬ (number_of value.now < 2)) (λ b. (number_of value.now < 2)
        × (b ≡ (number_of value.now == 1))) }
{
    match value[0] {
        0 => Some(false),
        1 => Some(true),
        _ => None,
    }
}

// How many bits stand in the bytes, of those that are called for.
fn standing(body: &[u8], left: usize) -> usize
    ensures { result ≡ min left (8 * length body.now) }
{
    let all = 8 * body.len() as u128;
    if all < left as u128 {
        all as usize
    } else {
        left
    }
}

// A run of copies, as far as it is called for.
fn take_copies<'a>(
    cursor: &mut Cursor<'a>,
    value: &'a [u8],
    count: usize,
    rest: &'a [u8],
) -> Result<HybridEncoded<'a>>
    requires some { 0 < cursor.old.left }
    requires run { IsRepeatedRun 1 cursor.old.bytes.now value.now count rest.now }
    ensures part { IfOk result (λ part. IsPart part × (cursor.new.left + length (bits_in part) ≡ cursor.old.left)) }
    ensures ok { IfOk result (λ part. bits_called cursor.old.left cursor.old.bytes.now
        ≡ given_bits (bits_in part) ++ bits_called cursor.new.left cursor.new.bytes.now) }
    ensures rest { cursor.new.bytes.now ≡ rest.now }
    ensures err { IfErr result (λ e. (e ≡ fault) × (bits_called cursor.old.left cursor.old.bytes.now ≡ Err fault ∷ [])
        × (cursor.new.left ≡ 0)) }
{
    cursor.bytes = rest;
    let count = count.min(cursor.left);
    if count == 0 {
        return Ok(HybridEncoded::Repeated(false, 0));
    }
    match truth_of(value) {
        Some(is_set) => {
            cursor.left -= count;
            Ok(HybridEncoded::Repeated(is_set, count))
        }
        None => {
            cursor.left = 0;
            Err(Error::OutOfSpec(S::S6))
        }
    }
}

// A run of packed bits, as far as it is called for.
fn take_packed<'a>(cursor: &mut Cursor<'a>, body: &'a [u8], rest: &'a [u8]) -> HybridEncoded<'a>
    requires some { 0 < cursor.old.left }
    requires run { IsPackedRun 1 cursor.old.bytes.now body.now rest.now }
    ensures part { IsPart result × (cursor.new.left + length (bits_in result) ≡ cursor.old.left) }
    ensures ok { bits_called cursor.old.left cursor.old.bytes.now
        ≡ given_bits (bits_in result) ++ bits_called cursor.new.left cursor.new.bytes.now }
    ensures rest { cursor.new.bytes.now ≡ rest.now }
{
    let count = standing(body, cursor.left);
    cursor.bytes = rest;
    cursor.left -= count;
    HybridEncoded::Bitmap(body, count)
}

// Ends where no run stands.
fn refuse<'a>(cursor: &mut Cursor<'a>) -> Result<HybridEncoded<'a>>
    requires some { 0 < cursor.old.left }
    requires none { NoRun 1 cursor.old.bytes.now }
    ensures refused { result ≡ Err fault }
    ensures called { bits_called cursor.old.left cursor.old.bytes.now ≡ Err fault ∷ [] }
    ensures ended { cursor.new.left ≡ 0 }
{
    cursor.left = 0;
    Err(Error::OutOfSpec(S::S6))
}

// The run at the front, as far as it is called for.
fn take_run<'a>(cursor: &mut Cursor<'a>) -> Result<HybridEncoded<'a>>
    requires some { 0 < cursor.old.left }
    ensures part { IfOk result (λ part. IsPart part × (cursor.new.left + length (bits_in part) ≡ cursor.old.left)) }
    ensures ok { IfOk result (λ part. bits_called cursor.old.left cursor.old.bytes.now
        ≡ given_bits (bits_in part) ++ bits_called cursor.new.left cursor.new.bytes.now) }
    ensures shorter { IfOk result (λ part. length cursor.new.bytes.now < length cursor.old.bytes.now) }
    ensures err { IfErr result (λ e. (e ≡ fault) × (bits_called cursor.old.left cursor.old.bytes.now ≡ Err fault ∷ [])
        × (cursor.new.left ≡ 0)) }
{
    let mut decoder = Decoder::new(cursor.bytes, 1);
    match decoder.next() {
        Some(Ok(Run::Repeated(value, count))) => take_copies(cursor, value, count, decoder.values),
        Some(Ok(Run::Packed(body))) => Ok(take_packed(cursor, body, decoder.values)),
        Some(Err(_)) => refuse(cursor),
        None => refuse(cursor),
    }
}

/// The next run of which some bits are called for.
pub fn take_part<'a>(cursor: &mut Cursor<'a>) -> Result<HybridEncoded<'a>>
    requires some { 0 < cursor.old.left }
    ensures part { IfOk result (λ part. IsPart part × (0 < length (bits_in part))
        × (cursor.new.left + length (bits_in part) ≡ cursor.old.left)) }
    ensures ok { IfOk result (λ part. bits_called cursor.old.left cursor.old.bytes.now
        ≡ given_bits (bits_in part) ++ bits_called cursor.new.left cursor.new.bytes.now) }
    ensures err { IfErr result (λ e. (e ≡ fault) × (bits_called cursor.old.left cursor.old.bytes.now ≡ Err fault ∷ [])
        × (cursor.new.left ≡ 0)) }
{
    let mut part = HybridEncoded::Repeated(false, 0);
    while part.len() == 0 {
        part = take_run(cursor)?;
    }
    Ok(part)
}
