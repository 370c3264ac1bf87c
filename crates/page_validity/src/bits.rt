//! The bits of a page that are left.
ghost use Rattle.std.specs.Prelude.{◌≡◌, ◌++◌, ◌+◌, ◌<◌, ◌≤◌, ◌^◌, ◌∷◌, [], List, MatchOption, MatchResult};
ghost use Rattle.pq_bitmaps.specs.Selected.{Says, Step, fails, given_in};
ghost use Rattle.pq_bitmaps.specs.Stretch.{size_of};
ghost use Rattle.page_validity.specs.Bits.{IsBits, left_in, steps_in};

use columns_base::{Error, Result, S};
use pq_bitmaps::{FilteredHybridEncoded, HybridDecoderBitmapIter, Stretch};

/// The runs behind the one that was begun, and what is left of that one.
#[derive(Debug, Drop)]
pub struct Bits<'a> {
    pub runs: HybridDecoderBitmapIter<'a>,
    pub rest: Stretch<'a>,
}

// Begins the next run where nothing is left of the last one, if there is one.
pub fn find_run<'a>(bits: &mut Bits<'a>) -> Option<Result<()>>
    requires { IsBits bits.old }
    ensures is { IsBits bits.new }
    ensures found { MatchOption result ((steps_in bits.old ≡ []) × (steps_in bits.new ≡ [])
        × (left_in bits.old ≡ 0)) (λ r. MatchResult r (λ _. (steps_in bits.new ≡ steps_in bits.old)
        × (left_in bits.new ≡ left_in bits.old) × (0 < size_of bits.new.rest))
        (λ e. (steps_in bits.old ≡ fails e ∷ []) × (steps_in bits.new ≡ []) × (left_in bits.new ≡ 0))) }
{
    if bits.rest.len() > 0 {
        return Some(Ok(()));
    }
    match bits.runs.next() {
        None => None,
        Some(Ok(part)) => {
            bits.rest = Stretch::of(part);
            Some(Ok(()))
        }
        Some(Err(_)) => Some(Err(Error::OutOfSpec(S::S4))),
    }
}

// The first bits of the run, at most so many.
pub fn give<'a>(bits: &mut Bits<'a>, limit: usize) -> FilteredHybridEncoded<'a>
    requires is { IsBits bits.old }
    requires some { 0 < limit }
    requires rest { 0 < size_of bits.old.rest }
    ensures is { IsBits bits.new }
    ensures says { (said : List Step) × Says result said × (steps_in bits.old ≡ said ++ steps_in bits.new) }
    ensures size { (given_in result ≤ limit) × (left_in bits.old ≡ given_in result + left_in bits.new) }
{
    let count = limit.min(bits.rest.len());
    let (first, others) = bits.rest.cut(count);
    bits.rest = others;
    first.given()
}
