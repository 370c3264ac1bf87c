//! Plain byte strings, one after another.
ghost use Rattle.std.specs.Prelude.{◌≡◌, ◌++◌, ◌<◌, MatchOption, IfSome, length};
ghost use Rattle.std.specs.Iterator.{at_most};
ghost use Rattle.read_iters.specs.Strings.{NoString, TakesString, StepsString, StepsSized};

use columns_base::{Error, Result, S};
use pq_numbers::read_u32_le;

/// The byte strings that stand plain in the bytes, each behind its length in four bytes, lowest first.
///
/// Where a length or the bytes of a string are cut, S6 comes once, and nothing behind it.
#[derive(Debug, Drop)]
pub struct BinaryIter<'a> {
    pub values: &'a [u8],
}

impl<'a> BinaryIter<'a> {
    pub fn new(values: &'a [u8]) -> Self
        ensures { result.values.now ≡ values.now }
    {
        BinaryIter { values }
    }
}

// So many bytes, and those behind them.
fn front(bytes: &[u8], size: usize) -> Option<(&[u8], &[u8])>
    ensures { MatchOption result (length bytes.now < size) (λ x. (length x.0.now ≡ size)
        × (bytes.now ≡ x.0.now ++ x.1.now)) }
{
    if bytes.len() < size {
        return None;
    }
    Some((&bytes[..size], &bytes[size..]))
}

// The string at the front and the bytes behind it.
#[tactic(auto, using(crate::proofs::Fronts::no_head, crate::proofs::Fronts::no_bytes, crate::proofs::Fronts::takes))]
fn take_string(bytes: &[u8]) -> Option<(&[u8], &[u8])>
    ensures takes { MatchOption result (NoString bytes.now) (λ x. TakesString bytes.now x.0.now x.1.now) }
    ensures shorter { IfSome result (λ x. length x.1.now < length bytes.now) }
{
    let Some((head, behind)) = front(bytes, 4) else {
        return None;
    };
    let Some(size) = read_u32_le(head) else {
        return None;
    };
    let Some((string, rest)) = front(behind, size as usize) else {
        return None;
    };
    Some((string, rest))
}

impl<'a> Iterator for BinaryIter<'a> {
    type Item = Result<&'a [u8]>;

    ghost next_gives = { StepsString (λ s. s.now) };

    ghost remaining = { λ it. at_most (length it.values.now) };

    fn next(&mut self) -> Option<Result<&'a [u8]>> {
        if self.values.is_empty() {
            return None;
        }
        match take_string(self.values) {
            Some((string, rest)) => {
                self.values = rest;
                Some(Ok(string))
            }
            None => {
                self.values = &[];
                Some(Err(Error::OutOfSpec(S::S6)))
            }
        }
    }
}

/// So many byte strings that stand plain in the bytes.
///
/// Where fewer stand there, S6 comes once, and nothing behind it.
#[derive(Debug, Drop)]
pub struct SizedBinaryIter<'a> {
    pub values: &'a [u8],
    pub left: usize,
}

impl<'a> SizedBinaryIter<'a> {
    pub fn new(values: &'a [u8], size: usize) -> Self
        ensures values { result.values.now ≡ values.now }
        ensures left { result.left ≡ size }
    {
        SizedBinaryIter { values, left: size }
    }
}

impl<'a> Iterator for SizedBinaryIter<'a> {
    type Item = Result<&'a [u8]>;

    ghost next_gives = { StepsSized (λ s. s.now) };

    ghost remaining = { λ it. at_most it.left };

    fn next(&mut self) -> Option<Result<&'a [u8]>> {
        if self.left == 0 {
            return None;
        }
        match take_string(self.values) {
            Some((string, rest)) => {
                self.values = rest;
                self.left -= 1;
                Some(Ok(string))
            }
            None => {
                self.left = 0;
                Some(Err(Error::OutOfSpec(S::S6)))
            }
        }
    }
}
