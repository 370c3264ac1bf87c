//! Reading hybrid runs.

ghost use Rattle.std.specs.Prelude.{◌≡◌, ◌<◌, ◌≤◌, ℕ, List, [], length, MatchResult, IfOk, map, Ok};
ghost use Rattle.std.specs.Iterator.{YieldsFirst, item_count};
ghost use Rattle.pq_runs.specs.Hybrid.{hybrid, fault};

use crate::state::{State, find, take};
use columns_base::{Error, Result, S};
use std::marker::Model;

/// The numbers that are called for, one after another, and S6 in the place of the first that isn't there, behind which nothing comes.
/// Seen by contracts as the list of these items.
#[derive(Drop)]
pub struct HybridRleDecoder<'a> {
    state: State<'a>,
}

impl<'a> Model for HybridRleDecoder<'a> {
    ghost use Rattle.std.specs.Prelude.{List};
    ghost use Rattle.pq_runs.specs.Hybrid.{Item};
    ghost use Rattle.pq_runs.specs.State.{items, IsState};

    ghost Value = { List Item };

    ghost view = { λ d. items d.state };

    ghost invariant = { λ d. IsState d.state };
}

impl<'a> HybridRleDecoder<'a> {
    /// The first `num_values` numbers of `num_bits` bits that the runs spell. With 0 bits they are zeros, and no byte is looked at.
    ///
    /// # Errors
    ///
    /// S6 exactly where `num_bits` is above 32.
    pub fn try_new(values: &'a [u8], num_bits: u32, num_values: usize) -> Result<Self>
        ensures { MatchResult result (λ items. (num_bits ≤ 32) × (items ≡ hybrid num_bits num_values values.now))
            (λ e. (e ≡ fault) × (32 < num_bits)) }
    {
        if num_bits > 32 {
            return Err(Error::OutOfSpec(S::S6));
        }
        Ok(HybridRleDecoder {
            state: State {
                bytes: values,
                width: num_bits,
                left: num_values,
                packed: values,
                shift: 0,
                standing: 0,
                number: 0,
                copies: if num_bits == 0 { num_values } else { 0 },
            },
        })
    }
}

impl<'a> Iterator for HybridRleDecoder<'a> {
    type Item = Result<u32>;

    ghost next_gives = { YieldsFirst (λ items. items) };

    ghost remaining = { item_count (λ items. items) };

    fn next(&mut self) -> Option<Result<u32>> {
        if self.state.left == 0 {
            return None;
        }
        match find(&mut self.state) {
            Ok(()) => Some(Ok(take(&mut self.state))),
            Err(e) => Some(Err(e)),
        }
    }
}
