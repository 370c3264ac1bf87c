//! A block of pairs, pushed to a list from one set bit of a word to the next.
ghost use Rattle.std.specs.Prelude.{◌≡◌, ◌+◌, ◌-◌, ◌<◌, ◌≤◌, ◌^◌, ◌/◌, ◌++◌, count_ones, vec_len, vec_capacity};
ghost use Rattle.columns_core.specs.Bits.{word_bits};
ghost use Rattle.read_state.specs.Kinds.{starts_of};
ghost use Rattle.read_state.specs.Reach.{chosen, places};

use crate::pushes::length_of;
use std::mem;

/// How many set bits a word has.
pub fn ones_of(word: u64) -> usize
    ensures is { result ≡ count_ones word }
    ensures few { result ≤ 64 }
{
    word.count_ones() as usize
}

/// Pushes the places of a block to a list, within room that is there. `pushed` has a bit for each pair that pushes to the list, and `grown` for
/// each that pushes to the part beneath, which has `first` slots. The vector is held by itself in the loop, so that its fields stay in registers.
pub fn push_starts(lengths: &mut Vec<i64>, pushed: u64, grown: u64, first: usize)
    requires room { vec_len lengths.old + 64 ≤ vec_capacity lengths.old }
    requires few { first + 64 < 2 ^ 64 }
    ensures { starts_of lengths.new.items ≡ starts_of lengths.old.items
        ++ places first (word_bits pushed 64) (word_bits grown 64) }
{
    let end = first + ones_of(grown);
    let alloc = *lengths.allocator();
    let mut places = mem::replace(lengths, Vec::new(alloc));
    let mut left = pushed;
    let mut above = grown;
    while left != 0 {
        let gap = left.trailing_zeros() as usize;
        let here = above >> gap;
        places.push_reserved(length_of(end - ones_of(here)));
        left = (left >> gap) >> 1;
        above = here >> 1;
    }
    mem::forget(mem::replace(lengths, places));
}

// The bits of the word `there` beside the set bits of the word `pushed`, from one that is not set to the next.
fn pick_each(pushed: u64, there: u64) -> u64
    ensures { word_bits result (count_ones pushed) ≡ chosen (word_bits pushed 64) (word_bits there 64) }
{
    let end = ones_of(pushed);
    let mut left = pushed - (pushed & there);
    let mut word = u64::MAX;
    while left != 0 {
        let at = left.trailing_zeros() as usize;
        word = word - (1 << (end - ones_of(pushed >> at)));
        left = left & (left - 1);
    }
    word
}

/// The bits of the word `there` beside the set bits of the word `pushed`.
pub fn pick_bits(pushed: u64, there: u64) -> u64
    ensures { word_bits result (count_ones pushed) ≡ chosen (word_bits pushed 64) (word_bits there 64) }
{
    if pushed == u64::MAX {
        return there;
    }
    pick_each(pushed, there)
}
