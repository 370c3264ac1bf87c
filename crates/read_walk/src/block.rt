//! Pairs that were taken.
ghost use Rattle.std.specs.Prelude.{◌≡◌, ◌≤◌, ◌++◌, [], IsTrue, length, drop, replicate};
ghost use Rattle.pq_runs.specs.Hybrid.{given};
ghost use Rattle.read_walk.specs.LevelRuns.{runs_left, IsReading};

use crate::bits::put_word;
use crate::runs::{LevelRuns, fill_whole};
use crate::words::take_word;
use std::marker::Model;

/// At most 64 pairs. Contracts see their repetition levels and their definition levels.
#[derive(Drop)]
pub struct PairBlock {
    rep_block: [u32; 64],
    def_block: [u32; 64],
    filled: usize,
}

impl Model for PairBlock {
    ghost use Rattle.std.specs.Prelude.{List, ℕ, take, ◌≤◌};

    ghost Value = { List ℕ × List ℕ };

    ghost view = { λ b. (take b.filled b.rep_block, take b.filled b.def_block) };

    ghost invariant = { λ b. b.filled ≤ 64 };
}

// The front of the memory becomes these levels.
fn put(out: &mut [u32], levels: &[u32])
    requires { length levels.now ≤ length out.old }
    ensures { out.new ≡ levels.now ++ drop (length levels.now) out.old }
{
    let front = &mut out[..levels.len()];
    front.copy_from_slice(levels);
}

impl PairBlock {
    /// No pair.
    pub fn new() -> Self
        ensures reps { result.0 ≡ [] }
        ensures defs { result.1 ≡ [] }
    {
        PairBlock {
            rep_block: [0; 64],
            def_block: [0; 64],
            filled: 0,
        }
    }

    /// These pairs in the place of those before.
    pub fn copy(&mut self, reps: &[u32], defs: &[u32])
        requires few { length reps.now ≤ 64 }
        requires same { length defs.now ≡ length reps.now }
        ensures reps { self.new.0 ≡ reps.now }
        ensures defs { self.new.1 ≡ defs.now }
    {
        put(&mut self.rep_block, reps);
        put(&mut self.def_block, defs);
        self.filled = reps.len();
    }

    /// The repetition levels.
    pub fn reps(&self) -> &[u32]
        ensures { result.now ≡ self.now.0 }
    {
        &self.rep_block[..self.filled]
    }

    /// The definition levels.
    pub fn defs(&self) -> &[u32]
        ensures { result.now ≡ self.now.1 }
    {
        &self.def_block[..self.filled]
    }
}

/// Fills the block with pairs that begin a row each, of the next 64 definition levels. False where these cannot be had so.
pub fn fill_flat<'a>(block: &mut PairBlock, runs: &mut LevelRuns<'a>) -> bool
    requires is { IsReading runs.old }
    ensures is { IsReading runs.new }
    ensures reps { block.new.0 ≡ replicate 64 0 }
    ensures size { IsTrue result → length block.new.1 ≡ 64 }
    ensures taken { IsTrue result → runs_left runs.old ≡ given block.new.1 ++ runs_left runs.new }
{
    block.rep_block = [0; 64];
    block.filled = 64;
    if runs.runs.num_bits != 1 {
        return fill_whole(runs, &mut block.def_block);
    }
    match take_word(runs) {
        Some(word) => {
            put_word(&mut block.def_block, word);
            true
        }
        None => false,
    }
}
