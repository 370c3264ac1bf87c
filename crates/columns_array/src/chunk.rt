//! Columns of the same rows.
ghost use Rattle.std.specs.Prelude.{◌≡◌, ◌↔◌, IsTrue, IfOk, IfErr, IsErrOf};
ghost use Rattle.columns_array.specs.Boxed.{all_boxed};
ghost use Rattle.columns_array.specs.Chunks.{AreEven, HaveLen};

use crate::arrays::ArrayBox;
use crate::arrays::clone::copy_all;
use columns_base::{A, Error, Result};
use std::alloc::Global;
use std::marker::Model;

/// Arrays that all have the same length: the columns of that many rows.
#[derive(Debug, Drop)]
pub struct Chunk {
    arrays: Vec<ArrayBox>,
}

impl Model for Chunk {
    ghost use Rattle.columns_slots.specs.Tree.{ArrayTrees};
    ghost use Rattle.columns_array.specs.Chunks.{AreEven, trees_code};

    ghost Value = { ArrayTrees };

    ghost coded = { trees_code };

    ghost use Rattle.columns_array.specs.Boxed.{all_boxed};

    ghost view = { λ c. all_boxed c.arrays.items };

    ghost invariant = { λ c. AreEven (all_boxed c.arrays.items) };
}

#[tactic(auto, using(crate::proofs::Chunks::even_step))]
fn have_len(arrays: &Vec<ArrayBox>, length: usize) -> bool
    ensures { IsTrue result ↔ HaveLen length (all_boxed arrays.now.items) }
{
    for i in 0..arrays.len() {
        if arrays[i].len() != length {
            return false;
        }
    }
    true
}

#[tactic(auto, using(crate::proofs::Chunks::even_first, crate::proofs::Chunks::even_none))]
fn are_even(arrays: &Vec<ArrayBox>) -> bool
    ensures { IsTrue result ↔ AreEven (all_boxed arrays.now.items) }
{
    if arrays.is_empty() {
        return true;
    }
    have_len(arrays, arrays[0].len())
}

impl Chunk {
    /// The arrays as columns of the same rows. A8 where their lengths differ.
    pub fn try_new(arrays: Vec<ArrayBox>) -> Result<Chunk>
        ensures made { IfOk result (λ c. c ≡ all_boxed arrays.items) }
        ensures refused { IsErrOf result (Error.InvalidArgumentError A.A8) ↔ ¬ (AreEven (all_boxed arrays.items)) }
        ensures err { IfErr result (λ e. e ≡ Error.InvalidArgumentError A.A8) }
    {
        if !are_even(&arrays) {
            return Err(Error::InvalidArgumentError(A::A8));
        }
        Ok(Chunk { arrays })
    }

    /// Callers learn that the arrays are of one length.
    pub fn know(&self)
        ensures { AreEven self.now }
    {
        let _ = &self.arrays;
    }

    /// The arrays, in order.
    pub fn arrays(&self) -> &[ArrayBox]
        ensures { all_boxed result.now ≡ self.now }
    {
        &self.arrays
    }

    /// A chunk whose arrays have the same types and slots.
    pub fn clone(&self, alloc: Global) -> Result<Chunk>
        ensures ok { IfOk result (λ c. c ≡ self.now) }
        ensures err { IfErr result (λ e. e ≡ Error.Memory) }
    {
        Ok(Chunk {
            arrays: copy_all(&self.arrays, alloc)?,
        })
    }
}
