//! The validity of the values of a page.
ghost use Rattle.std.specs.Prelude.{◌≡◌, ℕ, IfErr, IfOk};
ghost use Rattle.pq_bitmaps.specs.Called.{bits_called};
ghost use Rattle.pq_files.specs.Page.{Sections};
ghost use Rattle.pq_pages.specs.Outcomes.{levels_in};
ghost use Rattle.pq_pages.specs.Split.{Splits};
ghost use Rattle.page_validity.specs.Validity.{IsSplitInto, level_fault, level_steps};

use crate::bits::{Bits, find_run, give};
use crate::validity::PageValidity;
use columns_base::Result;
use pq_bitmaps::{FilteredHybridEncoded, HybridDecoderBitmapIter, Stretch};
use pq_pages::{DataPage, split_buffer};
use pq_runs::hybrid_rle::Decoder;
use std::alloc::Global;
use std::marker::Model;

/// Which values of a page are there: its definition levels as bits. No memory is taken.
///
/// Seen by contracts as the number of bits that are left, and these bits.
#[derive(Debug, Drop)]
pub struct OptionalPageValidity<'a> {
    bits: Bits<'a>,
}

impl<'a> Model for OptionalPageValidity<'a> {
    ghost use Rattle.pq_bitmaps.specs.Selected.{Selection};
    ghost use Rattle.page_validity.specs.Bits.{IsBits, left_in, steps_in};

    ghost Value = { Selection };

    ghost view = { λ v. record { left = left_in v.bits; steps = steps_in v.bits } };

    ghost invariant = { λ v. IsBits v.bits };
}

impl<'a> OptionalPageValidity<'a> {
    /// The validity of the page's values.
    ///
    /// # Errors
    ///
    /// `OutOfSpec(S4)`: exactly where a section of levels does not lie in the page's body.
    pub fn try_new(page: &'a DataPage) -> Result<Self>
        ensures ok { IfOk result (λ v. (n : ℕ) × (s : Sections) × IsSplitInto page.now n s
            × (v ≡ record { left = n; steps = level_steps (bits_called n s.definition) })) }
        ensures refused { IfErr result (λ e. (e ≡ level_fault) × ((s : Sections)
            → Splits page.now.header (levels_in page.now.descriptor) page.now.buffer s → ⊥)) }
    {
        let count = page.num_values();
        match split_buffer(page) {
            Ok((_, definitions, _)) => Ok(OptionalPageValidity {
                bits: Bits {
                    runs: HybridDecoderBitmapIter::new(Decoder::new(definitions, 1), count),
                    rest: Stretch::none(),
                },
            }),
            Err(error) => Err(error),
        }
    }

    /// The number of bits that are left: 0 behind an error.
    pub fn len(&self) -> usize
        ensures { result ≡ self.now.left }
    {
        self.bits.rest.len() + self.bits.runs.len()
    }

    /// The same validity again. No memory is taken.
    pub fn clone(&self, _alloc: Global) -> Result<Self>
        ensures ok { IfOk result (λ v. v ≡ self.now) }
        ensures err { IfErr result (λ e. ⊥) }
    {
        Ok(OptionalPageValidity {
            bits: Bits {
                runs: self.bits.runs.clone(),
                rest: self.bits.rest,
            },
        })
    }
}

impl<'a> PageValidity<'a> for OptionalPageValidity<'a> {
    ghost to_come = { λ v. v.steps };

    fn next_limited(&mut self, limit: usize) -> Option<Result<FilteredHybridEncoded<'a>>> {
        match find_run(&mut self.bits) {
            None => None,
            Some(Ok(())) => Some(Ok(give(&mut self.bits, limit))),
            Some(Err(error)) => Some(Err(error)),
        }
    }
}
