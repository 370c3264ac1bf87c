//! The validity of the selected values of a page.
ghost use Rattle.std.specs.Prelude.{◌≡◌, ◌⊎◌, ℕ, IfErr, IfOk, map};
ghost use Rattle.columns_base.specs.declared.error.Error.TheVariants.{Memory};
ghost use Rattle.pq_bitmaps.specs.Called.{bits_called};
ghost use Rattle.pq_bitmaps.specs.Selected.{selected, steps_of};
ghost use Rattle.pq_files.specs.Page.{Sections};
ghost use Rattle.pq_pages.specs.Outcomes.{levels_in};
ghost use Rattle.pq_pages.specs.Split.{Splits};
ghost use Rattle.page_validity.specs.Validity.{IsSplitInto, as_level, level_fault, rows_among};

use crate::picked::{Picked, find_part, give};
use crate::rows::get_selected_rows;
use crate::validity::PageValidity;
use columns_base::Result;
use pq_bitmaps::{
    FilteredHybridEncoded, FilteredHybridRleDecoderIter, HybridDecoderBitmapIter, Stretch,
};
use pq_pages::{DataPage, split_buffer};
use pq_runs::hybrid_rle::Decoder;
use std::alloc::Global;
use std::marker::Model;

/// Which of the selected values of a page are there: its definition levels as bits, and of those that are passed over how many are set.
///
/// Seen by contracts as the number of selected bits that are left, and what is to be said of the bits.
#[derive(Debug, Drop)]
pub struct FilteredOptionalPageValidity<'a> {
    picked: Picked<'a>,
}

impl<'a> Model for FilteredOptionalPageValidity<'a> {
    ghost use Rattle.pq_bitmaps.specs.Selected.{Selection};
    ghost use Rattle.page_validity.specs.Parts.{IsPicked, picked_left, picked_steps};

    ghost Value = { Selection };

    ghost view = { λ v. record { left = picked_left v.picked; steps = picked_steps v.picked } };

    ghost invariant = { λ v. IsPicked v.picked };
}

impl<'a> FilteredOptionalPageValidity<'a> {
    /// The validity of the page's selected values (`get_selected_rows`).
    ///
    /// # Errors
    ///
    /// - `OutOfSpec(S4)`: exactly where a section of levels does not lie in the page's body.
    /// - `Memory`: memory ran out.
    pub fn try_new(alloc: Global, page: &'a DataPage) -> Result<Self>
        ensures ok { IfOk result (λ v. (n : ℕ) × (s : Sections) × IsSplitInto page.now n s
            ×
            (v ≡ record {
              left = selected (rows_among n page.now.selected_rows);
              steps = map as_level
                  (steps_of (rows_among n page.now.selected_rows) (bits_called n s.definition));
            })) }
        ensures refused { IfErr result (λ e. (e ≡ Memory) ⊎ ((e ≡ level_fault)
            × ((s : Sections) → Splits page.now.header (levels_in page.now.descriptor) page.now.buffer s → ⊥))) }
    {
        let count = page.num_values();
        let (_, definitions, _) = match split_buffer(page) {
            Ok(sections) => sections,
            Err(error) => return Err(error),
        };
        let rows = get_selected_rows(alloc, page)?;
        let runs = HybridDecoderBitmapIter::new(Decoder::new(definitions, 1), count);
        Ok(FilteredOptionalPageValidity {
            picked: Picked {
                parts: FilteredHybridRleDecoderIter::new(runs, rows),
                rest: Stretch::none(),
            },
        })
    }

    /// The number of selected bits that are left: 0 behind an error.
    pub fn len(&self) -> usize
        ensures { result ≡ self.now.left }
    {
        self.picked.rest.len() + self.picked.parts.len()
    }

    /// The same validity again.
    ///
    /// # Errors
    ///
    /// `Memory`: memory ran out.
    pub fn clone(&self, alloc: Global) -> Result<Self>
        ensures ok { IfOk result (λ v. v ≡ self.now) }
        ensures err { IfErr result (λ e. e ≡ Memory) }
    {
        let parts = self.picked.parts.clone(alloc)?;
        Ok(FilteredOptionalPageValidity {
            picked: Picked {
                parts,
                rest: self.picked.rest,
            },
        })
    }
}

impl<'a> PageValidity<'a> for FilteredOptionalPageValidity<'a> {
    ghost to_come = { λ v. v.steps };

    fn next_limited(&mut self, limit: usize) -> Option<Result<FilteredHybridEncoded<'a>>> {
        if self.picked.rest.len() > 0 {
            return Some(Ok(give(&mut self.picked, limit)));
        }
        match find_part(&mut self.picked) {
            None => None,
            Some(Err(error)) => Some(Err(error)),
            Some(Ok(Some(set))) => Some(Ok(FilteredHybridEncoded::Skipped(set))),
            Some(Ok(None)) => Some(Ok(give(&mut self.picked, limit))),
        }
    }
}
