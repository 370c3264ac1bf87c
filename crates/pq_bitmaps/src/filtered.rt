//! Runs of bits of which rows are selected.
ghost use Rattle.std.specs.Prelude.{◌≡◌, IfErr, IfOk, length};
ghost use Rattle.columns_base.specs.declared.error.Error.TheVariants.{Memory};
ghost use Rattle.std.specs.Iterator.{at_most};
ghost use Rattle.pq_bitmaps.specs.Selected.{AreAscending, GivesSelected, selected, steps_of};

use crate::filter::{Filter, copy_intervals, find_interval, selected_in, take_part};
use crate::part::{FilteredHybridEncoded, Interval};
use crate::runs::HybridDecoderBitmapIter;
use crate::stretch::Stretch;
use columns_base::Result;
use std::alloc::Global;
use std::collections::VecDeque;
use std::marker::Model;

/// The selected bits of runs, part by part: a part of a run that is selected is given, and of one that is not the number of its set bits
/// is told. Nothing comes behind the last interval.
///
/// Where a bit in front of the last interval's end is not there, or is a repeated number other than 0 and 1, S6 comes once, and nothing behind it.
/// Seen by contracts as the number of selected bits that are left, and what is to be said of the bits.
#[derive(Debug, Drop)]
pub struct FilteredHybridRleDecoderIter<'a> {
    filter: Filter<'a>,
}

impl<'a> Model for FilteredHybridRleDecoderIter<'a> {
    ghost use Rattle.pq_bitmaps.specs.Filter.{IsFilter, left_in, steps_in};
    ghost use Rattle.pq_bitmaps.specs.Selected.{Selection};

    ghost Value = { Selection };

    ghost view = { λ s. record { left = left_in s.filter; steps = steps_in s.filter } };

    ghost invariant = { λ s. IsFilter s.filter };
}

impl<'a> FilteredHybridRleDecoderIter<'a> {
    /// The bits that the intervals select of those that are left. Each interval begins at or behind the end of the one before, and the last
    /// ends within the bits.
    pub fn new(iter: HybridDecoderBitmapIter<'a>, selected_rows: VecDeque<Interval>) -> Self
        requires { AreAscending 0 iter.left selected_rows.items }
        ensures left { result.left ≡ selected selected_rows.items }
        ensures steps { result.steps ≡ steps_of selected_rows.items iter.entry.bits }
    {
        FilteredHybridRleDecoderIter {
            filter: Filter {
                runs: iter,
                rest: Stretch::none(),
                skip: 0,
                count: 0,
                place: 0,
                intervals: selected_rows,
            },
        }
    }

    /// The same bits again.
    ///
    /// # Errors
    ///
    /// `Memory`: memory ran out.
    pub fn clone(&self, alloc: Global) -> Result<Self>
        ensures ok { IfOk result (λ s. s ≡ self.now) }
        ensures err { IfErr result (λ e. e ≡ Memory) }
    {
        let intervals = copy_intervals(alloc, &self.filter.intervals)?;
        Ok(FilteredHybridRleDecoderIter {
            filter: Filter {
                runs: self.filter.runs.clone(),
                rest: self.filter.rest,
                skip: self.filter.skip,
                count: self.filter.count,
                place: self.filter.place,
                intervals,
            },
        })
    }

    /// The number of selected bits that are left: 0 behind an error.
    pub fn len(&self) -> usize
        ensures { result ≡ self.now.left }
    {
        selected_in(&self.filter.intervals, self.filter.count)
    }
}

impl<'a> Iterator for FilteredHybridRleDecoderIter<'a> {
    type Item = Result<FilteredHybridEncoded<'a>>;

    ghost next_gives = { GivesSelected };

    ghost remaining = { λ s. at_most (length s.steps) };

    fn next(&mut self) -> Option<Result<FilteredHybridEncoded<'a>>> {
        if !find_interval(&mut self.filter) {
            return None;
        }
        Some(take_part(&mut self.filter))
    }
}
