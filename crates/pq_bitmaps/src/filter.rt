//! The bits of runs, and the intervals that select some of them.
ghost use Rattle.std.specs.Prelude.{◌≡◌, ◌++◌, ◌+◌, ◌<◌, ◌^◌, [], ◌∷◌, List, Some, IfErr, IfOk, OnOk, length};
ghost use Rattle.columns_base.specs.declared.error.Error.TheVariants.{Memory};
ghost use Rattle.std.specs.Bool.{MatchBool};
ghost use Rattle.pq_bitmaps.specs.Filter.{IsBefore, IsFilter, bits_left, left_in, steps_in};
ghost use Rattle.pq_bitmaps.specs.Selected.{CountsPart, GivesPart, Says, Step, fails, gaps_from, given_in, selected, steps_by};
ghost use Rattle.pq_bitmaps.specs.Stretch.{size_of};

use crate::part::{FilteredHybridEncoded, Interval};
use crate::runs::HybridDecoderBitmapIter;
use crate::stretch::Stretch;
use columns_base::Result;
use std::alloc::Global;
use std::collections::VecDeque;

/// The bits that are left, and what is selected of them.
#[derive(Debug, Drop)]
pub struct Filter<'a> {
    /// The runs behind the one that was begun, and what is left of that one.
    pub runs: HybridDecoderBitmapIter<'a>,
    pub rest: Stretch<'a>,
    /// How many bits are to be passed over, and how many then to be given.
    pub skip: usize,
    pub count: usize,
    /// The place behind these, and the intervals behind that place.
    pub place: usize,
    pub intervals: VecDeque<Interval>,
}

// Begins an interval.
fn begin<'a>(filter: &mut Filter<'a>, interval: Interval)
    requires { IsBefore filter.old interval }
    ensures is { IsFilter filter.new }
    ensures same { steps_by (gaps_from filter.old.place (interval ∷ filter.old.intervals.items)) (bits_left filter.old)
        ≡ steps_in filter.new }
    ensures left { left_in filter.new ≡ selected (interval ∷ filter.old.intervals.items) }
    ensures fewer { length filter.new.intervals.items ≡ length filter.old.intervals.items }
{
    filter.skip = interval.start - filter.place;
    filter.count = interval.length;
    filter.place = interval.start + interval.length;
}

/// Begins the next interval of which some bits are to be passed over or given. Answers whether there is one.
pub fn find_interval<'a>(filter: &mut Filter<'a>) -> bool
    requires { IsFilter filter.old }
    ensures is { IsFilter filter.new }
    ensures steps { steps_in filter.new ≡ steps_in filter.old }
    ensures left { left_in filter.new ≡ left_in filter.old }
    ensures found { MatchBool result (0 < filter.new.skip + filter.new.count)
        ((steps_in filter.new ≡ []) × (left_in filter.new ≡ 0)) }
{
    while filter.skip == 0 && filter.count == 0 {
        match filter.intervals.pop_front() {
            None => return false,
            Some(interval) => begin(filter, interval),
        }
    }
    true
}

// Ends where no bit stands.
fn end<'a>(filter: &mut Filter<'a>)
    ensures none { (filter.new.skip ≡ 0) × (filter.new.count ≡ 0) × (filter.new.intervals.items ≡ [])
        × (filter.new.place ≡ 0) }
    ensures rest { (filter.new.rest ≡ filter.old.rest) × (filter.new.runs ≡ filter.old.runs) }
{
    filter.skip = 0;
    filter.count = 0;
    filter.place = 0;
    filter.intervals.clear();
}

// Begins the next run where nothing is left of the last one.
fn find_run<'a>(filter: &mut Filter<'a>) -> Result<()>
    requires is { IsFilter filter.old }
    requires some { 0 < filter.old.skip + filter.old.count }
    ensures is { IsFilter filter.new }
    ensures ok { OnOk result ((steps_in filter.new ≡ steps_in filter.old) × (left_in filter.new ≡ left_in filter.old)
        × (0 < size_of filter.new.rest) × (filter.new.skip ≡ filter.old.skip)
        × (filter.new.count ≡ filter.old.count)) }
    ensures err { IfErr result (λ e. (steps_in filter.old ≡ fails e ∷ []) × (steps_in filter.new ≡ [])
        × (left_in filter.new ≡ 0)) }
{
    if filter.rest.len() > 0 {
        return Ok(());
    }
    match filter.runs.next() {
        Some(Ok(part)) => {
            filter.rest = Stretch::of(part);
            Ok(())
        }
        Some(Err(error)) => {
            end(filter);
            Err(error)
        }
        None => unreachable!(),
    }
}

// Passes over the bits of the run that are not selected: how many of them are set.
fn pass<'a>(filter: &mut Filter<'a>) -> usize
    requires is { IsFilter filter.old }
    requires some { 0 < filter.old.skip }
    requires rest { 0 < size_of filter.old.rest }
    ensures is { IsFilter filter.new }
    ensures says { (said : List Step) × Says (FilteredHybridEncoded.Skipped result) said
        × (steps_in filter.old ≡ said ++ steps_in filter.new) }
    ensures left { left_in filter.new ≡ left_in filter.old }
{
    let count = filter.skip.min(filter.rest.len());
    let (first, others) = filter.rest.cut(count);
    filter.rest = others;
    filter.skip -= count;
    first.set_bits()
}

// The bits of the run that are selected.
fn give<'a>(filter: &mut Filter<'a>) -> FilteredHybridEncoded<'a>
    requires is { IsFilter filter.old }
    requires none { filter.old.skip ≡ 0 }
    requires some { 0 < filter.old.count }
    requires rest { 0 < size_of filter.old.rest }
    ensures is { IsFilter filter.new }
    ensures says { (said : List Step) × Says result said × (steps_in filter.old ≡ said ++ steps_in filter.new) }
    ensures left { left_in filter.old ≡ given_in result + left_in filter.new }
{
    let count = filter.count.min(filter.rest.len());
    let (first, others) = filter.rest.cut(count);
    filter.rest = others;
    filter.count -= count;
    first.given()
}

/// The next part.
pub fn take_part<'a>(filter: &mut Filter<'a>) -> Result<FilteredHybridEncoded<'a>>
    requires is { IsFilter filter.old }
    requires some { 0 < filter.old.skip + filter.old.count }
    ensures is { IsFilter filter.new }
    ensures steps { GivesPart (steps_in filter.old) (Some result) (steps_in filter.new) }
    ensures left { CountsPart (left_in filter.old) (Some result) (left_in filter.new) }
{
    match find_run(filter) {
        Ok(()) => {
            if filter.skip > 0 {
                Ok(FilteredHybridEncoded::Skipped(pass(filter)))
            } else {
                Ok(give(filter))
            }
        }
        Err(error) => Err(error),
    }
}

/// How many bits the intervals have together.
pub fn selected_in(intervals: &VecDeque<Interval>, begun: usize) -> usize
    requires { begun + selected intervals.now.items < 2 ^ 64 }
    ensures { result ≡ begun + selected intervals.now.items }
{
    let mut sum = begun;
    'intervals: for i in 0..intervals.len() {
        sum += intervals[i].length;
    }
    sum
}

/// The same intervals.
pub fn copy_intervals(alloc: Global, intervals: &VecDeque<Interval>) -> Result<VecDeque<Interval>>
    ensures ok { IfOk result (λ copy. copy.items ≡ intervals.now.items) }
    ensures err { IfErr result (λ e. e ≡ Memory) }
{
    let mut copy = VecDeque::new(alloc);
    'intervals: for i in 0..intervals.len() {
        copy.push_back(intervals[i])?;
    }
    Ok(copy)
}
