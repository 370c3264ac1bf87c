//! The sample, from its rows to its numbers.
ghost use Rattle.std.specs.Prelude.{◌≡◌, ◌<◌, ◌≤◌, ◌^◌, ◌∷◌, [], ℕ, pos, IfOk, IfErr, OnOk};
ghost use Rattle.columns_base.specs.declared.error.Error.TheVariants.{Memory};
ghost use Rattle.pq_io.specs.PlainSinks.{plain_taken};
ghost use Rattle.rewrite_whole.specs.Asks.{counts_of};
ghost use Rattle.rewrite_whole.specs.Views.{Grows, Sees};
ghost use Rattle.pq_tree.specs.declared.version.Version.TheVariants.{V1, V2};
ghost use Rattle.sample_rows.specs.Present.{sample_items};
ghost use Rattle.sample_rows.specs.Rows.{sample_rows};
ghost use Rattle.sample_rows.specs.Totals.{totals_view};
ghost use Rattle.sample_run.specs.Files.{IsMade, IsSampleFile, sample_counts, sample_pieces, sample_seen};

use crate::read::read_items;
use crate::rewrite::rewrite_file;
use crate::write::write_rows;
use columns_base::Result;
use pq_io::PlainSink;
use rewrite_whole::{Report, View};
use sample_rows::Totals;
use sample_sizes::samples_pass_no_size;
use std::alloc::Global;
use unique_rows::files_are_refused_for_size_alone;

/// What is told of a sample: the groups, rows and data pages that its rows were written anew in, and the present items of the new file.
#[derive(Clone, Copy, Debug)]
pub struct Sampled {
    pub report: Report,
    pub items: Totals,
}

/// Rewrites the file of so many rows, and shows the pieces to the view.
fn rewrite_rows<V: View>(
    alloc: Global,
    count: u32,
    input: Vec<u8>,
    view: &mut V,
) -> Result<(Report, PlainSink)>
    requires few { count ≤ 1000000 }
    requires file { IsSampleFile V1 (sample_rows count ∷ []) input.items }
    ensures err { IfErr result (λ e. e ≡ Memory) }
    ensures ok { IfOk result (λ made. IsMade count (plain_taken made.1) made.0 (V.seen view.old) (V.seen view.new)) }
    ensures shown { Grows (V.seen view.old) (V.seen view.new) }
{
    files_are_refused_for_size_alone();
    samples_pass_no_size();
    rewrite_file(alloc, input, view)
}

/// Reads the new file.
fn read_sampled(alloc: Global, count: u32, report: Report, second: PlainSink) -> Result<Sampled>
    requires few { count ≤ 1000000 }
    requires file { IsSampleFile V2 (sample_pieces count) (plain_taken second) }
    ensures report { IfOk result (λ sampled. sampled.report ≡ report) }
    ensures items { IfOk result (λ sampled. totals_view sampled.items ≡ sample_items count) }
    ensures err { IfErr result (λ e. e ≡ Memory) }
{
    let file = Vec::from_slice(alloc, second.bytes())?;
    match read_items(alloc, file, count) {
        Ok(items) => Ok(Sampled { report, items }),
        Err(error) => Err(error),
    }
}

/// Writes so many rows of the sample as a file in memory, rewrites that file in groups of 1,000 rows, and counts the present items of the new
/// file. The view is shown the pieces.
///
/// The rows are those of `sample_chunk`. The report's groups are as many as thousands of rows, the last one begun, and each has three pages; the
/// items are the number and the sum of those of the rows. The sum is not negative, and fits a number of 64 bits without a sign.
///
/// # Errors
///
/// `Memory`, and no other: source and sinks lie in memory, so neither fails, and no file of the sample passes a size of the format.
pub fn sample<V: View>(alloc: Global, count: u32, view: &mut V) -> Result<Sampled>
    requires some { 0 < count }
    requires few { count ≤ 1000000 }
    ensures report { IfOk result (λ sampled. counts_of sampled.report ≡ sample_counts count) }
    ensures items { IfOk result (λ sampled. totals_view sampled.items ≡ sample_items count) }
    ensures natural { IfOk result (λ sampled. (s : ℕ) × (sampled.items.sum ≡ pos s) × (s < 2 ^ 64)) }
    ensures err { IfErr result (λ e. e ≡ Memory) }
    ensures seen { OnOk result (Sees (V.seen view.old) (V.seen view.new) (sample_seen count)) }
    ensures shown { Grows (V.seen view.old) (V.seen view.new) }
{
    let first = write_rows(alloc, count)?;
    let input = Vec::from_slice(alloc, first.bytes())?;
    match rewrite_rows(alloc, count, input, view) {
        Ok((report, second)) => read_sampled(alloc, count, report, second),
        Err(error) => Err(error),
    }
}
