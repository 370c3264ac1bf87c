//! The second form of words: a sample.
ghost use Rattle.std.specs.Prelude.{◌≡◌, ◌⊎◌, ◌<◌, ◌≤◌, ◌^◌, ℕ, codes, pos};
ghost use Rattle.columns_base.specs.declared.error.Error.TheVariants.{Memory};
ghost use Rattle.pq_rewrite.specs.Sampled.{sample_lines};
ghost use Rattle.rewrite_notes.specs.Notes.{Told};
ghost use Rattle.rewrite_whole.specs.Views.{Grows, Sees};
ghost use Rattle.sample_rows.specs.Totals.{totals_view};
ghost use Rattle.sample_rows.specs.Present.{sample_items};
ghost use Rattle.sample_run.specs.Files.{sample_counts, sample_seen};
ghost use Rattle.rewrite_whole.specs.Asks.{counts_of};

use columns_base::Error;
use pq_io::Sink;
use rewrite_notes::{status_of, tell_answer, tell_sample};
use rewrite_whole::{Report, View};
use sample_run::{Sampled, sample};
use std::alloc::Global;

/// Tells the notes the numbers of a sample.
fn tell_sampled<M: Sink>(notes: &mut M, count: u32, sampled: &Sampled)
    requires report { counts_of sampled.now.report ≡ sample_counts count }
    requires items { totals_view sampled.now.items ≡ sample_items count }
    requires natural { (s : ℕ) × ((sample_items count).sum ≡ pos s) × (s < 2 ^ 64) }
    ensures { Told M.taken M.faults M.wants notes.old notes.new (sample_lines count) }
{
    tell_sample(
        notes,
        &sampled.report,
        sampled.items.count,
        sampled.items.sum as u64,
    );
}

/// Tells the notes why there is no sample, and answers the status.
fn tell_failed<M: Sink>(notes: &mut M, error: Error) -> u8
    requires { error ≡ Memory }
    ensures told { Told M.taken M.faults M.wants notes.old notes.new (codes "Memory\n") }
    ensures status { result ≡ 10 }
{
    let answer = Err(error);
    tell_answer(notes, &answer);
    status_of(&answer)
}

/// Makes a sample of so many rows, tells the notes of it, and answers the status.
pub fn run_sample<M: Sink, V: View>(alloc: Global, count: u32, notes: &mut M, view: &mut V) -> u8
    requires some { 0 < count }
    requires few { count ≤ 1000000 }
    ensures made { ((result ≡ 0) × Told M.taken M.faults M.wants notes.old notes.new (sample_lines count)
        × Sees (V.seen view.old) (V.seen view.new) (sample_seen count))
        ⊎ ((result ≡ 10) × Told M.taken M.faults M.wants notes.old notes.new (codes "Memory\n")) }
    ensures shown { Grows (V.seen view.old) (V.seen view.new) }
{
    match sample(alloc, count, view) {
        Ok(sampled) => {
            tell_sampled(notes, count, &sampled);
            0
        }
        Err(error) => tell_failed(notes, error),
    }
}
