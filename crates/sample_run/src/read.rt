//! The items of a file of the sample.
ghost use Rattle.std.specs.Prelude.{◌≡◌, ◌<◌, ◌≤◌, All, IfOk, IfErr, flat_map};
ghost use Rattle.columns_base.specs.declared.error.Error.TheVariants.{Memory};
ghost use Rattle.pq_tree.specs.declared.version.Version.TheVariants.{V2};
ghost use Rattle.sample_rows.specs.Present.{items_of, sample_items};
ghost use Rattle.sample_rows.specs.Rows.{each_row, items_slot};
ghost use Rattle.sample_rows.specs.Totals.{totals_view};
ghost use Rattle.sample_run.specs.Files.{IsSampleFile, sample_pieces};
ghost use Rattle.sample_run.specs.Items.{HasItems, lists_in};

use crate::rewrite::rewrite_file;
use columns_array::Chunk;
use columns_base::Result;
use rewrite_whole::RowsView;
use sample_rows::{Totals, count_items};
use sample_sizes::samples_pass_no_size;
use std::alloc::Global;
use unique_rows::files_are_refused_for_size_alone;

/// The present items of one piece.
#[tactic(auto, using(crate::proofs::Reading::third_array, crate::proofs::Reading::third_there))]
fn piece_items(piece: &Chunk) -> Totals
    requires { HasItems piece.now }
    ensures { totals_view result ≡ items_of (lists_in piece.now) }
{
    let arrays = piece.arrays();
    count_items(&arrays[2])
}

/// The present items of the pieces of so many rows.
fn count_pieces(pieces: &[Chunk], count: u32) -> Totals
    requires few { count ≤ 1000000 }
    requires items { All HasItems pieces.now }
    requires are { flat_map lists_in pieces.now ≡ each_row items_slot count }
    ensures { totals_view result ≡ sample_items count }
{
    let mut totals = Totals::none();
    for piece in pieces {
        totals = totals.plus(piece_items(piece));
    }
    totals
}

/// How many items are present in the file of so many rows, and their sum: it is read piece by piece to arrays. Only want of memory is refused.
pub fn read_items(alloc: Global, file: Vec<u8>, count: u32) -> Result<Totals>
    requires few { count ≤ 1000000 }
    requires file { IsSampleFile V2 (sample_pieces count) file.items }
    ensures ok { IfOk result (λ totals. totals_view totals ≡ sample_items count) }
    ensures err { IfErr result (λ e. e ≡ Memory) }
{
    files_are_refused_for_size_alone();
    samples_pass_no_size();
    let mut view = RowsView::new(alloc);
    match rewrite_file(alloc, file, &mut view) {
        Ok(_) => Ok(count_pieces(view.pieces(), count)),
        Err(error) => Err(error),
    }
}
