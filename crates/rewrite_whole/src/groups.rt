//! Group after group: read, shown and written.
ghost use Rattle.std.specs.Prelude.{◌≡◌, ◌<◌, ◌≤◌, ◌⊎◌, ℕ, List, [], length, IfOk, OnOk, IfErr, pos};
ghost use Rattle.columns_core.specs.View.{schema_view};
ghost use Rattle.columns_slots.specs.Tree.{ArrayTrees};
ghost use Rattle.pq_tree.specs.TreeViews.{metadata_view};
ghost use Rattle.pq_tree.specs.Views.{group_view};
ghost use Rattle.rewrite_whole.specs.Groups.{IsOutput};
ghost use Rattle.rewrite_whole.specs.Views.{Grows};
ghost use Rattle.rewrite_whole.specs.Ready.{Did, DidAll, IsGroup, IsReady, RefusesGroup, RefusesSome, asked_of};

use crate::encode::encode_piece;
use crate::job::Job;
use crate::open::open_group;
use crate::pieces::{expect_ends, next_chunk, row_count};
use crate::{Output, View};
use columns_base::Result;
use pq_tree::RowGroupMetaData;
use std::alloc::Global;

/// The rows of a group, which are not less than none.
fn rows_of(group: &RowGroupMetaData) -> usize
    requires { (n : ℕ) × (group.now.num_rows ≡ pos n) }
    ensures { group.now.num_rows ≡ pos result }
{
    group.num_rows as usize
}

/// Reads a group piece by piece, shows each, and puts it to the output.
fn write_group<V: View>(
    alloc: Global,
    job: &Job,
    group: &RowGroupMetaData,
    view: &mut V,
    output: &mut Output,
) -> Result<()>
    requires ready { IsReady job.now }
    requires group { IsGroup job.now group.now }
    requires output { (chunks : List ArrayTrees) × IsOutput (schema_view job.now.plan.now.schema)
        (asked_of job.now) output.old chunks }
    ensures ok { OnOk result (Did job.now (group_view group.now) (V.seen view.old)
        (V.seen view.new) output.old output.new) }
    ensures err { IfErr result (RefusesGroup job.now (group_view group.now)) }
    ensures grows { Grows (V.seen view.old) (V.seen view.new) }
{
    let rows = rows_of(group);
    let mut iters = open_group(alloc, job, group, rows)?;
    let mut left = rows;
    'pieces: while left > 0 {
        let chunk = next_chunk(alloc, &mut iters)?;
        let count = row_count(&chunk);
        view.see(&chunk)?;
        encode_piece(alloc, job, chunk, output)?;
        left -= count;
    }
    expect_ends(&mut iters)
}

/// Reads the groups one after another, shows their pieces, and puts them to the output.
pub fn write_groups<V: View>(
    alloc: Global,
    job: &Job,
    view: &mut V,
    output: &mut Output,
) -> Result<()>
    requires ready { IsReady job.now }
    requires empty { IsOutput (schema_view job.now.plan.now.schema) (asked_of job.now) output.old [] }
    ensures ok { OnOk result (DidAll job.now (metadata_view job.now.metadata.now).groups (V.seen view.old)
        (V.seen view.new) output.new) }
    ensures err { IfErr result (RefusesSome job.now) }
    ensures grows { Grows (V.seen view.old) (V.seen view.new) }
{
    for group in job.metadata.row_groups.iter() {
        match write_group(alloc, job, group, view, output) {
            Ok(()) => {}
            Err(error) => return Err(error),
        }
    }
    Ok(())
}
