//! What a footer claims, and where its chunks lie.
ghost use Rattle.std.specs.Prelude.{◌≡◌, ◌≤◌, ◌<◌, ◌+◌, ◌⊎◌, OnOk, IfOk, IfErr, MatchOption};
ghost use Rattle.columns_base.specs.declared.error.Error.TheVariants.{Memory, InputLimit, OutOfSpec};
ghost use Rattle.columns_base.specs.declared.error.Limit.TheVariants.{Pairs};
ghost use Rattle.columns_base.specs.declared.error.S.TheVariants as S;
ghost use Rattle.pq_metadata.specs.Frame.{HasFrame, footer_place};
ghost use Rattle.pq_tree.specs.TreeViews.{metadata_view};
ghost use Rattle.pq_headline.specs.Stages.{claimed, pairs_claimed};
ghost use Rattle.pq_tree.specs.Views.{group_view};
ghost use Rattle.rewrite_whole.specs.Claims.{group_claims};

use columns_base::{Error, Limit, Result, S};
use pq_container::read_frame;
use pq_tree::{ColumnChunkMetaData, FileMetaData, RowGroupMetaData};

/// The place of the footer.
pub fn place_of(input: &[u8]) -> Result<usize>
    ensures ok { IfOk result (λ n. n ≡ footer_place input.now) }
    ensures err { IfErr result (λ e. (e ≡ OutOfSpec S.S1) × (¬ HasFrame input.now)) }
{
    match read_frame(input) {
        Some(length) => Ok(input.len() - 8 - length),
        None => Err(Error::OutOfSpec(S::S1)),
    }
}

/// What is left of a limit once a chunk's claim is taken from it. A negative claim counts as none.
fn spend(left: u64, chunk: &ColumnChunkMetaData) -> Option<u64>
    ensures { MatchOption result (left < claimed chunk.now.num_values) (λ rest. rest + claimed chunk.now.num_values
        ≡ left) }
{
    match u64::try_from(chunk.num_values) {
        Ok(pairs) if pairs > left => None,
        Ok(pairs) => Some(left - pairs),
        Err(_) => Some(left),
    }
}

/// The same for a group.
fn spend_group(left: u64, group: &RowGroupMetaData) -> Option<u64>
    ensures { MatchOption result (left < group_claims (group_view group.now))
        (λ rest. rest + group_claims (group_view group.now) ≡ left) }
{
    let mut rest = left;
    for chunk in &group.columns {
        match spend(rest, chunk) {
            Some(less) => rest = less,
            None => return None,
        }
    }
    Some(rest)
}

/// Finds that the chunks together claim no more pairs than the limit.
pub fn check_pairs(metadata: &FileMetaData, pair_limit: u64) -> Result<()>
    ensures ok { OnOk result (pairs_claimed (metadata_view metadata.now) ≤ pair_limit) }
    ensures err { IfErr result (λ e. (e ≡ Memory) ⊎ ((e ≡ InputLimit Pairs)
        × (pair_limit < pairs_claimed (metadata_view metadata.now)))) }
{
    let mut rest = pair_limit;
    for group in &metadata.row_groups {
        match spend_group(rest, group) {
            Some(less) => rest = less,
            None => return Err(Error::InputLimit(Limit::Pairs)),
        }
    }
    Ok(())
}
