//! Whether the fields of a schema are those of a tree.
ghost use Rattle.std.specs.Prelude.{◌≡◌, ◌+◌, ◌≤◌, ◌<◌, ◌∷◌, [], ℕ, List, length, drop, get_or, MatchOption};
ghost use Rattle.columns_core.specs.Measures.{fields_nesting};
ghost use Rattle.columns_core.specs.View.{fields_view};
ghost use Rattle.pq_tree.specs.Tree.{nesting_of};
ghost use Rattle.pq_tree.specs.TreeViews.{tree_view, trees_view};
ghost use Rattle.pq_tree.specs.declared.types.ParquetType.{ParquetType};
ghost use Rattle.pq_headline.specs.Stages.{trees_with_columns};
ghost use Rattle.rewrite_whole.specs.Plans.{IsMisfit};

use crate::columns::{holds_column, is_with_columns};
use columns_core::Field;
use pq_tree::ParquetType;
use schema_fit::agrees;

/// The place of the next tree with a column, from a place on.
fn next_tree(trees: &[ParquetType], from: usize) -> Option<usize>
    requires nesting { nesting_of (trees_view trees.now) ≤ 128 }
    ensures { MatchOption result (trees_with_columns (trees_view (drop from trees.now)) ≡ [])
        (λ n. (n < length trees.now) × ((t : ParquetType) → t ≡ get_or trees.now n t
        → trees_with_columns (trees_view (drop from trees.now))
        ≡ tree_view t ∷ trees_with_columns (trees_view (drop (n + 1) trees.now)))) }
{
    for i in from..trees.len() {
        if holds_column(&trees[i]) {
            return Some(i);
        }
    }
    None
}

/// Whether the fields with columns are not as many as the trees with columns, or one of them disagrees with its tree.
pub fn is_misfit(fields: &Vec<Field>, trees: &[ParquetType]) -> bool
    requires fields { fields_nesting (fields_view fields.now.items) ≤ 128 }
    requires trees { nesting_of (trees_view trees.now) ≤ 128 }
    ensures { IsMisfit (fields_view fields.now.items) (trees_view trees.now) result }
{
    let mut at = 0;
    for field in fields {
        if is_with_columns(field) {
            let Some(place) = next_tree(trees, at) else {
                return true;
            };
            if !agrees(field, &trees[place]) {
                return true;
            }
            at = place + 1;
        }
    }
    next_tree(trees, at).is_some()
}
