//! From an array and its tree of columns to one path and one leaf array for each column (Dremel paper, section 4.2, "Splitting
//! Records into Columns"; Arrow columnar format, "Nested layouts").
#![tactic(auto)]

mod inner;
mod laws;
mod leaves;
mod merge;
mod nodes;
mod paths;
mod tree_leaves;

pub use laws::{
    as_worked, cut_leaves_are_seen, merged_paths_have_columns, paths_are_seen, paths_have_levels,
};
pub use leaves::to_leaves;
pub use merge::{fits_leaf, merge_nulls};
pub use paths::to_nested;
pub use tree_leaves::to_parquet_leaves;
