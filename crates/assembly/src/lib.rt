//! The arrays of a field of a row group, from the pages of its columns.
#![tactic(auto)]

mod array_iter;
mod iters;
mod open;
mod paths;
mod pieces;

pub use array_iter::ArrayIter;
pub use open::{column_iter_to_arrays, open_columns};
pub use paths::{LeafPath, leaf_paths, paths_beneath};
