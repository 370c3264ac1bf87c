//! From level pairs back to slots: the state that the pairs of one column build, part by part, and the laws of it (Dremel paper, section 4.3,
//! "Record Assembly").
//!
//! A state is a list of kept parts, from the column's row down to its leaf. A step is what equal pairs make of it; a block is what up to 64 pairs
//! make of it where each part goes over all of them. The laws say that either way the column that the state stands for has these pairs
//! behind it. Each is the contract of a function that does nothing.
#![tactic(auto)]

mod laws;

pub use laws::{
    blocks_are_walks, blocks_extend_columns, leaf_threshold, leaves_grow, pairs_extend_columns,
    pairs_fit, stretches_are_blocks, stretches_extend_columns,
};
