//! The pieces that a column of a row group is read in: level pairs in a nested state, and the values of its leaf (Dremel paper, section 4.3,
//! "Record Assembly").
#![tactic(auto)]

mod leaf;
mod piece;

pub use leaf::{LeafReader, PlainBytes, extend_leaf};
pub use piece::ColumnPiece;
