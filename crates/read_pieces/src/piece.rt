//! A piece.
use columns_array::ArrayBox;
use read_state::NestedState;

/// A piece of a column: what its level pairs built, and the array of its leaf.
#[derive(Drop)]
pub struct ColumnPiece {
    pub nested: NestedState,
    pub values: ArrayBox,
}
