//! Where a reader stands in a chunk.

/// What was read of a chunk so far (Parquet format, "Column chunks").
#[derive(Clone, Copy, Drop)]
pub struct Place {
    /// Whether a dictionary page stood in front.
    pub has_dictionary: bool,
    /// Whether no page was read.
    pub is_first: bool,
}
