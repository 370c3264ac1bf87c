//! What a call that succeeded wrote.

/// The numbers of row groups, rows and data pages that were written.
#[derive(Clone, Copy, Debug, PartialEq, Eq)]
pub struct Report {
    /// The row groups.
    pub groups: u64,
    /// The rows of all groups.
    pub rows: u64,
    /// The data pages of all groups.
    pub data_pages: u64,
}
