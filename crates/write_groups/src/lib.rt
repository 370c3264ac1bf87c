//! Row groups of arrays, and the writer of a Parquet file (Parquet format, "File format", "Row Groups").
#![tactic(auto)]

mod column;
mod depth;
mod group;
mod laws;
mod writer;

pub use column::ChunkColumn;
pub use group::{RowGroupIter, row_group_iter};
pub use laws::{
    chosen_are_used, columns_are_laid, fields_are_laid, groups_are_laid, rows_are_read,
    served_groups_are_laid,
};
pub use writer::FileWriter;
