//! Whether an Arrow field and a tree of a Parquet schema are of one column.
#![tactic(auto)]

mod fit;
mod laws;
mod page_table;
mod place;
mod walk;

pub use fit::{agrees, fits};
pub use laws::as_worked;
