//! One column of a row group, read piece by piece from its pages.
#![tactic(auto)]

mod deltas;
mod encoding;
mod entries;
mod indices;
mod lookup;
mod page;
mod parts;
mod queue;
mod reader;
mod take;

pub use entries::{Entries, read_entries};
pub use reader::ColumnReader;
