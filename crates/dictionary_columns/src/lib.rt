//! The columns of dictionary types, read with their entries kept: the column of the keys is one of numbers, whose entries are the numbers from 0 on
//! (Parquet format, "Dictionary Page"; Arrow columnar format, "Dictionary-encoded Layout").
#![tactic(auto)]

mod laws;
mod page;
mod source;

pub use laws::{
    pieces_are_entered, refusals_are_entered, rows_could_be, states_are_entered, whole_is_entered,
};
pub use page::key_page;
pub use source::{KeyPages, Lent, gives_indices};
