//! Which values of a flat page are there, run by run (Parquet format, "Data Pages", definition levels).
#![tactic(auto)]

mod bits;
mod filtered;
mod optional;
mod picked;
mod rows;
mod validity;
mod zip;

pub use filtered::FilteredOptionalPageValidity;
pub use optional::OptionalPageValidity;
pub use rows::{get_selected_rows, not_implemented};
pub use validity::PageValidity;
pub use zip::Zip;
