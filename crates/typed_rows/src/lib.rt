//! Whether the slots of arrays are slots of fields: no null that is reached stands where a field is required (Dremel paper, section 3, "Data
//! model"; Arrow columnar format, "Validity bitmaps").
#![tactic(auto)]

mod chunk;
mod entries;
mod inner;
mod own;
mod types;

pub use chunk::are_rows_of;
pub use own::{are_own, fields_are_own};
