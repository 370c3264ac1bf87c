//! The places of a leaf array that a path reaches, taken stretch by stretch (Arrow columnar format, "Validity bitmaps",
//! "Variable-size List Layout", "Struct Layout").
#![tactic(auto)]

mod laws;
mod reach;
mod taker;
mod there;
mod walk;

pub use laws::{columns_are_stored, values_are_at_places};
pub use taker::Taker;
pub use there::full_word;
pub use walk::take_places;
