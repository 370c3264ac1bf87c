//! The array of a field, of one piece of each of its columns: lists, large lists, structs and maps of any nesting (Dremel paper, section 4.3, "Record
//! Assembly"; Arrow columnar format).
//!
//! A piece is the nested state that the level pairs of a column built, and the array of its leaf. From each leaf upwards the innermost part of the state
//! becomes the list or struct array around the one that is there; the children of a struct must have built the same parts above it.
#![tactic(auto)]

mod children;
mod create;
mod laws;
mod list;
mod map;
mod offsets;

pub use create::{create_array, create_piece};
pub use laws::{fronts_agree, leaves_keep_slots, lists_keep_slots, structs_keep_slots};
pub use list::{ListKind, create_list};
pub use map::create_map;
