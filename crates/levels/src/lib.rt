//! The repetition and definition levels of nested columns (Dremel paper, section 4; Parquet format, "Nested Encoding").
#![tactic(auto)]

mod count;
mod cursors;
mod equal;
mod here;
mod in_bounds;
mod items;
mod iters;
pub mod laws;
mod most;
mod nested;
mod ranges;
mod shared;
mod walk;
mod well_formed;
mod whole;

pub use count::num_values;
pub use equal::{is_same_list, is_same_nested};
pub use here::{full_word, list_pairs, present_word};
pub use in_bounds::is_in_bounds;
pub use iters::{DefLevelsIter, RepLevelsIter};
pub use most::most_values;
pub use nested::{ListNested, Nested, has_lists, max_def_level, max_rep_level, slot_count};
pub use ranges::{get_max_length, leaf_len, slice_nested_leaf};
pub use walk::{Level, Stretch, stretch_at};
pub use well_formed::is_well_formed;
