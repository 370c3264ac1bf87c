//! Laws, each the contract of a call with an empty body: a caller makes it known to the checker by calling it.

pub use nested_paths::{merged_paths_have_columns, paths_are_seen};
pub use pq_files::{files_are_unique, stored_values_are_unique, written_files_are_packed};
pub use pq_headline::{fitting_fields_are_alike, groups_are_read, refused_is_not_valid};
pub use read_nested::{fronts_agree, lists_keep_slots, structs_keep_slots};
pub use schema_key::{attached_is_inferred, attached_schema_is_inferred};
pub use schema_map::{fitting_fields_agree, leaves_are_counted, written_fields_fit};
pub use shredding::{columns_join, rows_are_counted, rows_are_unique, rows_exist};
pub use write_groups::{groups_are_laid, rows_are_read};
