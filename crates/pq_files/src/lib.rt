//! The definitions of pages and files of the Parquet format: which bytes carry which rows.
#![tactic(auto)]

mod examples;
mod laws;

pub use examples::{
    encodings_are_worked, first_file_is_carried, layouts_are_worked, near_misses_are_no_pages,
    near_misses_are_not_carried, near_misses_are_not_packed, near_misses_are_not_spelled,
    reasons_are_worked, written_file_is_packed,
};
pub use laws::{
    files_are_unique, pages_are_unique, reasons_exclude, rooms_are_planned,
    stored_values_are_unique, written_files_are_packed,
};
