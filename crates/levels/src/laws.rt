//! The laws of shredding, each the contract of a function that does nothing. They stand in the crate `shredding`.
ghost use Rattle.levels.specs.Examples.{AreWorked};

pub use shredding::{
    as_worked, columns_are_local, columns_are_seen_along, columns_join, columns_split,
    fields_have_their_columns, first_rows_are_columns, levels_are_within, pieces_are_rows,
    prefixes_are_columns, rows_are_counted, rows_are_unique, rows_exist, schema_rows_are_unique,
    seen_along_is_unique, slots_go_along, ways_are_listed,
};

/// Worked paths: their level pairs and how many there are, stretches of alike slots, what lists span, and paths in bounds.
pub fn paths_as_worked()
    ensures { AreWorked }
{}
