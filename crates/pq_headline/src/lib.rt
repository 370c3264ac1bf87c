//! What a rewrite makes of a file: its schema and columns, the rows that a group holds, the pieces of an output and their layout, and
//! each reason of a refusal at its stage. Definitions and laws alone.
#![tactic(auto)]

mod laws;

pub use laws::{
    as_worked, fitting_fields_are_alike, fitting_schemas_are_alike, groups_are_read, groups_follow,
    leaves_are_as_many, outputs_are_refused, passed_is_not_refused, pieces_are_cut,
    refused_is_not_valid, served_is_plain, settled_schemas_fit, without_groups,
    written_is_converted,
};
