//! The key `ARROW:schema` of a file, and the Arrow schema that follows from a footer.
#![tactic(auto)]

mod attach;
mod infer;
mod laws;

pub use attach::{add_arrow_schema, schema_to_metadata_key};
pub use infer::{KeyRule, infer_schema, read_schema_from_metadata};
pub use laws::{as_worked, attached_is_inferred, attached_schema_is_inferred, the_last_counts};
