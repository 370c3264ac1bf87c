//! The Arrow schema that a file's tree stands for where the file carries none.
#![tactic(auto)]

mod groups;
mod info;
mod laws;
mod leaves;
mod schema;

pub use info::is_nullable;
pub use laws::{as_worked, types_nest_as_trees};
pub use schema::{parquet_to_arrow_schema, to_data_type};
