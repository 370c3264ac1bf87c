//! From Arrow types to the tree of a file's columns (Parquet format, LogicalTypes), and what is told from types alone.
#![tactic(auto)]

mod decimals;
mod depth;
mod encodes;
mod laws;
mod leaves;
mod nodes;
mod schemas;
mod stored;
mod times;
mod trees;

pub use decimals::decimal_length_from_precision;
pub use encodes::can_encode;
pub use laws::as_worked;
pub use leaves::{n_columns, transverse};
pub use schemas::to_parquet_schema;
pub use trees::to_parquet_type;
