//! Pages of one kind of leaf array each: flat columns, and leaves along a path (Parquet format, "Data Pages", "Nested Encoding").
#![tactic(auto)]

pub mod binary;
pub mod boolean;
mod checked;
mod conditions;
mod encoded;
pub mod fixed_len_bytes;
mod flat;
mod page;
pub mod primitive;
mod simple;
pub mod utf8;

pub use conditions::{check_along, check_flat};
pub use simple::array_to_page_simple;
