//! The level sections of data pages (Parquet format, "Data Pages" and "Nested Encoding"), written from paths of nested parts.
#![tactic(auto)]

mod block;
mod flat;
mod items;
mod level_bytes;
mod list_stretch;
mod lists;
mod pieces;
mod planes;
mod prefix;
mod raising;
mod section;
mod sections;
mod spans;
mod tell;
mod told_levels;
mod walk;

pub use flat::write_def_levels;
pub use sections::write_rep_and_def;
