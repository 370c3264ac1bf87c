//! The values of a leaf array as a column stores them, measured and spelled, and data pages of any path, plain or by deltas (Parquet format,
//! "Data Pages", "Nested Encoding", "Types" and LogicalTypes; Encodings, "Plain", "Delta Encoding" and "Delta-length byte array").
#![tactic(auto)]

mod decimals;
mod deltas;
mod feeding;
mod fixed;
mod fronts;
mod intervals;
mod known;
mod leaf;
mod measure;
mod measured;
mod numbers;
mod order;
mod page;
mod pieces;
mod plain;
mod row;
mod spelled;
mod spelling;
mod statistics;
mod stretch;
mod strings;
mod truths;
mod values;
mod wide;

pub use known::{Known, known_values};
pub use leaf::{Leaf, is_decimal, is_served, leaf_of};
pub use measured::Measured;
pub use page::{
    Body, Counts, PageForm, data_page, data_page_with, descriptor_of, has_room, page_header,
};
pub use spelling::page_encoding;
pub use statistics::column_statistics;
pub use stretch::{push_stretch, stretch_size};
pub use values::measure_values;
pub use wide::has_wide;
