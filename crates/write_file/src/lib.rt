//! The bytes of a file as they go to a sink, group by group, and what its footer states of them (Parquet format, "File format").
#![tactic(auto)]

mod body;
mod chunk;
mod column;
mod count;
mod foot;
mod group;
mod leaf;
mod pages;
mod push;

pub use body::FileBody;
pub use count::Count;
pub use leaf::LeafMetas;
pub use pages::ChunkPages;

/// What a file begins and ends with (Parquet format, "File format").
pub(crate) const MAGIC: &[u8] = b"PAR1";
