//! From the level pairs of a page to a nested state and its leaf (Dremel paper, section 4.3, "Record Assembly"; Parquet format, "Nested Encoding").
//!
//! `NestedPage` reads the pairs of two level sections in blocks of 64, `check_order` says whether they may follow one another, `take_block` takes
//! a block part by part, and `extend_levels` takes pairs until so many rows are whole or the page ends, for any `NestedDecoder` of the leaf's
//! values. Contracts speak of the column that the state and the decoded slots stand for: it grows by exactly the triples of the pairs taken.
#![tactic(auto)]

mod bits;
mod block;
mod decode;
mod extend;
mod folds;
mod laws;
mod levels;
mod narrow;
mod order;
mod page;
mod runs;
mod take;
mod traits;
mod words;

pub use block::PairBlock;
pub use decode::decode_levels;
pub use extend::extend_levels;
pub use laws::pairs_are_read;
pub use order::check_order;
pub use page::NestedPage;
pub use take::take_block;
pub use traits::NestedDecoder;
