//! Arrays of all kinds: each stands for one list of slots of its type.
#![tactic(auto)]

pub mod arrays;
pub mod chunk;
mod laws;

pub use arrays::{
    ArrayBox, DictionaryArray, FixedSizeListArray, LargeListArray, ListArray, MapArray, StructArray,
};
pub use chunk::Chunk;
pub use laws::as_worked;
