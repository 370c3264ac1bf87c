//! The nested state that the level pairs of one column build (Dremel paper, section 4.3, "Record Assembly"): a part for each node of the way to the
//! leaf, and what each part keeps of its pushes. A block of up to 64 pairs is taken part by part, equal pairs at once.
//!
//! Contracts see a state as the list of what its parts keep; `read_laws` says what column that stands for.
#![tactic(auto)]

mod block;
mod block_levels;
mod boxes;
mod init;
mod kinds;
mod laws;
mod lists;
mod nested;
mod parts;
mod plain;
mod pushes;
mod same;
mod steps;
mod stretch;
mod words;

pub use block_levels::BlockLevels;
pub use boxes::NestedBox;
pub use init::{InitNested, init_nested};
pub use kinds::{
    Nested, NestedOptional, NestedPrimitive, NestedStruct, NestedStructValid, NestedValid,
};
pub use laws::states_begin_empty;
pub use nested::NestedState;
pub use steps::Steps;
pub use words::{levels_at, levels_from, levels_to};
