//! What every crate speaks of: why a call is refused, with numbered reasons and their texts, and how the values of
//! a leaf are stored.
#![tactic(auto)]

pub mod error;
pub mod physical;

pub use error::{A, Error, Limit, N, Result, S, V};
pub use physical::PhysicalType;
