//! The definitions of a file's frame, and of what its Thrift values say: the footer and the headers of pages.
#![tactic(auto)]

mod laws;

pub use laws::{flat_forms_are_footers, footers_are_unique, frames_are_told, headers_are_unique};
