//! Thrift compact values: the grammar of the Thrift compact protocol, and a reader and a writer proved against it.
#![tactic(auto)]

mod clone;
mod fault;
mod heads;
mod kind;
mod laws;
mod numbers;
mod reading;
mod value;
mod writing;

pub use laws::{as_worked, one_reading, written_is_read};
pub use reading::read_thrift;
pub use value::Thrift;
pub use writing::write_thrift;
