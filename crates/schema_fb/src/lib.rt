//! Arrow's own schema bytes: a schema as a FlatBuffers message, written and read, proved against the layout.
#![tactic(auto)]

mod codec;
mod entries;
mod expressible;
mod extensions;
mod fields;
mod laws;
mod leaves;
mod message;
mod meta;
mod object;
mod places;
mod pushing;
mod size;
mod tables;
mod tag;
mod texts;
mod writing;

pub use codec::FlatCodec;
pub use laws::{as_worked, written_is_read};
