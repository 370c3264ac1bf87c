//! A schema as bytes: the trait of such codecs, and a plain codec of all types that is proved against its grammar.
#![tactic(auto)]

mod codec;
mod fault;
mod known;
mod laws;
mod leaves;
mod meta;
mod numbers;
mod plain;
mod reading;
mod tag;
mod writing;

pub use codec::SchemaCodec;
pub use fault::{CodecFault, Refusal};
pub use known::know_schema;
pub use laws::{as_worked, read_is_written, written_is_read};
pub use plain::PlainCodec;
pub use tag::{interval_unit_from, number_of_interval_unit, number_of_unit, unit_from};
