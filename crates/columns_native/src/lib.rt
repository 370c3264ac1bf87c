//! Numbers over a type parameter: as a column stores them, their order, and their arrays put into the array of any kind.
#![tactic(auto)]

mod cast;
mod keys;
mod natives;
mod offsets;
mod ordered;
mod plain;
mod stored;

pub use cast::AsPrimitive;
pub use keys::{IntoKeys, KeyArray};
pub use natives::{IntoBox, NativeArray};
pub use offsets::{IntoStrings, OffsetArray};
pub use ordered::OrderedNative;
pub use plain::PlainNumber;
pub use stored::StoredAs;
