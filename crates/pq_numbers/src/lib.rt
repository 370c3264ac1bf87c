//! Numbers as bytes: varints, zigzag numbers, little-endian numbers and packed bits.
#![tactic(auto)]

mod laws;
mod little_endian;
mod varint;
mod zigzag;

pub use laws::{as_worked, bytes_spell_numbers};
pub use little_endian::{
    push_i32_le, push_i64_le, push_u32_le, read_i32_le, read_i64_le, read_u32_le,
};
pub use varint::{push_varint, take_varint};
pub use zigzag::{from_zigzag, to_zigzag};
