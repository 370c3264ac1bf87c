//! Chunks of arrays as groups of a schema that is settled: what is known of them where they are written in the encodings that are chosen.
#![tactic(auto)]

mod know;
mod laws;

pub use know::know_sound;
pub use laws::{as_worked, groups_are_written, large_pages_are_large, suiting_chunks_are_taken};
