//! How many items the lists of a state have that was built from level pairs (Arrow columnar format, "Variable-size List Layout").
#![tactic(auto)]

mod laws;

pub use laws::items_are_counted;
