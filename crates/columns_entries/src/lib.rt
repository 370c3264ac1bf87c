//! The entries of a dictionary, each with a value or null (Arrow columnar format, "Dictionary-encoded Layout"). Definitions alone.
#![tactic(auto)]
