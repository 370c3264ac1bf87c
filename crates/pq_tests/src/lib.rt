//! Tests of numbers, runs, deltas and level sections, in a crate of their own so that those crates are not proved twice.
#![tactic(auto)]

#[cfg(test)]
mod bitmap_tests;
#[cfg(test)]
mod delta_read_tests;
#[cfg(test)]
mod delta_tests;
#[cfg(test)]
mod filter_tests;
#[cfg(test)]
mod number_tests;
#[cfg(test)]
mod run_tests;
#[cfg(test)]
mod section_tests;
