//! Tests of buffers, types and arrays of every kind, of levels, of cut paths and of the paths of arrays, in a crate of their own so that no crate is proved twice.
#![tactic(auto)]

#[cfg(test)]
mod array_tests;
#[cfg(test)]
mod build;
#[cfg(test)]
mod core_tests;
#[cfg(test)]
mod cut_tests;
#[cfg(test)]
mod kind_tests;
#[cfg(test)]
mod level_tests;
#[cfg(test)]
mod native_tests;
#[cfg(test)]
mod parts;
