//! Tests of byte strings in a row, of the level walk and its decoders, of the reader of columns and of arrays of leaves, in a crate of their own so that no crate is proved twice.
#![tactic(auto)]

#[cfg(test)]
mod array_tests;
#[cfg(test)]
mod binary_tests;
#[cfg(test)]
mod delta_tests;
#[cfg(test)]
mod entry_tests;
#[cfg(test)]
mod fixed_bytes_tests;
#[cfg(test)]
mod fixed_tests;
#[cfg(test)]
mod level_tests;
#[cfg(test)]
mod number_tests;
#[cfg(test)]
mod page_tests;
#[cfg(test)]
mod pages;
#[cfg(test)]
mod range_tests;
#[cfg(test)]
mod reader_tests;
#[cfg(test)]
mod string_tests;
#[cfg(test)]
mod text_tests;
