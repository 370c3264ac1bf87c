//! Tests of files and row groups as they are written, and of the bytes of their pages, in a crate of their own so that `write_file`, `write_groups` and `row_groups` are not proved twice.
#![tactic(auto)]

#[cfg(test)]
mod decimal_tests;
#[cfg(test)]
mod delta_tests;
#[cfg(test)]
mod dictionary_tests;
#[cfg(test)]
mod fields;
#[cfg(test)]
mod file_tests;
#[cfg(test)]
mod group_tests;
#[cfg(test)]
mod leaf_tests;
#[cfg(test)]
mod one_column;
#[cfg(test)]
mod options;
#[cfg(test)]
mod page_tests;
#[cfg(test)]
mod sink_tests;
#[cfg(test)]
mod statistics_tests;
#[cfg(test)]
mod struct_tests;
