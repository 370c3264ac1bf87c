//! Tests of Thrift values, footers, page headers and trees, of pages, of the readers and filters that give them and of page validity, in a crate of their own
//! so that nothing is proved twice.
#![tactic(auto)]

#[cfg(test)]
mod field_tests;
#[cfg(test)]
mod file_tests;
#[cfg(test)]
mod filter_tests;
#[cfg(test)]
mod footer_tests;
#[cfg(test)]
mod page_tests;
#[cfg(test)]
mod straight_tests;
#[cfg(test)]
mod thrift_tests;
#[cfg(test)]
mod tree_tests;
#[cfg(test)]
mod validity_tests;
