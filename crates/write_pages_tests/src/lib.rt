//! Tests of written pages, those of columns and those of one kind of array, in a crate of their own so that nothing is proved twice.
#![tactic(auto)]

#[cfg(test)]
mod arrays;
#[cfg(test)]
mod column_tests;
#[cfg(test)]
mod dictionary_tests;
#[cfg(test)]
mod entry_tests;
#[cfg(test)]
mod kinds_tests;
#[cfg(test)]
mod null_tests;
#[cfg(test)]
mod part_tests;
#[cfg(test)]
mod shapes;
#[cfg(test)]
mod spelled_tests;
#[cfg(test)]
mod statistics_tests;
#[cfg(test)]
mod table_tests;
