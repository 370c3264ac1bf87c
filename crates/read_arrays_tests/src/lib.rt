//! Tests of the arrays that are read: those of columns, of dictionaries and of whole fields, through iterators over them, and of columns that were written before; in a
//! crate of their own so that no crate is proved twice.
#![tactic(auto)]

#[cfg(test)]
mod again_tests;
#[cfg(test)]
mod array_tests;
#[cfg(test)]
mod dictionary_column_tests;
#[cfg(test)]
mod dictionary_field_tests;
#[cfg(test)]
mod dictionary_iter_tests;
#[cfg(test)]
mod encoding_tests;
#[cfg(test)]
mod entry_tests;
#[cfg(test)]
mod field_tests;
#[cfg(test)]
mod fields;
#[cfg(test)]
mod flat_tests;
#[cfg(test)]
mod key_tests;
#[cfg(test)]
mod keys;
#[cfg(test)]
mod nested_tests;
#[cfg(test)]
mod opened_tests;
#[cfg(test)]
mod pages;
#[cfg(test)]
mod part_tests;
#[cfg(test)]
mod struct_tests;
#[cfg(test)]
mod written_columns;
