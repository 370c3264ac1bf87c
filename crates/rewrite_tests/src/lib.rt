//! Tests of whole runs over files of every form and damage, of their words, of the sample and of the callers in `uses`, in a crate of their own so that what they test is not proved twice.
#![tactic(auto)]

#[cfg(test)]
mod caller_tests;
#[cfg(test)]
mod delta_tests;
#[cfg(test)]
mod ends;
#[cfg(test)]
mod file_tests;
#[cfg(test)]
mod files;
#[cfg(test)]
mod large_tests;
#[cfg(test)]
mod pass_tests;
#[cfg(test)]
mod run_tests;
#[cfg(test)]
mod sample_row_tests;
#[cfg(test)]
mod sample_run_tests;
#[cfg(test)]
mod sample_tests;
#[cfg(test)]
mod sink_tests;
#[cfg(test)]
mod view_tests;
#[cfg(test)]
mod word_tests;
