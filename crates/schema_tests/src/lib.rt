//! Tests of the two maps between schemas and trees, of the codec, of the key and of Arrow's own schema messages, in a crate of their own
//! so that no crate is proved twice.
#![tactic(auto)]

#[cfg(test)]
mod bytes;
#[cfg(test)]
mod codec_tests;
#[cfg(test)]
mod damaged;
#[cfg(test)]
mod key_tests;
#[cfg(test)]
mod messages;
#[cfg(test)]
mod schemas;
#[cfg(test)]
mod tree_tests;
