//! A whole file read and written anew, as its options ask.

pub use pq_rewrite::{KeyRule, NoView, Report, RewriteOptions, View, read_words, rewrite, run};
