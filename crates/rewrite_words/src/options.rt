//! What a rewrite is asked for.
use pq_tree::Version;
use schema_key::KeyRule;

/// The options of a rewrite.
#[derive(Clone, Copy, Debug, PartialEq, Eq, Drop)]
pub struct RewriteOptions {
    /// The version of the file and of its pages.
    pub version: Version,
    /// How many bytes the values of a page may have, more or less.
    pub page_limit: usize,
    /// How many rows go into a group; without it the groups are those of the input.
    pub chunk_size: Option<usize>,
    pub statistics: bool,
    /// Whether delta encodings are used where they may be.
    pub delta: bool,
    pub key_rule: KeyRule,
    /// The most bytes that an input may have.
    pub byte_limit: usize,
    /// The most level pairs that its footer may claim.
    pub pair_limit: u64,
}
