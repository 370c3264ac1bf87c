//! What is done, and with what.
use crate::{Plan, RewriteOptions};
use pq_tree::FileMetaData;

/// A file that is read, from its bytes, the place of its footer, what that says, and what was settled of it.
#[derive(Clone, Copy)]
pub struct Job<'a> {
    pub input: &'a [u8],
    pub place: usize,
    pub metadata: &'a FileMetaData,
    pub plan: &'a Plan,
    pub options: &'a RewriteOptions,
}
