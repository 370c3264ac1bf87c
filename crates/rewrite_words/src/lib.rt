//! The options of a rewrite, and the words of the command line that ask for them.
#![tactic(auto)]

mod asked;
mod laws;
mod numbers;
mod options;
mod read;
mod sample;
mod setting;

pub use laws::{as_worked, forms_exclude, order_does_not_matter};
pub use options::RewriteOptions;
pub use read::read_words;
pub use sample::read_sample;
