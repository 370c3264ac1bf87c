//! What a rewrite tells of itself: its report, the line on the notes, and the status.
#![tactic(auto)]

mod line;
mod notes;
mod report;

use line::Line;
pub use notes::{status_of, tell_answer, tell_bad_words, tell_sample};
pub use report::Report;
