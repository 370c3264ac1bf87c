//! Rewrites a Parquet file from a source to a sink, stage after stage.
#![tactic(auto)]

mod checks;
mod columns;
mod encode;
mod finish;
mod frame;
mod groups;
mod job;
mod keys;
mod misfit;
mod open;
mod output;
mod pieces;
mod places;
mod plan;
mod rows_view;
mod served;
mod view;
mod whole;

pub use frame::rewrite;
use job::Job;
use output::Output;
use plan::Plan;
pub use rewrite_notes::Report;
pub use rewrite_words::RewriteOptions;
pub use rows_view::RowsView;
pub use schema_key::KeyRule;
pub use view::{NoView, View};
