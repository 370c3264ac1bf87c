//! The rows of the sample, a workload of any size: under `id` the row's number, under `tag` that number in decimal, and under `items` a list
//! of numbers, with nulls by divisibility. And the present items of a list array, counted and added up.
#![tactic(auto)]

mod columns;
mod count;
mod ids;
mod items;
mod kinds;
mod laws;
mod schema;
mod tags;
mod totals;

pub use columns::{id_array, items_array, sample_chunk, tag_array};
pub use count::count_items;
pub use laws::{as_worked, items_add_up};
pub use schema::sample_schema;
pub use totals::Totals;
