//! Fields of structs, appended to a text as they are spelled (Thrift compact protocol, "Struct"; Parquet format, parquet.thrift).
//!
//! Each call is refused for want of memory alone (`AllocError`). Part of its field may then stand at the end of the text.
#![tactic(auto)]

mod fields;
mod head;
mod some;
mod statistics;

pub use fields::{
    push_bool, push_i32, push_i64, push_list_head, push_numbers, push_struct_head, push_text,
    push_texts,
};
pub use some::{push_some_bool, push_some_i16, push_some_i32, push_some_i64};
pub use statistics::push_some_statistics;
