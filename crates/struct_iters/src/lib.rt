//! The arrays of a type that nests, with the parts that stand above them: iterators over the columns of a field beneath lists and structs, and over a struct
//! of such iterators (Dremel paper, section 4.3, "Record Assembly"; Arrow columnar format, "Struct Layout").
#![tactic(auto)]

mod columns_iter;
mod nested;
mod open;
mod pieces;
mod struct_iter;

pub use columns_iter::ColumnsIter;
pub use nested::NestedArrayIter;
pub use open::columns_to_iter_recursive;
pub use struct_iter::StructIterator;
