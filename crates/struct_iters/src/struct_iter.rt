//! A struct of iterators.
ghost use Rattle.std.specs.Prelude.{◌≡◌, ◌≢◌, ◌⊎◌, ◌↔◌, Bool, true, List, [], None, Option, flat_map, length, map, IfErr, IfOk, IsErrOf};
ghost use Rattle.columns_base.specs.declared.error.Error.TheVariants.{InvalidArgumentError, Memory};
ghost use Rattle.columns_base.specs.declared.error.A.TheVariants.{A8};
ghost use Rattle.columns_core.specs.Shapes.{base};
ghost use Rattle.columns_core.specs.Tree.{TypeTree, t_struct};
ghost use Rattle.columns_core.specs.View.{fields_view, type_view};
ghost use Rattle.read_nested.specs.Above.{Above};
ghost use Rattle.struct_iters.specs.Children.{AreChildren, is_struct_type};
ghost use Rattle.struct_iters.specs.Items.{GivesItem, IsAtEnd, IsGivingItems};
ghost use Rattle.struct_iters.specs.Progress.{Progress, AreGone};
ghost use Rattle.struct_iters.specs.Readings.{items_in, struct_in};

use crate::columns_iter::ColumnsIter;
use crate::nested::NestedArrayIter;
use columns_array::ArrayBox;
use columns_base::{A, Error, Result};
use columns_core::{DataType, Field};
use pq_pages::Pages;
use read_columns::Column;
use read_state::NestedState;
use std::alloc::Global;

/// The arrays of a struct, of one array of each of its children, and of each the parts above the struct.
#[derive(Drop)]
pub struct StructIterator<I: Pages> {
    // The columns of all children side by side, and the struct's type.
    pub(crate) children: ColumnsIter<I>,
}

// The readers of the columns of all children.
fn all_columns<I: Pages + Drop>(
    alloc: Global,
    iters: Vec<NestedArrayIter<I>>,
) -> Result<Vec<Option<Column<I>>>>
    ensures ok { IfOk result (λ columns. columns.items ≡ flat_map (λ it. (items_in it).readers) iters.items) }
    ensures err { IfErr result (λ e. e ≡ Memory) }
{
    let mut columns = Vec::new(alloc);
    let mut left = iters.into_iter();
    'iters: while let Some(iter) = left.next() {
        let mut more = iter.into_columns();
        columns.append(&mut more)?;
    }
    Ok(columns)
}

impl<I: Pages + Drop> StructIterator<I> {
    /// The struct of these fields, each with the iterator of its arrays. The items of each iterator are beneath the same parts, the innermost of which is
    /// the struct's.
    ///
    /// # Errors
    ///
    /// - `InvalidArgumentError(A8)`: exactly where the numbers differ or are 0.
    /// - `Memory`.
    pub fn new(alloc: Global, iters: Vec<NestedArrayIter<I>>, fields: Vec<Field>) -> Result<Self>
        ensures ok { (above : List Above) (n : Bool) (xs : List Progress)
            → AreChildren above n 0 (fields_view fields.items) (map items_in iters.items) xs
            → IfOk result (λ it. IsGivingItems above n (t_struct (fields_view fields.items)) xs (struct_in it)) }
        ensures typed { IfOk result (λ it. (struct_in it).type ≡ t_struct (fields_view fields.items)) }
        ensures numbers { IsErrOf result (InvalidArgumentError A8) ↔ ((iters.items ≡ [])
            ⊎ (length iters.items ≢ length fields.items)) }
        ensures err { IfErr result (λ e. (e ≡ Memory) ⊎ (e ≡ InvalidArgumentError A8)) }
    {
        if iters.is_empty() {
            return Err(Error::InvalidArgumentError(A::A8));
        }
        if iters.len() != fields.len() {
            return Err(Error::InvalidArgumentError(A::A8));
        }
        let columns = all_columns(alloc, iters)?;
        let data_type = DataType::Struct(fields);
        Ok(StructIterator {
            children: ColumnsIter {
                alloc,
                data_type,
                columns,
            },
        })
    }

    /// The same with another type: the struct of the same fields beneath extensions.
    pub fn with_data_type(self, data_type: DataType) -> Self
        requires same { base (type_view data_type) ≡ base (struct_in self).type }
        requires is_struct { is_struct_type (base (struct_in self).type) ≡ true }
        ensures typed { (struct_in result).type ≡ type_view data_type }
        ensures gives { (above : List Above) (n : Bool) (t : TypeTree) (xs : List Progress)
            → IsGivingItems above n t xs (struct_in self) → IsGivingItems above n (type_view data_type) xs
            (struct_in result) }
    {
        let children = self.children;
        StructIterator {
            children: ColumnsIter {
                alloc: children.alloc,
                data_type,
                columns: children.columns,
            },
        }
    }

    /// The next item. None once all children have ended, and behind an error.
    ///
    /// # Errors
    ///
    /// - Those of a child.
    /// - `OutOfSpec(S10)`: the children disagree on the parts above them, the struct's among them, or one ends before another.
    /// - `Memory`.
    pub fn next(&mut self) -> Option<Result<(NestedState, ArrayBox)>>
        ensures gives { (above : List Above) (n : Bool) (t : TypeTree) (xs : List Progress)
            → IsGivingItems above n t xs (struct_in self.old) → GivesItem above n t xs result (struct_in self.new) }
        ensures ends { IsAtEnd result (struct_in self.new) }
        ensures ended { AreGone (struct_in self.old).readers → (result ≡ None) × AreGone (struct_in self.new).readers }
    {
        self.children.next()
    }
}
