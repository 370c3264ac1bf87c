//! The iterators whose arrays a struct may hold.
ghost use Rattle.std.specs.Prelude.{◌≡◌, Bool, List, None, Option};
ghost use Rattle.columns_core.specs.Tree.{TypeTree};
ghost use Rattle.read_nested.specs.Above.{Above};
ghost use Rattle.struct_iters.specs.Items.{GivesItem, IsAtEnd, IsGivingItems};
ghost use Rattle.struct_iters.specs.Progress.{Progress, AreGone};
ghost use Rattle.struct_iters.specs.Readings.{items_in};

use crate::columns_iter::ColumnsIter;
use crate::struct_iter::StructIterator;
use columns_array::ArrayBox;
use columns_base::Result;
use pq_pages::Pages;
use read_columns::Column;
use read_state::NestedState;

/// The arrays of a field, and of each the parts above it.
#[derive(Drop)]
pub enum NestedArrayIter<I: Pages> {
    /// Of a field of any type that is read: a leaf, a dictionary, a list, a map or a struct.
    Columns(ColumnsIter<I>),
    /// Of a struct, of the iterators of its fields.
    Struct(StructIterator<I>),
}

impl<I: Pages + Drop> NestedArrayIter<I> {
    // The readers of its columns.
    pub(crate) fn into_columns(self) -> Vec<Option<Column<I>>>
        ensures { result.items ≡ (items_in self).readers }
    {
        match self {
            NestedArrayIter::Columns(it) => it.columns,
            NestedArrayIter::Struct(it) => it.children.columns,
        }
    }

    /// The next item. None once all columns have ended, and behind an error.
    ///
    /// # Errors
    ///
    /// Those of `ColumnsIter` and of `StructIterator`.
    pub fn next(&mut self) -> Option<Result<(NestedState, ArrayBox)>>
        ensures gives { (above : List Above) (n : Bool) (t : TypeTree) (xs : List Progress)
            → IsGivingItems above n t xs (items_in self.old) → GivesItem above n t xs result (items_in self.new) }
        ensures ends { IsAtEnd result (items_in self.new) }
        ensures ended { AreGone (items_in self.old).readers → (result ≡ None) × AreGone (items_in self.new).readers }
    {
        match self {
            NestedArrayIter::Columns(it) => it.next(),
            NestedArrayIter::Struct(it) => it.next(),
        }
    }
}
