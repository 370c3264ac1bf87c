//! What an iterator over the arrays of a field keeps.
use columns_core::Field;
use pq_pages::Pages;
use read_columns::Column;
use std::alloc::Global;
use std::marker::Model;

/// The arrays of a field, one after another.
#[derive(Drop)]
pub struct ArrayIter<I: Pages> {
    pub(crate) alloc: Global,
    pub(crate) field: Field,
    pub(crate) columns: Vec<Column<I>>,
    /// The rows that are left.
    pub(crate) left: usize,
}

impl<I: Pages> Model for ArrayIter<I> {
    ghost use Rattle.std.specs.Prelude.{◌≡◌, ◌≤◌, is_some, false};
    ghost use Rattle.std.specs.Coded.{codes};
    ghost use Rattle.columns_core.specs.Measures.{field_nesting};
    ghost use Rattle.columns_core.specs.TypeCode.{type_code};
    ghost use Rattle.columns_core.specs.View.{field_view};
    ghost use Rattle.columns_slots.specs.Tree.{tree_code};
    ghost use Rattle.read_column.specs.SlotCode.{slot_code};
    ghost use Rattle.assembly.specs.FieldCode.{field_code};
    ghost use Rattle.assembly.specs.Giving.{FieldReading};
    ghost use Rattle.assembly.specs.Paths.{field_fault};

    ghost Value = { FieldReading };

    ghost coded = { Prim.hlevel (codes, slot_code, type_code, tree_code, field_code) };

    ghost view = { λ it. record { field = field_view it.field; columns = it.columns.items; left = it.left } };

    ghost invariant = { λ it. (field_nesting (field_view it.field) ≤ 128)
        × (is_some (field_fault (field_view it.field)) ≡ false) };
}
