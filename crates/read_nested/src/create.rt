//! The array of a field.
ghost use Rattle.std.specs.Prelude.{◌≡◌, ◌⊎◌, ◌≤◌, true, Bool, IfOk, IfErr, OnOk, List, Option};
ghost use Rattle.std.specs.Vec.Iter.{into_iter_items};
ghost use Rattle.columns_core.specs.View.{type_view, field_view, fields_view};
ghost use Rattle.columns_base.specs.declared.error.Error.{Error};
ghost use Rattle.columns_base.specs.declared.error.S.{S};
ghost use Rattle.shredding.specs.Shape.{HasNoEmptyStruct};
ghost use Rattle.shredding.specs.Shred.{Triple};
ghost use Rattle.shredding.specs.Slot.{Value};
ghost use Rattle.columns_core.specs.Measures.{field_nesting};
ghost use Rattle.columns_core.specs.Shapes.{shape_of};
ghost use Rattle.columns_core.specs.Tree.{t_list, t_map, t_struct};
ghost use Rattle.columns_slots.specs.Tree.{no_arrays, more_arrays};
ghost use Rattle.pq_headline.specs.Columns.{field_columns};
ghost use Rattle.read_pieces.specs.Pieces.{leaf_types, ArePiecesOf};
ghost use Rattle.read_nested.specs.Above.{Above};
ghost use Rattle.read_nested.specs.Beneath.{columns_beneath, ArePiecesBeneath, IsBeneath, CannotJoinColumns};
ghost use Rattle.read_nested.specs.Joined.{IsArrayOf, CannotJoin, HasFixedList, HaveFlatEntries};
ghost use Rattle.read_nested.specs.Made.{innermost, IsPopped, IsListOf, IsStructOf, MakesList, RefusesList, RefusesMap, RefusesStruct};
ghost use Rattle.columns_array.specs.Boxed.{boxed, all_boxed};
ghost use Rattle.read_nested.specs.Builds.{joined, Builds, BuildsAll, BuildsField, BuildsLeaf, Fails, FailsAll, FailsField, FailsLeaf};

use crate::children::struct_of;
use crate::offsets::take_part;
use crate::{create_list, create_map};
use columns_array::ArrayBox;
use columns_base::{A, Error, N, Result, S};
use columns_core::{DataType, Field};
use read_items::items_are_counted;
use read_pieces::ColumnPiece;
use read_state::NestedState;
use std::alloc::Global;
use std::vec::IntoIter;

// The arrays of a struct's children, and the parts that are left of their states.
#[derive(Drop)]
struct Children {
    arrays: Vec<ArrayBox>,
    nested: NestedState,
}

// The next piece, without its innermost part.
fn create_leaf(pieces: &mut IntoIter<ColumnPiece>) -> Result<ColumnPiece>
    ensures ok { IfOk result (λ p. BuildsLeaf (into_iter_items pieces.old) (into_iter_items pieces.new)
        (boxed p.values) p.nested) }
    ensures err { IfErr result (FailsLeaf (into_iter_items pieces.old)) }
{
    let Some(piece) = pieces.next() else {
        return Err(Error::InvalidArgumentError(A::A8));
    };
    let mut nested = piece.nested;
    let values = piece.values;
    let Some(_) = take_part(&mut nested) else {
        return Err(Error::InvalidArgumentError(A::A8));
    };
    values.know();
    Ok(ColumnPiece { nested, values })
}

// The array of a type, of the next pieces, with the parts above it. The other type is the same one with its extensions.
#[cycle(create)]
fn create_type(
    alloc: Global,
    data_type: &DataType,
    own: &DataType,
    pieces: &mut IntoIter<ColumnPiece>,
) -> Result<ColumnPiece>
    ensures ok { IfOk result (λ p. Builds (type_view own.now) (type_view data_type.now) (into_iter_items pieces.old)
        (into_iter_items pieces.new) (boxed p.values) p.nested) }
    ensures err { IfErr result (Fails (type_view own.now) (type_view data_type.now) (into_iter_items pieces.old)) }
{
    match data_type {
        DataType::List(item) => create_items(alloc, item, own, pieces),
        DataType::LargeList(item) => create_items(alloc, item, own, pieces),
        DataType::FixedSizeList(_, _) => Err(Error::NotYetImplemented(N::N5)),
        DataType::Map(entry, _) => create_entries(alloc, entry, own, pieces),
        DataType::Struct(fields) => create_struct(alloc, fields, own, pieces),
        DataType::Extension(_, inner, _) => create_type(alloc, inner, own, pieces),
        _ => create_leaf(pieces),
    }
}

#[cycle(create)]
fn create_field(
    alloc: Global,
    field: &Field,
    pieces: &mut IntoIter<ColumnPiece>,
) -> Result<ColumnPiece>
    ensures ok { IfOk result (λ p. BuildsField (field_view field.now) (into_iter_items pieces.old)
        (into_iter_items pieces.new) (boxed p.values) p.nested) }
    ensures err { IfErr result (FailsField (field_view field.now) (into_iter_items pieces.old)) }
{
    create_type(alloc, &field.data_type, &field.data_type, pieces)
}

// A list of any kind over its items.
#[cycle(create)]
fn create_items(
    alloc: Global,
    item: &Field,
    own: &DataType,
    pieces: &mut IntoIter<ColumnPiece>,
) -> Result<ColumnPiece>
    ensures ok { IfOk result (λ p. Builds (type_view own.now) (t_list (field_view item.now))
        (into_iter_items pieces.old) (into_iter_items pieces.new) (boxed p.values) p.nested) }
    ensures err { IfErr result (Fails (type_view own.now) (t_list (field_view item.now)) (into_iter_items pieces.old)) }
{
    let items = create_field(alloc, item, pieces)?;
    list_over(alloc, own, items)
}

#[cycle(create)]
fn create_entries(
    alloc: Global,
    entry: &Field,
    own: &DataType,
    pieces: &mut IntoIter<ColumnPiece>,
) -> Result<ColumnPiece>
    ensures ok { IfOk result (λ p. Builds (type_view own.now) (t_map (field_view entry.now) true)
        (into_iter_items pieces.old) (into_iter_items pieces.new) (boxed p.values) p.nested) }
    ensures err { IfErr result (Fails (type_view own.now) (t_map (field_view entry.now) true)
        (into_iter_items pieces.old)) }
{
    let entries = create_field(alloc, entry, pieces)?;
    map_over(alloc, own, entries)
}

#[cycle(create)]
fn create_struct(
    alloc: Global,
    fields: &Vec<Field>,
    own: &DataType,
    pieces: &mut IntoIter<ColumnPiece>,
) -> Result<ColumnPiece>
    ensures ok { IfOk result (λ p. Builds (type_view own.now) (t_struct (fields_view fields.now.items))
        (into_iter_items pieces.old) (into_iter_items pieces.new) (boxed p.values) p.nested) }
    ensures err { IfErr result (Fails (type_view own.now) (t_struct (fields_view fields.now.items))
        (into_iter_items pieces.old)) }
{
    let children = create_children(alloc, fields, pieces)?;
    struct_over(alloc, own, children)
}

// The arrays of all fields, of which there is one at least. S10 where a state is left with other parts than the first.
#[cycle(create)]
fn create_children(
    alloc: Global,
    fields: &[Field],
    pieces: &mut IntoIter<ColumnPiece>,
) -> Result<Children>
    ensures ok { IfOk result (λ c. BuildsAll (fields_view fields.now) (into_iter_items pieces.old)
        (into_iter_items pieces.new) (all_boxed c.arrays.items) c.nested) }
    ensures err { IfErr result (FailsAll (fields_view fields.now) (into_iter_items pieces.old)) }
{
    let [first, others @ ..] = fields else {
        return Err(Error::InvalidArgumentError(A::A8));
    };
    let piece = create_field(alloc, first, pieces)?;
    let mut children = first_child(alloc, piece)?;
    for field in others {
        let piece = create_field(alloc, field, pieces)?;
        add_child(piece, &mut children)?;
    }
    Ok(children)
}

fn first_child(alloc: Global, piece: ColumnPiece) -> Result<Children>
    ensures ok { IfOk result (λ c. (all_boxed c.arrays.items ≡ more_arrays (boxed piece.values) no_arrays)
        × (c.nested ≡ piece.nested)) }
    ensures err { IfErr result (λ e. e ≡ Error.Memory) }
{
    let mut arrays = Vec::new(alloc);
    arrays.push(piece.values)?;
    Ok(Children {
        arrays,
        nested: piece.nested,
    })
}

// One more. S10 where its state is left with other parts.
#[tactic(auto, using(crate::proofs::Each::boxed_more))]
fn add_child(piece: ColumnPiece, children: &mut Children) -> Result<()>
    ensures ok { OnOk result ((piece.nested ≡ children.old.nested)
        × (all_boxed children.new.arrays.items ≡ joined (all_boxed children.old.arrays.items)
        (more_arrays (boxed piece.values) no_arrays))) }
    ensures same { children.new.nested ≡ children.old.nested }
    ensures err { IfErr result (λ e. (e ≡ Error.Memory) ⊎ ((e ≡ Error.OutOfSpec S.S10)
        × ¬ (piece.nested ≡ children.old.nested))) }
{
    if !piece.nested.same(&children.nested) {
        return Err(Error::OutOfSpec(S::S10));
    }
    children.arrays.push(piece.values)?;
    Ok(())
}

// The list array over these items and the parts above it.
fn list_over(alloc: Global, own: &DataType, items: ColumnPiece) -> Result<ColumnPiece>
    ensures ok { IfOk result (λ p. IsPopped items.nested p.nested
        × MakesList (type_view own.now) (innermost items.nested) (boxed items.values) (boxed p.values)) }
    ensures err { IfErr result (λ e. (e ≡ Error.Memory) ⊎ RefusesList (type_view own.now) (innermost items.nested)
        (boxed items.values) e) }
{
    let mut nested = items.nested;
    let data_type = own.clone(alloc)?;
    let values = create_list(alloc, data_type, &mut nested, items.values)?;
    Ok(ColumnPiece { nested, values })
}

fn map_over(alloc: Global, own: &DataType, entries: ColumnPiece) -> Result<ColumnPiece>
    ensures ok { IfOk result (λ p. IsPopped entries.nested p.nested
        × IsListOf (type_view own.now) (innermost entries.nested) (boxed entries.values) (boxed p.values)) }
    ensures err { IfErr result (λ e. (e ≡ Error.Memory) ⊎ RefusesMap (type_view own.now) (innermost entries.nested)
        (boxed entries.values) e) }
{
    let mut nested = entries.nested;
    let data_type = own.clone(alloc)?;
    let values = create_map(alloc, data_type, &mut nested, entries.values)?;
    Ok(ColumnPiece { nested, values })
}

fn struct_over(alloc: Global, own: &DataType, children: Children) -> Result<ColumnPiece>
    ensures ok { IfOk result (λ p. IsPopped children.nested p.nested
        × IsStructOf (type_view own.now) (innermost children.nested) (all_boxed children.arrays.items)
        (boxed p.values)) }
    ensures err { IfErr result (λ e. (e ≡ Error.Memory) ⊎ RefusesStruct (type_view own.now) (innermost children.nested)
        (all_boxed children.arrays.items) e) }
{
    let mut nested = children.nested;
    let data_type = own.clone(alloc)?;
    let values = struct_of(alloc, data_type, &mut nested, children.arrays)?;
    Ok(ColumnPiece { nested, values })
}

/// The array of a field, of one piece of each of its columns (Dremel paper, section 4.3).
///
/// # Errors
///
/// - `OutOfSpec(S10)`: two of the columns disagree on what their ways share.
/// - `Overflow(V1)`: a list has more items than its offsets count.
/// - `NotYetImplemented(N5)`: a list of fixed size is in the field.
/// - `Memory`.
pub fn create_array(alloc: Global, field: &Field, pieces: Vec<ColumnPiece>) -> Result<ArrayBox>
    requires nesting { field_nesting (field_view field.now) ≤ 128 }
    requires structs { HasNoEmptyStruct (shape_of (field_view field.now)) }
    ensures ok { (tables : List (List Triple)) (es : List (Option (List (Option Value))))
        → HaveFlatEntries (field_view field.now) → ArePiecesOf (field_columns (field_view field.now))
        (leaf_types (field_view field.now)) tables es pieces.items
        → IfOk result (λ a. IsArrayOf (field_view field.now) tables es (boxed a)) }
    ensures err { (tables : List (List Triple)) (es : List (Option (List (Option Value))))
        → HaveFlatEntries (field_view field.now) → ArePiecesOf (field_columns (field_view field.now))
        (leaf_types (field_view field.now)) tables es pieces.items
        → IfErr result (CannotJoin (field_view field.now) tables) }
{
    items_are_counted();
    let mut left = pieces.into_iter();
    let piece = create_field(alloc, field, &mut left)?;
    piece.values.know_slots();
    Ok(piece.values)
}

/// The array of a type, of one piece of each of its columns, with the parts that are left of the pieces' states: those above the type (Dremel paper,
/// section 4.3).
///
/// # Errors
///
/// - `OutOfSpec(S10)`: two of the columns disagree on what their ways share.
/// - `Overflow(V1)`: a list has more items than its offsets count.
/// - `NotYetImplemented(N5)`: a list of fixed size is in the type.
/// - `Memory`.
pub fn create_piece(
    alloc: Global,
    data_type: &DataType,
    pieces: Vec<ColumnPiece>,
) -> Result<ColumnPiece>
    ensures ok { (above : List Above) (n : Bool) (tables : List (List Triple))
        (es : List (Option (List (Option Value)))) → ArePiecesBeneath above n
        (type_view data_type.now) tables es pieces.items → IfOk result
        (IsBeneath above n (type_view data_type.now) tables es) }
    ensures err { (above : List Above) (n : Bool) (tables : List (List Triple))
        (es : List (Option (List (Option Value)))) → ArePiecesBeneath above n
        (type_view data_type.now) tables es pieces.items → IfErr result
        (CannotJoinColumns (HasFixedList (type_view data_type.now))
        (columns_beneath above n (type_view data_type.now)) tables) }
{
    items_are_counted();
    let mut left = pieces.into_iter();
    create_type(alloc, data_type, data_type, &mut left)
}
