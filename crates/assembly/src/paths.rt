//! The ways to the leaves of a field.
ghost use Rattle.std.specs.Prelude.{◌≡◌, ◌⊎◌, ◌≤◌, ◌++◌, ◌∷◌, [], Some, None, true, false, map, IfOk, IfErr, OnOk};
ghost use Rattle.columns_base.specs.declared.error.Error.{Error};
ghost use Rattle.columns_core.specs.Measures.{field_nesting, fields_nesting, nesting};
ghost use Rattle.columns_core.specs.Shapes.{base};
ghost use Rattle.columns_core.specs.View.{field_view, fields_view, type_view};
ghost use Rattle.pq_headline.specs.Columns.{has_no_parts};
ghost use Rattle.assembly.specs.Paths.{Pushes, entries_fault, path_view, field_paths, fields_paths, type_paths, field_fault, fields_fault, struct_fault, type_fault};

use columns_base::{A, Error, N, Result};
use columns_core::{DataType, Field};
use read_state::InitNested;
use std::alloc::Global;

/// The way to a leaf: the parts on it, the field's first, and the type of the leaf.
#[derive(Debug, Drop)]
pub struct LeafPath {
    pub nested: Vec<InitNested>,
    pub data_type: DataType,
}

// The parts so far, and one more.
fn with_part(alloc: Global, front: &[InitNested], part: InitNested) -> Result<Vec<InitNested>>
    ensures ok { IfOk result (λ v. v.items ≡ front.now ++ part ∷ []) }
    ensures err { IfErr result (λ e. e ≡ Error.Memory) }
{
    let mut parts = Vec::with_capacity(alloc, front.len())?;
    parts.extend_from_slice(front)?;
    parts.push(part)?;
    Ok(parts)
}

fn push_leaf(
    alloc: Global,
    front: &[InitNested],
    is_nullable: bool,
    data_type: &DataType,
    paths: &mut Vec<LeafPath>,
) -> Result<()>
    ensures ok { OnOk result (map path_view paths.new.items ≡ map path_view paths.old.items
        ++ (front.now ++ InitNested.Primitive is_nullable ∷ [], type_view data_type.now) ∷ []) }
    ensures err { IfErr result (λ e. e ≡ Error.Memory) }
{
    let nested = with_part(alloc, front, InitNested::Primitive(is_nullable))?;
    let data_type = data_type.clone(alloc)?;
    paths.push(LeafPath { nested, data_type })?;
    Ok(())
}

// Whether nothing is inside values of the type.
fn is_without_parts(data_type: &DataType) -> bool
    ensures { result ≡ has_no_parts (base (type_view data_type.now)) }
{
    match data_type.base() {
        DataType::List(_) => false,
        DataType::LargeList(_) => false,
        DataType::FixedSizeList(_, _) => false,
        DataType::Map(_, _) => false,
        DataType::Struct(_) => false,
        DataType::Dictionary(_, _, _) => false,
        _ => true,
    }
}

// A dictionary is a leaf, unless its entries have parts.
fn push_dictionary(
    alloc: Global,
    front: &[InitNested],
    is_nullable: bool,
    entries: &DataType,
    data_type: &DataType,
    paths: &mut Vec<LeafPath>,
) -> Result<()>
    ensures { Pushes (map path_view paths.old.items) (map path_view paths.new.items)
        ((front.now ++ InitNested.Primitive is_nullable ∷ [], type_view data_type.now) ∷ [])
        (entries_fault (has_no_parts (base (type_view entries.now)))) result }
{
    if !is_without_parts(entries) {
        return Err(Error::NotYetImplemented(N::N5));
    }
    push_leaf(alloc, front, is_nullable, data_type, paths)
}

#[cycle(push)]
fn push_paths(
    alloc: Global,
    kind: &DataType,
    own: &DataType,
    front: &[InitNested],
    is_nullable: bool,
    paths: &mut Vec<LeafPath>,
) -> Result<()>
    requires { nesting (type_view kind.now) ≤ 128 }
    ensures { Pushes (map path_view paths.old.items) (map path_view paths.new.items)
        (type_paths front.now is_nullable (type_view own.now) (type_view kind.now))
        (type_fault (type_view kind.now)) result }
{
    match kind {
        DataType::List(item) => push_item(alloc, front, is_nullable, item, paths),
        DataType::LargeList(item) => push_item(alloc, front, is_nullable, item, paths),
        DataType::Map(entry, _) => push_item(alloc, front, is_nullable, entry, paths),
        DataType::Struct(fields) => push_children(alloc, front, is_nullable, fields, paths),
        DataType::Extension(_, inner, _) => {
            push_paths(alloc, inner, own, front, is_nullable, paths)
        }
        DataType::Dictionary(_, entries, _) => {
            push_dictionary(alloc, front, is_nullable, entries, own, paths)
        }
        DataType::FixedSizeList(_, _) | DataType::Union(_, _, _) => {
            Err(Error::NotYetImplemented(N::N5))
        }
        _ => push_leaf(alloc, front, is_nullable, own, paths),
    }
}

// The ways beneath a list.
#[cycle(push)]
fn push_item(
    alloc: Global,
    front: &[InitNested],
    is_nullable: bool,
    item: &Field,
    paths: &mut Vec<LeafPath>,
) -> Result<()>
    requires { field_nesting (field_view item.now) ≤ 127 }
    ensures { Pushes (map path_view paths.old.items) (map path_view paths.new.items)
        (field_paths (front.now ++ InitNested.List is_nullable ∷ []) (field_view item.now))
        (field_fault (field_view item.now)) result }
{
    match with_part(alloc, front, InitNested::List(is_nullable)) {
        Ok(front) => push_field(alloc, &front, item, paths),
        Err(error) => Err(error),
    }
}

// The ways beneath a struct.
#[cycle(push)]
fn push_children(
    alloc: Global,
    front: &[InitNested],
    is_nullable: bool,
    fields: &Vec<Field>,
    paths: &mut Vec<LeafPath>,
) -> Result<()>
    requires { fields_nesting (fields_view fields.now.items) ≤ 127 }
    ensures { Pushes (map path_view paths.old.items) (map path_view paths.new.items)
        (fields_paths (front.now ++ InitNested.Struct is_nullable ∷ []) (fields_view fields.now.items))
        (struct_fault (fields_view fields.now.items)) result }
{
    if fields.len() == 0 {
        return Err(Error::InvalidArgumentError(A::A8));
    }
    match with_part(alloc, front, InitNested::Struct(is_nullable)) {
        Ok(front) => push_fields(alloc, &front, fields, paths),
        Err(error) => Err(error),
    }
}

#[cycle(push)]
fn push_field(
    alloc: Global,
    front: &[InitNested],
    field: &Field,
    paths: &mut Vec<LeafPath>,
) -> Result<()>
    requires { field_nesting (field_view field.now) ≤ 128 }
    ensures { Pushes (map path_view paths.old.items) (map path_view paths.new.items)
        (field_paths front.now (field_view field.now)) (field_fault (field_view field.now)) result }
{
    push_paths(
        alloc,
        &field.data_type,
        &field.data_type,
        front,
        field.is_nullable,
        paths,
    )
}

#[cycle(push)]
fn push_fields(
    alloc: Global,
    front: &[InitNested],
    fields: &Vec<Field>,
    paths: &mut Vec<LeafPath>,
) -> Result<()>
    requires { fields_nesting (fields_view fields.now.items) ≤ 128 }
    ensures { Pushes (map path_view paths.old.items) (map path_view paths.new.items)
        (fields_paths front.now (fields_view fields.now.items)) (fields_fault (fields_view fields.now.items)) result }
{
    for field in fields {
        push_field(alloc, front, field, paths)?;
    }
    Ok(())
}

/// The ways to the leaves of a field beneath parts, in order, each with the parts in front. The field nests to at most 128.
///
/// # Errors
///
/// - `NotYetImplemented(N5)`: a list of fixed size or a union is on a way, or a dictionary whose entries are lists, structs, maps or dictionaries.
/// - `InvalidArgumentError(A8)`: a struct on a way has no field.
/// - `Memory`.
pub fn paths_beneath(alloc: Global, front: &[InitNested], field: &Field) -> Result<Vec<LeafPath>>
    requires { field_nesting (field_view field.now) ≤ 128 }
    ensures ok { IfOk result (λ v. (map path_view v.items ≡ field_paths front.now (field_view field.now))
        × (field_fault (field_view field.now) ≡ None)) }
    ensures err { IfErr result (λ e. (e ≡ Error.Memory) ⊎ (field_fault (field_view field.now) ≡ Some e)) }
{
    let mut paths = Vec::new(alloc);
    push_field(alloc, front, field, &mut paths)?;
    Ok(paths)
}

/// The ways to the leaves of a field, in order. The field nests to at most 128.
///
/// # Errors
///
/// Those of `paths_beneath`.
pub fn leaf_paths(alloc: Global, field: &Field) -> Result<Vec<LeafPath>>
    requires { field_nesting (field_view field.now) ≤ 128 }
    ensures ok { IfOk result (λ v. (map path_view v.items ≡ field_paths [] (field_view field.now))
        × (field_fault (field_view field.now) ≡ None)) }
    ensures err { IfErr result (λ e. (e ≡ Error.Memory) ⊎ (field_fault (field_view field.now) ≡ Some e)) }
{
    paths_beneath(alloc, &[], field)
}
