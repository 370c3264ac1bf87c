//! Objects as bytes.

ghost use Rattle.std.specs.Prelude.{◌≡◌, ◌+◌, ◌*◌, ◌++◌, replicate, flat_map, OnOk};
ghost use Rattle.schema_codec.specs.Spelling.{count_bytes, size_bytes, id_bytes};
ghost use Rattle.schema_fb.specs.Layout.{short_bytes, gap, padded, entry, entries, vtable, offset, object_bytes};
ghost use Rattle.schema_fb.specs.Layout.{objects_bytes, cells_bytes, below_bytes, numbers, vector, table, text as leaf};
ghost use Rattle.schema_fb.specs.Parts.{offsets_behind, slots_bytes};
ghost use Rattle.schema_fb.specs.Tables.{one};
ghost use Rattle.schema_fb.specs.Views.{cell_view, cells_view, object_view, objects_view};

use crate::object::{Cell, Object};
use crate::size::{cell_size, front, gap, size, vtable_size};
use std::alloc::AllocError;

/// A number of two bytes: the low 16 bits of the size.
#[tactic(auto, unfolding(crate::specs::Layout::short_bytes))]
fn push_short(out: &mut Vec<u8>, size: usize) -> Result<(), AllocError>
    ensures { OnOk result (out.new.items ≡ out.old.items ++ short_bytes size) }
{
    let low = (size % (1 << 16)) as u16;
    out.extend_from_slice(&low.to_le_bytes())
}

/// A count, a length or an offset: the low 32 bits of the size.
#[tactic(auto, unfolding(schema_codec::specs::Spelling::count_bytes))]
pub fn push_count(out: &mut Vec<u8>, size: usize) -> Result<(), AllocError>
    ensures { OnOk result (out.new.items ≡ out.old.items ++ count_bytes size) }
{
    let low = (size % (1 << 32)) as u32;
    out.extend_from_slice(&low.to_le_bytes())
}

#[tactic(auto, unfolding(schema_codec::specs::Spelling::size_bytes))]
fn push_number(out: &mut Vec<u8>, number: u64) -> Result<(), AllocError>
    ensures { OnOk result (out.new.items ≡ out.old.items ++ size_bytes number) }
{
    out.extend_from_slice(&number.to_le_bytes())
}

/// Zero bytes up to the next multiple of 8.
fn push_gap(out: &mut Vec<u8>, size: usize) -> Result<(), AllocError>
    ensures { OnOk result (out.new.items ≡ out.old.items ++ replicate (gap size) 0) }
{
    for _ in 0..gap(size) {
        out.push(0)?;
    }
    Ok(())
}

fn push_text(out: &mut Vec<u8>, text: &str) -> Result<(), AllocError>
    ensures { OnOk result (out.new.items ≡ out.old.items ++ object_bytes (leaf text.now)) }
{
    push_count(out, text.len())?;
    out.extend_from_slice(text.as_bytes())?;
    out.push(0)?;
    push_gap(out, text.len().wrapping_add(5))
}

fn push_ids(out: &mut Vec<u8>, ids: &[i32]) -> Result<(), AllocError>
    ensures { OnOk result (out.new.items ≡ out.old.items ++ flat_map id_bytes ids.now) }
{
    for id in ids {
        push_count(out, id.cast_unsigned() as usize)?;
    }
    Ok(())
}

fn push_numbers(out: &mut Vec<u8>, ids: &[i32]) -> Result<(), AllocError>
    ensures { OnOk result (out.new.items ≡ out.old.items ++ object_bytes (numbers ids.now)) }
{
    push_count(out, ids.len())?;
    push_ids(out, ids)?;
    push_gap(out, ids.len().wrapping_mul(4).wrapping_add(4))
}

/// An offset to an object that begins so many bytes behind the offset's place.
fn push_offset(out: &mut Vec<u8>, distance: usize, object: &Object) -> Result<(), AllocError>
    ensures { OnOk result (out.new.items ≡ out.old.items ++ offset 0 distance (object_view object.now)) }
{
    push_count(out, distance.wrapping_add(front(object)))
}

/// Offsets to objects that stand so many bytes behind the last offset.
fn push_offsets(out: &mut Vec<u8>, between: usize, objects: &Vec<Object>) -> Result<(), AllocError>
    ensures { OnOk result (out.new.items ≡ out.old.items ++ offsets_behind between (objects_view objects.now.items)) }
{
    let mut between = between;
    for (i, object) in objects.iter().enumerate() {
        let left = objects.len() - i;
        push_offset(out, left.wrapping_mul(4).wrapping_add(between), object)?;
        between = between.wrapping_add(size(object));
    }
    Ok(())
}

/// A vtable's entry of a slot at this place in the table.
fn push_entry(out: &mut Vec<u8>, place: usize, cell: &Cell) -> Result<(), AllocError>
    ensures { OnOk result (out.new.items ≡ out.old.items ++ short_bytes (entry place (cell_view cell.now))) }
{
    match cell {
        Cell::Absent => push_short(out, 0),
        _ => push_short(out, place),
    }
}

fn push_entries(out: &mut Vec<u8>, cells: &Vec<Cell>) -> Result<(), AllocError>
    ensures { OnOk result (out.new.items ≡ out.old.items ++ entries 8 (cells_view cells.now.items)) }
{
    let mut place: usize = 8;
    for cell in cells {
        push_entry(out, place, cell)?;
        place = place.wrapping_add(8);
    }
    Ok(())
}

fn push_vtable(out: &mut Vec<u8>, cells: &Vec<Cell>) -> Result<(), AllocError>
    ensures { OnOk result (out.new.items ≡ out.old.items ++ padded (vtable (cells_view cells.now.items))) }
{
    let slots = cells.len();
    let size = slots.wrapping_mul(2).wrapping_add(4);
    push_short(out, size)?;
    push_short(out, slots.wrapping_mul(8).wrapping_add(8))?;
    push_entries(out, cells)?;
    push_gap(out, size)
}

/// A slot behind which so many slots and so many bytes stand before what it points at.
fn push_cell(out: &mut Vec<u8>, left: usize, before: usize, cell: &Cell) -> Result<(), AllocError>
    ensures { OnOk result (out.new.items ≡ out.old.items ++ cells_bytes 0 (8 * left + before)
        (one (cell_view cell.now))) }
{
    match cell {
        Cell::Absent => push_number(out, 0),
        Cell::Number(number) => push_number(out, *number),
        Cell::Below(object) => {
            push_offset(out, left.wrapping_mul(8).wrapping_add(before), object)?;
            push_gap(out, 4)
        }
    }
}

fn push_cells(out: &mut Vec<u8>, cells: &Vec<Cell>) -> Result<(), AllocError>
    ensures { OnOk result (out.new.items ≡ out.old.items ++ slots_bytes (cells_view cells.now.items)) }
{
    let mut before: usize = 0;
    for (i, cell) in cells.iter().enumerate() {
        push_cell(out, cells.len() - i, before, cell)?;
        before = before.wrapping_add(cell_size(cell));
    }
    Ok(())
}

/// Appends the bytes of an object.
#[cycle(push)]
pub fn push_object(out: &mut Vec<u8>, object: &Object) -> Result<(), AllocError>
    ensures { OnOk result (out.new.items ≡ out.old.items ++ object_bytes (object_view object.now)) }
{
    match object {
        Object::Text(text) => push_text(out, text),
        Object::Owned(text) => push_text(out, text.as_str()),
        Object::Numbers(ids) => push_numbers(out, ids),
        Object::Vector(objects) => push_vector(out, objects),
        Object::Table(cells) => push_table(out, cells),
    }
}

/// The count of a vector's objects, the offsets to them, and the objects.
#[cycle(push)]
fn push_vector(out: &mut Vec<u8>, objects: &Vec<Object>) -> Result<(), AllocError>
    ensures { OnOk result (out.new.items ≡ out.old.items ++ object_bytes (vector (objects_view objects.now.items))) }
{
    let size = objects.len().wrapping_mul(4).wrapping_add(4);
    push_count(out, objects.len())?;
    push_offsets(out, gap(size), objects)?;
    push_gap(out, size)?;
    push_objects(out, objects)
}

#[cycle(push)]
fn push_objects(out: &mut Vec<u8>, objects: &Vec<Object>) -> Result<(), AllocError>
    ensures { OnOk result (out.new.items ≡ out.old.items ++ objects_bytes (objects_view objects.now.items)) }
{
    for object in objects {
        push_object(out, object)?;
    }
    Ok(())
}

/// A table behind its vtable, and what its slots point at.
#[cycle(push)]
fn push_table(out: &mut Vec<u8>, cells: &Vec<Cell>) -> Result<(), AllocError>
    ensures { OnOk result (out.new.items ≡ out.old.items ++ object_bytes (table (cells_view cells.now.items))) }
{
    push_vtable(out, cells)?;
    push_number(out, vtable_size(cells.len()) as u64)?;
    push_cells(out, cells)?;
    push_below(out, cells)
}

#[cycle(push)]
fn push_below(out: &mut Vec<u8>, cells: &Vec<Cell>) -> Result<(), AllocError>
    ensures { OnOk result (out.new.items ≡ out.old.items ++ below_bytes (cells_view cells.now.items)) }
{
    for cell in cells {
        if let Cell::Below(object) = cell {
            push_object(out, object)?;
        }
    }
    Ok(())
}
