//! How many bytes an object takes. Offsets are written as their low 32 bits, so sizes may wrap.

ghost use Rattle.std.specs.Prelude.{◌≡◌, suc, ◌+◌, ◌*◌, ◌%◌, ◌^◌, length};
ghost use Rattle.schema_fb.specs.Layout.{object_bytes, below_bytes, objects_bytes, gap, front, numbers, text as leaf};
ghost use Rattle.schema_fb.specs.Tables.{one};
ghost use Rattle.schema_fb.specs.Views.{object_view, objects_view, cell_view, cells_view};

use crate::object::{Cell, Object};

/// How many zero bytes lead from a size to the next multiple of 8.
pub fn gap(size: usize) -> usize
    ensures { result ≡ gap size }
{
    (8 - size % 8) % 8
}

/// The next multiple of 8.
fn padded(size: usize) -> usize
    ensures { result ≡ (size + gap size) % 2 ^ 64 }
{
    size.wrapping_add(gap(size))
}

/// The size of a length or a count, of so many parts of a size, and of the bytes up to the next multiple of 8.
fn block(head: usize, each: usize, count: usize) -> usize
    ensures { result ≡ (head + each * count + gap (head + each * count)) % 2 ^ 64 }
{
    padded(count.wrapping_mul(each).wrapping_add(head))
}

fn text_size(text: &str) -> usize
    ensures { result ≡ length (object_bytes (leaf text.now)) % 2 ^ 64 }
{
    block(5, 1, text.len())
}

fn numbers_size(ids: &[i32]) -> usize
    ensures { result ≡ length (object_bytes (numbers ids.now)) % 2 ^ 64 }
{
    block(4, 4, ids.len())
}

/// The size of a vtable with the bytes up to the table.
pub fn vtable_size(slots: usize) -> usize
    ensures { result ≡ (4 + 2 * slots + gap (4 + 2 * slots)) % 2 ^ 64 }
{
    block(4, 2, slots)
}

/// How many bytes of an object stand before the place that an offset to it means.
pub fn front(object: &Object) -> usize
    ensures { result ≡ front (object_view object.now) % 2 ^ 64 }
{
    match object {
        Object::Table(cells) => vtable_size(cells.len()),
        _ => 0,
    }
}

/// The size of an object.
#[cycle(size)]
pub fn size(object: &Object) -> usize
    ensures { result ≡ length (object_bytes (object_view object.now)) % 2 ^ 64 }
{
    match object {
        Object::Text(text) => text_size(text),
        Object::Owned(text) => text_size(text.as_str()),
        Object::Numbers(ids) => numbers_size(ids),
        Object::Vector(objects) => block(4, 4, objects.len()).wrapping_add(objects_size(objects)),
        Object::Table(cells) => table_size(cells.len()).wrapping_add(below_size(cells)),
    }
}

/// The size of a table with its vtable, without what its slots point at.
fn table_size(slots: usize) -> usize
    ensures { result ≡ (4 + 2 * slots + gap (4 + 2 * slots) + 8 * suc slots) % 2 ^ 64 }
{
    vtable_size(slots).wrapping_add(slots.wrapping_mul(8).wrapping_add(8))
}

#[cycle(size)]
fn objects_size(objects: &Vec<Object>) -> usize
    ensures { result ≡ length (objects_bytes (objects_view objects.now.items)) % 2 ^ 64 }
{
    let mut total: usize = 0;
    for object in objects {
        total = total.wrapping_add(size(object));
    }
    total
}

/// The size of what the slots point at.
#[cycle(size)]
fn below_size(cells: &Vec<Cell>) -> usize
    ensures { result ≡ length (below_bytes (cells_view cells.now.items)) % 2 ^ 64 }
{
    let mut total: usize = 0;
    for cell in cells {
        total = total.wrapping_add(cell_size(cell));
    }
    total
}

/// The size of what a slot points at.
#[cycle(size)]
pub fn cell_size(cell: &Cell) -> usize
    ensures { result ≡ length (below_bytes (one (cell_view cell.now))) % 2 ^ 64 }
{
    match cell {
        Cell::Below(object) => size(object),
        _ => 0,
    }
}
