//! The objects of a message.

ghost use Rattle.std.specs.Prelude.{◌≡◌, IfOk};
ghost use Rattle.schema_fb.specs.Tables.{one, two, three};
ghost use Rattle.schema_fb.specs.Views.{cell_view, cells_view};

use std::alloc::{AllocError, Global};

/// A text, a vector of signed numbers, a vector of objects, or a table.
#[derive(Drop)]
#[cycle(object)]
pub enum Object<'a> {
    /// A text of the schema.
    Text(&'a str),
    /// A text that is not the schema's own, or is copied from there.
    Owned(String),
    /// Signed numbers of the schema.
    Numbers(&'a [i32]),
    /// Objects.
    Vector(Vec<Object<'a>>),
    /// The slots of a table.
    Table(Vec<Cell<'a>>),
}

/// What a slot of a table holds.
#[derive(Drop)]
#[cycle(object)]
pub enum Cell<'a> {
    /// Nothing.
    Absent,
    /// A number.
    Number(u64),
    /// Where an object stands.
    Below(Object<'a>),
}

/// One slot.
pub fn one<'a>(alloc: Global, first: Cell<'a>) -> Result<Vec<Cell<'a>>, AllocError>
    ensures { IfOk result (λ v. cells_view v.items ≡ one (cell_view first.entry)) }
{
    let mut cells = Vec::new(alloc);
    cells.push(first)?;
    Ok(cells)
}

/// Two slots.
pub fn two<'a>(
    alloc: Global,
    first: Cell<'a>,
    second: Cell<'a>,
) -> Result<Vec<Cell<'a>>, AllocError>
    ensures { IfOk result (λ v. cells_view v.items ≡ two (cell_view first.entry) (cell_view second.entry)) }
{
    let mut cells = Vec::new(alloc);
    cells.push(first)?;
    cells.push(second)?;
    Ok(cells)
}

/// Three slots.
pub fn three<'a>(
    alloc: Global,
    first: Cell<'a>,
    second: Cell<'a>,
    third: Cell<'a>,
) -> Result<Vec<Cell<'a>>, AllocError>
    ensures { IfOk result (λ v. cells_view v.items ≡ three (cell_view first.entry) (cell_view second.entry)
        (cell_view third.entry)) }
{
    let mut cells = Vec::new(alloc);
    cells.push(first)?;
    cells.push(second)?;
    cells.push(third)?;
    Ok(cells)
}
