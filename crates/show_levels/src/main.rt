//! Shows how the four rows `[1, 2]`, null, `[]` and `[null]` stand in a column: a line for each of their five level pairs, with its repetition and its definition
//! level (Dremel paper, section 4.1). The list is optional and so are its numbers, so 0 is a null list, 1 an empty one, 2 a null number and 3 a number.
#![tactic(auto)]

use anyhow::Result;
use columns_core::{Bitmap, MutableBitmap, Offsets};
use levels::{DefLevelsIter, ListNested, Nested, RepLevelsIter, is_well_formed, num_values};
use std::alloc::Global;

// Which of some slots are there.
fn validity(alloc: Global, there: &[bool]) -> Result<Bitmap> {
    let mut mask = MutableBitmap::with_capacity(alloc, 0)?;
    for is_valid in there {
        mask.push(*is_valid)?;
    }
    Ok(mask.into_bitmap()?)
}

// The path of the four rows: a list above its numbers.
fn path_of_rows(alloc: Global) -> Result<Vec<Nested>> {
    let mut offsets = Offsets::<i32>::with_capacity(alloc, 0)?;
    for length in [2, 0, 0, 1] {
        offsets.try_push_usize(length)?;
    }
    let lists = validity(alloc, &[true, false, true, true])?;
    let numbers = validity(alloc, &[true, true, false])?;
    let mut path = Vec::new(alloc);
    path.push(Nested::List(ListNested::new(offsets.into_buffer()?, Some(lists), true)))?;
    path.push(Nested::Primitive(Some(numbers), true, 3))?;
    Ok(path)
}

// Prints a line for each level pair of a path.
fn show(rt: &HostRuntime, path: &[Nested]) -> Result<()> {
    if !is_well_formed(path) || path.len() > 128 || num_values(path) == usize::MAX {
        return Ok(());
    }
    let repetition = RepLevelsIter::new(rt.alloc(), path)?;
    let definition = DefLevelsIter::new(rt.alloc(), path)?;
    for (rep, def) in repetition.zip(definition) {
        println!(rt; "repetition {rep}, definition {def}")?;
    }
    Ok(())
}

fn main(rt: HostRuntime) -> Result<()> {
    let path = path_of_rows(rt.alloc())?;
    show(&rt, &path)
}
