//! Each kind of array, built, cut twice, compared and cloned.
use super::build::*;
use columns_array::{ArrayBox, Chunk};
use columns_base::Result;
use std::alloc::Global;
use std::test::Fail;

type TestResult = std::result::Result<(), Fail>;

/// So many positions of an array from the position `offset` on; all where there are not as many.
fn part(alloc: Global, array: &ArrayBox, offset: usize, length: usize) -> Result<ArrayBox> {
    let mut copy = array.clone(alloc)?;
    if offset <= copy.len() && length <= copy.len() - offset {
        copy.slice(offset, length);
    }
    Ok(copy)
}

/// Whether the array has these positions and nulls, and is not the other.
fn is_part(part: &ArrayBox, length: usize, nulls: usize, other: &ArrayBox) -> bool {
    part.len() == length && part.null_count() == nulls && !part.equal(other)
}

/// Whether an array of three positions, of which the second is null, is cut to the last two, and these to the last one.
fn is_cut(alloc: Global, made: Result<ArrayBox>) -> Result<bool> {
    let array = made?;
    let first = part(alloc, &array, 1, 2)?;
    let second = part(alloc, &first, 1, 1)?;
    let at_once = part(alloc, &array, 2, 1)?;
    Ok(
        is_part(&array, 3, 1, &first)
            && is_part(&first, 2, 1, &second)
            && is_part(&second, 1, 0, &array)
            && second.equal(&at_once),
    )
}

fn signed_are_cut(alloc: Global) -> Result<bool> {
    Ok(
        is_cut(alloc, int8(alloc))?
            && is_cut(alloc, int16(alloc))?
            && is_cut(alloc, int32(alloc))?
            && is_cut(alloc, int64(alloc))?
            && is_cut(alloc, decimals(alloc))?,
    )
}

fn unsigned_are_cut(alloc: Global) -> Result<bool> {
    Ok(
        is_cut(alloc, uint8(alloc))?
            && is_cut(alloc, uint16(alloc))?
            && is_cut(alloc, uint32(alloc))?
            && is_cut(alloc, uint64(alloc))?,
    )
}

fn strings_are_cut(alloc: Global) -> Result<bool> {
    Ok(
        is_cut(alloc, texts(alloc))?
            && is_cut(alloc, large_texts(alloc))?
            && is_cut(alloc, strings(alloc))?
            && is_cut(alloc, large_strings(alloc))?
            && is_cut(alloc, fixed_strings(alloc))?,
    )
}

fn nested_are_cut(alloc: Global) -> Result<bool> {
    Ok(
        is_cut(alloc, lists(alloc))?
            && is_cut(alloc, large_lists(alloc))?
            && is_cut(alloc, maps(alloc))?
            && is_cut(alloc, singles(alloc))?
            && is_cut(alloc, structs(alloc))?
            && is_cut(alloc, dictionary(alloc))?,
    )
}

#[test]
fn numbers_are_cut(rt: HostRuntime) -> TestResult {
    assert!(rt; signed_are_cut(rt.alloc())?);
    assert!(rt; unsigned_are_cut(rt.alloc())?);
    assert!(rt; is_cut(rt.alloc(), intervals(rt.alloc()))?);
    assert!(rt; is_cut(rt.alloc(), truth_values(rt.alloc()))?);
    Ok(())
}

#[test]
fn texts_and_byte_strings_are_cut(rt: HostRuntime) -> TestResult {
    assert!(rt; strings_are_cut(rt.alloc())?);
    Ok(())
}

#[test]
fn arrays_with_arrays_inside_are_cut(rt: HostRuntime) -> TestResult {
    assert!(rt; nested_are_cut(rt.alloc())?);
    Ok(())
}

/// Whether a cut of nulls has as many.
fn nulls_are_cut(alloc: Global) -> Result<bool> {
    let cut = part(alloc, &nulls(alloc)?, 1, 2)?;
    Ok(cut.len() == 2 && cut.null_count() == 2)
}

/// How many arrays a chunk and its clone have.
fn arrays_of_chunk(alloc: Global) -> Result<usize> {
    let mut arrays = Vec::new(alloc);
    arrays.push(lists(alloc)?)?;
    arrays.push(nulls(alloc)?)?;
    let chunk = Chunk::try_new(arrays)?;
    Ok(chunk.clone(alloc)?.arrays().len())
}

#[test]
fn nulls_and_chunks_are_built(rt: HostRuntime) -> TestResult {
    assert!(rt; nulls_are_cut(rt.alloc())?);
    assert!(rt; arrays_of_chunk(rt.alloc())? == 2);
    Ok(())
}
