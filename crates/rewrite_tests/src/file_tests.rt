//! What a run answers on each file of the tables. The contract lets it answer want of memory at any file: that it does not is seen here.
use super::ends::{BY_KEY, BY_TREE, run_on};
use super::files::{
    File, counted, framed, grouped, keyed, leveled, nested, paged, placed, schemas, spelled, trees,
    typed,
};
use std::alloc::{AllocError, Global};
use std::test::Fail;

/// Whether a run on the file ends so, and the sink gains bytes exactly where its status is 0.
fn answers(alloc: Global, words: &[&str], file: &File) -> Result<bool, AllocError> {
    let made = run_on(alloc, words, file.bytes)?;
    Ok(
        made.status == file.status
            && made.notes.as_slice() == file.line
            && made.gained.is_empty() == (file.status != 0),
    )
}

/// Whether what is written for the file is written for itself too.
fn is_settled(alloc: Global, words: &[&str], file: &File) -> Result<bool, AllocError> {
    let once = run_on(alloc, words, file.bytes)?;
    let twice = run_on(alloc, words, &once.gained)?;
    Ok(
        once.status == 0
            && twice.status == 0
            && twice.notes.as_slice() == file.line
            && twice.gained.as_slice() == once.gained.as_slice(),
    )
}

/// Whether the same bytes are written for the file as for the one that it is like, if there is one.
fn is_like(alloc: Global, words: &[&str], file: &File) -> Result<bool, AllocError> {
    if file.like.is_empty() {
        return Ok(true);
    }
    let one = run_on(alloc, words, file.bytes)?;
    let other = run_on(alloc, words, file.like)?;
    Ok(one.status == 0 && one.gained.as_slice() == other.gained.as_slice())
}

/// Fails with the name of the first file on which a run ends otherwise.
fn all_answer(alloc: Global, words: &[&str], files: &[File]) -> Result<(), Fail> {
    for file in files {
        if !answers(alloc, words, file)? {
            return Err(Fail::from(file.name));
        }
    }
    Ok(())
}

/// Fails with the name of the first file that is written otherwise the second time.
fn all_settle(alloc: Global, words: &[&str], files: &[File]) -> Result<(), Fail> {
    for file in files {
        if !is_settled(alloc, words, file)? {
            return Err(Fail::from(file.name));
        }
    }
    Ok(())
}

/// Fails with the name of the first file that is written otherwise than the one that it is like.
fn all_are_like(alloc: Global, words: &[&str], files: &[File]) -> Result<(), Fail> {
    for file in files {
        if !is_like(alloc, words, file)? {
            return Err(Fail::from(file.name));
        }
    }
    Ok(())
}

/// Fails where a run ends otherwise on one of the files, an output is not rewritten to itself, or equal rows are written as other bytes.
fn all_are_rewritten(alloc: Global, words: &[&str], files: &[File]) -> Result<(), Fail> {
    all_answer(alloc, words, files)?;
    all_settle(alloc, words, files)?;
    all_are_like(alloc, words, files)
}

#[test]
fn rows_of_every_nesting_are_rewritten(rt: HostRuntime) -> Result<(), Fail> {
    all_are_rewritten(rt.alloc(), BY_TREE, nested::NESTED)
}

#[test]
fn columns_of_every_type_are_rewritten(rt: HostRuntime) -> Result<(), Fail> {
    all_are_rewritten(rt.alloc(), BY_TREE, typed::TYPED)
}

#[test]
fn groups_and_key_values_are_rewritten(rt: HostRuntime) -> Result<(), Fail> {
    all_are_rewritten(rt.alloc(), BY_TREE, grouped::GROUPED)
}

#[test]
fn other_spellings_are_rewritten(rt: HostRuntime) -> Result<(), Fail> {
    all_are_rewritten(rt.alloc(), BY_TREE, spelled::SPELLED)
}

#[test]
fn frames_and_footers_are_refused(rt: HostRuntime) -> Result<(), Fail> {
    all_answer(rt.alloc(), BY_TREE, framed::FRAMED)
}

#[test]
fn trees_are_refused(rt: HostRuntime) -> Result<(), Fail> {
    all_answer(rt.alloc(), BY_TREE, trees::TREES)
}

#[test]
fn groups_and_chunks_are_refused(rt: HostRuntime) -> Result<(), Fail> {
    all_answer(rt.alloc(), BY_TREE, placed::PLACED)
}

#[test]
fn schemas_are_refused(rt: HostRuntime) -> Result<(), Fail> {
    all_answer(rt.alloc(), BY_TREE, schemas::SCHEMAS)
}

#[test]
fn pages_are_refused(rt: HostRuntime) -> Result<(), Fail> {
    all_answer(rt.alloc(), BY_TREE, paged::PAGED)
}

#[test]
fn levels_and_values_are_refused(rt: HostRuntime) -> Result<(), Fail> {
    all_answer(rt.alloc(), BY_TREE, leveled::LEVELED)
}

#[test]
fn columns_without_rows_are_refused(rt: HostRuntime) -> Result<(), Fail> {
    all_answer(rt.alloc(), BY_TREE, counted::COUNTED)
}

// Files that are refused stand among them: each only has to answer, and those of status 0 are rewritten to themselves.
fn all_keys_count(alloc: Global, files: &[File]) -> Result<(), Fail> {
    all_answer(alloc, BY_KEY, files)?;
    for file in files {
        if file.status == 0 && !is_settled(alloc, BY_KEY, file)? {
            return Err(Fail::from(file.name));
        }
    }
    Ok(())
}

#[test]
fn the_schema_under_the_key_counts(rt: HostRuntime) -> Result<(), Fail> {
    all_keys_count(rt.alloc(), keyed::KEYED)
}
