//! Files that are written in several pages, each of as many rows as its limit lets in.
use super::ends::{BY_TREE, run_on};
use super::files::Long;
use super::files::large::LARGE;
use std::alloc::{AllocError, Global};

/// The file with its byte strings.
fn file_of(alloc: Global, large: &Long) -> Result<Vec<u8>, AllocError> {
    let mut file = Vec::from_slice(alloc, large.front)?;
    for _row in 0..large.rows {
        file.extend_from_slice(large.length)?;
        let end = file.len().saturating_add(large.size);
        file.resize(end, 0)?;
    }
    file.extend_from_slice(large.back)?;
    Ok(file)
}

/// Whether the file is written in as many pages as its line says, and what is written is written for itself too.
fn is_in_pages(alloc: Global, large: &Long) -> Result<bool, AllocError> {
    let file = file_of(alloc, large)?;
    let once = run_on(alloc, BY_TREE, &file)?;
    let twice = run_on(alloc, BY_TREE, &once.gained)?;
    Ok(
        once.status == 0
            && once.notes.as_slice() == large.line
            && twice.gained.as_slice() == once.gained.as_slice(),
    )
}

#[test]
fn a_page_has_the_rows_that_its_limit_lets_in(rt: HostRuntime) -> Result<(), AllocError> {
    for large in LARGE {
        assert!(rt; is_in_pages(rt.alloc(), large)?);
    }
    Ok(())
}
