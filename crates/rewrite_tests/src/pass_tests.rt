//! Two rewrites in a row, through different options.
use super::ends::run_on;
use super::files::{File, grouped, nested, spelled, typed};
use std::alloc::{AllocError, Global};
use std::test::Fail;

/// The words of a first rewrite, those of a second one of its output, and those of a single one that makes the same of the file itself.
const PASSES: &[(&[&str], &[&str], &[&str])] = &[
    (
        &["--ignore-key", "--version=2", "--page=1", "--no-stats"],
        &[],
        &["--ignore-key"],
    ),
    (
        &["--ignore-key", "--delta", "--page=7"],
        &["--version=2", "--page=3"],
        &["--ignore-key", "--version=2", "--page=3"],
    ),
    (
        &["--ignore-key", "--version=2", "--delta"],
        &["--ignore-key", "--no-stats"],
        &["--ignore-key", "--no-stats"],
    ),
    (
        &["--ignore-key", "--chunk=2", "--page=1"],
        &["--chunk=1", "--delta"],
        &["--ignore-key", "--chunk=1", "--delta"],
    ),
];

/// Whether two rewrites of the file make what a single one makes.
fn is_kept(
    alloc: Global,
    first: &[&str],
    second: &[&str],
    single: &[&str],
    file: &File,
) -> Result<bool, AllocError> {
    let once = run_on(alloc, first, file.bytes)?;
    let twice = run_on(alloc, second, &once.gained)?;
    let direct = run_on(alloc, single, file.bytes)?;
    Ok(once.status == 0 && twice.status == 0 && twice.gained.as_slice() == direct.gained.as_slice())
}

/// Fails with the name of the first file of which two rewrites make something else.
fn all_keep(alloc: Global, files: &[File]) -> Result<(), Fail> {
    for (first, second, single) in PASSES {
        for file in files {
            if !is_kept(alloc, first, second, single, file)? {
                return Err(Fail::from(file.name));
            }
        }
    }
    Ok(())
}

#[test]
fn nested_rows_are_kept(rt: HostRuntime) -> Result<(), Fail> {
    all_keep(rt.alloc(), nested::NESTED)
}

#[test]
fn values_of_every_type_are_kept(rt: HostRuntime) -> Result<(), Fail> {
    all_keep(rt.alloc(), typed::TYPED)
}

#[test]
fn groups_are_kept(rt: HostRuntime) -> Result<(), Fail> {
    all_keep(rt.alloc(), grouped::GROUPED)
}

#[test]
fn rows_of_other_spellings_are_kept(rt: HostRuntime) -> Result<(), Fail> {
    all_keep(rt.alloc(), spelled::SPELLED)
}
