//! Flat columns in delta encodings.
use super::ends::run_on;
use std::alloc::{AllocError, Global};

/// The numbers 7, 5, 3, 1, 2, 3, 4, 5, plain.
const NUMBERS: &[u8] = b"PAR1\x15\x00\x15@\x15@,\x15\x10\x15\x00\x15\x06\x15\x06\x00\x00\
    \x07\x00\x00\x00\x05\x00\x00\x00\x03\x00\x00\x00\x01\x00\x00\x00\x02\x00\x00\x00\x03\x00\x00\x00\x04\x00\x00\x00\x05\x00\x00\x00\
    \x15\x02\x19,H\x01r\x15\x02\x00\x15\x02%\x00\x18\x01n\x00\x16\x10\x19\x1c\x19\x1c&\x08\x1c\x15\x02\x19%\x00\x06\x19\x18\x01n\
    \x15\x00\x16\x10\x16b\x16b&\x08\x00\x00\x16b\x16\x10\x00\x007\x00\x00\x00PAR1";

/// A page of version 1 of their deltas: encoding 5, 18 bytes.
const DELTAS: &[u8] = b"PAR1\x15\x00\x15$\x15$,\x15\x10\x15\x0a\x15\x06\x15\x06\x00\x00\
    \x80\x01\x04\x08\x0e\x03\x02\x00\x00\x00\xc0\x3f\x00\x00\x00\x00\x00\x00";

/// The byte strings Hello, World, Foobar and ABCDEF, plain.
const STRINGS: &[u8] = b"PAR1\x15\x00\x15L\x15L,\x15\x08\x15\x00\x15\x06\x15\x06\x00\x00\
    \x05\x00\x00\x00Hello\x05\x00\x00\x00World\x06\x00\x00\x00Foobar\x06\x00\x00\x00ABCDEF\
    \x15\x02\x19,H\x01r\x15\x02\x00\x15\x0c%\x00\x18\x01s\x00\x16\x08\x19\x1c\x19\x1c&\x08\x1c\x15\x0c\x19%\x00\x06\x19\x18\x01s\
    \x15\x00\x16\x08\x16n\x16n&\x08\x00\x00\x16n\x16\x08\x00\x007\x00\x00\x00PAR1";

/// A page of their lengths by deltas, and their bytes: encoding 6, 36 bytes.
const LENGTHS: &[u8] = b"PAR1\x15\x00\x15H\x15H,\x15\x08\x15\x0c\x15\x06\x15\x06\x00\x00\
    \x80\x01\x04\x04\x0a\x00\x01\x00\x00\x00\x02\x00\x00\x00HelloWorldFoobarABCDEF";

/// Whether the rewrite by deltas begins so, and the one without them as the file does.
fn is_written(alloc: Global, file: &[u8], front: &[u8], plain: usize) -> Result<bool, AllocError> {
    let words = ["--version=1", "--no-stats", "--ignore-key", "--delta"];
    let deltas = run_on(alloc, &words, file)?;
    let without = run_on(alloc, &words[..3], file)?;
    Ok(
        deltas.status == 0
            && without.status == 0
            && deltas.gained.starts_with(front)
            && without.gained.starts_with(&file[..plain.min(file.len())]),
    )
}

#[test]
fn numbers_are_written_by_deltas(rt: HostRuntime) -> Result<(), AllocError> {
    assert!(rt; is_written(rt.alloc(), NUMBERS, DELTAS, 53)?);
    Ok(())
}

#[test]
fn byte_strings_are_written_by_their_lengths(rt: HostRuntime) -> Result<(), AllocError> {
    assert!(rt; is_written(rt.alloc(), STRINGS, LENGTHS, 59)?);
    Ok(())
}
