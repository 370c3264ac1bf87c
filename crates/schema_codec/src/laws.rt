//! Laws of the plain bytes of schemas.

ghost use Rattle.schema_codec.specs.Examples.{AreWorked};
ghost use Rattle.schema_codec.specs.Laws.{IsReadAgain, IsSpelledSo};

/// The plain bytes of a schema are read as that schema.
pub fn written_is_read()
    ensures { IsReadAgain }
{}

/// Bytes that are read as a schema are its plain bytes, and its numbers, texts and keys are as they must be.
pub fn read_is_written()
    ensures { IsSpelledSo }
{}

/// Worked examples of a schema's plain bytes.
pub fn as_worked()
    ensures { AreWorked }
{}
