//! Laws of Arrow's schema messages.

ghost use Rattle.schema_fb.specs.Examples.{AreWorked};
ghost use Rattle.schema_fb.specs.Laws.{IsReadAgain};

/// The bytes of a schema are read as that schema.
pub fn written_is_read()
    ensures { IsReadAgain }
{}

/// Worked examples of a schema's message.
pub fn as_worked()
    ensures { AreWorked }
{}
