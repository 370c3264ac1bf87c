//! Facts about the definitions.

ghost use Rattle.schema_to_tree.specs.Examples.{AreWorked};

/// Worked examples: trees of fields, lengths of decimals, leaf types and encodings.
pub fn as_worked()
    ensures { AreWorked }
{}
