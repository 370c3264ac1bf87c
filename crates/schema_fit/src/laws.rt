//! Facts about the definitions.
ghost use Rattle.schema_fit.specs.Examples.{AreWorked};

/// Worked fields and trees that fit or do not, by the Parquet format's LogicalTypes and Arrow's "Data Types".
pub fn as_worked()
    ensures { AreWorked }
{}
