//! What is known of a field and the tree that it is written as.
ghost use Rattle.schema_map.specs.Counts.{LeavesAreCounted};
ghost use Rattle.schema_map.specs.Examples.{AreWorked};
ghost use Rattle.schema_map.specs.StoredRows.{AreStoredByRows};
ghost use Rattle.schema_map.specs.Laws.{FittingFieldsAgree, RowsDecide, WrittenFieldsFit, WrittenSchemasFit};

/// The tree that `to_parquet_type` gives for a field fits the field, where each of the field's leaves is of a type whose
/// values pages have at that nesting: after its `Ok`, `fits` may be called and answers `true`.
pub fn written_fields_fit()
    ensures { WrittenFieldsFit }
{}

/// The same of each field of a schema and the tree at its place in what `to_parquet_schema` gives.
pub fn written_schemas_fit()
    ensures { WrittenSchemasFit }
{}

/// A field fits the tree that it is written as exactly where each of its leaves is of a type whose values pages have at
/// that nesting.
pub fn rows_decide()
    ensures { RowsDecide }
{}

/// A field that fits a tree agrees with it.
pub fn fitting_fields_agree()
    ensures { FittingFieldsAgree }
{}

/// As many leaf types as `transverse` goes through, leaves of the tree that `to_parquet_type` gives, and columns that `n_columns`
/// counts, where each leaf is of a type whose values pages have.
pub fn leaves_are_counted()
    ensures { LeavesAreCounted }
{}

/// The two sides of the page table are one: the row of a type allows exactly the physical types under which values of the type are stored
/// (Parquet format, "Types" and LogicalTypes). Null has a row and no value.
pub fn rows_are_stored()
    ensures { AreStoredByRows }
{}

/// Worked fields that fit the trees that they are written as, or do not.
pub fn as_worked()
    ensures { AreWorked }
{}
