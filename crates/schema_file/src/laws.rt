//! What is known of the trees of schemas.
ghost use Rattle.schema_file.specs.Told.{WrittenTreesAreTold};

/// A footer tells a reader of the tree of a schema as it is, and has a field for each of its numbers, where each type of the schema is
/// written (Parquet format, `SchemaElement`).
pub fn written_trees_are_told()
    ensures { WrittenTreesAreTold }
{}
