//! Laws of what is written in a footer.

ghost use Rattle.pq_metadata.specs.Footer.{SpellsTree};
ghost use Rattle.pq_tree.specs.TreeViews.{schema_view};
ghost use Rattle.pq_files.specs.Written.{elements_of};
ghost use Rattle.footer_write.specs.Reads.{AreTold};

use pq_tree::SchemaDescriptor;

/// The elements that are written for a schema tell a reader of that schema (Parquet format, `SchemaElement`),
/// where no node has a field id, no leaf the fixed length 0, and no group a precision or a scale.
pub fn elements_tell_of_schema(schema: &SchemaDescriptor)
    requires { AreTold (schema_view schema.now).fields }
    ensures { SpellsTree (elements_of (schema_view schema.now)) (schema_view schema.now) }
{
    let _name = schema.name();
}
