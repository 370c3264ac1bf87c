//! Laws of the key and of what is inferred, and worked examples.

ghost use Rattle.std.specs.Prelude.{◌≤◌};
ghost use Rattle.columns_core.specs.Measures.{fields_nesting};
ghost use Rattle.columns_core.specs.View.{schema_view};
ghost use Rattle.schema_codec.specs.Ranges.{max_nesting};
ghost use Rattle.schema_key.specs.Examples.{AreWorked};
ghost use Rattle.schema_key.specs.Laws.{IsInferredAgain, IsInferredFrom, TheLastCounts};

use columns_core::Schema;
use schema_codec::{SchemaCodec, know_schema};

/// The schema that `add_arrow_schema` attached is the one that `infer_schema` gives back under `KeyRule::Use`: whatever
/// pairs stand before it and whatever the file's tree is, for each schema that the codec has to read again.
pub fn attached_is_inferred<C: SchemaCodec>(_codec: &C)
    ensures { IsInferredAgain (C.bytes_of _codec.now) (C.reads _codec.now) }
{}

/// The same of a schema in memory, which has all that the codec asks of it. Its types nest to at most 128, which
/// `Schema::nests_within` tests. The two premises that are left are clauses of `add_arrow_schema`.
pub fn attached_schema_is_inferred<C: SchemaCodec>(codec: &C, schema: &Schema)
    requires { fields_nesting (schema_view schema.now).fields ≤ max_nesting }
    ensures { IsInferredFrom (C.bytes_of codec.now) (C.reads codec.now) (schema_view schema.now) }
{
    know_schema(schema);
    attached_is_inferred(codec);
}

/// Of the pairs of a footer the last one of each key that has a value counts, and the others are passed over.
pub fn the_last_counts()
    ensures { TheLastCounts }
{}

/// Worked examples of the key's value and of what counts.
pub fn as_worked()
    ensures { AreWorked }
{}
