//! A schema both ways.
ghost use Rattle.std.specs.Prelude.{◌≡◌, ◌≤◌, ◌⊎◌, IfOk, IfErr};
ghost use Rattle.columns_core.specs.Measures.{fields_nesting};
ghost use Rattle.columns_core.specs.View.{schema_view};
ghost use Rattle.schema_to_tree.specs.Conditions.{RefusesSchema};
ghost use Rattle.uses.specs.Schemas.{IsTooLong};

use parquet::arrays::Result;
use parquet::laws::attached_schema_is_inferred;
use parquet::read::FileMetaData;
use parquet::schema::{
    KeyRule, Schema, SchemaCodec, add_arrow_schema, infer_schema, to_parquet_schema,
};
use std::alloc::Global;

/// The schema that a file tells whose footer has the schema's tree, and the schema itself under the key: the same one, with all that a Parquet tree
/// does not tell.
///
/// # Errors
///
/// Those of `to_parquet_schema`, each by its condition of the fields. `Overflow(V3)`: the codec's bytes of the schema pass 2^31 - 1. `Memory`: memory ran out.
pub fn schema_there_and_back<C: SchemaCodec>(
    alloc: Global,
    schema: &Schema,
    codec: &C,
) -> Result<Schema>
    requires { fields_nesting (schema_view schema.now).fields ≤ 128 }
    ensures ok { IfOk result (λ again. schema_view again ≡ schema_view schema.now) }
    ensures err { IfErr result (λ e. RefusesSchema (schema_view schema.now).fields e
        ⊎ IsTooLong (C.bytes_of codec.now (schema_view schema.now)) e) }
{
    let schema_descr = to_parquet_schema(alloc, schema)?;
    let key_value_metadata = add_arrow_schema(alloc, schema, None, codec)?;
    attached_schema_is_inferred(codec, schema);
    let metadata = FileMetaData {
        schema_descr,
        row_groups: Vec::new(alloc),
        key_value_metadata,
    };
    infer_schema(alloc, &metadata, KeyRule::Use, codec)
}
