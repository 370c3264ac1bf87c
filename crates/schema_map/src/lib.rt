//! The two maps between Arrow schemas and Parquet trees: the tree of a schema, the schema of a tree, whether a field and a
//! tree are of one column, and the key `ARROW:schema`, under which a file carries its Arrow schema.
#![tactic(auto)]

mod laws;

pub use laws::{
    as_worked, fitting_fields_agree, leaves_are_counted, rows_are_stored, rows_decide,
    written_fields_fit, written_schemas_fit,
};
pub use schema_codec::{CodecFault, PlainCodec, SchemaCodec};
pub use schema_fit::{agrees, fits};
pub use schema_from_tree::{is_nullable, parquet_to_arrow_schema, to_data_type};
pub use schema_key::{
    KeyRule, add_arrow_schema, infer_schema, read_schema_from_metadata, schema_to_metadata_key,
};
pub use schema_to_tree::{
    can_encode, decimal_length_from_precision, n_columns, to_parquet_schema, to_parquet_type,
    transverse,
};
