//! Arrays to a file.
ghost use Rattle.std.specs.Prelude.{◌≡◌, map, IfOk, IfErr};
ghost use Rattle.columns_base.specs.declared.error.Error.TheVariants.{Memory};
ghost use Rattle.columns_core.specs.View.{schema_view};
ghost use Rattle.pq_tree.specs.TreeViews.{trees_view};
ghost use Rattle.uses.specs.Files.{IsFileOf, RefusesFile};

use parquet::arrays::{Chunk, Result, Schema};
use parquet::schema::{ParquetType, SchemaCodec};
use parquet::write::{Encoding, FileWriter, Sink, WriteOptions, row_group_iter};
use std::alloc::Global;

fn copy_trees(alloc: Global, trees: &[ParquetType]) -> Result<Vec<ParquetType>>
    ensures ok { IfOk result (λ copy. trees_view copy.items ≡ trees_view trees.now) }
    ensures err { IfErr result (λ e. e ≡ Memory) }
{
    let mut copies = Vec::new(alloc);
    for tree in trees {
        copies.push(tree.clone(alloc)?)?;
    }
    Ok(copies)
}

/// Writes one chunk of arrays of the schema as a file of one row group, or of none where the chunk has no rows: behind what the sink had it has gained
/// the file, and no other byte. Each field has a list of encodings, one for each of its leaves.
///
/// # Errors
///
/// Those of `FileWriter` and of `row_group_iter`; the sink is then dropped.
pub fn arrays_to_file<K: Sink + Drop, C: SchemaCodec>(
    alloc: Global,
    sink: K,
    schema: Schema,
    chunk: Chunk,
    encodings: Vec<Vec<Encoding>>,
    options: WriteOptions,
    codec: &C,
) -> Result<K>
    ensures ok { IfOk result (λ k. IsFileOf (K.taken sink) (K.taken k) (schema_view schema)
        (C.bytes_of codec.now (schema_view schema)) options chunk) }
    ensures err { IfErr result (RefusesFile (schema_view schema)
        (C.bytes_of codec.now (schema_view schema)) options chunk (map (λ es. es.items) encodings.items)) }
{
    let mut writer = FileWriter::try_new(alloc, sink, schema, options)?;
    let trees = copy_trees(alloc, writer.parquet_schema().fields())?;
    let group = match row_group_iter(alloc, chunk, encodings, trees, options) {
        Ok(group) => group,
        Err(error) => return Err(error),
    };
    if let Err(error) = writer.write(group) {
        return Err(error);
    }
    match writer.end(None, codec) {
        Ok(_) => Ok(writer.into_inner()),
        Err(error) => Err(error),
    }
}
