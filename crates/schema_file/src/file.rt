//! A file of a schema as far as it is written.
ghost use Rattle.std.specs.Prelude.{◌≡◌, ◌⊎◌, ◌++◌, ◌∷◌, [], ℕ, ◌<◌, ◌≤◌, List, Option, Some, None, length, OnOk, IfOk, IfErr, IsErrOf, IsTrue, ◌↔◌};
ghost use Rattle.columns_base.specs.declared.error.A.TheVariants.{A8};
ghost use Rattle.columns_base.specs.declared.error.Error.{Error as Fault};
ghost use Rattle.columns_base.specs.declared.error.Error.TheVariants.{InvalidArgumentError, Memory, Overflow, WriteFault};
ghost use Rattle.columns_base.specs.declared.error.V.TheVariants.{V3};
ghost use Rattle.columns_core.specs.View.{schema_view};
ghost use Rattle.footer_write.specs.FooterView.{footer_view};
ghost use Rattle.pq_files.specs.Layout.{OutGroup};
ghost use Rattle.pq_files.specs.Packed.{HasRows};
ghost use Rattle.pq_files.specs.Room.{footer_room, max_size, planned_footer};
ghost use Rattle.pq_io.specs.Causes.{Rose};
ghost use Rattle.pq_tree.specs.Tree.{columns_of};
ghost use Rattle.pq_tree.specs.declared.version.Version.{Version as PageVersion};
ghost use Rattle.schema_file.specs.Writing.{IsOpen, fields_in};
ghost use Rattle.schema_key.specs.Key.{keys_in, schema_entry};
ghost use Rattle.schema_to_tree.specs.Conditions.{AreWritten, RefusesSchema};
ghost use Rattle.schema_to_tree.specs.Table.{schema_of};
ghost use Rattle.write_file.specs.Files.{HasFileStating, HasWritten};
ghost use Rattle.write_file.specs.Pages.{AllGive, SomeRefuses};
ghost use Rattle.write_counts.specs.Passing.{GroupPasses};

use crate::laws::written_trees_are_told;
use columns_base::{A, Error, Result};
use columns_core::Schema;
use footer_write::{ThriftFileMetaData, elements_tell_of_schema};
use pq_io::Sink;
use pq_tree::{KeyValue, SchemaDescriptor, Version};
use schema_codec::SchemaCodec;
use schema_key::add_arrow_schema;
use schema_to_tree::to_parquet_schema;
use std::alloc::Global;
use write_file::{ChunkPages, FileBody, LeafMetas};

/// A file over a sink, whose groups have the columns of a schema.
#[derive(Drop)]
pub struct SchemaFile<W> {
    pub body: FileBody<W>,
    pub schema: Schema,
    /// Why it takes nothing more: its first error, or A8 once it has ended.
    pub refusal: Option<Error>,
}

// Whether a schema has so many leaves.
fn are_so_many(leaves: &LeafMetas, count: usize) -> bool
    ensures { IsTrue result ↔ ((length leaves.now.physicals.items ≡ count) × (length leaves.now.paths.items ≡ count)) }
{
    leaves.physicals.len() == count && leaves.paths.len() == count
}

impl<W: Sink + Drop> SchemaFile<W> {
    /// A file without groups. Nothing is pushed.
    ///
    /// # Errors
    ///
    /// Those of `to_parquet_schema`. The sink is then dropped.
    pub fn try_new(alloc: Global, writer: W, schema: Schema, version: Version) -> Result<Self>
        ensures ok { IfOk result (λ f. IsOpen W.taken (W.taken writer) version [] f) }
        ensures schema { IfOk result (λ f. schema_view f.schema ≡ schema_view schema) }
        ensures writer { IfOk result (λ f. f.body.writer ≡ writer) }
        ensures refused { IfErr result (RefusesSchema (schema_view schema).fields) }
    {
        let tree = to_parquet_schema(alloc, &schema)?;
        written_trees_are_told();
        elements_tell_of_schema(&tree);
        let body = match FileBody::try_new(alloc, writer, tree, version) {
            Ok(body) => body,
            Err(error) => return Err(error),
        };
        Ok(SchemaFile {
            body,
            schema,
            refusal: None,
        })
    }

    // Adds a group whose columns are as many as the schema's leaves.
    fn put_columns<P: ChunkPages + Drop>(&mut self, columns: Vec<P>, rows: u64) -> Result<()>
        ensures ok { (before : Option (List ℕ)) (version : PageVersion) (groups : List OutGroup) (g : OutGroup)
            → IsOpen W.taken before version groups self.old → AllGive P.begins version
            (columns_of (schema_of (fields_in self.old))) g.chunks columns.items → HasRows g → g.rows ≡ rows
            → OnOk result (IsOpen W.taken before version (groups ++ g ∷ []) self.new) }
        ensures kept { (self.new.schema ≡ self.old.schema) × (self.new.refusal ≡ self.old.refusal) }
        ensures refused { (before : Option (List ℕ)) (version : PageVersion) (groups : List OutGroup) (g : OutGroup)
            → IsOpen W.taken before version groups self.old → AllGive P.begins version
            (columns_of (schema_of (fields_in self.old))) g.chunks columns.items → g.rows ≡ rows
            → IfErr result (λ e. (e ≡ Memory) ⊎ ((e ≡ WriteFault)
            ×
            (Rose (W.faults self.old.body.writer) (W.faults self.new.body.writer)
            ⊎ SomeRefuses P.refuses columns.items WriteFault))
            ⊎ ((e ≡ Overflow V3) × GroupPasses version (columns_of (schema_of (fields_in self.old))) groups g)
            ⊎ SomeRefuses P.refuses columns.items e) }
        ensures later { W.faults self.old.body.writer ≤ W.faults self.new.body.writer }
    {
        if !are_so_many(&self.body.leaves, columns.len()) {
            return Err(Error::InvalidArgumentError(A::A8));
        }
        match self.body.write_group(columns, rows) {
            Ok(()) => Ok(()),
            Err(error) => Err(error),
        }
    }

    /// Adds a group of so many rows, which has these columns.
    ///
    /// # Errors
    ///
    /// After an error, and once the file has ended, each call answers the same and pushes nothing.
    ///
    /// - `InvalidArgumentError(A8)`: the file has ended, or there are more or fewer columns than the schema has leaves.
    /// - `WriteFault`: the sink failed. `Memory`: memory ran out.
    /// - `Overflow(V3)`: the rows of the file, the level pairs of a column or the bytes of the pages pass 2^63 - 1.
    /// - Those of the pages.
    pub fn put<P: ChunkPages + Drop>(&mut self, columns: Vec<P>, rows: u64) -> Result<()>
        ensures ok { (before : Option (List ℕ)) (version : PageVersion) (groups : List OutGroup) (g : OutGroup)
            → IsOpen W.taken before version groups self.old → AllGive P.begins version
            (columns_of (schema_of (fields_in self.old))) g.chunks columns.items → HasRows g → g.rows ≡ rows
            → OnOk result (IsOpen W.taken before version (groups ++ g ∷ []) self.new) }
        ensures schema { self.new.schema ≡ self.old.schema }
        ensures refused { (before : Option (List ℕ)) (version : PageVersion) (groups : List OutGroup) (g : OutGroup)
            → IsOpen W.taken before version groups self.old → AllGive P.begins version
            (columns_of (schema_of (fields_in self.old))) g.chunks columns.items → g.rows ≡ rows
            → IfErr result (λ e. (e ≡ Memory) ⊎ ((e ≡ WriteFault)
            ×
            (Rose (W.faults self.old.body.writer) (W.faults self.new.body.writer)
            ⊎ SomeRefuses P.refuses columns.items WriteFault))
            ⊎ ((e ≡ Overflow V3) × GroupPasses version (columns_of (schema_of (fields_in self.old))) groups g)
            ⊎ SomeRefuses P.refuses columns.items e) }
        ensures again { (e : Fault) → self.old.refusal ≡ Some e → (result ≡ Err e) × (self.new ≡ self.old) }
        ensures stays { IfErr result (λ e. self.new.refusal ≡ Some e) }
        ensures later { W.faults self.old.body.writer ≤ W.faults self.new.body.writer }
    {
        if let Some(error) = self.refusal {
            return Err(error);
        }
        match self.put_columns(columns, rows) {
            Ok(()) => Ok(()),
            Err(error) => {
                self.refusal = Some(error);
                Err(error)
            }
        }
    }

    // Writes the footer.
    fn put_footer<C: SchemaCodec>(&mut self, keys: Option<Vec<KeyValue>>, codec: &C) -> Result<u64>
        ensures ok { IfOk result (λ size. (before : Option (List ℕ)) (version : PageVersion) (groups : List OutGroup)
            → IsOpen W.taken before version groups self.old → HasFileStating before (W.taken self.new.body.writer)
            (schema_of (fields_in self.old)) (keys_in keys ++ schema_entry
            (C.bytes_of codec.now (schema_view self.old.schema)) ∷ []) version groups size
            (footer_view self.new.body.metadata)) }
        ensures kept { (self.new.schema ≡ self.old.schema) × (self.new.refusal ≡ self.old.refusal) }
        ensures refused { IfErr result (λ e. (before : Option (List ℕ)) (version : PageVersion) (groups : List OutGroup)
            → IsOpen W.taken before version groups self.old → (e ≡ Memory)
            ⊎ ((e ≡ WriteFault) × Rose (W.faults self.old.body.writer) (W.faults self.new.body.writer))
            ⊎ ((e ≡ Overflow V3) × ((max_size < length (C.bytes_of codec.now (schema_view self.old.schema)))
            ⊎
            (max_size < footer_room (planned_footer (schema_of (fields_in self.old))
            (keys_in keys ++ schema_entry (C.bytes_of codec.now (schema_view self.old.schema)) ∷ []) groups))))) }
        ensures later { W.faults self.old.body.writer ≤ W.faults self.new.body.writer }
    {
        let alloc = *self.body.leaves.physicals.allocator();
        let keys = match add_arrow_schema(alloc, &self.schema, keys, codec) {
            Ok(keys) => keys,
            Err(error) => return Err(error),
        };
        match self.body.write_footer(keys) {
            Ok(size) => Ok(size),
            Err(error) => Err(error),
        }
    }

    /// Writes the footer with these keys and behind them the one that carries the schema, and gives the size of the file in bytes.
    ///
    /// # Errors
    ///
    /// After an error, and once the file has ended, each call answers the same and pushes nothing.
    ///
    /// - `InvalidArgumentError(A8)`: the file has ended.
    /// - `WriteFault`: the sink failed. `Memory`: memory ran out.
    /// - `Overflow(V3)`: the bytes of the schema or the footer's room pass 2^31 - 1.
    pub fn end<C: SchemaCodec>(&mut self, keys: Option<Vec<KeyValue>>, codec: &C) -> Result<u64>
        ensures ok { IfOk result (λ size. (before : Option (List ℕ)) (version : PageVersion) (groups : List OutGroup)
            → IsOpen W.taken before version groups self.old → HasFileStating before (W.taken self.new.body.writer)
            (schema_of (fields_in self.old)) (keys_in keys ++ schema_entry
            (C.bytes_of codec.now (schema_view self.old.schema)) ∷ []) version groups size
            (footer_view self.new.body.metadata)) }
        ensures schema { self.new.schema ≡ self.old.schema }
        ensures refused { IfErr result (λ e. (before : Option (List ℕ)) (version : PageVersion) (groups : List OutGroup)
            → IsOpen W.taken before version groups self.old → (e ≡ Memory)
            ⊎ ((e ≡ WriteFault) × Rose (W.faults self.old.body.writer) (W.faults self.new.body.writer))
            ⊎ ((e ≡ Overflow V3) × ((max_size < length (C.bytes_of codec.now (schema_view self.old.schema)))
            ⊎
            (max_size < footer_room (planned_footer (schema_of (fields_in self.old))
            (keys_in keys ++ schema_entry (C.bytes_of codec.now (schema_view self.old.schema)) ∷ []) groups))))) }
        ensures again { (e : Fault) → self.old.refusal ≡ Some e → (result ≡ Err e) × (self.new ≡ self.old) }
        ensures stays { IfErr result (λ e. self.new.refusal ≡ Some e) }
        ensures ended { IfOk result (λ _. self.new.refusal ≡ Some (InvalidArgumentError A8)) }
        ensures later { W.faults self.old.body.writer ≤ W.faults self.new.body.writer }
    {
        if let Some(error) = self.refusal {
            return Err(error);
        }
        match self.put_footer(keys, codec) {
            Ok(size) => {
                self.refusal = Some(Error::InvalidArgumentError(A::A8));
                Ok(size)
            }
            Err(error) => {
                self.refusal = Some(error);
                Err(error)
            }
        }
    }

    /// Keeps this error, as that of a call before it.
    pub fn refuse(&mut self, error: Error)
        ensures { self.new ≡ record self.old { refusal = Some error } }
    {
        self.refusal = Some(error);
    }

    /// The tree of the schema, whose leaves are the columns (Parquet format, "Metadata").
    pub fn parquet_schema(&self) -> &SchemaDescriptor
        ensures { result.now ≡ self.now.body.metadata.schema }
    {
        &self.body.metadata.schema
    }

    /// The sink.
    pub fn into_inner(self) -> W
        ensures { result ≡ self.body.writer }
    {
        let body = self.body;
        body.writer
    }

    /// The sink, and what is kept for the footer: once `end` succeeded, what the footer states.
    pub fn into_inner_and_metadata(self) -> (W, ThriftFileMetaData)
        ensures writer { result.0 ≡ self.body.writer }
        ensures metadata { result.1 ≡ self.body.metadata }
    {
        let body = self.body;
        (body.writer, body.metadata)
    }
}
