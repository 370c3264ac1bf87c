//! The writer of a file.
ghost use Rattle.std.specs.Prelude.{◌≡◌, ◌⊎◌, ◌++◌, ◌∷◌, [], ◌↔◌, ℕ, ◌<◌, ◌≤◌, List, Option, Some, None, IsTrue, length, OnOk, IfOk, IfErr};
ghost use Rattle.columns_base.specs.declared.error.A.TheVariants.{A8};
ghost use Rattle.columns_base.specs.declared.error.Error.{Error as Fault};
ghost use Rattle.columns_base.specs.declared.error.Error.TheVariants.{InvalidArgumentError, Memory, Overflow, WriteFault};
ghost use Rattle.columns_base.specs.declared.error.V.TheVariants.{V3};
ghost use Rattle.columns_array.specs.Boxed.{all_boxed};
ghost use Rattle.columns_core.specs.View.{schema_view, fields_view};
ghost use Rattle.columns_slots.specs.Slots.{AreTyped, first_len};
ghost use Rattle.footer_write.specs.FooterView.{footer_view};
ghost use Rattle.pq_files.specs.Layout.{OutGroup};
ghost use Rattle.pq_files.specs.Room.{footer_room, max_size, planned_footer};
ghost use Rattle.pq_io.specs.Causes.{Rose};
ghost use Rattle.pq_tree.specs.Footers.{Key};
ghost use Rattle.pq_tree.specs.Tree.{columns_of};
ghost use Rattle.pq_tree.specs.TreeViews.{trees_view};
ghost use Rattle.schema_key.specs.Key.{keys_in, schema_entry};
ghost use Rattle.schema_to_tree.specs.Conditions.{RefusesSchema};
ghost use Rattle.schema_to_tree.specs.Table.{schema_of};
ghost use Rattle.write_file.specs.Files.{HasFile, HasFileStating};
ghost use Rattle.write_groups.specs.Accepted.{HasAccepted, IsFileOf};
ghost use Rattle.write_groups.specs.declared.group.RowGroupIter.{RowGroupIter as Group};
ghost use Rattle.write_groups.specs.Writing.{Adds, HasColumns, HasEnded, IsWriting, Refuses, Takes, fields_in};

use crate::column::ChunkColumn;
use crate::group::RowGroupIter;
use crate::laws::groups_are_laid;
use columns_array::{ArrayBox, Chunk};
use columns_base::{A, Error, Result};
use columns_core::{Field, Schema, is_same_type};
use footer_write::ThriftFileMetaData;
use nested_paths::paths_have_levels;
use pq_io::Sink;
use pq_tree::{KeyValue, ParquetType, SchemaDescriptor, is_same_tree};
use schema_codec::SchemaCodec;
use schema_file::SchemaFile;
use std::alloc::Global;
use write_pages::WriteOptions;

/// Writes groups, one after another, and then the footer.
#[derive(Drop)]
pub struct FileWriter<W> {
    pub file: SchemaFile<W>,
    pub options: WriteOptions,
}

// Whether the trees are the same.
fn are_same_trees(a: &[ParquetType], b: &[ParquetType]) -> bool
    ensures { IsTrue result ↔ (trees_view a.now ≡ trees_view b.now) }
{
    if a.len() != b.len() {
        return false;
    }
    'trees: for i in 0..a.len() {
        if !is_same_tree(&a[i], &b[i]) {
            return false;
        }
    }
    true
}

// Whether the arrays have the types of the fields.
fn have_types(fields: &[Field], arrays: &[ArrayBox]) -> bool
    ensures { IsTrue result ↔ AreTyped (fields_view fields.now) (all_boxed arrays.now) }
{
    if fields.len() != arrays.len() {
        return false;
    }
    'fields: for i in 0..fields.len() {
        if !is_same_type(&fields[i].data_type, arrays[i].data_type()) {
            return false;
        }
    }
    true
}

// The number of its rows.
fn rows_in(chunk: &Chunk) -> usize
    ensures { result ≡ first_len chunk.now }
{
    let arrays = chunk.arrays();
    if arrays.len() == 0 {
        return 0;
    }
    arrays[0].len()
}

// Its columns, which alone still hold its arrays.
fn columns_in(row_group: RowGroupIter) -> Vec<ChunkColumn>
    ensures { result.items ≡ row_group.columns.items }
{
    row_group.columns
}

impl<W: Sink + Drop> FileWriter<W> {
    /// A writer that has pushed nothing.
    ///
    /// # Errors
    ///
    /// Those of `to_parquet_schema`. The sink is then dropped.
    pub fn try_new(alloc: Global, writer: W, schema: Schema, options: WriteOptions) -> Result<Self>
        ensures ok { IfOk result (λ w. IsWriting W.taken (W.taken writer) w []) }
        ensures accepts { IfOk result (λ w. HasAccepted W.taken (W.taken writer) [] w) }
        ensures schema { IfOk result (λ w. schema_view w.file.schema ≡ schema_view schema) }
        ensures options { IfOk result (λ w. w.options ≡ options) }
        ensures refused { IfErr result (RefusesSchema (schema_view schema).fields) }
    {
        match SchemaFile::try_new(alloc, writer, schema, options.version) {
            Ok(file) => Ok(FileWriter { file, options }),
            Err(error) => Err(error),
        }
    }

    // Whether a group is one of the schema, in pages as they are asked for.
    fn takes(&self, group: &RowGroupIter) -> bool
        ensures { IsTrue result ↔ Takes self.now group.now }
    {
        if !are_same_trees(&group.fields, self.file.parquet_schema().fields()) {
            return false;
        }
        if !have_types(&self.file.schema.fields, group.chunk.arrays()) {
            return false;
        }
        if group.options.version != self.options.version {
            return false;
        }
        group.options.write_statistics == self.options.write_statistics
    }

    // Adds a group that is one of the schema.
    fn put(&mut self, row_group: RowGroupIter) -> Result<()>
        requires { Takes self.old row_group }
        ensures ok { (before : Option (List ℕ)) (groups : List OutGroup) → IsWriting W.taken before self.old groups
            → HasColumns row_group → OnOk result (Adds W.taken before groups row_group self.old self.new) }
        ensures schema { self.new.file.schema ≡ self.old.file.schema }
        ensures options { self.new.options ≡ self.old.options }
        ensures refused { (before : Option (List ℕ)) (groups : List OutGroup) → IsWriting W.taken before self.old groups
            → HasColumns row_group → IfErr result (Refuses W.faults groups row_group self.old self.new) }
        ensures again { (e : Fault) → self.old.file.refusal ≡ Some e → 0 < first_len row_group.chunk
            → (result ≡ Err e) × (self.new ≡ self.old) }
        ensures stays { IfErr result (λ e. self.new.file.refusal ≡ Some e) }
        ensures later { W.faults self.old.file.body.writer ≤ W.faults self.new.file.body.writer }
    {
        let rows = rows_in(&row_group.chunk);
        if rows == 0 {
            return Ok(());
        }
        row_group.chunk.know();
        paths_have_levels();
        let columns = columns_in(row_group);
        match self.file.put(columns, rows as u64) {
            Ok(()) => Ok(()),
            Err(error) => Err(error),
        }
    }

    /// Adds one group. A chunk of no rows adds none.
    ///
    /// # Errors
    ///
    /// After an error, and once the file has ended, each call answers the same and pushes nothing.
    ///
    /// - `InvalidArgumentError(A8)`: the file has ended; or the trees are not those of the schema, the arrays do not have its types, or the version of
    ///   pages or whether there are statistics is not as the writer has it.
    /// - `WriteFault`: the sink failed. `Memory`: memory ran out.
    /// - `Overflow(V3)`: the room of a page, also of a dictionary page, passes 2^31 - 1; or the rows of the file, the level pairs of a column or the bytes of the pages pass 2^63 - 1.
    pub fn write(&mut self, row_group: RowGroupIter) -> Result<()>
        ensures ok { (before : Option (List ℕ)) (groups : List OutGroup) → IsWriting W.taken before self.old groups
            → HasColumns row_group → OnOk result (Adds W.taken before groups row_group self.old self.new) }
        ensures accepts { (before : Option (List ℕ)) (chunks : List Group) → HasAccepted W.taken before chunks self.old
            → HasColumns row_group → OnOk result (HasAccepted W.taken before (chunks ++ row_group ∷ []) self.new) }
        ensures schema { self.new.file.schema ≡ self.old.file.schema }
        ensures options { self.new.options ≡ self.old.options }
        ensures takes { OnOk result (Takes self.old row_group) }
        ensures refused { (before : Option (List ℕ)) (groups : List OutGroup) → IsWriting W.taken before self.old groups
            → HasColumns row_group → IfErr result
            (λ e. ((e ≡ InvalidArgumentError A8) × (¬ Takes self.old row_group))
            ⊎ Refuses W.faults groups row_group self.old self.new e) }
        ensures again { (e : Fault) → self.old.file.refusal ≡ Some e → (result ≡ Err e) × (self.new ≡ self.old) }
        ensures stays { IfErr result (λ e. self.new.file.refusal ≡ Some e) }
        ensures later { W.faults self.old.file.body.writer ≤ W.faults self.new.file.body.writer }
    {
        if let Some(error) = self.file.refusal {
            return Err(error);
        }
        if !self.takes(&row_group) {
            self.file.refuse(Error::InvalidArgumentError(A::A8));
            return Err(Error::InvalidArgumentError(A::A8));
        }
        row_group.chunk.know();
        match self.put(row_group) {
            Ok(()) => Ok(()),
            Err(error) => Err(error),
        }
    }

    /// Writes the footer with these keys and behind them the one that carries the schema, and gives the size of the file in bytes.
    ///
    /// # Errors
    ///
    /// After an error, and once the file has ended, each call answers the same and pushes nothing.
    ///
    /// - `InvalidArgumentError(A8)`: the file has ended.
    /// - `WriteFault`: the sink failed. `Memory`: memory ran out.
    /// - `Overflow(V3)`: the bytes of the schema or the footer's room pass 2^31 - 1.
    pub fn end<C: SchemaCodec>(
        &mut self,
        key_value_metadata: Option<Vec<KeyValue>>,
        codec: &C,
    ) -> Result<u64>
        ensures ok { IfOk result (λ size. (before : Option (List ℕ)) (groups : List OutGroup)
            → IsWriting W.taken before self.old groups → HasFile before (W.taken self.new.file.body.writer)
            (schema_of (fields_in self.old)) (keys_in key_value_metadata
            ++ schema_entry (C.bytes_of codec.now (schema_view self.old.file.schema))
            ∷ []) self.old.options.version groups size) }
        ensures packed { IfOk result (λ size. (before : Option (List ℕ)) (chunks : List Group)
            → HasAccepted W.taken before chunks self.old → IsFileOf before (W.taken self.new.file.body.writer)
            (fields_in self.old) (keys_in key_value_metadata
            ++ schema_entry (C.bytes_of codec.now (schema_view self.old.file.schema))
            ∷ []) self.old.options.version chunks size) }
        ensures stated { IfOk result (λ size. (before : Option (List ℕ)) (groups : List OutGroup)
            → IsWriting W.taken before self.old groups → HasEnded W.taken before
            (keys_in key_value_metadata ++ schema_entry (C.bytes_of codec.now (schema_view self.old.file.schema))
            ∷ []) groups size self.new) }
        ensures schema { self.new.file.schema ≡ self.old.file.schema }
        ensures options { self.new.options ≡ self.old.options }
        ensures refused { IfErr result (λ e. (before : Option (List ℕ)) (groups : List OutGroup)
            → IsWriting W.taken before self.old groups → (e ≡ Memory)
            ⊎ ((e ≡ WriteFault) × Rose (W.faults self.old.file.body.writer) (W.faults self.new.file.body.writer))
            ⊎ ((e ≡ Overflow V3) × ((max_size < length (C.bytes_of codec.now (schema_view self.old.file.schema)))
            ⊎
            (max_size < footer_room (planned_footer (schema_of (fields_in self.old))
            (keys_in key_value_metadata ++ schema_entry (C.bytes_of codec.now (schema_view self.old.file.schema))
            ∷ []) groups))))) }
        ensures again { (e : Fault) → self.old.file.refusal ≡ Some e → (result ≡ Err e) × (self.new ≡ self.old) }
        ensures stays { IfErr result (λ e. self.new.file.refusal ≡ Some e) }
        ensures ended { IfOk result (λ _. self.new.file.refusal ≡ Some (InvalidArgumentError A8)) }
        ensures later { W.faults self.old.file.body.writer ≤ W.faults self.new.file.body.writer }
    {
        groups_are_laid();
        match self.file.end(key_value_metadata, codec) {
            Ok(size) => Ok(size),
            Err(error) => Err(error),
        }
    }

    /// How pages are written.
    pub fn options(&self) -> WriteOptions
        ensures { result ≡ self.now.options }
    {
        self.options
    }

    /// The schema.
    pub fn schema(&self) -> &Schema
        ensures { result.now ≡ self.now.file.schema }
    {
        &self.file.schema
    }

    /// The tree of the schema (Parquet format, "Metadata").
    pub fn parquet_schema(&self) -> &SchemaDescriptor
        ensures { result.now ≡ self.now.file.body.metadata.schema }
    {
        self.file.parquet_schema()
    }

    /// The number of groups that it wrote.
    pub fn groups(&self) -> usize
        ensures { result ≡ length self.now.file.body.metadata.row_groups.items }
    {
        self.file.body.metadata.row_groups.len()
    }

    /// The number of rows that it wrote.
    pub fn rows(&self) -> u64
        ensures { result ≡ self.now.file.body.rows }
    {
        self.file.body.rows.get()
    }

    /// The number of data pages that it wrote.
    pub fn data_pages(&self) -> u64
        ensures { result ≡ self.now.file.body.data_pages }
    {
        self.file.body.data_pages.get()
    }

    /// The sink.
    pub fn into_inner(self) -> W
        ensures { result ≡ self.file.body.writer }
    {
        self.file.into_inner()
    }

    /// The sink, and what the footer of its file states, where `end` succeeded (Parquet format, `FileMetaData`). Else it is what was kept for the footer so far.
    pub fn into_inner_and_metadata(self) -> (W, ThriftFileMetaData)
        ensures writer { result.0 ≡ self.file.body.writer }
        ensures metadata { result.1 ≡ self.file.body.metadata }
        ensures stated { (before : Option (List ℕ)) (keys : List Key) (groups : List OutGroup) (size : ℕ)
            → HasEnded W.taken before keys groups size self → HasFileStating before (W.taken result.0)
            (schema_of (fields_in self)) keys self.options.version groups size (footer_view result.1) }
    {
        self.file.into_inner_and_metadata()
    }
}
