//! A file as far as it is written.
ghost use Rattle.std.specs.Prelude.{◌≡◌, ◌⊎◌, ◌++◌, ◌∷◌, [], ℕ, ◌+◌, ◌<◌, ◌≤◌, List, Option, length, map, option_map, pos, IfOk, OnOk, IfErr, IsErrOf};
ghost use Rattle.columns_base.specs.declared.error.Error.TheVariants.{Memory, Overflow, WriteFault};
ghost use Rattle.columns_base.specs.declared.error.V.TheVariants.{V3};
ghost use Rattle.footer_write.specs.FooterView.{chunk_view, footer_view, row_group_view};
ghost use Rattle.footer_write.specs.Fits.{TreesFit};
ghost use Rattle.pq_tree.specs.Tree.{Schema, columns_of};
ghost use Rattle.pq_tree.specs.TreeViews.{schema_view, pairs_view};
ghost use Rattle.pq_tree.specs.declared.version.Version.{Version as PageVersion};
ghost use Rattle.pq_files.specs.FooterRecord.{ColumnChunk};
ghost use Rattle.pq_files.specs.Layout.{OutGroup};
ghost use Rattle.pq_files.specs.Packed.{HasRows};
ghost use Rattle.pq_files.specs.Room.{max_count, max_size, footer_room, planned_footer};
ghost use Rattle.pq_files.specs.Written.{elements_of, ordinal_of, group_record, version_number};
ghost use Rattle.pq_metadata.specs.Footer.{SpellsTree};
ghost use Rattle.pq_io.specs.Causes.{Rose};
ghost use Rattle.write_file.specs.Files.{HasWritten, HasFileStating};
ghost use Rattle.write_file.specs.Pages.{AllGive, SomeRefuses};
ghost use Rattle.write_counts.specs.Passing.{GroupPasses};

use crate::foot::foot_of;
use crate::group::{Chunks, push_columns};
use crate::leaf::leaves_of;
use crate::{ChunkPages, Count, LeafMetas, MAGIC};
use columns_base::Result;
use footer_write::{ThriftFileMetaData, ThriftRowGroup};
use pq_files::{rooms_are_planned, written_files_are_packed};
use pq_io::{Sink, push_all};
use pq_tree::{KeyValue, SchemaDescriptor, Version};
use std::alloc::Global;

/// Who made the file (Parquet format, `FileMetaData.created_by`).
const CREATED_BY: &str = "Arrow2 - Native Rust implementation of Arrow";

/// A file as far as it is written: the sink, what the footer will state, and the numbers of bytes, rows and data pages so far.
#[derive(Drop)]
pub struct FileBody<W> {
    pub writer: W,
    pub metadata: ThriftFileMetaData,
    pub version: Version,
    /// The leaves of the schema, in order.
    pub leaves: LeafMetas,
    /// The bytes that went to the sink.
    pub pushed: Count,
    pub rows: Count,
    pub data_pages: Count,
}

// The group's place in the file, where the format has a number for it.
fn ordinal(i: usize) -> Option<i16>
    ensures { result ≡ ordinal_of i }
{
    if i <= 32767 { Some(i as i16) } else { None }
}

// What the footer states of a group at its place, from its start on.
fn group_from(chunks: Chunks, rows: Count, start: Count, place: usize) -> ThriftRowGroup
    requires few { start + chunks.pages ≤ chunks.end }
    ensures { (size : ℕ) → chunks.end ≡ start + size → row_group_view result
        ≡ group_record place (map chunk_view chunks.metas.items) rows start size }
{
    let size = chunks.end.minus(start).stated();
    ThriftRowGroup {
        columns: chunks.metas,
        total_byte_size: size,
        num_rows: rows.stated(),
        file_offset: start.stated(),
        total_compressed_size: size,
        ordinal: ordinal(place),
    }
}

fn number_of(version: Version) -> i32
    ensures { result ≡ pos (version_number version) }
{
    match version {
        Version::V1 => 1,
        Version::V2 => 2,
    }
}

// The rows of a group, and those of the file with it.
#[derive(Clone, Copy, Drop)]
struct RowsAfter {
    group: Count,
    total: Count,
}

fn rows_after(before: Count, rows: u64) -> Result<RowsAfter>
    ensures ok { IfOk result (λ r. (r.group ≡ rows) × (r.total ≡ before + rows)) }
    ensures err { IfErr result (λ e. (e ≡ Overflow V3) × (max_count < before + rows)) }
{
    let group = Count::zero().plus(rows)?;
    let total = before.plus(rows)?;
    Ok(RowsAfter { group, total })
}

impl<W: Sink + Drop> FileBody<W> {
    /// A file over a sink, with no group so far. Nothing is pushed.
    ///
    /// # Errors
    ///
    /// `Memory`: memory ran out. The sink is then dropped.
    pub fn try_new(
        alloc: Global,
        writer: W,
        schema: SchemaDescriptor,
        version: Version,
    ) -> Result<Self>
        ensures ok { IfOk result (λ b. HasWritten W.taken (W.taken writer) (schema_view schema) version [] b) }
        ensures writer { IfOk result (λ b. b.writer ≡ writer) }
        ensures err { IfErr result (λ e. e ≡ Memory) }
    {
        let created_by = String::from_str(alloc, CREATED_BY)?;
        let leaves = leaves_of(alloc, &schema)?;
        let metadata = ThriftFileMetaData {
            version: number_of(version),
            schema,
            num_rows: 0,
            row_groups: Vec::new(alloc),
            key_value_metadata: None,
            created_by,
        };
        Ok(FileBody {
            writer,
            metadata,
            version,
            leaves,
            pushed: Count::zero(),
            rows: Count::zero(),
            data_pages: Count::zero(),
        })
    }

    // Pushes what a file begins with, where nothing was pushed.
    fn begin(&mut self) -> Result<()>
        ensures ok { OnOk result ((before : Option (List ℕ)) (tree : Schema) (version : PageVersion)
            (groups : List OutGroup) → HasWritten W.taken before tree version groups self.old
            → HasWritten W.taken before tree version groups self.new) }
        ensures begun { OnOk result (0 < self.new.pushed) }
        ensures kept { (self.new.metadata ≡ self.old.metadata) × (self.new.version ≡ self.old.version)
            × (self.new.leaves ≡ self.old.leaves) × (self.new.rows ≡ self.old.rows)
            × (self.new.data_pages ≡ self.old.data_pages) }
        ensures later { W.faults self.old.writer ≤ W.faults self.new.writer }
        ensures fault { IsErrOf result WriteFault → Rose (W.faults self.old.writer) (W.faults self.new.writer) }
        ensures refused { IfErr result (λ e. (e ≡ Memory) ⊎ (e ≡ WriteFault)) }
    {
        if self.pushed.get() > 0 {
            return Ok(());
        }
        let pushed = Count::zero().plus(4)?;
        push_all(&mut self.writer, MAGIC)?;
        self.pushed = pushed;
        Ok(())
    }

    /// Pushes a group of so many rows, and keeps what the footer states of it.
    ///
    /// # Errors
    ///
    /// - `WriteFault`: the sink failed. `Memory`: memory ran out.
    /// - `Overflow(V3)`: the rows of the file, the level pairs of a column or the bytes of the pages pass 2^63 - 1.
    /// - Those of the pages.
    ///
    /// After an error nothing is said of what is kept.
    pub fn write_group<P: ChunkPages + Drop>(&mut self, columns: Vec<P>, rows: u64) -> Result<()>
        requires even { length self.old.leaves.physicals.items ≡ length columns.items }
        requires named { length self.old.leaves.paths.items ≡ length columns.items }
        ensures ok { OnOk result ((before : Option (List ℕ)) (tree : Schema) (version : PageVersion)
            (groups : List OutGroup) (g : OutGroup) → HasWritten W.taken before tree version groups self.old
            → AllGive P.begins version (columns_of tree) g.chunks columns.items → HasRows g → g.rows ≡ rows
            → HasWritten W.taken before tree version (groups ++ g ∷ []) self.new) }
        ensures later { W.faults self.old.writer ≤ W.faults self.new.writer }
        ensures fault { IsErrOf result WriteFault → Rose (W.faults self.old.writer) (W.faults self.new.writer)
            ⊎ SomeRefuses P.refuses columns.items WriteFault }
        ensures refused { IfErr result (λ e. (e ≡ Memory) ⊎ (e ≡ WriteFault)
            ⊎
            ((e ≡ Overflow V3)
            ×
            ((before : Option (List ℕ)) (tree : Schema) (version : PageVersion) (groups : List OutGroup)
            (g : OutGroup) → HasWritten W.taken before tree version groups self.old
            → AllGive P.begins version (columns_of tree) g.chunks columns.items → g.rows ≡ rows
            → GroupPasses version (columns_of tree) groups g)) ⊎ SomeRefuses P.refuses columns.items e) }
    {
        let rows = match rows_after(self.rows, rows) {
            Ok(rows) => rows,
            Err(error) => return Err(error),
        };
        self.begin()?;
        let start = self.pushed;
        let alloc = *self.leaves.physicals.allocator();
        let chunks = match push_columns(alloc, &mut self.writer, &self.leaves, columns, start) {
            Ok(chunks) => chunks,
            Err(error) => return Err(error),
        };
        let data_pages = match self.data_pages.plus(chunks.pages.get()) {
            Ok(data_pages) => data_pages,
            Err(error) => return Err(error),
        };
        let end = chunks.end;
        let place = self.metadata.row_groups.len();
        let group = group_from(chunks, rows.group, start, place);
        self.metadata.row_groups.push(group)?;
        self.metadata.num_rows = rows.total.stated();
        self.pushed = end;
        self.rows = rows.total;
        self.data_pages = data_pages;
        Ok(())
    }

    /// Pushes the footer with these keys, its length and what a file ends with, and gives the size of the file in bytes. What the footer states is kept.
    ///
    /// # Errors
    ///
    /// - `WriteFault`: the sink failed. `Memory`: memory ran out.
    /// - `Overflow(V3)`: the footer's room passes 2^31 - 1.
    ///
    /// After an error nothing is said of what is kept.
    pub fn write_footer(&mut self, keys: Option<Vec<KeyValue>>) -> Result<u64>
        ensures ok { IfOk result (λ size. (before : Option (List ℕ)) (tree : Schema) (version : PageVersion)
            (groups : List OutGroup) → HasWritten W.taken before tree version groups self.old
            → SpellsTree (elements_of tree) tree → HasFileStating before (W.taken self.new.writer) tree
            (pairs_view keys) version groups size (footer_view self.new.metadata)) }
        ensures later { W.faults self.old.writer ≤ W.faults self.new.writer }
        ensures fault { IsErrOf result WriteFault → Rose (W.faults self.old.writer) (W.faults self.new.writer) }
        ensures refused { IfErr result (λ e. (e ≡ Memory) ⊎ (e ≡ WriteFault)
            ⊎
            ((e ≡ Overflow V3)
            × ((before : Option (List ℕ)) (tree : Schema) (version : PageVersion) (groups : List OutGroup)
            → HasWritten W.taken before tree version groups self.old → TreesFit tree.fields
            → max_size < footer_room (planned_footer tree (pairs_view keys) groups)))) }
    {
        self.begin()?;
        self.metadata.key_value_metadata = keys;
        written_files_are_packed();
        rooms_are_planned();
        let alloc = *self.leaves.physicals.allocator();
        let foot = match foot_of(alloc, &self.metadata) {
            Ok(foot) => foot,
            Err(error) => return Err(error),
        };
        push_all(&mut self.writer, &foot)?;
        Ok(self.pushed.get() + foot.len() as u64)
    }
}
