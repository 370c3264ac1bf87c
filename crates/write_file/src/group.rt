//! The columns of a group.
ghost use Rattle.std.specs.Prelude.{◌≡◌, ◌⊎◌, ℕ, ◌+◌, ◌<◌, ◌≤◌, List, length, map, sum_by, IfOk, IfErr, IsErrOf};
ghost use Rattle.std.specs.Io.KnownBytes.{Appends};
ghost use Rattle.columns_base.specs.declared.error.Error.TheVariants.{Memory, Overflow, WriteFault};
ghost use Rattle.columns_base.specs.declared.error.V.TheVariants.{V3};
ghost use Rattle.footer_write.specs.FooterView.{chunk_view};
ghost use Rattle.pq_tree.specs.Tree.{Leaf};
ghost use Rattle.pq_tree.specs.declared.version.Version.{Version};
ghost use Rattle.pq_files.specs.Layout.{OutChunk};
ghost use Rattle.pq_files.specs.Packed.{AreChunks};
ghost use Rattle.pq_files.specs.Room.{max_count};
ghost use Rattle.pq_io.specs.Causes.{Rose};
ghost use Rattle.write_file.specs.Leaves.{AreMetasOf};
ghost use Rattle.write_file.specs.Pages.{AllGive, SomeRefuses};
ghost use Rattle.write_counts.specs.Passing.{SomeColumnPasses};

use crate::chunk::push_chunk;
use crate::{ChunkPages, Count, LeafMetas};
use columns_base::Result;
use footer_write::ThriftColumnChunk;
use pq_io::Sink;
use std::alloc::Global;

/// The chunks of a group, the place after them, and their number of data pages.
#[derive(Drop)]
pub(crate) struct Chunks {
    pub metas: Vec<ThriftColumnChunk>,
    pub end: Count,
    pub pages: Count,
}

/// Pushes the columns of a group one after another, from a place on (Parquet format, "File format").
///
/// # Errors
///
/// Those of `push_chunk`.
pub(crate) fn push_columns<W: Sink, P: ChunkPages + Drop>(
    alloc: Global,
    sink: &mut W,
    leaves: &LeafMetas,
    columns: Vec<P>,
    start: Count,
) -> Result<Chunks>
    requires even { length leaves.now.physicals.items ≡ length columns.items }
    requires named { length leaves.now.paths.items ≡ length columns.items }
    ensures ok { IfOk result (λ k. (version : Version) (ls : List Leaf) (cs : List OutChunk) → AreMetasOf ls leaves.now
        → AllGive P.begins version ls cs columns.items → (text : List ℕ)
        × Appends (W.taken sink.old) (W.taken sink.new) text
        × AreChunks version ls cs start text (map chunk_view k.metas.items) × (k.end ≡ start + length text)
        × (k.pages ≡ sum_by (λ c. length c.pages) cs)) }
    ensures few { IfOk result (λ k. start + k.pages ≤ k.end) }
    ensures most { IfOk result (λ k. k.end ≤ max_count) }
    ensures later { W.faults sink.old ≤ W.faults sink.new }
    ensures fault { IsErrOf result WriteFault → Rose (W.faults sink.old) (W.faults sink.new)
        ⊎ SomeRefuses P.refuses columns.items WriteFault }
    ensures refused { IfErr result (λ e. (e ≡ Memory) ⊎ (e ≡ WriteFault)
        ⊎
        ((e ≡ Overflow V3)
        ×
        ((version : Version) (ls : List Leaf) (cs : List OutChunk) → AreMetasOf ls leaves.now
        → AllGive P.begins version ls cs columns.items → SomeColumnPasses version ls cs start))
        ⊎ SomeRefuses P.refuses columns.items e) }
{
    let mut metas = Vec::with_capacity(alloc, columns.len())?;
    let mut end = start;
    let mut pages = Count::zero();
    let mut left = columns.into_iter();
    let mut i: usize = 0;
    'columns: while let Some(column) = left.next() {
        let physical = leaves.physicals[i];
        let path = &leaves.paths[i];
        let chunk = match push_chunk(alloc, sink, physical, path, column, end) {
            Ok(chunk) => chunk,
            Err(error) => return Err(error),
        };
        metas.push(chunk.meta)?;
        end = chunk.end;
        pages = match pages.plus(chunk.pages.get()) {
            Ok(pages) => pages,
            Err(error) => return Err(error),
        };
        i += 1;
    }
    Ok(Chunks { metas, end, pages })
}
