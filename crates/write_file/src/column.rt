//! The pages of one column, from a place on.
ghost use Rattle.std.specs.Prelude.{◌≡◌, ◌⊎◌, ℕ, ◌+◌, ◌++◌, ◌≤◌, List, length, IfOk, IfErr, IsErrOf};
ghost use Rattle.std.specs.Io.KnownBytes.{Appends};
ghost use Rattle.columns_base.specs.declared.error.Error.TheVariants.{Memory, Overflow, WriteFault};
ghost use Rattle.columns_base.specs.declared.error.V.TheVariants.{V3};
ghost use Rattle.pq_tree.specs.Tree.{Leaf};
ghost use Rattle.pq_tree.specs.declared.version.Version.{Version};
ghost use Rattle.pq_files.specs.Layout.{OutChunk};
ghost use Rattle.pq_files.specs.Packed.{HasDictionary, ArePages};
ghost use Rattle.pq_files.specs.Room.{max_count};
ghost use Rattle.pq_files.specs.Written.{pairs_in};
ghost use Rattle.pq_io.specs.Causes.{Rose};
ghost use Rattle.write_file.specs.Pages.{IsDictionaryOf};
ghost use Rattle.write_counts.specs.Passing.{ColumnPasses};

use crate::push::{push_dictionary, push_pages};
use crate::{ChunkPages, Count};
use columns_base::Result;
use pq_io::Sink;
use pq_pages::DictPage;
use std::alloc::Global;

/// The pages of a column in the sink: the place of its data pages, behind the dictionary page, the place after them, and the number of their level pairs and of data pages.
#[derive(Clone, Copy, Drop)]
pub(crate) struct Placed {
    pub behind: Count,
    pub end: Count,
    pub pairs: Count,
    pub pages: Count,
}

/// Pushes the dictionary page of a column, where there is one, and behind it the data pages, from a place on (Parquet format, "Column chunks").
///
/// # Errors
///
/// Those of `push_pages`; `Overflow(V3)` also where the place after them passes 2^63 - 1.
pub(crate) fn push_column<W: Sink, P: ChunkPages>(
    alloc: Global,
    sink: &mut W,
    dictionary: Option<DictPage>,
    pages: &mut P,
    start: Count,
) -> Result<Placed>
    ensures ok { IfOk result (λ k. (version : Version) (l : Leaf) (c : OutChunk) → IsDictionaryOf l c.entries dictionary
        → P.gives pages.old version l c → (first : List ℕ) × (text : List ℕ)
        × Appends (W.taken sink.old) (W.taken sink.new) (first ++ text) × HasDictionary l c.entries first
        × ArePages version l c.entries c.pages text × (k.behind ≡ start + length first)
        × (k.end ≡ k.behind + length text) × (k.pairs ≡ pairs_in c) × (k.pages ≡ length c.pages)) }
    ensures few { IfOk result (λ k. start + k.pages ≤ k.end) }
    ensures most { IfOk result (λ k. k.end ≤ max_count) }
    ensures later { W.faults sink.old ≤ W.faults sink.new }
    ensures fault { IsErrOf result WriteFault → Rose (W.faults sink.old) (W.faults sink.new)
        ⊎ P.refuses pages.old WriteFault }
    ensures refused { IfErr result (λ e. (e ≡ Memory) ⊎ (e ≡ WriteFault)
        ⊎
        ((e ≡ Overflow V3)
        ×
        ((version : Version) (l : Leaf) (c : OutChunk) → IsDictionaryOf l c.entries dictionary
        → P.gives pages.old version l c → ColumnPasses version l c start)) ⊎ P.refuses pages.old e) }
{
    let first = match push_dictionary(alloc, sink, dictionary) {
        Ok(first) => first,
        Err(error) => return Err(error),
    };
    let behind = match start.plus(first.get()) {
        Ok(behind) => behind,
        Err(error) => return Err(error),
    };
    let pushed = match push_pages(alloc, sink, pages) {
        Ok(pushed) => pushed,
        Err(error) => return Err(error),
    };
    let end = match behind.plus(pushed.bytes.get()) {
        Ok(end) => end,
        Err(error) => return Err(error),
    };
    Ok(Placed {
        behind,
        end,
        pairs: pushed.pairs,
        pages: pushed.pages,
    })
}
