//! The pages of one column as they go to a sink, one at a time: the dictionary page, where there is one, and the data pages.
ghost use Rattle.std.specs.Prelude.{◌≡◌, ◌⊎◌, ℕ, ◌+◌, ◌<◌, ◌≤◌, List, Option, length, IfOk, IfErr, IsErrOf};
ghost use Rattle.std.specs.Io.KnownBytes.{Appends};
ghost use Rattle.shredding.specs.Slot.{Value};
ghost use Rattle.columns_base.specs.declared.error.Error.TheVariants.{Memory, Overflow, WriteFault};
ghost use Rattle.columns_base.specs.declared.error.V.TheVariants.{V3};
ghost use Rattle.pq_tree.specs.Tree.{Leaf};
ghost use Rattle.pq_tree.specs.declared.version.Version.{Version};
ghost use Rattle.pq_files.specs.Layout.{OutPage, OutChunk};
ghost use Rattle.pq_files.specs.Packed.{HasDictionary, IsWrittenPage, ArePages};
ghost use Rattle.pq_files.specs.Room.{max_count};
ghost use Rattle.pq_files.specs.Written.{pairs_in};
ghost use Rattle.pq_io.specs.Causes.{Rose};
ghost use Rattle.pq_pages.specs.HeaderValue.{body_of as body_bytes, IsTooLong};
ghost use Rattle.write_file.specs.Pages.{IsDictionaryOf, IsGiven, IsHeaded};
ghost use Rattle.write_counts.specs.Passing.{ColumnPasses};

use crate::{ChunkPages, Count};
use columns_base::Result;
use pq_io::{Sink, push_all, push_owned};
use pq_pages::{DataPage, DictPage, Page, pages_are_written, write_page_header};
use std::alloc::Global;

/// The data pages that went to the sink: their bytes, their level pairs and their number.
#[derive(Clone, Copy, Drop)]
pub(crate) struct Pushed {
    pub bytes: Count,
    pub pairs: Count,
    pub pages: Count,
}

// The body of a page, taken out of it.
fn into_body(page: Page) -> Vec<u8>
    ensures { result.items ≡ body_bytes page }
{
    match page {
        Page::Data(page) => page.into_buffer(),
        Page::Dict(page) => page.buffer,
    }
}

// How many bytes two texts have.
fn bytes_of(head: &[u8], body: &[u8]) -> Result<Count>
    ensures ok { IfOk result (λ n. n ≡ length head.now + length body.now) }
    ensures err { IfErr result (λ e. (e ≡ Overflow V3) × (max_count < length head.now + length body.now)) }
{
    let first = Count::zero().plus(head.len() as u64)?;
    first.plus(body.len() as u64)
}

// Pushes a page behind its header, and gives the number of their bytes.
fn push_headed<W: Sink>(alloc: Global, sink: &mut W, page: Page) -> Result<Count>
    ensures ok { IfOk result (λ n. (text : List ℕ) × Appends (W.taken sink.old) (W.taken sink.new) text
        × (n ≡ length text) × IsHeaded page text) }
    ensures some { IfOk result (λ n. 1 ≤ n) }
    ensures later { W.faults sink.old ≤ W.faults sink.new }
    ensures fault { IsErrOf result WriteFault → Rose (W.faults sink.old) (W.faults sink.new) }
    ensures refused { IfErr result (λ e. (e ≡ Memory) ⊎ (e ≡ WriteFault)
        ⊎ ((e ≡ Overflow V3) × (IsTooLong page
        ⊎ ((text : List ℕ) × IsHeaded page text × (max_count < length text))))) }
{
    let mut head = Vec::new(alloc);
    write_page_header(&page, &mut head)?;
    let body = into_body(page);
    let bytes = match bytes_of(&head, &body) {
        Ok(bytes) => bytes,
        Err(error) => return Err(error),
    };
    push_all(sink, &head)?;
    push_owned(sink, body)?;
    Ok(bytes)
}

// Pushes a data page behind its header.
fn push_page<W: Sink>(alloc: Global, sink: &mut W, page: DataPage) -> Result<Pushed>
    ensures ok { IfOk result (λ n. (text : List ℕ) × Appends (W.taken sink.old) (W.taken sink.new) text
        × (n.bytes ≡ length text) × ((version : Version) (l : Leaf) (entries : Option (List Value)) (o : OutPage)
        → IsGiven version l entries o page → (n.pairs ≡ length o.triples) × IsWrittenPage version l entries o text)) }
    ensures one { IfOk result (λ n. n.pages ≡ 1) }
    ensures some { IfOk result (λ n. 1 ≤ n.bytes) }
    ensures later { W.faults sink.old ≤ W.faults sink.new }
    ensures fault { IsErrOf result WriteFault → Rose (W.faults sink.old) (W.faults sink.new) }
    ensures refused { IfErr result (λ e. (e ≡ Memory) ⊎ (e ≡ WriteFault)
        ⊎ ((e ≡ Overflow V3) × ((version : Version) (l : Leaf) (entries : Option (List Value)) (o : OutPage)
        → IsGiven version l entries o page → (max_count < length o.triples)
        ⊎ ((text : List ℕ) × IsWrittenPage version l entries o text × (max_count < length text))))) }
{
    let pairs = Count::zero().plus(page.num_values() as u64)?;
    let pages = Count::zero().plus(1)?;
    pages_are_written();
    let page = Page::Data(page);
    let bytes = match push_headed(alloc, sink, page) {
        Ok(bytes) => bytes,
        Err(error) => return Err(error),
    };
    Ok(Pushed {
        bytes,
        pairs,
        pages,
    })
}

/// Pushes the dictionary page of a column behind its header, where there is one, and gives the number of their bytes (Parquet format, "Dictionary Page").
///
/// # Errors
///
/// - `WriteFault`: the sink failed. `Memory`: memory ran out.
/// - `Overflow(V3)`: the bytes pass 2^63 - 1.
pub(crate) fn push_dictionary<W: Sink>(
    alloc: Global,
    sink: &mut W,
    page: Option<DictPage>,
) -> Result<Count>
    ensures ok { IfOk result (λ n. (text : List ℕ) × Appends (W.taken sink.old) (W.taken sink.new) text
        × (n ≡ length text) × ((l : Leaf) (entries : Option (List Value)) → IsDictionaryOf l entries page
        → HasDictionary l entries text)) }
    ensures later { W.faults sink.old ≤ W.faults sink.new }
    ensures fault { IsErrOf result WriteFault → Rose (W.faults sink.old) (W.faults sink.new) }
    ensures refused { IfErr result (λ e. (e ≡ Memory) ⊎ (e ≡ WriteFault)
        ⊎ ((e ≡ Overflow V3) × ((l : Leaf) (entries : Option (List Value)) → IsDictionaryOf l entries page
        → (text : List ℕ) × HasDictionary l entries text × (max_count < length text)))) }
{
    let Some(page) = page else {
        return Ok(Count::zero());
    };
    pages_are_written();
    let page = Page::Dict(page);
    push_headed(alloc, sink, page)
}

// One page more.
fn with_page(a: Pushed, page: Pushed) -> Result<Pushed>
    requires few { a.pages ≤ a.bytes }
    requires one { page.pages ≤ page.bytes }
    ensures ok { IfOk result (λ n. (n.bytes ≡ a.bytes + page.bytes) × (n.pairs ≡ a.pairs + page.pairs)
        × (n.pages ≡ a.pages + page.pages)) }
    ensures refused { IfErr result (λ e. (e ≡ Overflow V3) × ((max_count < a.bytes + page.bytes)
        ⊎ (max_count < a.pairs + page.pairs))) }
{
    let bytes = a.bytes.plus(page.bytes.get())?;
    let pairs = a.pairs.plus(page.pairs.get())?;
    let pages = a.pages.plus(page.pages.get())?;
    Ok(Pushed {
        bytes,
        pairs,
        pages,
    })
}

/// Pushes the data pages of a column one after another, each when the one before has gone.
///
/// # Errors
///
/// - `WriteFault`: the sink failed. `Memory`: memory ran out.
/// - `Overflow(V3)`: the bytes or the level pairs pass 2^63 - 1, whatever the dictionary page is.
/// - Those of the pages.
pub(crate) fn push_pages<W: Sink, P: ChunkPages>(
    alloc: Global,
    sink: &mut W,
    pages: &mut P,
) -> Result<Pushed>
    ensures ok { IfOk result (λ n. (version : Version) (l : Leaf) (c : OutChunk) → P.gives pages.old version l c
        → (text : List ℕ) × Appends (W.taken sink.old) (W.taken sink.new) text × (n.bytes ≡ length text)
        × (n.pairs ≡ pairs_in c) × (n.pages ≡ length c.pages) × ArePages version l c.entries c.pages text) }
    ensures few { IfOk result (λ n. n.pages ≤ n.bytes) }
    ensures later { W.faults sink.old ≤ W.faults sink.new }
    ensures fault { IsErrOf result WriteFault → Rose (W.faults sink.old) (W.faults sink.new)
        ⊎ P.refuses pages.old WriteFault }
    ensures refused { IfErr result (λ e. (e ≡ Memory) ⊎ (e ≡ WriteFault)
        ⊎
        ((e ≡ Overflow V3)
        ×
        ((version : Version) (l : Leaf) (c : OutChunk) (dictionary : List ℕ) → P.gives pages.old version l c
        → HasDictionary l c.entries dictionary → ColumnPasses version l c 0)) ⊎ P.refuses pages.old e) }
{
    let mut pushed = Pushed {
        bytes: Count::zero(),
        pairs: Count::zero(),
        pages: Count::zero(),
    };
    'pages: while let Some(page) = pages.next_page() {
        let next = match push_page(alloc, sink, page?) {
            Ok(next) => next,
            Err(error) => return Err(error),
        };
        pushed = match with_page(pushed, next) {
            Ok(pushed) => pushed,
            Err(error) => return Err(error),
        };
    }
    Ok(pushed)
}
