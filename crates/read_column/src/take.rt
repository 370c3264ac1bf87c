//! The pairs of a page, to the pieces of a queue.
ghost use Rattle.std.specs.Prelude.{◌≡◌, ◌⊎◌, ◌++◌, ◌<◌, ◌^◌, ℕ, List, [], ◌∷◌, Ok, Some, None, IfErr, IfOk, MatchResult};
ghost use Rattle.columns_base.specs.declared.error.Error.TheVariants.{Memory, OutOfSpec};
ghost use Rattle.columns_base.specs.declared.error.S.TheVariants.{S3, S4, S9};
ghost use Rattle.shredding.specs.Shape.{Way};
ghost use Rattle.shredding.specs.Shred.{Triple};
ghost use Rattle.read_walk.specs.Pairs.{Pair, Item, fault};
ghost use Rattle.pq_tree.specs.declared.types.TypedPageHeader.TheVariants as T;
ghost use Rattle.pq_tree.specs.Views.{typed_view};
ghost use Rattle.pq_pages.specs.Outcomes.{levels_in, raw_page};
ghost use Rattle.read_column.specs.Dictionary.{IsLaid, Texts, indices_in, means};
ghost use Rattle.read_column.specs.Laid.{AreLaid, AreNotLaid, AreNotTurned, AreTurnedIn};
ghost use Rattle.read_column.specs.Opened.{ArePairsIn, IsSized, first_goes_on};
ghost use Rattle.read_column.specs.Reading.{RefusesPage, RefusesRows, TakesAll, TakesRows, goes_on_error};
ghost use Rattle.read_column.specs.Taken.{joined, BeginsPair, IsQueued, StopsPage, TakesPage};

use crate::deltas::{Deltas, plain_deltas};
use crate::encoding::ValueEncoding;
use crate::entries::Entries;
use crate::indices::plain_values;
use crate::page::{OpenPage, PagePairs, open_pairs, states_rows};
use crate::queue::Queue;
use columns_base::{Error, N, Result, S};
use pq_pages::DataPageRef;
use pq_tree::DataPageHeader;
use read_pieces::{LeafReader, PlainBytes};
use read_walk::NestedPage;
use std::alloc::Global;

// No pair is left.
fn no_more(page: &mut NestedPage<'_>) -> Result<()>
    ensures { MatchResult result (λ _. page.old ≡ []) (λ e. ((e ≡ OutOfSpec S9)
        × ((p : Pair) × (is : List Item) × (page.old ≡ Ok p ∷ is)))
        ⊎ ((e ≡ OutOfSpec S4) × ((is : List Item) × (page.old ≡ fault ∷ is)))) }
{
    match page.next_run(1) {
        None => Ok(()),
        Some(Ok(_)) => Err(Error::OutOfSpec(S::S9)),
        Some(Err(error)) => Err(error),
    }
}

/// Takes the page's pairs to its end: to the last piece until that has its rows, then to another, as long as rows are left.
///
/// # Errors
///
/// S9 where a pair is left behind the last row, S4 where it cannot be read, what the leaf's `extend` is refused for, and `Memory`.
pub fn take_pairs<'a, 'b, L: LeafReader>(
    leaf: &L,
    queue: Queue<L>,
    page: &mut NestedPage<'a>,
    bytes: &mut PlainBytes<'b>,
) -> Result<Queue<L>>
    requires suits { L.suits leaf.now queue.width }
    ensures ok { (w : Way) (before : ℕ) (whole : List (List Triple)) (last : List Triple)
        → IsQueued w before whole last queue → BeginsPair page.old
        → IfOk result (λ q. TakesPage queue.chunk_size w before (joined whole ++ last) q page.old
        (L.stored leaf.now bytes.old.values.now bytes.old.bit)) }
    ensures err { (w : Way) (before : ℕ) (whole : List (List Triple)) (last : List Triple)
        → IsQueued w before whole last queue → BeginsPair page.old
        → IfErr result (λ e. (e ≡ Memory) ⊎ StopsPage L.byte_limit queue.chunk_size w before
        (joined whole ++ last) page.old (L.stored leaf.now bytes.old.values.now bytes.old.bit) e) }
    ensures suits { IfOk result (λ q. L.suits leaf.now q.width) }
{
    let mut queue = queue;
    'pieces: while queue.is_wanting() {
        queue = match queue.extend(leaf, page, bytes) {
            Ok(queue) => queue,
            Err(error) => return Err(error),
        };
        if !queue.is_full() {
            return Ok(queue);
        }
        queue = match queue.close() {
            Ok(queue) => queue,
            Err(error) => return Err(error),
        };
    }
    match no_more(page) {
        Ok(()) => Ok(queue),
        Err(error) => Err(error),
    }
}

// A page's first pair goes on with a row.
fn misplaced(header: &DataPageHeader, is_first: bool) -> Error
    ensures { result ≡ goes_on_error (typed_view (T.Data header.now)) is_first }
{
    match header {
        DataPageHeader::V1(_) => {
            if is_first {
                Error::OutOfSpec(S::S5)
            } else {
                Error::NotYetImplemented(N::N8)
            }
        }
        DataPageHeader::V2(_) => Error::OutOfSpec(S::S5),
    }
}

// Takes the pairs of a page that is opened, with its values, which stand plain in these bytes.
fn take_values<L: LeafReader>(
    leaf: &L,
    queue: Queue<L>,
    opened: PagePairs<'_>,
    values: &[u8],
    header: &DataPageHeader,
    is_first: bool,
) -> Result<Queue<L>>
    requires suits { L.suits leaf.now queue.width }
    ensures ok { (w : Way) (before : ℕ) (whole : List (List Triple)) (last : List Triple)
        → IsQueued w before whole last queue → opened.entry.goes_on ≡ first_goes_on opened.entry.pairs
        → IfOk result (λ q. TakesRows (λ text. L.stored leaf.now text 0) queue.chunk_size w before
        (joined whole ++ last) q (typed_view (T.Data header.now)) opened.entry.pairs values.now) }
    ensures err { (w : Way) (before : ℕ) (whole : List (List Triple)) (last : List Triple)
        → IsQueued w before whole last queue → opened.entry.goes_on ≡ first_goes_on opened.entry.pairs
        → IfErr result (λ e. (e ≡ Memory)
        ⊎ RefusesRows (λ text. L.stored leaf.now text 0) L.byte_limit is_first queue.chunk_size w before
        (joined whole ++ last) (typed_view (T.Data header.now)) opened.entry.pairs values.now e) }
    ensures suits { IfOk result (λ q. L.suits leaf.now q.width) }
{
    if opened.goes_on {
        return Err(misplaced(header, is_first));
    }
    let mut pairs = opened.pairs;
    let mut bytes = PlainBytes { values, bit: 0 };
    let before = queue.rows_to_come();
    let queue = match take_pairs(leaf, queue, &mut pairs, &mut bytes) {
        Ok(queue) => queue,
        Err(error) => return Err(error),
    };
    if !states_rows(header, before.saturating_sub(queue.rows_to_come())) {
        return Err(Error::OutOfSpec(S::S9));
    }
    Ok(queue)
}

// The entries at the indices of a page's section, as plain bytes.
fn values_at(
    alloc: Global,
    entries: &Option<Entries>,
    section: &[u8],
    count: usize,
) -> Result<Vec<u8>>
    ensures ok { IfOk result (λ values. (texts : Texts) × (entries.now ≡ Some texts)
        × IsLaid texts (indices_in count section.now) values.items) }
    ensures err { IfErr result (λ e. (e ≡ Memory) ⊎ ((e ≡ OutOfSpec S3) × (entries.now ≡ None))) }
{
    match entries {
        Some(entries) => plain_values(alloc, entries, section, count),
        None => Err(Error::OutOfSpec(S::S3)),
    }
}

// The values of a page of deltas, as plain bytes.
fn turned_values(alloc: Global, deltas: Deltas, page: &OpenPage<'_>) -> Result<Vec<u8>>
    requires { IsSized page.now }
    ensures ok { (items : List Item) → ArePairsIn page.now items
        → IfOk result (λ values. AreTurnedIn deltas page.now items values.items) }
    ensures err { (items : List Item) → ArePairsIn page.now items
        → IfErr result (λ e. (e ≡ Memory) ⊎ AreNotTurned deltas page.now items e) }
{
    match page.present() {
        Ok(count) => plain_deltas(alloc, deltas, page.values, count),
        Err(error) => Err(error),
    }
}

// The values of a page, laid out plain; none where they stand so in its section.
fn laid_values(
    alloc: Global,
    entries: &Option<Entries>,
    deltas: Deltas,
    page: &OpenPage<'_>,
) -> Result<Option<Vec<u8>>>
    requires { IsSized page.now }
    ensures ok { (items : List Item) → ArePairsIn page.now items
        → IfOk result (λ laid. AreLaid (means entries.now deltas) page.now items laid) }
    ensures err { (items : List Item) → ArePairsIn page.now items
        → IfErr result (λ e. (e ≡ Memory) ⊎ AreNotLaid (means entries.now deltas) page.now items e) }
{
    let laid = match page.encoding {
        ValueEncoding::Plain => return Ok(None),
        ValueEncoding::Dictionary => values_at(alloc, entries, page.values, page.count),
        ValueEncoding::Delta | ValueEncoding::DeltaLength => turned_values(alloc, deltas, page),
    };
    match laid {
        Ok(values) => Ok(Some(values)),
        Err(error) => Err(error),
    }
}

/// Takes a data page whole, of a column with these entries, whose deltas are read so.
///
/// # Errors
///
/// Those of `open_page` and `take_pairs`; where the first pair goes on with a row S5 if the page is the column's first or of version 2, and else N8;
/// S3 where its values are indices and there are no entries; of deltas S4 where one of its pairs cannot be read, and S6 where its section does not
/// begin with as many values as its pairs call for; S9 where the header of a page of version 2 states another number of rows.
pub fn take_page<L: LeafReader>(
    alloc: Global,
    leaf: &L,
    queue: Queue<L>,
    page: &DataPageRef<'_>,
    entries: &Option<Entries>,
    deltas: Deltas,
    is_first: bool,
) -> Result<Queue<L>>
    requires suits { L.suits leaf.now queue.width }
    ensures ok { (w : Way) (before : ℕ) (whole : List (List Triple)) (last : List Triple)
        → IsQueued w before whole last queue → IfOk result
        (λ q. TakesAll (λ text. L.stored leaf.now text 0) (means entries.now deltas) queue.chunk_size w before
        (joined whole ++ last) q (raw_page page.now) (levels_in page.now.descriptor)) }
    ensures err { (w : Way) (before : ℕ) (whole : List (List Triple)) (last : List Triple)
        → IsQueued w before whole last queue → IfErr result (λ e. (e ≡ Memory)
        ⊎ RefusesPage (λ text. L.stored leaf.now text 0)
        (means entries.now deltas) L.byte_limit is_first queue.chunk_size w before (joined whole ++ last)
        (raw_page page.now) (levels_in page.now.descriptor) e) }
    ensures suits { IfOk result (λ q. L.suits leaf.now q.width) }
{
    let opened = match open_pairs(page, leaf.stands_in_bytes(), deltas) {
        Ok(opened) => opened,
        Err(error) => return Err(error),
    };
    let section = opened.open.values;
    match laid_values(alloc, entries, deltas, &opened.open) {
        Ok(Some(values)) => take_values(leaf, queue, opened, &values, page.header(), is_first),
        Ok(None) => take_values(leaf, queue, opened, section, page.header(), is_first),
        Err(error) => Err(error),
    }
}
