//! The reader of a column.
ghost use Rattle.std.specs.Prelude.{◌≡◌, ◌⊎◌, ◌<◌, [], length, is_some, IfErr, IfOk, OnOk, IsTrue, List, ℕ, Some, None, true, false};
ghost use Rattle.columns_base.specs.declared.error.Error.TheVariants.{Memory, OutOfSpec};
ghost use Rattle.columns_base.specs.declared.error.S.TheVariants.{S3, S9};
ghost use Rattle.shredding.specs.Along.{thin};
ghost use Rattle.shredding.specs.Shred.{Triple};
ghost use Rattle.read_pieces.specs.Columns.{ColumnOpening, GivesPiece, IsReadable, RefusesPiece};
ghost use Rattle.read_pieces.specs.Pieces.{IsPiece};
ghost use Rattle.read_state.specs.Initial.{IsWay};
ghost use Rattle.pq_tree.specs.Views.{physical_view};
ghost use Rattle.read_walk.specs.Values.{Stored};
ghost use Rattle.read_column.specs.Dictionary.{CannotHold, HoldsEntries, Texts, means};
ghost use Rattle.pq_pages.specs.Outcomes.{Outcome};
ghost use Rattle.read_column.specs.Foreseen.{FollowsGiven, GivesForeseen, SourceFails, foreseeing, foreseen};
ghost use Rattle.read_column.specs.Queues.{GivesSuited, IsSuited};
ghost use Rattle.read_column.specs.Reading.{IsFilled, IsReading, Steps, reading};

use crate::deltas::{Deltas, deltas_of};
use crate::entries::{Entries, read_entries};
use crate::parts::is_flat;
use crate::queue::Queue;
use crate::take::take_page;
use columns_base::{Error, PhysicalType, Result, S};
use pq_pages::{DictPageRef, PageRef, Pages};
use read_items::items_are_counted;
use read_pieces::LeafReader;
use read_state::{InitNested, NestedState};
use std::alloc::Global;
use std::marker::Model;

/// Reads one column of a row group in pieces of whole rows, from any source of its pages: PLAIN, by a dictionary, or, in a flat column of numbers or
/// byte strings, of deltas; of version 1 or 2.
///
/// After an error it gives nothing more.
#[derive(Drop)]
pub struct ColumnReader<I: Pages, L: LeafReader> {
    alloc: Global,
    pages: I,
    // Of its dictionary page, once that was taken.
    entries: Option<Entries>,
    deltas: Deltas,
    queue: Option<Queue<L>>,
    // Whether a data page was taken.
    began: bool,
}

impl<I: Pages, L: LeafReader> Model for ColumnReader<I, L> {
    ghost use Rattle.std.specs.Coded.{codes};
    ghost use Rattle.read_column.specs.SlotCode.{slot_code};
    ghost use Rattle.read_column.specs.Dictionary.{means};
    ghost use Rattle.read_column.specs.Reading.{Reading};

    ghost Value = { Reading };

    ghost coded = { Prim.hlevel (codes, slot_code) };

    ghost view = { λ r. record {
      outcomes = I.outcomes r.pages;
      means = means r.entries r.deltas;
      queue = r.queue;
      began = r.began;
    } };
}

// Nothing is left; no row may be wanting then.
fn end<L: LeafReader>(queue: Queue<L>) -> Result<(Queue<L>, bool)>
    ensures ok { IfOk result (λ x. (x.0 ≡ queue) × (x.1 ≡ false) × (queue.rows ≡ 0)) }
    ensures err { IfErr result (λ e. (e ≡ OutOfSpec S9) × (0 < queue.rows)) }
{
    if queue.is_wanting() {
        return Err(Error::OutOfSpec(S::S9));
    }
    Ok((queue, false))
}

// Takes the entries of a dictionary page, before which no page may stand.
fn take_entries<L: LeafReader>(
    alloc: Global,
    leaf: &L,
    page: &DictPageRef<'_>,
    entries: &mut Option<Entries>,
    began: bool,
) -> Result<()>
    ensures ok { OnOk result ((began ≡ false) × (entries.old ≡ None) × (texts : Texts) × (entries.new ≡ Some texts)
        × HoldsEntries (λ text. L.stored leaf.now text 0) page.now.num_values page.now.buffer.now texts) }
    ensures err { IfErr result (λ e. (e ≡ Memory) ⊎ ((e ≡ OutOfSpec S3)
        × ((began ≡ true) ⊎ IsTrue (is_some entries.old)))
        ⊎ ((began ≡ false) × (entries.old ≡ None)
        × CannotHold (λ text. L.stored leaf.now text 0) page.now.num_values page.now.buffer.now e)) }
{
    if began {
        return Err(Error::OutOfSpec(S::S3));
    }
    if entries.is_some() {
        return Err(Error::OutOfSpec(S::S3));
    }
    match read_entries(alloc, leaf, page.buffer, page.num_values) {
        Ok(read) => {
            *entries = Some(read);
            Ok(())
        }
        Err(error) => Err(error),
    }
}

// Takes the next page whole. Answers whether there was one.
fn take_next<I: Pages, L: LeafReader>(
    alloc: Global,
    leaf: &L,
    pages: &mut I,
    entries: &mut Option<Entries>,
    deltas: Deltas,
    began: &mut bool,
    queue: Queue<L>,
) -> Result<(Queue<L>, bool)>
    requires suits { L.suits leaf.now queue.width }
    ensures ok { (o : ColumnOpening) (pieces : List (List Triple)) (others : List Outcome)
        → IsReading (λ text. L.stored leaf.now text 0) L.byte_limit o pieces
        (reading (foreseen (I.outcomes pages.old) others) (means entries.old deltas) queue began.old)
        → IfOk result (λ x. Steps (λ text. L.stored leaf.now text 0) L.byte_limit o pieces x.1 x.0
        (foreseen (I.outcomes pages.new) others) (means entries.new deltas) began.new) }
    ensures less { IfOk result (λ x. IsTrue x.1 → length (I.outcomes pages.new) < length (I.outcomes pages.old)) }
    ensures behind { IfOk result (λ x. FollowsGiven (I.outcomes pages.old) (I.outcomes pages.new)) }
    ensures err { (o : ColumnOpening) (pieces : List (List Triple)) (others : List Outcome)
        → IsReading (λ text. L.stored leaf.now text 0) L.byte_limit o pieces
        (reading (foreseen (I.outcomes pages.old) others) (means entries.old deltas) queue began.old)
        → IfErr result (λ e. SourceFails e (I.outcomes pages.old) ⊎ RefusesPiece o e) }
    ensures suits { IfOk result (λ x. L.suits leaf.now x.0.width) }
{
    items_are_counted();
    match pages.advance_shown() {
        Ok(()) => {}
        Err(error) => return Err(error),
    }
    match pages.show() {
        None => end(queue),
        Some(PageRef::Dict(page)) => match take_entries(alloc, leaf, &page, entries, *began) {
            Ok(()) => Ok((queue, true)),
            Err(error) => Err(error),
        },
        Some(PageRef::Data(page)) => match take_page(
            alloc, leaf, queue, &page, entries, deltas, !*began,
        ) {
            Ok(queue) => {
                *began = true;
                Ok((queue, true))
            }
            Err(error) => Err(error),
        },
    }
}

// Takes pages until a piece is whole, or they end.
fn fill<I: Pages, L: LeafReader>(
    alloc: Global,
    leaf: &L,
    pages: &mut I,
    entries: &mut Option<Entries>,
    deltas: Deltas,
    began: &mut bool,
    queue: Queue<L>,
) -> Result<Queue<L>>
    requires suits { L.suits leaf.now queue.width }
    ensures ok { (o : ColumnOpening) (pieces : List (List Triple)) (others : List Outcome)
        → IsReading (λ text. L.stored leaf.now text 0) L.byte_limit o pieces
        (reading (foreseen (I.outcomes pages.old) others) (means entries.old deltas) queue began.old)
        → IfOk result (λ q. IsFilled (λ text. L.stored leaf.now text 0) L.byte_limit o pieces q
        (foreseen (I.outcomes pages.new) others) (means entries.new deltas) began.new) }
    ensures behind { IfOk result (λ q. FollowsGiven (I.outcomes pages.old) (I.outcomes pages.new)) }
    ensures err { (o : ColumnOpening) (pieces : List (List Triple)) (others : List Outcome)
        → IsReading (λ text. L.stored leaf.now text 0) L.byte_limit o pieces
        (reading (foreseen (I.outcomes pages.old) others) (means entries.old deltas) queue began.old)
        → IfErr result (λ e. SourceFails e (I.outcomes pages.old) ⊎ RefusesPiece o e) }
    ensures suits { IfOk result (λ q. L.suits leaf.now q.width) }
{
    let mut queue = queue;
    'pages: while !queue.has_whole() {
        let (next, is_taken) = match take_next(alloc, leaf, pages, entries, deltas, began, queue) {
            Ok(step) => step,
            Err(error) => return Err(error),
        };
        if !is_taken {
            return Ok(next);
        }
        queue = next;
    }
    Ok(queue)
}

impl<I: Pages, L: LeafReader> ColumnReader<I, L> {
    /// The reader of a column of this leaf and physical type whose pages the source gives, of so many rows, along the parts of the way to its leaf; with a
    /// chunk size each piece has as many rows, or as are left. Parts that are no way to a leaf have no piece.
    ///
    /// # Errors
    ///
    /// `Memory`.
    pub fn new(
        alloc: Global,
        leaf: &L,
        pages: I,
        physical_type: PhysicalType,
        nested: Vec<InitNested>,
        chunk_size: Option<usize>,
        num_rows: usize,
    ) -> Result<Self>
        ensures ok { (o : ColumnOpening) (stored : List ℕ → List Stored) (limit : ℕ) → IsReadable o stored limit
            → o.leaf.physical ≡ physical_view physical_type → o.outcomes ≡ I.outcomes pages
            → IsWay nested.items (thin o.column.way) → o.rows ≡ num_rows → o.chunk_size ≡ chunk_size
            → IfOk result (λ r. IsReading stored limit o [] r) }
        ensures foreseen { (o : ColumnOpening) (stored : List ℕ → List Stored) (limit : ℕ) (others : List Outcome)
            → IsReadable o stored limit → o.leaf.physical ≡ physical_view physical_type
            → o.outcomes ≡ foreseen (I.outcomes pages) others → IsWay nested.items (thin o.column.way)
            → o.rows ≡ num_rows → o.chunk_size ≡ chunk_size → IfOk result
            (λ r. IsReading stored limit o [] (foreseeing others r)) }
        ensures suits { IfOk result (λ r. IsSuited (L.suits leaf.now) r.queue) }
        ensures err { IfErr result (λ e. e ≡ Memory) }
    {
        let deltas = deltas_of(physical_type, is_flat(&nested));
        let queue = Queue::new(alloc, leaf, nested, chunk_size, num_rows)?;
        Ok(ColumnReader {
            alloc,
            pages,
            entries: None,
            deltas,
            queue,
            began: false,
        })
    }

    /// The next piece, whose values the leaf's reader reads: of exactly as many rows as go into a piece, or as are left. None once all rows were given and the pages have ended; after an
    /// error nothing is said of further calls.
    ///
    /// # Errors
    ///
    /// S3 or N4 of the source; S3 for a dictionary page behind another page, or indices without one; N4 for a page in an encoding that its physical
    /// type has not, or of deltas in a column that is not flat; S5 or N8 where a page's first pair goes on with a row; S4, S6, S7 and S10 where a
    /// page's levels or values, or a dictionary's entries, used or not, are not those of rows; S9 where the pages have more or fewer rows than the group, or one
    /// of version 2 than its header states; V1 where a piece passes the offsets of its array; `Memory`.
    pub fn next_piece(&mut self, leaf: &L) -> Option<Result<(NestedState, L::Values)>>
        requires suits { IsSuited (L.suits leaf.now) self.old.queue }
        ensures gives { (o : ColumnOpening) (pieces : List (List Triple))
            → IsReading (λ text. L.stored leaf.now text 0) L.byte_limit o pieces self.old
            → GivesPiece (IsReading (λ text. L.stored leaf.now text 0) L.byte_limit)
            (λ v ts. IsPiece o.column.way ts v.0 (L.slots v.1)) o pieces result self.new }
        ensures foreseen { (o : ColumnOpening) (pieces : List (List Triple)) (others : List Outcome)
            → IsReading (λ text. L.stored leaf.now text 0) L.byte_limit o pieces (foreseeing others self.old)
            → GivesForeseen (λ o ps r. IsReading (λ text. L.stored leaf.now text 0) L.byte_limit o ps
            (foreseeing others r)) (λ v ts. IsPiece o.column.way ts v.0
            (L.slots v.1)) o pieces self.old.outcomes result self.new }
        ensures suits { IsSuited (L.suits leaf.now) self.new.queue }
        ensures suited { GivesSuited (λ v. L.suits leaf.now (L.width v)) result }
    {
        let Some(queue) = self.queue.take() else {
            return None;
        };
        let mut queue = match fill(
            self.alloc,
            leaf,
            &mut self.pages,
            &mut self.entries,
            self.deltas,
            &mut self.began,
            queue,
        ) {
            Ok(queue) => queue,
            Err(error) => return Some(Err(error)),
        };
        match queue.pop() {
            Some(piece) => {
                self.queue = Some(queue);
                Some(Ok(piece))
            }
            None => {
                self.queue = Some(queue);
                None
            }
        }
    }
}
