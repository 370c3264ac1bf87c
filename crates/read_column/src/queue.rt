//! The pieces that are read but not given yet, and the one that is being read.
ghost use Rattle.std.specs.Prelude.{◌≡◌, ◌-◌, ◌<◌, ◌≤◌, [], ◌∷◌, false, nat_le, nat_lt, IfErr, IfOk, MatchOption, length, map};
ghost use Rattle.columns_base.specs.declared.error.Error.TheVariants.{Memory};
ghost use Rattle.pq_headline.specs.Openings.{piece_size};
ghost use Rattle.read_laws.specs.State.{count};
ghost use Rattle.read_walk.specs.Walk.{Refuses};
ghost use Rattle.read_state.specs.Initial.{initial};
ghost use Rattle.read_column.specs.Queues.{begun_queue, closed_queue, ends_in_leaf, rows_to_come, ExtendsLast, IsSuited};

use crate::parts::is_way;
use columns_base::Result;
use read_pieces::{LeafReader, PlainBytes, extend_leaf};
use read_state::{InitNested, NestedState, init_nested};
use read_walk::NestedPage;
use std::alloc::Global;
use std::collections::VecDeque;
use std::marker::Model;

// Room for more pushes is made as they come.
const MOST_ROOM: usize = 65_536;

/// The pieces of a column that are whole, and the last one, to which pairs are added until it has its rows.
#[derive(Drop)]
pub struct Queue<L: LeafReader> {
    alloc: Global,
    parts: Vec<InitNested>,
    chunk_size: Option<usize>,
    whole: VecDeque<(NestedState, L::Values)>,
    nested: NestedState,
    values: L::Values,
    // How many rows the last piece gets, and how many are left for those behind it.
    rows: usize,
    left: usize,
}

impl<L: LeafReader> Model for Queue<L> {
    ghost use Rattle.std.specs.Prelude.{◌≡◌, map, All};
    ghost use Rattle.read_column.specs.Queues.{Waiting, IsSound};
    ghost use Rattle.std.specs.Coded.{codes};
    ghost use Rattle.read_column.specs.SlotCode.{slot_code};

    ghost Value = { Waiting };

    ghost coded = { Prim.hlevel (codes, slot_code) };

    ghost view = { λ q. record {
      parts = q.parts.items;
      chunk_size = q.chunk_size;
      whole = map (λ p. (p.0, L.slots p.1)) q.whole.items;
      state = q.nested;
      leaf = L.slots q.values;
      width = L.width q.values;
      rows = q.rows;
      left = q.left;
    } };

    ghost invariant = { λ q. IsSound q.parts.items q.nested (L.slots q.values) q.rows q.left
        × All (λ p. L.width p.1 ≡ L.width q.values) q.whole.items };
}

// How many of the rows that are left go into the next piece.
fn piece_rows(chunk_size: Option<usize>, left: usize) -> usize
    ensures is { result ≡ piece_size chunk_size left }
    ensures few { result ≤ left }
{
    match chunk_size {
        Some(rows) => rows.min(left),
        None => left,
    }
}

// A state and values of no pair.
fn begin<L: LeafReader>(
    alloc: Global,
    leaf: &L,
    parts: &[InitNested],
    rows: usize,
) -> Result<(NestedState, L::Values)>
    ensures ok { IfOk result (λ p. (p.0 ≡ map initial parts.now) × (L.slots p.1 ≡ [])) }
    ensures suits { IfOk result (λ p. L.suits leaf.now (L.width p.1)) }
    ensures err { IfErr result (λ e. e ≡ Memory) }
{
    let nested = init_nested(alloc, parts, rows.min(MOST_ROOM))?;
    let values = leaf.begin(alloc)?;
    Ok((nested, values))
}

// The same behind values of the same leaf.
fn begin_behind<L: LeafReader>(
    alloc: Global,
    before: &L::Values,
    parts: &[InitNested],
    rows: usize,
) -> Result<(NestedState, L::Values)>
    ensures ok { IfOk result (λ p. (p.0 ≡ map initial parts.now) × (L.slots p.1 ≡ [])) }
    ensures width { IfOk result (λ p. L.width p.1 ≡ L.width before.now) }
    ensures err { IfErr result (λ e. e ≡ Memory) }
{
    let nested = init_nested(alloc, parts, rows.min(MOST_ROOM))?;
    let values = L::begin_like(before, alloc)?;
    Ok((nested, values))
}

impl<L: LeafReader> Queue<L> {
    /// No piece yet of so many rows; none at all where the parts are no way to a leaf.
    pub fn new(
        alloc: Global,
        leaf: &L,
        parts: Vec<InitNested>,
        chunk_size: Option<usize>,
        num_rows: usize,
    ) -> Result<Option<Self>>
        ensures ok { IfOk result (λ o. MatchOption o (ends_in_leaf parts.items ≡ false) (λ q. q
            ≡ begun_queue q.width parts.items chunk_size num_rows)) }
        ensures suits { IfOk result (λ o. IsSuited (L.suits leaf.now) o) }
        ensures err { IfErr result (λ e. e ≡ Memory) }
    {
        if !is_way(&parts) {
            return Ok(None);
        }
        let rows = piece_rows(chunk_size, num_rows);
        let (nested, values) = begin(alloc, leaf, &parts, rows)?;
        Ok(Some(Queue {
            alloc,
            parts,
            chunk_size,
            whole: VecDeque::new(alloc),
            nested,
            values,
            rows,
            left: num_rows - rows,
        }))
    }

    /// Whether a piece is whole.
    pub fn has_whole(&self) -> bool
        ensures { result ≡ nat_lt 0 (length self.now.whole) }
    {
        !self.whole.is_empty()
    }

    /// Whether rows go into the last piece.
    pub fn is_wanting(&self) -> bool
        ensures { result ≡ nat_lt 0 self.now.rows }
    {
        0 < self.rows
    }

    /// How many rows are still to come.
    pub fn rows_to_come(&self) -> usize
        ensures { result ≡ rows_to_come self.now }
    {
        (self.rows - self.nested.len()) + self.left
    }

    /// Whether the last piece has its rows.
    pub fn is_full(&self) -> bool
        ensures { result ≡ nat_le self.now.rows (count self.now.state) }
    {
        self.rows <= self.nested.len()
    }

    /// Adds pairs of the page to the last piece, until it has its rows or the page ends.
    ///
    /// # Errors
    ///
    /// Those of the leaf's `extend`.
    pub fn extend<'a, 'b>(
        self,
        leaf: &L,
        page: &mut NestedPage<'a>,
        bytes: &mut PlainBytes<'b>,
    ) -> Result<Self>
        requires suits { L.suits leaf.now self.width }
        ensures ok { IfOk result (λ q. ExtendsLast self q page.old page.new
            (L.stored leaf.now bytes.old.values.now bytes.old.bit)
            (L.stored leaf.now bytes.new.values.now bytes.new.bit)) }
        ensures err { IfErr result (Refuses L.byte_limit (self.rows - count self.state) page.old
            (L.stored leaf.now bytes.old.values.now bytes.old.bit) self.state self.leaf) }
    {
        let Queue {
            alloc,
            parts,
            chunk_size,
            whole,
            mut nested,
            mut values,
            rows,
            left,
        } = self;
        let wanted = rows - nested.len();
        match extend_leaf(leaf, page, bytes, &mut nested, &mut values, wanted) {
            Ok(()) => Ok(Queue {
                alloc,
                parts,
                chunk_size,
                whole,
                nested,
                values,
                rows,
                left,
            }),
            Err(error) => Err(error),
        }
    }

    /// Takes the last piece as whole, and begins the one behind it.
    ///
    /// # Errors
    ///
    /// `Memory`.
    pub fn close(self) -> Result<Self>
        ensures ok { IfOk result (λ q. q ≡ closed_queue self) }
        ensures err { IfErr result (λ e. e ≡ Memory) }
    {
        let Queue {
            alloc,
            parts,
            chunk_size,
            mut whole,
            nested,
            values,
            rows: _,
            left,
        } = self;
        let rows = piece_rows(chunk_size, left);
        let next = begin_behind::<L>(alloc, &values, &parts, rows)?;
        whole.push_back((nested, values))?;
        Ok(Queue {
            alloc,
            parts,
            chunk_size,
            whole,
            nested: next.0,
            values: next.1,
            rows,
            left: left - rows,
        })
    }

    /// The first whole piece.
    pub fn pop(&mut self) -> Option<(NestedState, L::Values)>
        ensures { MatchOption result ((self.old.whole ≡ []) × (self.new ≡ self.old))
            (λ p. (self.old ≡ record self.new { whole = (p.0, L.slots p.1) ∷ self.new.whole })
            × (L.width p.1 ≡ self.old.width)) }
    {
        self.whole.pop_front()
    }
}
