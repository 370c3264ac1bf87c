//! The entries of a dictionary page.
ghost use Rattle.std.specs.Prelude.{◌≡◌, ◌⊎◌, ◌*◌, ◌<◌, ◌≤◌, ℕ, [], true, Some, IfErr, IfOk, IsTrue, MatchOption, drop, length, map, slice_get, take, All};
ghost use Rattle.shredding.specs.Slot.{Value};
ghost use Rattle.columns_base.specs.declared.error.Error.TheVariants.{Memory, OutOfSpec};
ghost use Rattle.columns_base.specs.declared.error.S.TheVariants.{S6, S7};
ghost use Rattle.read_pieces.specs.Leaves.{BeginsOutside, IsValue, in_bytes};
ghost use Rattle.read_column.specs.Dictionary.{CannotHold, HoldsEntries, IsPlaceIn, text_at};
ghost use Rattle.read_column.specs.Entries.{AreInRow, ArePlaces};
ghost use Rattle.read_column.specs.Lookups.{AreLaidAs};

use crate::lookup::{put_even, put_short};
use columns_base::{Error, Result, S};
use read_pieces::LeafReader;
use std::alloc::Global;
use std::marker::Model;

/// Where an entry stands in the body of its page, in bytes from the front on.
#[derive(Debug, Drop)]
pub struct Place {
    pub start: usize,
    pub end: usize,
}

/// The entries of a dictionary page: a copy of its body with 32 zeros behind it, where each entry stands in it, and how many bytes each has, where all
/// have four or eight, one behind the other from the front on; else 0. Seen by contracts as the bytes of each.
#[derive(Drop)]
pub struct Entries {
    body: Vec<u8>,
    places: Vec<Place>,
    size: usize,
}

impl Model for Entries {
    ghost use Rattle.std.specs.Prelude.{◌<◌, length, map, All};
    ghost use Rattle.read_column.specs.Dictionary.{Texts, text_at};
    ghost use Rattle.read_column.specs.Entries.{AreEven, IsPadded};

    ghost Value = { Texts };

    ghost view = { λ e. map (text_at e.body.items) e.places.items };

    ghost invariant = { λ e. All (IsPadded (length e.body.items)) e.places.items
        × (0 < e.size → AreEven e.size e.body.items (map (text_at e.body.items) e.places.items)) };
}

// The bytes at a place.
fn text_of<'a>(body: &'a [u8], place: &Place) -> &'a [u8]
    requires { IsPlaceIn (length body.now) place.now }
    ensures { result.now ≡ text_at body.now place.now }
{
    &body[place.start..place.end]
}

impl Entries {
    /// The bytes of the entry at this index, if there is one.
    pub fn get(&self, index: usize) -> Option<&[u8]>
        ensures { MatchOption result (length self.now ≤ index) (λ text. slice_get self.now index ≡ Some text.now) }
    {
        if self.places.len() <= index {
            return None;
        }
        Some(text_of(&self.body, &self.places[index]))
    }

    /// Makes room for so many entries of middling size, if there is memory, but for no more than 256 bytes for each byte of their indices.
    pub fn expect_room(&self, values: &mut Vec<u8>, count: usize, there: usize)
        ensures { values.new.items ≡ values.old.items }
    {
        let size = self.body.len() / self.places.len().max(1);
        let wanted = count.saturating_mul(size);
        let _room = values.reserve(
            wanted
                .saturating_add(wanted / 16)
                .min(there.saturating_mul(256)),
        );
    }

    /// Puts the entries at the first indices one behind the other, as `put_short` does.
    pub fn put_short(
        &self,
        out: &mut [u8; 1024],
        indices: &[u64; 32],
        count: usize,
    ) -> (usize, usize)
        requires few { count ≤ 32 }
        ensures few { result.0 ≤ count }
        ensures fits { result.1 ≤ 1024 }
        ensures laid { AreLaidAs self.now (take result.0 indices.now) (take result.1 out.new) }
    {
        match self.size {
            4 => put_even::<4>(out, &self.body, &self.places, indices, count),
            8 => put_even::<8>(out, &self.body, &self.places, indices, count),
            _ => put_short(out, &self.body, &self.places, indices, count),
        }
    }
}

// Where the value stands that begins here.
fn next_place<L: LeafReader>(leaf: &L, body: &[u8], start: usize) -> Result<Place>
    requires own { in_bytes (λ text. L.stored leaf.now text 0) ≡ true }
    requires within { start ≤ length body.now }
    ensures ok { IfOk result (λ p. (p.start ≡ start) × IsPlaceIn (length body.now) p × (v : Value)
        × IsValue (λ text. L.stored leaf.now text 0) (text_at body.now p) v) }
    ensures err { IfErr result (λ e. ((e ≡ OutOfSpec S6) × (L.stored leaf.now (drop start body.now) 0 ≡ []))
        ⊎ ((e ≡ OutOfSpec S7) × BeginsOutside (λ text. L.stored leaf.now text 0) (drop start body.now))) }
{
    match leaf.value_size(&body[start..]) {
        Ok(size) => Ok(Place {
            start,
            end: start + size,
        }),
        Err(error) => Err(error),
    }
}

// Where so many values stand, one behind the other.
fn places_of<L: LeafReader>(
    alloc: Global,
    leaf: &L,
    body: &[u8],
    count: usize,
) -> Result<Vec<Place>>
    requires { in_bytes (λ text. L.stored leaf.now text 0) ≡ true }
    ensures ok { IfOk result (λ places. ArePlaces (λ text. L.stored leaf.now text 0) body.now places.items count) }
    ensures err { IfErr result (λ e. (e ≡ Memory) ⊎ CannotHold (λ text. L.stored leaf.now text 0) count body.now e) }
{
    let mut places = Vec::new(alloc);
    let mut end = 0;
    'values: while places.len() < count {
        let place = match next_place(leaf, body, end) {
            Ok(place) => place,
            Err(error) => return Err(error),
        };
        end = place.end;
        places.push(place)?;
    }
    Ok(places)
}

// Entries whose places are not looked for: eight of them stand in a byte.
fn count_bits(alloc: Global, body: &[u8], count: usize) -> Result<Entries>
    ensures ok { IfOk result (λ _. count ≤ 8 * length body.now) }
    ensures err { IfErr result (λ e. (e ≡ OutOfSpec S6) × (8 * length body.now < count)) }
{
    if 8 * (body.len() as u128) < count as u128 {
        return Err(Error::OutOfSpec(S::S6));
    }
    Ok(Entries {
        body: Vec::new(alloc),
        places: Vec::new(alloc),
        size: 0,
    })
}

// Whether all entries have so many bytes, one behind the other from the front on.
fn are_even(places: &[Place], size: usize) -> bool
    ensures { IsTrue result → AreInRow size 0 places.now }
{
    let mut rest = places;
    let mut start = 0;
    while let [place, others @ ..] = rest {
        if place.start != start {
            return false;
        }
        if place.end < start {
            return false;
        }
        if place.end - start != size {
            return false;
        }
        start = place.end;
        rest = others;
    }
    true
}

// How many bytes each entry has, where these are four or eight, and they stand one behind the other from the front on; else 0.
fn even_size(places: &[Place]) -> usize
    ensures { 0 < result → AreInRow result 0 places.now }
{
    if are_even(places, 4) {
        return 4;
    }
    if are_even(places, 8) {
        return 8;
    }
    0
}

// Entries at these places of the body.
fn entries_at(alloc: Global, body: &[u8], places: Vec<Place>) -> Result<Entries>
    requires { All (IsPlaceIn (length body.now)) places.items }
    ensures ok { IfOk result (λ texts. texts ≡ map (text_at body.now) places.items) }
    ensures err { IfErr result (λ e. e ≡ Memory) }
{
    let mut copy = Vec::new(alloc);
    copy.extend_from_slice(body)?;
    copy.extend_from_slice(&[0; 32])?;
    let size = even_size(&places);
    Ok(Entries {
        body: copy,
        places,
        size,
    })
}

/// So many entries at the front of the body, plain, each of which is looked at.
///
/// # Errors
///
/// S6 where the body is cut, S7 where an entry is no value of the leaf's type, used or not; `Memory`.
pub fn read_entries<L: LeafReader>(
    alloc: Global,
    leaf: &L,
    body: &[u8],
    count: usize,
) -> Result<Entries>
    ensures ok { IfOk result (λ texts. HoldsEntries (λ text. L.stored leaf.now text 0) count body.now texts) }
    ensures err { IfErr result (λ e. (e ≡ Memory) ⊎ CannotHold (λ text. L.stored leaf.now text 0) count body.now e) }
{
    if !leaf.stands_in_bytes() {
        return count_bits(alloc, body, count);
    }
    let places = match places_of(alloc, leaf, body, count) {
        Ok(places) => places,
        Err(error) => return Err(error),
    };
    entries_at(alloc, body, places)
}
