//! The places of the least and of the greatest value so far.
ghost use Rattle.std.specs.Prelude.{◌≡◌, ◌+◌, ◌-◌, ◌^◌, ◌<◌, ◌≤◌, ◌++◌, ◌∷◌, [], ℕ, List, Some, IsTrue};
ghost use Rattle.write_places.specs.Places.{range, picked};
ghost use Rattle.page_statistics.specs.Extremes.{AreBetween, AreExtremes, AreWithin, IsGreatestAt, IsLeastAt};

use crate::order::{OrderedLeaf, SearchedLeaf};

/// The places of a least and of a greatest value.
#[derive(Clone, Copy, Drop)]
pub struct Extremes {
    /// That of the least.
    pub least: usize,
    /// That of the greatest.
    pub greatest: usize,
}

// How many values were seen, and where the extremes are, if there was one.
#[derive(Clone, Copy, Drop)]
pub struct Seen {
    pub values: usize,
    pub extremes: Option<Extremes>,
}

// The place of the lesser of two values, the first where they are equal.
fn lesser<L: OrderedLeaf>(leaf: &L, least: usize, place: usize) -> usize
    requires least { least < L.count leaf.now }
    requires place { place < L.count leaf.now }
    ensures within { result < L.count leaf.now }
    ensures is { (places : List ℕ) → IsLeastAt (L.value leaf.now) places least
        → IsLeastAt (L.value leaf.now) (places ++ place ∷ []) result }
{
    if leaf.is_less(place, least) {
        place
    } else {
        least
    }
}

// The place of the greater of two values, the first where they are equal.
fn greater<L: OrderedLeaf>(leaf: &L, greatest: usize, place: usize) -> usize
    requires greatest { greatest < L.count leaf.now }
    requires place { place < L.count leaf.now }
    ensures within { result < L.count leaf.now }
    ensures is { (places : List ℕ) → IsGreatestAt (L.value leaf.now) places greatest
        → IsGreatestAt (L.value leaf.now) (places ++ place ∷ []) result }
{
    if leaf.is_less(greatest, place) {
        place
    } else {
        greatest
    }
}

// The extremes with one more place.
fn with_place<L: OrderedLeaf>(leaf: &L, extremes: Extremes, place: usize) -> Extremes
    requires before { AreWithin (L.count leaf.now) (Some extremes) }
    requires place { place < L.count leaf.now }
    ensures within { AreWithin (L.count leaf.now) (Some result) }
    ensures are { (places : List ℕ) → AreExtremes (L.value leaf.now) places (Some extremes)
        → AreExtremes (L.value leaf.now) (places ++ place ∷ []) (Some result) }
{
    Extremes {
        least: lesser(leaf, extremes.least, place),
        greatest: greater(leaf, extremes.greatest, place),
    }
}

// Whether no value from one place on to another is past the extremes. It may answer no.
fn are_between<L: OrderedLeaf>(leaf: &L, extremes: Extremes, from: usize, to: usize) -> bool
    requires before { AreWithin (L.count leaf.now) (Some extremes) }
    requires ordered { from ≤ to }
    requires within { to ≤ L.count leaf.now }
    ensures { IsTrue result → AreBetween (L.value leaf.now) (Some extremes) from to }
{
    leaf.are_between(from, to, extremes.least, extremes.greatest)
}

// The extremes with the places from one on to another, one by one.
fn with_each<L: OrderedLeaf>(leaf: &L, extremes: Extremes, from: usize, to: usize) -> Extremes
    requires before { AreWithin (L.count leaf.now) (Some extremes) }
    requires ordered { from ≤ to }
    requires within { to ≤ L.count leaf.now }
    ensures within { AreWithin (L.count leaf.now) (Some result) }
    ensures are { (places : List ℕ) → AreExtremes (L.value leaf.now) places (Some extremes)
        → AreExtremes (L.value leaf.now) (places ++ range from (to - from)) (Some result) }
{
    let mut now = extremes;
    for place in from..to {
        now = with_place(leaf, now, place);
    }
    now
}

// The extremes with the first and the last place of a block.
fn with_ends<L: OrderedLeaf>(leaf: &L, extremes: Extremes, from: usize, to: usize) -> Extremes
    requires before { AreWithin (L.count leaf.now) (Some extremes) }
    requires some { from < to }
    requires within { to ≤ L.count leaf.now }
    ensures within { AreWithin (L.count leaf.now) (Some result) }
    ensures are { (places : List ℕ) → AreExtremes (L.value leaf.now) places (Some extremes)
        → AreExtremes (L.value leaf.now) ((places ++ from ∷ []) ++ (to - 1) ∷ []) (Some result) }
{
    let first = with_place(leaf, extremes, from);
    with_place(leaf, first, to - 1)
}

// The extremes with a piece, one by one where any value in it is past those before.
fn with_piece<L: OrderedLeaf>(leaf: &L, extremes: Extremes, from: usize, to: usize) -> Extremes
    requires before { AreWithin (L.count leaf.now) (Some extremes) }
    requires ordered { from ≤ to }
    requires within { to ≤ L.count leaf.now }
    ensures within { AreWithin (L.count leaf.now) (Some result) }
    ensures are { (places : List ℕ) → AreExtremes (L.value leaf.now) places (Some extremes)
        → AreExtremes (L.value leaf.now) (places ++ range from (to - from)) (Some result) }
{
    if are_between(leaf, extremes, from, to) {
        return extremes;
    }
    with_each(leaf, extremes, from, to)
}

// Where a piece of at most so many places ends.
fn piece_end(from: usize, to: usize, most: usize) -> usize
    requires some { from < to }
    requires size { 0 < most }
    ensures past { from < result }
    ensures within { result ≤ to }
{
    if to - from < most { to } else { from + most }
}

// The same as one by one, by pieces: most of them have no value past the extremes.
fn with_pieces<L: OrderedLeaf>(leaf: &L, extremes: Extremes, from: usize, to: usize) -> Extremes
    requires before { AreWithin (L.count leaf.now) (Some extremes) }
    requires ordered { from ≤ to }
    requires within { to ≤ L.count leaf.now }
    ensures within { AreWithin (L.count leaf.now) (Some result) }
    ensures are { (places : List ℕ) → AreExtremes (L.value leaf.now) places (Some extremes)
        → AreExtremes (L.value leaf.now) (places ++ range from (to - from)) (Some result) }
{
    let mut now = extremes;
    let mut at = from;
    while at < to {
        let end = piece_end(at, to, 16);
        now = with_piece(leaf, now, at, end);
        at = end;
    }
    now
}

// The extremes with a block, and whether no value in it is past those with both its ends, as in numbers that rise or fall.
fn with_block<L: OrderedLeaf>(
    leaf: &L,
    extremes: Extremes,
    from: usize,
    to: usize,
) -> (Extremes, bool)
    requires before { AreWithin (L.count leaf.now) (Some extremes) }
    requires some { from < to }
    requires within { to ≤ L.count leaf.now }
    ensures within { AreWithin (L.count leaf.now) (Some result.0) }
    ensures are { (places : List ℕ) → AreExtremes (L.value leaf.now) places (Some extremes)
        → AreExtremes (L.value leaf.now) (places ++ range from (to - from)) (Some result.0) }
{
    let ends = with_ends(leaf, extremes, from, to);
    if are_between(leaf, ends, from, to) {
        return (ends, true);
    }
    (with_pieces(leaf, ends, from, to), false)
}

// How many places the next block has: more behind one that was taken at once.
fn next_size(size: usize, at_once: bool) -> usize
    ensures { 0 < result }
{
    if !at_once || size == 0 {
        return 64;
    }
    if size < 512 { 2 * size } else { 512 }
}

// The extremes with the places from one on to another, block by block.
pub fn search_stretch<L: OrderedLeaf>(
    leaf: &L,
    extremes: Extremes,
    from: usize,
    to: usize,
) -> Extremes
    requires before { AreWithin (L.count leaf.now) (Some extremes) }
    requires ordered { from ≤ to }
    requires within { to ≤ L.count leaf.now }
    ensures within { AreWithin (L.count leaf.now) (Some result) }
    ensures are { (places : List ℕ) → AreExtremes (L.value leaf.now) places (Some extremes)
        → AreExtremes (L.value leaf.now) (places ++ range from (to - from)) (Some result) }
{
    let mut now = extremes;
    let mut at = from;
    let mut size = 64;
    while at < to {
        let end = piece_end(at, to, size);
        let (next, at_once) = with_block(leaf, now, at, end);
        now = next;
        size = next_size(size, at_once);
        at = end;
    }
    now
}

// Whether no value at so many places from one on is past the extremes, be they picked or not. It may answer no, and does so at once where the first
// value that is not picked is past them.
fn are_calm<L: OrderedLeaf>(
    leaf: &L,
    extremes: Extremes,
    from: usize,
    bits: u64,
    count: usize,
) -> bool
    requires before { AreWithin (L.count leaf.now) (Some extremes) }
    requires within { from + count ≤ L.count leaf.now }
    ensures { IsTrue result → AreBetween (L.value leaf.now) (Some extremes) from (from + count) }
{
    let _places = leaf.len();
    let gap = bits.trailing_ones() as usize;
    if gap < count && !are_between(leaf, extremes, from + gap, from + gap + 1) {
        return false;
    }
    are_between(leaf, extremes, from, from + count)
}

// The extremes with those of so many places from one on whose bits in the word are set.
pub fn search_some<L: OrderedLeaf>(
    leaf: &L,
    extremes: Extremes,
    from: usize,
    bits: u64,
    count: usize,
) -> Extremes
    requires before { AreWithin (L.count leaf.now) (Some extremes) }
    requires few { count ≤ 64 }
    requires low { bits < 2 ^ count }
    requires within { from + count ≤ L.count leaf.now }
    ensures within { AreWithin (L.count leaf.now) (Some result) }
    ensures are { (places : List ℕ) → AreExtremes (L.value leaf.now) places (Some extremes)
        → AreExtremes (L.value leaf.now) (places ++ picked bits from count) (Some result) }
{
    let _places = leaf.len();
    if are_calm(leaf, extremes, from, bits, count) {
        return extremes;
    }
    let mut left = bits;
    let mut now = extremes;
    while left != 0 {
        let i = left.trailing_zeros() as usize;
        now = with_place(leaf, now, from + i);
        left ^= 1 << i;
    }
    now
}

// The extremes with the places from one on to another, be there extremes before or not.
pub fn with_stretch<L: SearchedLeaf>(
    leaf: &L,
    extremes: Option<Extremes>,
    from: usize,
    to: usize,
) -> Extremes
    requires before { AreWithin (L.count leaf.now) extremes }
    requires some { from < to }
    requires within { to ≤ L.count leaf.now }
    ensures within { AreWithin (L.count leaf.now) (Some result) }
    ensures are { (places : List ℕ) → AreExtremes (L.value leaf.now) places extremes
        → AreExtremes (L.value leaf.now) (places ++ range from (to - from)) (Some result) }
{
    match extremes {
        Some(extremes) => leaf.with_stretch(extremes, from, to),
        None => {
            let first = Extremes {
                least: from,
                greatest: from,
            };
            leaf.with_stretch(first, from + 1, to)
        }
    }
}

// The same with those of so many places from one on whose bits in the word are set.
pub fn with_some<L: SearchedLeaf>(
    leaf: &L,
    extremes: Option<Extremes>,
    from: usize,
    bits: u64,
    count: usize,
) -> Option<Extremes>
    requires before { AreWithin (L.count leaf.now) extremes }
    requires few { count ≤ 64 }
    requires low { bits < 2 ^ count }
    requires within { from + count ≤ L.count leaf.now }
    ensures within { AreWithin (L.count leaf.now) result }
    ensures are { (places : List ℕ) → AreExtremes (L.value leaf.now) places extremes
        → AreExtremes (L.value leaf.now) (places ++ picked bits from count) result }
{
    let _places = leaf.len();
    match extremes {
        Some(extremes) => Some(leaf.with_some(extremes, from, bits, count)),
        None if bits == 0 => None,
        None => {
            let i = bits.trailing_zeros() as usize;
            let place = from + i;
            let first = Extremes {
                least: place,
                greatest: place,
            };
            Some(leaf.with_some(first, from, bits ^ (1 << i), count))
        }
    }
}
