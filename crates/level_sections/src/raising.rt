//! Lists with items and structs that are there, side by side, told by the levels of what is beneath them.
ghost use Rattle.std.specs.Prelude.{◌≡◌, ◌≢◌, ℕ, ◌+◌, ◌-◌, ◌<◌, ◌≤◌, ◌∷◌, ◌==◌, IsTrue, true, false, length, slice_index};
ghost use Rattle.std.specs.Int.{bit_at};
ghost use Rattle.columns_core.specs.Rising.{IsRising};
ghost use Rattle.shredding.specs.Parts.{is_present, item_start, list_part, struct_part};
ghost use Rattle.levels.specs.Nested.{parts_of};
ghost use Rattle.level_sections.specs.Pieces.{AreTold, above_fields, above_items};
ghost use Rattle.level_sections.specs.Walk.{walked};

use crate::pieces::{Pieces, set_first};
use crate::walk::Above;
use columns_core::{Bitmap, Offset, OffsetsBuffer};
use levels::{Level, ListNested, Nested};
use std::simd::prelude::*;

// How many set bits of a word stand side by side from a place on, below another one.
#[inline(always)]
pub fn set_run(word: u64, at: usize, to: usize) -> usize
    requires before { at < to }
    requires few { to ≤ 64 }
    ensures within { at + result ≤ to }
    ensures set { (i : ℕ) → i < result → (bit_at word (at + i) == 1) ≡ true }
    ensures none { result ≡ 0 → (bit_at word at == 1) ≡ false }
{
    ((word >> at).trailing_ones() as usize).min(to - at)
}

// So many starts from a place on become those beneath, each with so much less and more.
#[inline(always)]
fn move_starts(upper: &mut [u16], lower: &[u16], at: usize, count: usize, less: u16, more: u16)
    requires upper { at + count ≤ length upper.old }
    requires lower { at + count ≤ length lower.now }
    requires less { (i : ℕ) → at ≤ i → i < at + count → less ≤ slice_index lower.now i }
    requires more { (i : ℕ) → at ≤ i → i < at + count → slice_index lower.now i - less + more < 65536 }
    ensures len { length upper.new ≡ length upper.old }
    ensures others { (i : ℕ) → i < at → slice_index upper.new i ≡ slice_index upper.old i }
    ensures each { (i : ℕ) → at ≤ i → i < at + count → slice_index upper.new i ≡ slice_index lower.now i - less + more }
{
    for i in at..at + count {
        upper[i] = lower[i] - less + more;
    }
}

// The levels of so many structs that are there, behind those of the structs before them, by those of what is beneath them.
#[inline(always)]
pub fn push_present(
    upper: &mut Pieces,
    lower: &Pieces,
    level: Level,
    mask: &Option<Bitmap>,
    is_optional: bool,
    slots: usize,
    rest: &[Nested],
    above: Above,
    from: usize,
    place: usize,
    count: usize,
    to: usize,
) -> bool
    requires after { from ≤ place }
    requires some { 0 < count }
    requires room { to - from ≤ 2048 }
    requires within { place + count ≤ to }
    requires there { (i : ℕ) → i < count → is_present is_optional mask.now (place + i) ≡ true }
    requires same { above.rep ≡ above.depth }
    requires beneath { AreTold (λ n. walked level (parts_of rest.now) (above_fields above is_optional) from n)
        (to - from) lower.now }
    requires told { AreTold (λ n. walked level
        (struct_part is_optional mask.now slots ∷ parts_of rest.now) above from n) (place - from) upper.old }
    ensures { IsTrue result
        → AreTold (λ n. walked level (struct_part is_optional mask.now slots ∷ parts_of rest.now) above from n)
        (place + count - from) upper.new }
{
    let _beneath = rest;
    let _mask = mask;
    let _named = (level, is_optional, slots, above, to);
    // at most 2,048 levels are beneath
    let _size = lower.told.len();
    let begin = place - from;
    let first = lower.starts[begin];
    let stop = lower.starts[begin + count];
    let at = upper.told.len();
    if !upper
        .told
        .push_part(&lower.told, first as usize, stop as usize)
    {
        return false;
    }
    move_starts(
        &mut upper.starts,
        &lower.starts,
        begin + 1,
        count,
        first,
        at as u16,
    );
    true
}

// Where the items of up to 64 lists begin and where those of the last one end, counted from those of the list at `from`. Behind them stand zeros.
#[inline(always)]
#[tactic(auto, using(levels::proofs::Rising::rising))]
pub fn item_edges<O: Offset>(
    offsets: &OffsetsBuffer<O>,
    from: usize,
    place: usize,
    count: usize,
) -> [u16; 65]
    requires after { from ≤ place }
    requires few { count ≤ 64 }
    requires within { place + count < length offsets.now }
    requires small { item_start offsets.now (place + count) - item_start offsets.now from ≤ 2048 }
    ensures { (k : ℕ) → k ≤ count → slice_index result k ≡ item_start offsets.now (place + k)
        - item_start offsets.now from }
{
    offsets.know();
    // the number of lists fits its type, so `place + k` does
    let _lists = offsets.len_proxy();
    let begin = offsets.place(from);
    let mut edges = [0; 65];
    for k in 0..count + 1 {
        edges[k] = (offsets.place(place + k) - begin) as u16;
    }
    edges
}

// The bits of a word whose lists have items.
#[inline(always)]
pub fn full_lists(edges: &[u16; 65], word: u64) -> u64
    ensures { (i : ℕ) → i < 64 → (bit_at result i == 1) ≡ true → ((bit_at word i == 1) ≡ true)
        × (slice_index edges.now i ≢ slice_index edges.now (i + 1)) }
{
    let starts = Simd::<u16, 64>::from_slice(&edges[..64]);
    let stops = Simd::<u16, 64>::from_slice(&edges[1..]);
    starts.simd_ne(stops).to_bitmask() & word
}

// The levels of so many lists with items, behind those of the lists before them, by those of the items. Where these begin and end stands in `edges` from
// a place on.
#[inline(always)]
pub fn push_full<O: Offset>(
    upper: &mut Pieces,
    lower: &Pieces,
    level: Level,
    list: &ListNested<O>,
    rest: &[Nested],
    above: Above,
    edges: &[u16; 65],
    from: usize,
    place: usize,
    at: usize,
    count: usize,
    last: usize,
) -> bool
    requires after { from ≤ place }
    requires some { 0 < count }
    requires few { at + count ≤ 64 }
    requires room { place + at + count - from ≤ 2048 }
    requires within { place + at + count ≤ length list.now.offsets - 1 }
    requires rises { IsRising list.now.offsets }
    requires before { item_start list.now.offsets (place + at + count) ≤ last }
    requires edges { (k : ℕ) → k ≤ at + count → slice_index edges.now k ≡ item_start list.now.offsets (place + k)
        - item_start list.now.offsets from }
    requires full { (k : ℕ) → at ≤ k → k < at + count → slice_index edges.now k ≢ slice_index edges.now (k + 1) }
    requires there { (k : ℕ) → at ≤ k → k < at + count
        → is_present list.now.is_optional list.now.validity (place + k) ≡ true }
    requires same { above.rep ≡ above.depth }
    requires depth { above.depth < 256 }
    requires beneath { AreTold (λ n. walked level (parts_of rest.now) (above_items above list.now.is_optional)
        (item_start list.now.offsets from) n) (last - item_start list.now.offsets from) lower.now }
    requires told { AreTold (λ n. walked level
        (list_part list.now.is_optional list.now.validity list.now.offsets ∷ parts_of rest.now) above from n)
        (place + at - from) upper.old }
    ensures { IsTrue result
        → AreTold (λ n. walked level
        (list_part list.now.is_optional list.now.validity list.now.offsets ∷ parts_of rest.now) above from n)
        (place + at + count - from) upper.new }
{
    let _list = list;
    let _beneath = rest;
    let _last = last;
    // at most 2,048 levels are beneath
    let _size = lower.told.len();
    let first = lower.starts[edges[at] as usize] as usize;
    let stop = lower.starts[edges[at + count] as usize] as usize;
    let begin = upper.told.len();
    if !upper.told.push_part(&lower.told, first, stop) {
        return false;
    }
    let mut here = begin;
    for k in at..at + count {
        set_first(&mut upper.told, level, here, above.depth);
        here = lower.starts[edges[k + 1] as usize] as usize - first + begin;
        upper.starts[place - from + k + 1] = here as u16;
    }
    true
}
