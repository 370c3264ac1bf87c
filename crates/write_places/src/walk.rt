//! A walk over the places that a path reaches.
ghost use Rattle.std.specs.Prelude.{◌≡◌, ◌+◌, ◌-◌, ◌<◌, ◌≤◌, ◌++◌, ℕ, List, IfOk, OnOk, IfErr, length};
ghost use Rattle.shredding.specs.Parts.{IsPath, slot_count};
ghost use Rattle.columns_base.specs.declared.error.Error.{Error};
ghost use Rattle.levels.specs.Nested.{parts_of};
ghost use Rattle.levels.specs.Ranges.{leaf_count_or};
ghost use Rattle.write_places.specs.Places.{gather, slot_places, path_places};
ghost use Rattle.write_places.specs.Reach.{IsFoot, IsReach, reached};
ghost use Rattle.write_places.specs.declared.reach.Foot.TheVariants.{Leaf};
ghost use Rattle.write_places.specs.There.{TellThere};

use crate::reach::{Foot, Reach, foot_of, reach_at};
use crate::taker::Taker;
use crate::there::{Masks, masks_of};
use columns_core::Result;
use levels::{Nested, slot_count};

// What the slots at a place reach, which the taker can take.
#[inline(always)]
fn reach_for<'a, T: Taker>(
    taker: &T,
    foot: Foot<'a>,
    masks: Masks<'_>,
    parts: &'a [Nested],
    place: usize,
    to: usize,
) -> Reach<'a>
    requires well { IsPath (parts_of parts.now) }
    requires foot { IsFoot (parts_of parts.now) (length parts.now) foot }
    requires tell { TellThere (parts_of parts.now) masks }
    requires some { place < to }
    requires within { to ≤ slot_count (parts_of parts.now) }
    requires accepted { T.accepts taker.now (gather (slot_places (parts_of parts.now)) place (to - place)) }
    ensures is { IsReach (parts_of parts.entry.now) (length parts.entry.now) place to result }
    ensures accepted { T.accepts taker.now (reached place result) }
{
    reach_at(foot, masks, parts, place, to)
}

// Takes what the slots at a place reach, and gives the place behind them.
#[cycle(walk)]
#[inline(always)]
fn step<T: Taker>(
    taker: &mut T,
    foot: Foot<'_>,
    masks: Masks<'_>,
    parts: &[Nested],
    place: usize,
    to: usize,
) -> Result<usize>
    requires well { IsPath (parts_of parts.now) }
    requires foot { IsFoot (parts_of parts.now) (length parts.now) foot }
    requires tell { TellThere (parts_of parts.now) masks }
    requires some { place < to }
    requires within { to ≤ slot_count (parts_of parts.now) }
    requires leaf { leaf_count_or 0 (parts_of parts.now) ≤ T.limit taker.old }
    requires sound { T.sound taker.old }
    requires accepted { T.accepts taker.old (gather (slot_places (parts_of parts.now)) place (to - place)) }
    ensures sound { T.sound taker.new }
    ensures limit { T.limit taker.new ≡ T.limit taker.old }
    ensures accepts { (places : List ℕ) → T.accepts taker.old places → T.accepts taker.new places }
    ensures after { IfOk result (λ next. (place < next) × (next ≤ to)) }
    ensures taken { IfOk result (λ next. (first : T) (places : List ℕ) → T.has first taker.old places
        → T.has first taker.new (places ++ gather (slot_places (parts_of parts.now)) place (next - place))) }
    ensures refused { IfErr result (T.refuses taker.old) }
    ensures same { (e : Error) → T.refuses taker.new e → T.refuses taker.old e }
{
    match reach_for(&*taker, foot, masks, parts, place, to) {
        Reach::Nothing(end) => Ok(end),
        Reach::Leaves(end) => {
            taker.take(place, end)?;
            Ok(end)
        }
        Reach::Picked(word, end) => {
            taker.take_some(place, word, end - place)?;
            Ok(end)
        }
        Reach::Below(rest, first, last, end) => {
            walk(taker, rest, first, last)?;
            Ok(end)
        }
    }
}

// Takes what the slots from one place to another reach, by what stands behind the structs in front and by their masks.
#[cycle(walk)]
#[inline(always)]
fn walk_by<T: Taker>(
    taker: &mut T,
    foot: Foot<'_>,
    masks: Masks<'_>,
    parts: &[Nested],
    from: usize,
    to: usize,
) -> Result<()>
    requires well { IsPath (parts_of parts.now) }
    requires foot { IsFoot (parts_of parts.now) (length parts.now) foot }
    requires tell { TellThere (parts_of parts.now) masks }
    requires ordered { from ≤ to }
    requires within { to ≤ slot_count (parts_of parts.now) }
    requires leaf { leaf_count_or 0 (parts_of parts.now) ≤ T.limit taker.old }
    requires sound { T.sound taker.old }
    requires accepted { T.accepts taker.old (gather (slot_places (parts_of parts.now)) from (to - from)) }
    ensures sound { T.sound taker.new }
    ensures limit { T.limit taker.new ≡ T.limit taker.old }
    ensures accepts { (places : List ℕ) → T.accepts taker.old places → T.accepts taker.new places }
    ensures taken { OnOk result ((first : T) (places : List ℕ) → T.has first taker.old places
        → T.has first taker.new (places ++ gather (slot_places (parts_of parts.now)) from (to - from))) }
    ensures refused { IfErr result (T.refuses taker.old) }
    ensures same { (e : Error) → T.refuses taker.new e → T.refuses taker.old e }
{
    let mut place = from;
    'places: while place < to {
        place = step(taker, foot, masks, parts, place, to)?;
    }
    Ok(())
}

// Takes what the slots of a leaf from one place to another reach: a loop for each kind of masks.
#[cycle(walk)]
#[inline(always)]
fn walk_leaves<T: Taker>(
    taker: &mut T,
    masks: Masks<'_>,
    parts: &[Nested],
    from: usize,
    to: usize,
) -> Result<()>
    requires well { IsPath (parts_of parts.now) }
    requires foot { IsFoot (parts_of parts.now) (length parts.now) Leaf }
    requires tell { TellThere (parts_of parts.now) masks }
    requires ordered { from ≤ to }
    requires within { to ≤ slot_count (parts_of parts.now) }
    requires leaf { leaf_count_or 0 (parts_of parts.now) ≤ T.limit taker.old }
    requires sound { T.sound taker.old }
    requires accepted { T.accepts taker.old (gather (slot_places (parts_of parts.now)) from (to - from)) }
    ensures sound { T.sound taker.new }
    ensures limit { T.limit taker.new ≡ T.limit taker.old }
    ensures accepts { (places : List ℕ) → T.accepts taker.old places → T.accepts taker.new places }
    ensures taken { OnOk result ((first : T) (places : List ℕ) → T.has first taker.old places
        → T.has first taker.new (places ++ gather (slot_places (parts_of parts.now)) from (to - from))) }
    ensures refused { IfErr result (T.refuses taker.old) }
    ensures same { (e : Error) → T.refuses taker.new e → T.refuses taker.old e }
{
    match masks {
        Masks::Sole(mask) => walk_by(taker, Foot::Leaf, Masks::Sole(mask), parts, from, to),
        Masks::Both(mask, beneath) => walk_by(
            taker,
            Foot::Leaf,
            Masks::Both(mask, beneath),
            parts,
            from,
            to,
        ),
        _ => walk_by(taker, Foot::Leaf, masks, parts, from, to),
    }
}

// Takes what the slots from one place to another reach.
#[cycle(walk)]
fn walk<T: Taker>(taker: &mut T, parts: &[Nested], from: usize, to: usize) -> Result<()>
    requires well { IsPath (parts_of parts.now) }
    requires ordered { from ≤ to }
    requires within { to ≤ slot_count (parts_of parts.now) }
    requires leaf { leaf_count_or 0 (parts_of parts.now) ≤ T.limit taker.old }
    requires sound { T.sound taker.old }
    requires accepted { T.accepts taker.old (gather (slot_places (parts_of parts.now)) from (to - from)) }
    ensures sound { T.sound taker.new }
    ensures limit { T.limit taker.new ≡ T.limit taker.old }
    ensures accepts { (places : List ℕ) → T.accepts taker.old places → T.accepts taker.new places }
    ensures taken { OnOk result ((first : T) (places : List ℕ) → T.has first taker.old places
        → T.has first taker.new (places ++ gather (slot_places (parts_of parts.now)) from (to - from))) }
    ensures refused { IfErr result (T.refuses taker.old) }
    ensures same { (e : Error) → T.refuses taker.new e → T.refuses taker.old e }
{
    let foot = foot_of(parts);
    let masks = masks_of(parts);
    match foot {
        Foot::Leaf => walk_leaves(taker, masks, parts, from, to),
        _ => walk_by(taker, foot, masks, parts, from, to),
    }
}

/// Hands on the places of the leaf array that a path reaches, those at which a present value stands: in order, stretch by stretch, one call
/// for each. The path is well formed, and the taker knows as many places as its leaf has. No memory is taken but the taker's own.
///
/// # Errors
///
/// Those of the taker.
pub fn take_places<T: Taker>(taker: &mut T, nested: &[Nested]) -> Result<()>
    requires well { IsPath (parts_of nested.now) }
    requires leaf { leaf_count_or 0 (parts_of nested.now) ≤ T.limit taker.old }
    requires sound { T.sound taker.old }
    requires accepted { T.accepts taker.old (path_places (parts_of nested.now)) }
    ensures sound { T.sound taker.new }
    ensures limit { T.limit taker.new ≡ T.limit taker.old }
    ensures taken { OnOk result (T.has taker.old taker.new (path_places (parts_of nested.now))) }
    ensures refused { IfErr result (T.refuses taker.old) }
{
    walk(taker, nested, 0, slot_count(nested))?;
    Ok(())
}
