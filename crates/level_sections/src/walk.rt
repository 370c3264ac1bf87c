//! A walk over a path, stretch by stretch.
ghost use Rattle.std.specs.Prelude.{◌≡◌, ℕ, ◌+◌, ◌-◌, ◌*◌, ◌^◌, ◌<◌, ◌≤◌, ◌++◌, ◌∷◌, Bool, List, Option, length, map, OnOk, IfOk};
ghost use Rattle.shredding.specs.Parts.{IsPath, Part, slot_count, path_way, struct_part};
ghost use Rattle.shredding.specs.Shred.{max_repetition, max_definition};
ghost use Rattle.levels.specs.Nested.{part_of, parts_of};
ghost use Rattle.pq_runs.specs.Writing.{Extends, Keeps};
ghost use Rattle.levels.specs.Stretch.{level_of, like_pairs};
ghost use Rattle.level_sections.specs.Walk.{walked, AreItems, IsLow, Holds, IsShape};
ghost use Rattle.levels.specs.declared.walk.Level.TheVariants.{Repetition, Definition};
ghost use Rattle.levels.specs.declared.walk.Level.{Level};

use crate::block::push_flat;
use crate::items::{mixed_end, walk_items};
use crate::lists::walk_lists;
use crate::pieces::Pieces;
use crate::spans::{block_end, is_long_stretch};
use crate::tell::tell_block;
use crate::told_levels::push_told;
use levels::{Level, ListNested, Nested, Stretch, has_lists, max_rep_level, stretch_at};
use pq_runs::RunWriter;
use std::alloc::AllocError;

// What lies above slots: the repetition level of the first one, and how many definition levels and lists are there.
#[derive(Clone, Copy, Drop)]
pub struct Above {
    pub rep: u32,
    pub def: u32,
    pub depth: u32,
}

// How the levels of a path are told.
#[derive(Clone, Copy, Drop)]
pub enum Shape<'a> {
    // all slots at once: there is no list
    Flat,
    // the repetition levels of lists above a path without lists
    Lists(&'a ListNested<i32>),
    LargeLists(&'a ListNested<i64>),
    // the definition levels of lists above a path without lists
    Items,
    // stretch by stretch
    Stretches,
}

// How the levels of a path are told.
#[inline(always)]
pub fn shape_of(level: Level, parts: &[Nested]) -> Shape<'_>
    ensures { IsShape level (parts_of parts.now) result }
{
    let Some((part, rest)) = parts.split_first() else {
        return Shape::Stretches;
    };
    match part {
        Nested::Primitive(..) => Shape::Flat,
        Nested::Struct(..) => struct_shape(rest),
        Nested::List(_) => list_shape(level, part, rest),
        Nested::LargeList(_) => list_shape(level, part, rest),
    }
}

// How the levels of a struct above a path are told.
fn struct_shape<'a>(rest: &[Nested]) -> Shape<'a>
    ensures { (level : Level) (is_optional : Bool) (mask : Option (List Bool)) (count : ℕ)
        → IsShape level (struct_part is_optional mask count ∷ parts_of rest.now) result }
{
    if has_lists(rest) {
        return Shape::Stretches;
    }
    Shape::Flat
}

// How the levels of a list above a path are told.
fn list_shape<'a>(level: Level, part: &'a Nested, rest: &[Nested]) -> Shape<'a>
    ensures { IsShape level (part_of part.now ∷ parts_of rest.now) result }
{
    if has_lists(rest) {
        return Shape::Stretches;
    }
    match level {
        Level::Repetition => lists_at(part),
        Level::Definition => items_at(part, rest),
    }
}

// How the repetition levels of a part above a path without lists are told.
fn lists_at(part: &Nested) -> Shape<'_>
    ensures { (rest : List Part) → max_repetition (path_way rest) ≡ 0
        → IsShape Repetition (part_of part.now ∷ rest) result }
{
    match part {
        Nested::List(list) => Shape::Lists(list),
        Nested::LargeList(list) => Shape::LargeLists(list),
        Nested::Primitive(..) => Shape::Stretches,
        Nested::Struct(..) => Shape::Stretches,
    }
}

// How the definition levels of a part above a path without lists are told.
fn items_at<'a>(part: &Nested, rest: &[Nested]) -> Shape<'a>
    requires { max_repetition (path_way (parts_of rest.now)) ≡ 0 }
    ensures { IsShape Definition (part_of part.now ∷ parts_of rest.now) result }
{
    if rest.len() > 5 {
        return Shape::Stretches;
    }
    match part {
        Nested::List(_) => Shape::Items,
        Nested::LargeList(_) => Shape::Items,
        Nested::Primitive(..) => Shape::Stretches,
        Nested::Struct(..) => Shape::Stretches,
    }
}

// So many pairs of one definition level.
fn push_pairs(
    out: &mut Vec<u8>,
    writer: &mut RunWriter,
    level: Level,
    above: Above,
    count: usize,
) -> Result<(), AllocError>
    requires some { 0 < count }
    requires first { above.rep ≤ above.depth }
    requires def { above.def < 256 }
    requires depth { above.depth < 256 }
    requires holds { Holds level above 0 0 writer.old.width }
    ensures width { writer.new.width ≡ writer.old.width }
    ensures added { OnOk result ((start xs : List ℕ) → Keeps start out.old.items writer.old xs
        → Keeps start out.new.items writer.new (xs ++ map (level_of level)
        (like_pairs above.rep above.depth above.def count))) }
    ensures kept { Extends out.old.items out.new.items }
{
    match level {
        Level::Definition => writer.push(out, above.def, count),
        Level::Repetition => {
            writer.push(out, above.rep, 1)?;
            writer.push(out, above.depth, count - 1)
        }
    }
}

// The levels of the slots of a path without lists.
fn walk_flat(
    out: &mut Vec<u8>,
    writer: &mut RunWriter,
    level: Level,
    parts: &[Nested],
    above: Above,
    from: usize,
    to: usize,
) -> Result<(), AllocError>
    requires well { IsPath (parts_of parts.now) }
    requires flat { max_repetition (path_way (parts_of parts.now)) ≡ 0 }
    requires ordered { from ≤ to }
    requires within { to ≤ slot_count (parts_of parts.now) }
    requires low { IsLow above (length parts.now) }
    requires holds { Holds level above (max_repetition (path_way (parts_of parts.now)))
        (max_definition (path_way (parts_of parts.now))) writer.old.width }
    ensures width { writer.new.width ≡ writer.old.width }
    ensures added { OnOk result ((start xs : List ℕ) → Keeps start out.old.items writer.old xs
        → Keeps start out.new.items writer.new (xs ++ walked level (parts_of parts.now) above from (to - from))) }
    ensures kept { Extends out.old.items out.new.items }
{
    if from == to {
        return Ok(());
    }
    match level {
        Level::Definition => push_flat(out, writer, parts, above.def, from, to),
        Level::Repetition => push_pairs(out, writer, level, above, to - from),
    }
}

// The levels of the stretch at a place, and the place behind it.
#[cycle(walk)]
#[inline(always)]
fn step(
    out: &mut Vec<u8>,
    writer: &mut RunWriter,
    level: Level,
    parts: &[Nested],
    above: Above,
    place: usize,
    to: usize,
) -> Result<usize, AllocError>
    requires well { IsPath (parts_of parts.now) }
    requires some { place < to }
    requires within { to ≤ slot_count (parts_of parts.now) }
    requires low { IsLow above (length parts.now) }
    requires holds { Holds level above (max_repetition (path_way (parts_of parts.now)))
        (max_definition (path_way (parts_of parts.now))) writer.old.width }
    ensures width { writer.new.width ≡ writer.old.width }
    ensures after { IfOk result (λ next. (place < next) × (next ≤ to)) }
    ensures added { IfOk result (λ next. (start xs : List ℕ) → Keeps start out.old.items writer.old xs
        → Keeps start out.new.items writer.new (xs ++ walked level (parts_of parts.now) above place (next - place))) }
    ensures kept { Extends out.old.items out.new.items }
{
    match stretch_at(parts, level, place, to) {
        Stretch::Ends(up, end) => {
            let here = Above {
                def: above.def + up,
                ..above
            };
            push_pairs(out, writer, level, here, end - place)?;
            Ok(end)
        }
        Stretch::Below(rest, up, end) => {
            let here = Above {
                def: above.def + up,
                ..above
            };
            walk(out, writer, level, rest, here, place, end)?;
            Ok(end)
        }
        Stretch::Items(rest, up, first, last, end) => {
            let here = Above {
                rep: above.rep,
                def: above.def + up,
                depth: above.depth + 1,
            };
            walk(out, writer, level, rest, here, first, last)?;
            Ok(end)
        }
    }
}

// The levels of the slots from one place to another, stretch by stretch.
#[cycle(walk)]
fn walk_stretches(
    out: &mut Vec<u8>,
    writer: &mut RunWriter,
    level: Level,
    parts: &[Nested],
    above: Above,
    from: usize,
    to: usize,
) -> Result<(), AllocError>
    requires well { IsPath (parts_of parts.now) }
    requires ordered { from ≤ to }
    requires within { to ≤ slot_count (parts_of parts.now) }
    requires low { IsLow above (length parts.now) }
    requires holds { Holds level above (max_repetition (path_way (parts_of parts.now)))
        (max_definition (path_way (parts_of parts.now))) writer.old.width }
    ensures width { writer.new.width ≡ writer.old.width }
    ensures added { OnOk result ((start xs : List ℕ) → Keeps start out.old.items writer.old xs
        → Keeps start out.new.items writer.new (xs ++ walked level (parts_of parts.now) above from (to - from))) }
    ensures kept { Extends out.old.items out.new.items }
{
    let mut place = from;
    let mut here = above;
    while place < to {
        place = step(out, writer, level, parts, here, place, to)?;
        here.rep = here.depth;
    }
    Ok(())
}

// The definition levels of lists at a place, and the place behind them: some lists of few items at once, or stretch by stretch.
#[cycle(walk)]
fn advance(
    out: &mut Vec<u8>,
    writer: &mut RunWriter,
    level: Level,
    parts: &[Nested],
    above: Above,
    place: usize,
    to: usize,
) -> Result<usize, AllocError>
    requires well { IsPath (parts_of parts.now) }
    requires items { AreItems level (parts_of parts.now) }
    requires some { place < to }
    requires within { to ≤ slot_count (parts_of parts.now) }
    requires low { IsLow above (length parts.now) }
    requires holds { Holds level above (max_repetition (path_way (parts_of parts.now)))
        (max_definition (path_way (parts_of parts.now))) writer.old.width }
    ensures width { writer.new.width ≡ writer.old.width }
    ensures after { IfOk result (λ next. (place < next) × (next ≤ to)) }
    ensures added { IfOk result (λ next. (start xs : List ℕ) → Keeps start out.old.items writer.old xs
        → Keeps start out.new.items writer.new (xs ++ walked level (parts_of parts.now) above place (next - place))) }
    ensures kept { Extends out.old.items out.new.items }
{
    let end = mixed_end(parts, place, to);
    if end == place {
        let next = place + (to - place).min(8192);
        walk_stretches(out, writer, level, parts, above, place, next)?;
        return Ok(next);
    }
    walk_items(out, writer, level, parts, above, place, end)?;
    Ok(end)
}

// The definition levels of lists above a path without lists.
#[cycle(walk)]
fn walk_lists_of_items(
    out: &mut Vec<u8>,
    writer: &mut RunWriter,
    level: Level,
    parts: &[Nested],
    above: Above,
    from: usize,
    to: usize,
) -> Result<(), AllocError>
    requires well { IsPath (parts_of parts.now) }
    requires items { AreItems level (parts_of parts.now) }
    requires ordered { from ≤ to }
    requires within { to ≤ slot_count (parts_of parts.now) }
    requires low { IsLow above (length parts.now) }
    requires holds { Holds level above (max_repetition (path_way (parts_of parts.now)))
        (max_definition (path_way (parts_of parts.now))) writer.old.width }
    ensures width { writer.new.width ≡ writer.old.width }
    ensures added { OnOk result ((start xs : List ℕ) → Keeps start out.old.items writer.old xs
        → Keeps start out.new.items writer.new (xs ++ walked level (parts_of parts.now) above from (to - from))) }
    ensures kept { Extends out.old.items out.new.items }
{
    let mut place = from;
    while place < to {
        place = advance(out, writer, level, parts, above, place, to)?;
    }
    Ok(())
}

// The levels of some slots at a place, and the place behind them. Few pairs are told as bytes first, long stretches and long lists are not.
#[cycle(walk)]
fn walk_block(
    out: &mut Vec<u8>,
    writer: &mut RunWriter,
    upper: &mut Pieces,
    lower: &mut Pieces,
    level: Level,
    parts: &[Nested],
    above: Above,
    place: usize,
    to: usize,
) -> Result<usize, AllocError>
    requires well { IsPath (parts_of parts.now) }
    requires some { place < to }
    requires within { to ≤ slot_count (parts_of parts.now) }
    requires low { IsLow above (length parts.now) }
    requires holds { Holds level above (max_repetition (path_way (parts_of parts.now)))
        (max_definition (path_way (parts_of parts.now))) writer.old.width }
    ensures width { writer.new.width ≡ writer.old.width }
    ensures after { IfOk result (λ next. (place < next) × (next ≤ to)) }
    ensures added { IfOk result (λ next. (start xs : List ℕ) → Keeps start out.old.items writer.old xs
        → Keeps start out.new.items writer.new (xs ++ walked level (parts_of parts.now) above place (next - place))) }
    ensures kept { Extends out.old.items out.new.items }
{
    if is_long_stretch(parts, level, place, to) {
        return step(out, writer, level, parts, above, place, to);
    }
    let next = block_end(parts, place, to);
    if tell_block(upper, lower, level, parts, above, place, next) {
        push_told(out, writer, upper.told.as_slice())?;
        return Ok(next);
    }
    walk_stretches(out, writer, level, parts, above, place, next)?;
    Ok(next)
}

// The levels of lists above lists, some slots at once.
#[cycle(walk)]
fn walk_blocks(
    out: &mut Vec<u8>,
    writer: &mut RunWriter,
    level: Level,
    parts: &[Nested],
    above: Above,
    from: usize,
    to: usize,
) -> Result<(), AllocError>
    requires well { IsPath (parts_of parts.now) }
    requires ordered { from ≤ to }
    requires within { to ≤ slot_count (parts_of parts.now) }
    requires low { IsLow above (length parts.now) }
    requires holds { Holds level above (max_repetition (path_way (parts_of parts.now)))
        (max_definition (path_way (parts_of parts.now))) writer.old.width }
    ensures width { writer.new.width ≡ writer.old.width }
    ensures added { OnOk result ((start xs : List ℕ) → Keeps start out.old.items writer.old xs
        → Keeps start out.new.items writer.new (xs ++ walked level (parts_of parts.now) above from (to - from))) }
    ensures kept { Extends out.old.items out.new.items }
{
    let mut upper = Pieces::new();
    let mut lower = Pieces::new();
    let mut place = from;
    let mut front = above;
    while place < to {
        place = walk_block(
            out, writer, &mut upper, &mut lower, level, parts, front, place, to,
        )?;
        front.rep = front.depth;
    }
    Ok(())
}

// The levels of a path of several parts: of lists above lists some slots at once, else stretch by stretch.
#[cycle(walk)]
fn walk_others(
    out: &mut Vec<u8>,
    writer: &mut RunWriter,
    level: Level,
    parts: &[Nested],
    above: Above,
    from: usize,
    to: usize,
) -> Result<(), AllocError>
    requires well { IsPath (parts_of parts.now) }
    requires ordered { from ≤ to }
    requires within { to ≤ slot_count (parts_of parts.now) }
    requires low { IsLow above (length parts.now) }
    requires holds { Holds level above (max_repetition (path_way (parts_of parts.now)))
        (max_definition (path_way (parts_of parts.now))) writer.old.width }
    ensures width { writer.new.width ≡ writer.old.width }
    ensures added { OnOk result ((start xs : List ℕ) → Keeps start out.old.items writer.old xs
        → Keeps start out.new.items writer.new (xs ++ walked level (parts_of parts.now) above from (to - from))) }
    ensures kept { Extends out.old.items out.new.items }
{
    if max_rep_level(parts) < 2 {
        return walk_stretches(out, writer, level, parts, above, from, to);
    }
    walk_blocks(out, writer, level, parts, above, from, to)
}

// The levels of the slots from one place to another.
#[cycle(walk)]
pub fn walk(
    out: &mut Vec<u8>,
    writer: &mut RunWriter,
    level: Level,
    parts: &[Nested],
    above: Above,
    from: usize,
    to: usize,
) -> Result<(), AllocError>
    requires well { IsPath (parts_of parts.now) }
    requires ordered { from ≤ to }
    requires within { to ≤ slot_count (parts_of parts.now) }
    requires low { IsLow above (length parts.now) }
    requires holds { Holds level above (max_repetition (path_way (parts_of parts.now)))
        (max_definition (path_way (parts_of parts.now))) writer.old.width }
    ensures width { writer.new.width ≡ writer.old.width }
    ensures added { OnOk result ((start xs : List ℕ) → Keeps start out.old.items writer.old xs
        → Keeps start out.new.items writer.new (xs ++ walked level (parts_of parts.now) above from (to - from))) }
    ensures kept { Extends out.old.items out.new.items }
{
    match shape_of(level, parts) {
        Shape::Flat => walk_flat(out, writer, level, parts, above, from, to),
        Shape::Lists(list) => walk_lists(out, writer, list, above, from, to),
        Shape::LargeLists(list) => walk_lists(out, writer, list, above, from, to),
        Shape::Items => walk_lists_of_items(out, writer, level, parts, above, from, to),
        Shape::Stretches => walk_others(out, writer, level, parts, above, from, to),
    }
}
