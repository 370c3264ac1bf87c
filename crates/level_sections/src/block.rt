//! Definition levels of a path without lists, 64 slots at once.
ghost use Rattle.std.specs.Prelude.{◌≡◌, ℕ, ◌+◌, ◌-◌, ◌^◌, ◌<◌, ◌≤◌, ◌==◌, ◌++◌, List, Bool, cond, length, slice_index, Option, OnOk, IsTrue, true};
ghost use Rattle.std.specs.Int.{bit_at};
ghost use Rattle.shredding.specs.Parts.{Part, MaskFits, is_present};
ghost use Rattle.levels.specs.Levels.{bit};
ghost use Rattle.levels.specs.Nested.{part_of, parts_of};
ghost use Rattle.pq_runs.specs.Writing.{Extends, Keeps};
ghost use Rattle.level_sections.specs.Blocks.{part_optional, part_present, flat_level, levels_from, PartReaches, Reaches, IsFront};

use crate::planes::{one_plane, push_planes, with_parts};
use columns_core::Bitmap;
use levels::{Nested, full_word, present_word};
use pq_runs::RunWriter;
use std::alloc::AllocError;

// What the parts at the top say of some slots.
#[derive(Clone, Copy, Drop)]
pub enum Front<'a> {
    // all have this level
    Even(u32),
    // Those whose bit is set are one above this level and go on in the parts beneath, the others have it.
    Mixed(&'a [Nested], u32, u64),
}

// Whether a leaf or a struct is optional, and which of up to 64 slots are there.
pub fn part_word(part: &Nested, place: usize, count: usize) -> (bool, u64)
    requires reaches { PartReaches (place + count) (part_of part.now) }
    requires some { 0 < count }
    requires few { count ≤ 64 }
    ensures optional { result.0 ≡ part_optional (part_of part.now) }
    ensures bits { (i : ℕ) → i < count → (bit_at result.1 i == 1) ≡ part_present (part_of part.now) (place + i) }
{
    match part {
        Nested::Primitive(mask, is_optional, slots) => (
            *is_optional,
            present_word(*is_optional, mask, *slots, place, count),
        ),
        Nested::Struct(mask, is_optional, slots) => (
            *is_optional,
            present_word(*is_optional, mask, *slots, place, count),
        ),
        Nested::List(_) => unreachable!(),
        Nested::LargeList(_) => unreachable!(),
    }
}

// What the parts down to the first optional one with nulls say of up to 64 slots.
pub fn front_at<'a>(parts: &'a [Nested], def: u32, place: usize, count: usize) -> Front<'a>
    requires reaches { Reaches (place + count) (parts_of parts.now) }
    requires low { def + length parts.now ≤ 256 }
    requires some { 0 < count }
    requires few { count ≤ 64 }
    ensures { IsFront (parts_of parts.now) def place count result }
{
    let full = full_word(count);
    let mut rest = parts;
    let mut level = def;
    while let Some((part, beneath)) = rest.split_first() {
        let (is_optional, word) = part_word(part, place, count);
        if word == 0 {
            return Front::Even(level);
        }
        if is_optional {
            if word != full {
                return Front::Mixed(beneath, level, word);
            }
            level += 1;
        }
        rest = beneath;
    }
    Front::Even(level)
}

// Adds a word's bits to 64 levels, where a part is optional.
fn add_bits(levels: &mut [u32], is_optional: bool, word: u64)
    requires size { length levels.old ≡ 64 }
    requires low { (i : ℕ) → i < 64 → slice_index levels.old i ≤ 256 }
    ensures size { length levels.new ≡ 64 }
    ensures each { (i : ℕ) → i < 64 → slice_index levels.new i ≡ slice_index levels.old i
        + cond is_optional (bit_at word i) 0 }
{
    if !is_optional {
        return;
    }
    for i in 0..64 {
        levels[i] += ((word >> i) & 1) as u32;
    }
}

// Adds to the levels of up to 64 slots whose bits are set what the parts say of them.
fn add_parts(levels: &mut [u32], parts: &[Nested], word: u64, place: usize, count: usize)
    requires size { length levels.old ≡ 64 }
    requires reaches { Reaches (place + count) (parts_of parts.now) }
    requires some { 0 < count }
    requires few { count ≤ 64 }
    requires low { (i : ℕ) → i < 64 → slice_index levels.old i + length parts.now ≤ 256 }
    ensures size { length levels.new ≡ 64 }
    ensures each { (i : ℕ) → i < count → slice_index levels.new i
        ≡ cond (bit_at word i == 1) (flat_level (parts_of parts.now) (slice_index levels.old i) (place + i))
        (slice_index levels.old i) }
{
    let mut rest = parts;
    let mut alive = word;
    while let Some((part, beneath)) = rest.split_first() {
        let (is_optional, there) = part_word(part, place, count);
        alive &= there;
        add_bits(levels, is_optional, alive);
        rest = beneath;
    }
}

// Whether a part is optional.
fn is_optional(part: &Nested) -> bool
    ensures { result ≡ part_optional (part_of part.now) }
{
    match part {
        Nested::Primitive(_, is_optional, _) => *is_optional,
        Nested::List(list) => list.is_optional,
        Nested::LargeList(list) => list.is_optional,
        Nested::Struct(_, is_optional, _) => *is_optional,
    }
}

// Whether parts add nothing to a level, since all of them are required.
pub fn are_required(parts: &[Nested]) -> bool
    ensures { IsTrue result → (def i : ℕ) → flat_level (parts_of parts.now) def i ≡ def }
{
    let mut rest = parts;
    while let Some((part, beneath)) = rest.split_first() {
        if is_optional(part) {
            return false;
        }
        rest = beneath;
    }
    true
}

// The levels of up to 64 slots.
fn push_block(
    out: &mut Vec<u8>,
    writer: &mut RunWriter,
    parts: &[Nested],
    def: u32,
    place: usize,
    count: usize,
) -> Result<(), AllocError>
    requires reaches { Reaches (place + count) (parts_of parts.now) }
    requires low { def + length parts.now ≤ 256 }
    requires some { 0 < count }
    requires few { count ≤ 64 }
    requires holds { (i : ℕ) → flat_level (parts_of parts.now) def i < 2 ^ writer.old.width }
    ensures width { writer.new.width ≡ writer.old.width }
    ensures added { OnOk result ((start xs : List ℕ) → Keeps start out.old.items writer.old xs
        → Keeps start out.new.items writer.new (xs ++ levels_from (flat_level (parts_of parts.now) def) place count)) }
    ensures kept { Extends out.old.items out.new.items }
{
    match front_at(parts, def, place, count) {
        Front::Even(level) => writer.push(out, level, count),
        Front::Mixed(rest, level, word) => {
            if are_required(rest) {
                return writer.push_bits(out, level, word, count);
            }
            if rest.len() <= 6 {
                let planes = with_parts(one_plane(word), rest, word, place, count);
                return push_planes(out, writer, level, planes, count);
            }
            let mut levels = [level; 64];
            add_bits(&mut levels, true, word);
            add_parts(&mut levels, rest, word, place, count);
            writer.push_each(out, &levels[..count])
        }
    }
}

// The definition levels of the slots from one place to another, 64 at once.
fn push_blocks(
    out: &mut Vec<u8>,
    writer: &mut RunWriter,
    parts: &[Nested],
    def: u32,
    from: usize,
    to: usize,
) -> Result<(), AllocError>
    requires reaches { Reaches to (parts_of parts.now) }
    requires low { def + length parts.now ≤ 256 }
    requires ordered { from ≤ to }
    requires holds { (i : ℕ) → flat_level (parts_of parts.now) def i < 2 ^ writer.old.width }
    ensures width { writer.new.width ≡ writer.old.width }
    ensures added { OnOk result ((start xs : List ℕ) → Keeps start out.old.items writer.old xs
        → Keeps start out.new.items writer.new (xs ++ levels_from (flat_level (parts_of parts.now) def) from
        (to - from))) }
    ensures kept { Extends out.old.items out.new.items }
{
    let mut place = from;
    while place < to {
        let count = (to - place).min(64);
        push_block(out, writer, parts, def, place, count)?;
        place += count;
    }
    Ok(())
}

// Where slots of a leaf end that are there, from a place on.
fn there_end(
    is_optional: bool,
    mask: &Option<Bitmap>,
    slots: usize,
    from: usize,
    to: usize,
) -> usize
    requires fits { MaskFits mask.now slots }
    requires ordered { from ≤ to }
    requires within { to ≤ slots }
    ensures after { from ≤ result }
    ensures within { result ≤ to }
    ensures there { (i : ℕ) → from ≤ i → i < result → is_present is_optional mask.now i ≡ true }
{
    if !is_optional {
        return to;
    }
    match mask {
        None => to,
        Some(mask) => mask.run_end(from, to, true),
    }
}

// What an optional part adds to a level.
pub fn step_of(is_optional: bool) -> u32
    ensures value { result ≡ bit is_optional }
    ensures most { result ≤ 1 }
{
    if is_optional { 1 } else { 0 }
}

// The level of the first slots, and where those end that have it: a leaf alone is looked at to its first null. Else there are none.
fn first_run(parts: &[Nested], def: u32, from: usize, to: usize) -> (u32, usize)
    requires reaches { Reaches to (parts_of parts.now) }
    requires low { def + length parts.now ≤ 256 }
    requires ordered { from ≤ to }
    ensures after { from ≤ result.1 }
    ensures within { result.1 ≤ to }
    ensures even { (i : ℕ) → from ≤ i → i < result.1 → flat_level (parts_of parts.now) def i ≡ result.0 }
{
    let Some((part, rest)) = parts.split_first() else {
        return (def, from);
    };
    if rest.len() > 0 {
        return (def, from);
    }
    match part {
        Nested::Primitive(mask, is_optional, slots) => (
            def + step_of(*is_optional),
            there_end(*is_optional, mask, *slots, from, to),
        ),
        Nested::Struct(..) => (def, from),
        Nested::List(_) => (def, from),
        Nested::LargeList(_) => (def, from),
    }
}

// The definition levels of the slots from one place to another.
#[inline(always)]
pub fn push_flat(
    out: &mut Vec<u8>,
    writer: &mut RunWriter,
    parts: &[Nested],
    def: u32,
    from: usize,
    to: usize,
) -> Result<(), AllocError>
    requires reaches { Reaches to (parts_of parts.now) }
    requires low { def + length parts.now ≤ 256 }
    requires ordered { from ≤ to }
    requires holds { (i : ℕ) → flat_level (parts_of parts.now) def i < 2 ^ writer.old.width }
    ensures width { writer.new.width ≡ writer.old.width }
    ensures added { OnOk result ((start xs : List ℕ) → Keeps start out.old.items writer.old xs
        → Keeps start out.new.items writer.new (xs ++ levels_from (flat_level (parts_of parts.now) def) from
        (to - from))) }
    ensures kept { Extends out.old.items out.new.items }
{
    let (level, end) = first_run(parts, def, from, to);
    if from == end {
        return push_blocks(out, writer, parts, def, from, to);
    }
    writer.push(out, level, end - from)?;
    push_blocks(out, writer, parts, def, end, to)
}
