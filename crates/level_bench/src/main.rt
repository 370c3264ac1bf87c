//! Measures how fast the levels of a path are given and written, on paths of so many level pairs: one whose levels repeat (lists of
//! four present items), one whose levels alternate (lists of two items, the second a null), one without lists whose nulls come as by
//! chance, and three more by chance: lists, lists of structs of lists of lists, and structs. The number of pairs is the first word, a
//! thousand without one. A second word picks what is measured: `iterators` or `sections`, both without one. A third picks the path:
//! `repeats`, `alternates`, `flat`, `random`, `deep` or `structs`, the first three without one. A fourth is how often the sections are
//! written, so that what one more time costs can be told from all the rest.
//! Counts and sizes go to standard output, and times, which differ from run to run, to standard error.
#![tactic(auto)]

ghost use Rattle.std.specs.Prelude.{◌<◌};

use anyhow::Result;
use columns_core::{MutableBitmap, Offsets};
use level_sections::write_rep_and_def;
use levels::{DefLevelsIter, ListNested, Nested, RepLevelsIter, is_well_formed, num_values};
use pq_tree::Version;
use std::alloc::Global;
use std::env;
use std::time::Instant;

/// What the levels of a path are like.
#[derive(Clone, Copy, Drop)]
enum Kind {
    /// Lists of four present items.
    Repeats,
    /// Lists of two items, the second a null.
    Alternates,
    /// No lists, and a null at every other place as by chance.
    Flat,
    /// Lists of up to five items as by chance, of which one in ten is null; of the items one in eight.
    Random,
    /// Lists of structs of lists of lists of structs of numbers, as by chance.
    Deep,
    /// No lists, but two structs above a leaf, of each of which one in eight is null as by chance.
    Structs,
}

/// What is measured.
#[derive(Clone, Copy, Drop)]
struct Asked {
    pairs: usize,
    iterators: bool,
    sections: bool,
    kind: Option<Kind>,
    times: usize,
}

// A path of a list over an optional leaf, with about so many level pairs.
fn lists_of(alloc: Global, items: usize, pairs: usize) -> Result<Vec<Nested>>
    requires { 0 < items }
{
    let mut offsets = Offsets::<i32>::with_capacity(alloc, 0)?;
    let mut mask = MutableBitmap::with_capacity(alloc, 0)?;
    for _ in 0..pairs / items {
        offsets.try_push_usize(items)?;
    }
    let count = pairs / items * items;
    for i in 0..count {
        mask.push(items > 2 || i % 2 == 0)?;
    }
    let mut path = Vec::new(alloc);
    path.push(Nested::List(ListNested::new(offsets.into_buffer()?, None, true)))?;
    path.push(Nested::Primitive(Some(mask.into_bitmap()?), true, count))?;
    Ok(path)
}

// A path of an optional leaf alone.
fn flat_of(alloc: Global, pairs: usize) -> Result<Vec<Nested>> {
    let mut mask = MutableBitmap::with_capacity(alloc, 0)?;
    let mut state: u64 = 1;
    for _ in 0..pairs {
        state = state
            .wrapping_mul(6_364_136_223_846_793_005)
            .wrapping_add(1_442_695_040_888_963_407);
        mask.push(state >> 63 == 1)?;
    }
    let mut path = Vec::new(alloc);
    path.push(Nested::Primitive(Some(mask.into_bitmap()?), true, pairs))?;
    Ok(path)
}

// The next number as by chance, below a bound.
fn next_below(state: &mut u64, bound: u64) -> u64
    requires { 0 < bound }
{
    *state = state
        .wrapping_mul(6_364_136_223_846_793_005)
        .wrapping_add(1_442_695_040_888_963_407);
    (*state >> 33) % bound
}

// So many truth values as by chance, of which one in so many is false.
fn random_mask(alloc: Global, state: &mut u64, count: usize, nulls: u64) -> Result<MutableBitmap>
    requires { 0 < nulls }
{
    let mut mask = MutableBitmap::with_capacity(alloc, 0)?;
    for _ in 0..count {
        mask.push(next_below(state, nulls) > 0)?;
    }
    Ok(mask)
}

// So many lists as by chance, and the number of their items.
fn random_lists(alloc: Global, state: &mut u64, count: usize) -> Result<(Nested, usize)> {
    let mut offsets = Offsets::<i32>::with_capacity(alloc, 0)?;
    let mut mask = MutableBitmap::with_capacity(alloc, 0)?;
    let mut items: usize = 0;
    for _ in 0..count {
        let there = next_below(state, 10) > 0;
        let size = if there {
            next_below(state, 6) as usize
        } else {
            0
        };
        mask.push(there)?;
        offsets.try_push_usize(size)?;
        items = items.saturating_add(size);
    }
    let list = ListNested::new(offsets.into_buffer()?, Some(mask.into_bitmap()?), true);
    Ok((Nested::List(list), items))
}

// A path of lists as by chance over an optional leaf.
fn random_of(alloc: Global, pairs: usize) -> Result<Vec<Nested>> {
    let mut state = 1;
    let mut path = Vec::new(alloc);
    let (lists, items) = random_lists(alloc, &mut state, pairs / 5 * 2)?;
    path.push(lists)?;
    let mask = random_mask(alloc, &mut state, items, 8)?;
    path.push(Nested::Primitive(Some(mask.into_bitmap()?), true, items))?;
    Ok(path)
}

// A path of lists of structs of lists of lists of structs of numbers.
fn deep_of(alloc: Global, pairs: usize) -> Result<Vec<Nested>> {
    let mut state = 1;
    let mut path = Vec::new(alloc);
    let (lists, items) = random_lists(alloc, &mut state, pairs / 16)?;
    path.push(lists)?;
    let mask = random_mask(alloc, &mut state, items, 16)?;
    path.push(Nested::Struct(Some(mask.into_bitmap()?), true, items))?;
    let (lists, items) = random_lists(alloc, &mut state, items)?;
    path.push(lists)?;
    let (lists, items) = random_lists(alloc, &mut state, items)?;
    path.push(lists)?;
    let mask = random_mask(alloc, &mut state, items, 16)?;
    path.push(Nested::Struct(Some(mask.into_bitmap()?), true, items))?;
    let mask = random_mask(alloc, &mut state, items, 8)?;
    path.push(Nested::Primitive(Some(mask.into_bitmap()?), true, items))?;
    Ok(path)
}

// A path of two structs above a leaf, all optional.
fn structs_of(alloc: Global, pairs: usize) -> Result<Vec<Nested>> {
    let mut state = 1;
    let mut path = Vec::new(alloc);
    let mask = random_mask(alloc, &mut state, pairs, 8)?;
    path.push(Nested::Struct(Some(mask.into_bitmap()?), true, pairs))?;
    let mask = random_mask(alloc, &mut state, pairs, 8)?;
    path.push(Nested::Struct(Some(mask.into_bitmap()?), true, pairs))?;
    let mask = random_mask(alloc, &mut state, pairs, 8)?;
    path.push(Nested::Primitive(Some(mask.into_bitmap()?), true, pairs))?;
    Ok(path)
}

// A path with about so many level pairs.
fn path_of(alloc: Global, kind: Kind, pairs: usize) -> Result<Vec<Nested>> {
    match kind {
        Kind::Repeats => lists_of(alloc, 4, pairs),
        Kind::Alternates => lists_of(alloc, 2, pairs),
        Kind::Flat => flat_of(alloc, pairs),
        Kind::Random => random_of(alloc, pairs),
        Kind::Deep => deep_of(alloc, pairs),
        Kind::Structs => structs_of(alloc, pairs),
    }
}

// Both iterators over a path.
fn iterate(rt: &HostRuntime, path: &[Nested]) -> Result<()> {
    if !is_well_formed(path) {
        return Ok(());
    }
    if path.len() > 128 {
        return Ok(());
    }
    if num_values(path) == usize::MAX {
        return Ok(());
    }
    let start = Instant::now(rt)?;
    let mut sum: u64 = 0;
    for level in RepLevelsIter::new(rt.alloc(), path)? {
        sum = sum.wrapping_add(u64::from(level));
    }
    let repetition = start.elapsed(rt)?.as_micros();
    let start = Instant::now(rt)?;
    for level in DefLevelsIter::new(rt.alloc(), path)? {
        sum = sum.wrapping_add(u64::from(level));
    }
    let definition = start.elapsed(rt)?.as_micros();
    println!(rt; "  iterators: sum of levels {sum}")?;
    eprintln!(rt; "  iterators: repetition {repetition} us, definition {definition} us")?;
    Ok(())
}

// Both sections of a path, so many times.
fn write(rt: &HostRuntime, path: &[Nested], times: usize) -> Result<()> {
    if !is_well_formed(path) {
        return Ok(());
    }
    if path.len() > 128 {
        return Ok(());
    }
    let pairs = num_values(path);
    let mut out = Vec::new(rt.alloc());
    let mut sizes = (0, 0);
    let start = Instant::now(rt)?;
    for _ in 0..times {
        out.clear();
        sizes = write_rep_and_def(Version::V2, path, &mut out)?;
    }
    let time = start.elapsed(rt)?.as_micros();
    let (repetition, definition) = sizes;
    println!(rt; "  sections: {pairs} pairs, {repetition} and {definition} bytes")?;
    eprintln!(rt; "  sections: {time} us")?;
    Ok(())
}

// The path that a word names.
fn kind_of(word: &str) -> Option<Kind> {
    match word {
        "repeats" => Some(Kind::Repeats),
        "alternates" => Some(Kind::Alternates),
        "flat" => Some(Kind::Flat),
        "random" => Some(Kind::Random),
        "deep" => Some(Kind::Deep),
        "structs" => Some(Kind::Structs),
        _ => None,
    }
}

// The words: the number of pairs, a thousand without one, what is measured, of which path, and how often.
fn read_words(rt: &HostRuntime) -> Result<Asked> {
    let mut args = env::args(rt)?;
    args.next();
    let pairs = match args.next() {
        Some(word) => word.as_str().parse::<usize>()?,
        None => 1000,
    };
    let (iterators, sections) = match args.next() {
        Some(word) => (word.as_str() == "iterators", word.as_str() == "sections"),
        None => (true, true),
    };
    let kind = match args.next() {
        Some(word) => kind_of(word.as_str()),
        None => None,
    };
    let times = match args.next() {
        Some(word) => word.as_str().parse::<usize>()?,
        None => 1,
    };
    Ok(Asked {
        pairs,
        iterators,
        sections,
        kind,
        times,
    })
}

// What is asked for, of one kind of path.
fn measure(rt: &HostRuntime, asked: Asked, kind: Kind) -> Result<()> {
    let name = match kind {
        Kind::Repeats => "levels that repeat",
        Kind::Alternates => "levels that alternate",
        Kind::Flat => "levels without lists",
        Kind::Random => "levels of lists as by chance",
        Kind::Deep => "levels of lists of lists as by chance",
        Kind::Structs => "levels of structs as by chance",
    };
    println!(rt; "{name}")?;
    eprintln!(rt; "{name}")?;
    let path = path_of(rt.alloc(), kind, asked.pairs)?;
    if asked.iterators {
        iterate(rt, &path)?;
    }
    if asked.sections {
        write(rt, &path, asked.times)?;
    }
    Ok(())
}

fn main(rt: HostRuntime) -> Result<()> {
    let asked = read_words(&rt)?;
    match asked.kind {
        Some(kind) => measure(&rt, asked, kind),
        None => {
            measure(&rt, asked, Kind::Repeats)?;
            measure(&rt, asked, Kind::Alternates)?;
            measure(&rt, asked, Kind::Flat)
        }
    }
}
