//! Measures how fast the level pairs of a list of optional numbers are walked: levels are decoded from their sections, and values from theirs. The first word
//! is the number of pages (one without it), the second the shape (all without it): `nulls`, `ones`, `fours`, `twos` or `random`. A page has about 65,536
//! pairs, and each has a fresh state. With `packed` or `copies` as the second word a million numbers in such runs are decoded alone, one by one
//! and as a whole list, as often as the first says.
//! Counts go to standard output, and times, which differ from run to run, to standard error.
#![tactic(auto)]

ghost use Rattle.std.specs.Prelude.{◌≡◌, ◌<◌};

mod runs;

use crate::runs::Runs;
use anyhow::Result;
use columns_core::{MutableBitmap, Offsets};
use level_sections::write_rep_and_def;
use levels::{ListNested, Nested, is_well_formed, num_values};
use pq_tree::Version;
use read_leaf::{NumberValues, PlainNumbers, PrimitiveDecoder};
use read_state::{InitNested, Steps, init_nested};
use read_walk::{NestedPage, extend_levels};
use std::alloc::Global;
use std::env;
use std::marker::Brand;
use std::sync::ledger::{Blank, Ledger};
use std::time::Instant;

/// What the lists of a page are like.
#[derive(Clone, Copy, Drop)]
enum Shape {
    /// All are null.
    Nulls,
    /// Each has one present item.
    Ones,
    /// Each has four present items.
    Fours,
    /// Each has two items, the second null.
    Twos,
    /// Null, empty, or of up to six items, a third of which are null.
    Random,
}

/// A page: its level sections, its values and its numbers of pairs and rows.
#[derive(Drop)]
struct Sections {
    levels: Vec<u8>,
    repetition: usize,
    values: Vec<u8>,
    pairs: usize,
    rows: usize,
}

/// Numbers as by chance.
#[derive(Clone, Copy, Drop)]
struct Chance {
    state: u64,
}

impl Chance {
    // One of the numbers below 64.
    fn next(&mut self) -> usize {
        self.state = self
            .state
            .wrapping_mul(6_364_136_223_846_793_005)
            .wrapping_add(1_442_695_040_888_963_407);
        (self.state >> 58) as usize
    }
}

// Whether the next list is null, and how many items it has.
fn next_list(shape: Shape, chance: &mut Chance) -> (bool, usize) {
    match shape {
        Shape::Nulls => (true, 0),
        Shape::Ones => (false, 1),
        Shape::Fours => (false, 4),
        Shape::Twos => (false, 2),
        Shape::Random => {
            let drawn = chance.next();
            (drawn % 8 == 7, drawn % 8 % 7)
        }
    }
}

// Whether the item at this place of its list is null.
fn is_null(shape: Shape, place: usize, chance: &mut Chance) -> bool {
    match shape {
        Shape::Twos => place == 1,
        Shape::Random => chance.next() % 3 == 0,
        _ => false,
    }
}

// The path of so many lists of a shape.
fn path_of(alloc: Global, shape: Shape, lists: usize) -> Result<Vec<Nested>> {
    let mut chance = Chance { state: 1 };
    let mut offsets = Offsets::<i32>::with_capacity(alloc, 0)?;
    let mut valid = MutableBitmap::with_capacity(alloc, 0)?;
    let mut present = MutableBitmap::with_capacity(alloc, 0)?;
    for _ in 0..lists {
        let (is_list_null, items) = next_list(shape, &mut chance);
        valid.push(!is_list_null)?;
        offsets.try_push_usize(items)?;
        for place in 0..items {
            present.push(!is_null(shape, place, &mut chance))?;
        }
    }
    let list = ListNested::new(offsets.into_buffer()?, Some(valid.into_bitmap()?), true);
    let present = present.into_bitmap()?;
    let count = present.len();
    let mut path = Vec::new(alloc);
    path.push(Nested::List(list))?;
    path.push(Nested::Primitive(Some(present), true, count))?;
    Ok(path)
}

// The page of a path of so many rows, unless it is none that has levels.
fn page_of(alloc: Global, path: &[Nested], rows: usize) -> Result<Option<Sections>> {
    if !is_well_formed(path) || path.len() > 128 {
        return Ok(None);
    }
    let pairs = num_values(path);
    let mut levels = Vec::new(alloc);
    let (repetition, _) = write_rep_and_def(Version::V2, path, &mut levels)?;
    let mut values = Vec::new(alloc);
    for _ in 0..pairs {
        values.extend_from_slice(&[1, 2, 3, 4])?;
    }
    Ok(Some(Sections {
        levels,
        repetition,
        values,
        pairs,
        rows,
    }))
}

// How many slots the leaf gains by all pairs of the page, into a fresh state with room for its rows, as a column's reader makes it. The steps are
// counted in a ledger of their own.
fn walk_in<L: Ledger>(alloc: Global, page: &Sections, blank: Blank) -> Result<usize>
    requires name { blank.name ≡ L.name }
    requires parts { blank.parts ≡ L.parts }
    requires some { 0 < blank.parts }
{
    let mut steps: Steps<L> = Steps::new(blank);
    let parts = [InitNested::List(true), InitNested::Primitive(true)];
    let mut nested = init_nested(alloc, &parts, page.rows.min(65_536))?;
    let mut decoded = NumberValues::<i32>::new(alloc);
    let (reps, defs) = page.levels.split_at(page.repetition.min(page.levels.len()));
    let mut pairs = NestedPage::try_new(reps, 1, defs, 3, page.pairs)?;
    let mut values = PlainNumbers {
        values: &page.values,
    };
    let decoder = PrimitiveDecoder::<i32, i32>::new();
    extend_levels(
        &mut pairs,
        &mut values,
        &mut nested,
        &mut decoded,
        &decoder,
        usize::MAX,
        &mut steps,
    )?;
    Ok(decoded.len())
}

fn walk(alloc: Global, page: &Sections) -> Result<usize> {
    walk_in::<Brand>(alloc, page, Blank::new(1))
}

// Takes the memory of many pages and gives it back, and answers how much that was. The C library keeps twice the largest block that it was given back, as
// in a program that has read pages of a megabyte; before that it gives each state's memory back to the system, which then takes longer than the walk.
fn give_back(alloc: Global, page: &Sections) -> Result<usize> {
    let mut block = Vec::new(alloc);
    for _ in 0..64 {
        block.extend_from_slice(&page.values)?;
    }
    Ok(block.len())
}

// Walks so many pages of the shape.
fn measure(rt: &HostRuntime, shape: Shape, pages: usize) -> Result<()> {
    let (name, lists) = match shape {
        Shape::Nulls => ("null lists", 65_536),
        Shape::Ones => ("lists of one item", 65_536),
        Shape::Fours => ("lists of four items", 16_384),
        Shape::Twos => ("lists of two items, the second null", 32_768),
        Shape::Random => ("random", 21_845),
    };
    let path = path_of(rt.alloc(), shape, lists)?;
    let Some(page) = page_of(rt.alloc(), &path, lists)? else {
        return Ok(());
    };
    let given = give_back(rt.alloc(), &page)?;
    let start = Instant::now(rt)?;
    let mut slots: usize = 0;
    for _ in 0..pages {
        slots = slots.wrapping_add(walk(rt.alloc(), &page)?);
    }
    let time = start.elapsed(rt)?.as_nanos();
    let pairs = (page.pairs as u128).saturating_mul(pages as u128).max(1);
    println!(rt; "{name}: {} pairs a page, {slots} slots", page.pairs)?;
    eprintln!(rt;
        "{name}: {} hundredths of a nanosecond a pair, after {given} bytes were given back",
        time.saturating_mul(100) / pairs
    )?;
    Ok(())
}

// The runs that a word names.
fn runs_of(word: &str) -> Option<Runs> {
    match word {
        "packed" => Some(Runs::Packed),
        "copies" => Some(Runs::Copies),
        _ => None,
    }
}

// The shape that a word names.
fn shape_of(word: &str) -> Option<Shape> {
    match word {
        "nulls" => Some(Shape::Nulls),
        "ones" => Some(Shape::Ones),
        "fours" => Some(Shape::Fours),
        "twos" => Some(Shape::Twos),
        "random" => Some(Shape::Random),
        _ => None,
    }
}

fn main(rt: HostRuntime) -> Result<()> {
    let mut args = env::args(&rt)?;
    args.next();
    let pages = match args.next() {
        Some(word) => word.as_str().parse::<usize>()?,
        None => 1,
    };
    let asked = args.next();
    if let Some(word) = asked {
        if let Some(runs) = runs_of(word.as_str()) {
            runs::measure(&rt, runs, pages)?;
        }
        if let Some(shape) = shape_of(word.as_str()) {
            measure(&rt, shape, pages)?;
        }
        return Ok(());
    }
    for shape in [
        Shape::Nulls,
        Shape::Ones,
        Shape::Fours,
        Shape::Twos,
        Shape::Random,
    ] {
        measure(&rt, shape, pages)?;
    }
    Ok(())
}
