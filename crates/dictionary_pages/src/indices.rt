//! The places of the entries that keys name, as runs (Parquet format, Encodings, "Dictionary Encoding" and "Run Length Encoding / Bit-Packing
//! Hybrid").
ghost use Rattle.std.specs.Prelude.{◌≡◌, ◌<◌, ◌≤◌, ◌^◌, All, length, map, IfOk, IfErr};
ghost use Rattle.shredding.specs.Parts.{IsPath};
ghost use Rattle.columns_base.specs.declared.error.Error.TheVariants.{Memory};
ghost use Rattle.columns_leaf.specs.Keyed.{keys_of};
ghost use Rattle.columns_slots.specs.Slots.{entry_at};
ghost use Rattle.levels.specs.Nested.{parts_of};
ghost use Rattle.levels.specs.Ranges.{leaf_count_or};
ghost use Rattle.pq_runs.specs.Writing.{AppendsRuns};
ghost use Rattle.write_places.specs.Places.{path_places};
ghost use Rattle.dictionary_pages.specs.Indices.{AppendsIndices, IsLargest};

use crate::each_place::{EachPlace, take_each};
use crate::keys::entry_at;
use columns_core::Result;
use columns_leaf::keys::DictionaryKeys;
use levels::Nested;
use pq_runs::{RunWriter, get_bit_width};

// Writes the places of entries.
#[derive(Drop)]
struct Indices<'a> {
    keys: &'a DictionaryKeys,
    writer: RunWriter,
    out: Vec<u8>,
}

impl<'a> EachPlace for Indices<'a> {
    ghost use Rattle.std.specs.Prelude.{◌≡◌, ◌<◌, ◌^◌, length, refl};
    ghost use Rattle.columns_base.specs.declared.error.Error.TheVariants.{Memory};
    ghost use Rattle.columns_leaf.specs.Keyed.{keys_of};
    ghost use Rattle.columns_slots.specs.Slots.{entry_at};
    ghost use Rattle.dictionary_pages.specs.Indices.{Writes, writes-none};

    ghost limit = { λ s. length (keys_of s.keys.now) };

    ghost has = { λ a b places. (b.keys.now ≡ a.keys.now) × Writes
        (keys_of a.keys.now) places a.out.items a.writer b.out.items b.writer };

    ghost accepts = { λ s i. (entry_at (keys_of s.keys.now) i < 2 ^ 32)
        × (entry_at (keys_of s.keys.now) i < 2 ^ s.writer.width) };

    ghost refuses = { λ s e. e ≡ Memory };

    ghost none = { λ s. (refl, writes-none (keys_of s.keys.now) s.out.items s.writer) };

    fn len(&self) -> usize {
        self.keys.len()
    }

    fn take_one(&mut self, place: usize) -> Result<()> {
        let index = entry_at(self.keys, place) as u32;
        self.writer.push(&mut self.out, index, 1)?;
        Ok(())
    }
}

// Appends runs of so many bits of the places of the entries that the keys name which a path reaches.
fn push_runs(keys: &DictionaryKeys, nested: &[Nested], width: u32, out: Vec<u8>) -> Result<Vec<u8>>
    requires well { IsPath (parts_of nested.now) }
    requires leaf { leaf_count_or 0 (parts_of nested.now) ≤ length (keys_of keys.now) }
    requires some { 1 ≤ width }
    requires most { width ≤ 32 }
    requires low { All (λ i. (entry_at (keys_of keys.now) i < 2 ^ 32) × (entry_at (keys_of keys.now) i < 2 ^ width))
        (path_places (parts_of nested.now)) }
    ensures ok { IfOk result (λ after. AppendsRuns width out.items after.items
        (map (entry_at (keys_of keys.now)) (path_places (parts_of nested.now)))) }
    ensures err { IfErr result (λ e. e ≡ Memory) }
{
    let indices = Indices {
        keys,
        writer: RunWriter::new(width),
        out,
    };
    let taken = take_each(indices, nested)?;
    let mut out = taken.out;
    taken.writer.finish(&mut out)?;
    Ok(out)
}

// Appends the places of the entries that the keys name which a path reaches: a byte with the least width that holds them, and runs. The
// largest place is told.
pub fn push_indices(
    keys: &DictionaryKeys,
    nested: &[Nested],
    largest: usize,
    out: Vec<u8>,
) -> Result<Vec<u8>>
    requires well { IsPath (parts_of nested.now) }
    requires leaf { leaf_count_or 0 (parts_of nested.now) ≤ length (keys_of keys.now) }
    requires largest { IsLargest (map (entry_at (keys_of keys.now)) (path_places (parts_of nested.now))) largest }
    requires low { largest < 2 ^ 32 }
    ensures ok { IfOk result (λ after. AppendsIndices out.items after.items
        (map (entry_at (keys_of keys.now)) (path_places (parts_of nested.now)))) }
    ensures err { IfErr result (λ e. e ≡ Memory) }
{
    let mut out = out;
    let width = get_bit_width(largest as u64);
    out.push(width as u8)?;
    if width == 0 {
        return Ok(out);
    }
    let written = push_runs(keys, nested, width, out)?;
    Ok(written)
}
