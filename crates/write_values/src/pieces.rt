//! Byte strings by their offsets, spelled as their lengths and behind these their bytes (Parquet format, Encodings, "Delta-length byte array").
ghost use Rattle.std.specs.Prelude.{◌≡◌, ◌+◌, ◌-◌, ◌^◌, ◌<◌, ◌≤◌, ◌++◌, length, map, flat_map, slice_index_or, OnOk, IfOk, IfErr};
ghost use Rattle.columns_base.specs.declared.error.Error.TheVariants.{Memory};
ghost use Rattle.columns_slots.specs.Bytes.{pieces_values};
ghost use Rattle.columns_slots.specs.Slots.{IsPlaces};
ghost use Rattle.shredding.specs.Parts.{IsPath};
ghost use Rattle.levels.specs.Nested.{parts_of};
ghost use Rattle.levels.specs.Ranges.{leaf_count_or};
ghost use Rattle.pq_tree.specs.Physical.{byte_array};
ghost use Rattle.pq_files.specs.Layout.{plain_length};
ghost use Rattle.pq_files.specs.Page.{delta_length};
ghost use Rattle.pq_files.specs.Room.{max_size};
ghost use Rattle.write_places.specs.Places.{path_places, picked, range};
ghost use Rattle.write_values.specs.Deltas.{AppendsSpelled};
ghost use Rattle.write_values.specs.Feeding.{places-prop, text_of};
ghost use Rattle.write_values.specs.Numbers.{at_place};

use crate::feeding::{DeltaValues, push_row_deltas};
use crate::strings::string_at;
use columns_core::{Offset, OffsetsBuffer, Result};
use levels::Nested;
use pq_deltas::delta_bitpacked::Encoder;
use std::alloc::AllocError;
use write_places::{Taker, take_places};

// Byte strings that lie one behind the other, between offsets.
#[derive(Drop)]
pub struct Pieces<'a, O: Offset> {
    offsets: &'a OffsetsBuffer<O>,
    all: &'a [u8],
    ghost within: { IsPlaces offsets.now (length all.now) } by { places-prop offsets.now (length all.now) },
}

impl<'a, O: Offset> Pieces<'a, O> {
    // The strings between these offsets.
    pub fn new(offsets: &'a OffsetsBuffer<O>, all: &'a [u8]) -> Self
        requires { IsPlaces offsets.now (length all.now) }
        ensures offsets { result.offsets.now ≡ offsets.now }
        ensures all { result.all.now ≡ all.now }
    {
        Pieces { offsets, all }
    }
}

impl<'a, O: Offset> DeltaValues for Pieces<'a, O> {
    ghost use Rattle.std.specs.Prelude.{length};
    ghost use Rattle.std.specs.Int.{w32};
    ghost use Rattle.std.proofs.Common.{lit≤};
    ghost use Rattle.columns_slots.specs.Bytes.{pieces_values};
    ghost use Rattle.pq_tree.specs.Physical.{byte_array};
    ghost use Rattle.write_values.specs.Numbers.{at_place};

    ghost width = { w32 };

    ghost physical = { byte_array };

    ghost places = { λ s. length (pieces_values s.offsets.now s.all.now) };

    ghost at = { λ s. at_place (pieces_values s.offsets.now s.all.now) };

    ghost narrow = { lit≤ tt };

    fn len(&self) -> usize {
        self.offsets.len_proxy()
    }

    fn push_one(
        &self,
        encoder: &mut Encoder,
        out: &mut Vec<u8>,
        i: usize,
    ) -> std::result::Result<(), AllocError> {
        let string = string_at(self.offsets, self.all, i);
        let size = (string.len() % (1 << 32)) as u32;
        encoder.push_i32(out, size.cast_signed())
    }
}

// The bytes of the strings of a stretch, which lie side by side.
#[tactic(auto, using(levels::proofs::Rising::rising, crate::proofs::Fed::place_up))]
fn bytes_between<'a, O: Offset>(
    offsets: &OffsetsBuffer<O>,
    all: &'a [u8],
    from: usize,
    to: usize,
) -> &'a [u8]
    requires places { IsPlaces offsets.now (length all.now) }
    requires ordered { from ≤ to }
    requires within { to < length offsets.now }
    ensures { result.now ≡ flat_map text_of (map (at_place (pieces_values offsets.now all.entry.now))
        (range from (to - from))) }
{
    offsets.know();
    let start = offsets.place(from);
    let end = offsets.place(to);
    &all[start..end]
}

// Appends the bytes of the strings at picked places.
fn push_picked<O: Offset>(
    offsets: &OffsetsBuffer<O>,
    all: &[u8],
    out: &mut Vec<u8>,
    from: usize,
    bits: u64,
    count: usize,
) -> std::result::Result<(), AllocError>
    requires places { IsPlaces offsets.now (length all.now) }
    requires few { count ≤ 64 }
    requires low { bits < 2 ^ count }
    requires within { from + count < length offsets.now }
    ensures { OnOk result (out.new.items ≡ out.old.items ++ flat_map text_of
        (map (at_place (pieces_values offsets.now all.now)) (picked bits from count))) }
{
    let _strings = offsets.len_proxy();
    let mut left = bits;
    while left != 0 {
        let i = left.trailing_zeros() as usize;
        out.extend_from_slice(string_at(offsets, all, from + i))?;
        left ^= 1 << i;
    }
    Ok(())
}

// Appends the bytes of the strings that it takes.
#[derive(Drop)]
struct Joining<'a, O: Offset> {
    pieces: &'a Pieces<'a, O>,
    out: Vec<u8>,
}

impl<'a, O: Offset> Taker for Joining<'a, O> {
    ghost use Rattle.std.specs.Prelude.{◌≡◌, ◌++◌, ℕ, List, length, map, flat_map, refl};
    ghost use Rattle.std.proofs.Common.{sym, append-nil};
    ghost use Rattle.columns_base.specs.declared.error.Error.TheVariants.{Memory};
    ghost use Rattle.columns_slots.specs.Bytes.{pieces_values};
    ghost use Rattle.write_values.specs.Feeding.{text_of};
    ghost use Rattle.write_values.specs.Numbers.{at_place};

    ghost limit = { λ s. length (pieces_values s.pieces.now.offsets.now s.pieces.now.all.now) };

    ghost has = { λ a b places. (b.pieces.now ≡ a.pieces.now) ×
        (b.out.items ≡ a.out.items ++ flat_map text_of (map
        (at_place (pieces_values a.pieces.now.offsets.now a.pieces.now.all.now)) places)) };

    ghost sound = { λ s. Unit {0} };

    ghost accepts = { λ s places. Unit {0} };

    ghost refuses = { λ s e. e ≡ Memory };

    ghost none = { λ s. (refl, sym (append-nil s.out.items)) };

    ghost front = { λ s xs ys h. tt };

    ghost back = { λ s xs ys h. tt };

    fn take(&mut self, from: usize, to: usize) -> Result<()> {
        let pieces = self.pieces;
        let bytes = bytes_between(pieces.offsets, pieces.all, from, to);
        self.out.extend_from_slice(bytes)?;
        Ok(())
    }

    fn take_some(&mut self, from: usize, bits: u64, count: usize) -> Result<()> {
        let pieces = self.pieces;
        push_picked(pieces.offsets, pieces.all, &mut self.out, from, bits, count)?;
        Ok(())
    }
}

// Appends the bytes of the strings that a path reaches.
fn push_bytes<O: Offset>(pieces: &Pieces<'_, O>, nested: &[Nested], out: Vec<u8>) -> Result<Vec<u8>>
    requires well { IsPath (parts_of nested.now) }
    requires leaf { leaf_count_or 0 (parts_of nested.now) ≤ length
        (pieces_values pieces.now.offsets.now pieces.now.all.now) }
    ensures ok { IfOk result (λ body. body.items ≡ out.items ++ flat_map text_of
        (map (at_place (pieces_values pieces.now.offsets.now pieces.now.all.now))
        (path_places (parts_of nested.now)))) }
    ensures err { IfErr result (λ e. e ≡ Memory) }
{
    let mut joining = Joining { pieces, out };
    take_places(&mut joining, nested)?;
    Ok(joining.out)
}

// Appends so many strings that a path reaches, whose plain spelling has at most 2^31 - 1 bytes: the deltas of their lengths, and behind these
// their bytes.
pub fn push_string_deltas<O: Offset>(
    pieces: &Pieces<'_, O>,
    nested: &[Nested],
    count: usize,
    out: Vec<u8>,
) -> Result<Vec<u8>>
    requires well { IsPath (parts_of nested.now) }
    requires leaf { leaf_count_or 0 (parts_of nested.now) ≤ length
        (pieces_values pieces.now.offsets.now pieces.now.all.now) }
    requires count { count ≡ length (path_places (parts_of nested.now)) }
    requires small { plain_length byte_array (map (at_place (pieces_values pieces.now.offsets.now pieces.now.all.now))
        (path_places (parts_of nested.now))) ≤ max_size }
    ensures ok { IfOk result (λ body. AppendsSpelled delta_length byte_array out.items body.items
        (map (at_place (pieces_values pieces.now.offsets.now pieces.now.all.now))
        (path_places (parts_of nested.now)))) }
    ensures err { IfErr result (λ e. e ≡ Memory) }
{
    let out = push_row_deltas(pieces, nested, count, out)?;
    push_bytes(pieces, nested, out)
}
