//! Deltas of the values that a path reaches, which go from the leaf array to the encoder one by one.
ghost use Rattle.std.specs.Prelude.{◌≡◌, ◌+◌, ◌-◌, ◌^◌, ◌<◌, ◌≤◌, length, map, OnOk, IfOk, IfErr};
ghost use mir.Val.{bits};
ghost use Rattle.columns_base.specs.declared.error.Error.TheVariants.{Memory};
ghost use Rattle.shredding.specs.Parts.{IsPath};
ghost use Rattle.levels.specs.Nested.{parts_of};
ghost use Rattle.levels.specs.Ranges.{leaf_count_or};
ghost use Rattle.pq_files.specs.Page.{delta};
ghost use Rattle.write_places.specs.Places.{path_places, picked, range};
ghost use Rattle.write_values.specs.Deltas.{AppendsSpelled};
ghost use Rattle.write_values.specs.Feeding.{AppendsDeltas, AreNumbersOf, FeedsRow};

use columns_core::Result;
use levels::Nested;
use pq_deltas::delta_bitpacked::Encoder;
use std::alloc::AllocError;
use write_places::{Taker, take_places};

/// The values of a leaf array of which deltas are taken: numbers as a column stores them, or byte strings, of which the lengths are taken.
pub trait DeltaValues: Drop {
    ghost use Rattle.std.specs.Prelude.{◌≡◌, ◌≤◌, ◌<◌, ◌∷◌, [], ℕ, OnOk};
    ghost use Rattle.std.specs.Int.{Width};
    ghost use mir.Val.{bits};
    ghost use Rattle.shredding.specs.Slot.{Value};
    ghost use Rattle.pq_tree.specs.Physical.{Physical};
    ghost use Rattle.write_values.specs.Feeding.{FeedsRow};

    // the bits of each number
    ghost width: { Width };

    // the physical type of the column
    ghost physical: { Physical };

    // the number of places
    ghost places: { Self → ℕ };

    // the stored value at each place
    ghost at: { Self → ℕ → Value };

    /// The number of places.
    fn len(&self) -> usize
        ensures { result ≡ places self.now };

    /// The encoder takes the number of the value at a place.
    ///
    /// # Errors
    ///
    /// Want of memory.
    fn push_one(
        &self,
        encoder: &mut Encoder,
        out: &mut Vec<u8>,
        i: usize,
    ) -> std::result::Result<(), AllocError>
        requires { i < places self.now }
        ensures { OnOk result (FeedsRow width physical out.old.items encoder.old out.new.items encoder.new
            (at self.now i ∷ [])) };

    ghost narrow: { bits width ≤ 64 };
}

// The encoder takes the numbers of the values of a stretch.
fn push_each<D: DeltaValues>(
    values: &D,
    encoder: &mut Encoder,
    out: &mut Vec<u8>,
    from: usize,
    to: usize,
) -> std::result::Result<(), AllocError>
    requires ordered { from ≤ to }
    requires within { to ≤ D.places values.now }
    ensures { OnOk result (FeedsRow D.width D.physical out.old.items encoder.old out.new.items encoder.new
        (map (D.at values.now) (range from (to - from)))) }
{
    for i in from..to {
        values.push_one(encoder, out, i)?;
    }
    Ok(())
}

// The encoder takes the numbers of the values at picked places.
fn push_picked<D: DeltaValues>(
    values: &D,
    encoder: &mut Encoder,
    out: &mut Vec<u8>,
    from: usize,
    bits: u64,
    count: usize,
) -> std::result::Result<(), AllocError>
    requires few { count ≤ 64 }
    requires low { bits < 2 ^ count }
    requires within { from + count ≤ D.places values.now }
    ensures { OnOk result (FeedsRow D.width D.physical out.old.items encoder.old out.new.items encoder.new
        (map (D.at values.now) (picked bits from count))) }
{
    let _places = values.len();
    let mut left = bits;
    while left != 0 {
        let i = left.trailing_zeros() as usize;
        values.push_one(encoder, out, from + i)?;
        left ^= 1 << i;
    }
    Ok(())
}

// Hands the values that it takes to an encoder.
#[derive(Drop)]
struct Feeding<'a, D> {
    values: &'a D,
    encoder: Encoder,
    out: Vec<u8>,
}

impl<'a, D: DeltaValues> Taker for Feeding<'a, D> {
    ghost use Rattle.std.specs.Prelude.{◌≡◌, ℕ, List, map, refl};
    ghost use Rattle.columns_base.specs.declared.error.Error.TheVariants.{Memory};
    ghost use Rattle.write_values.specs.Feeding.{FeedsRow, feeds-nothing};

    ghost limit = { λ s. D.places s.values.now };

    ghost has = { λ a b places. (b.values.now ≡ a.values.now)
        × FeedsRow D.width D.physical a.out.items a.encoder b.out.items b.encoder (map (D.at a.values.now) places) };

    ghost sound = { λ s. Unit {0} };

    ghost accepts = { λ s places. Unit {0} };

    ghost refuses = { λ s e. e ≡ Memory };

    ghost none = { λ s. (refl, feeds-nothing D.width D.physical s.out.items s.encoder) };

    ghost front = { λ s xs ys h. tt };

    ghost back = { λ s xs ys h. tt };

    fn take(&mut self, from: usize, to: usize) -> Result<()> {
        push_each(self.values, &mut self.encoder, &mut self.out, from, to)?;
        Ok(())
    }

    fn take_some(&mut self, from: usize, bits: u64, count: usize) -> Result<()> {
        push_picked(
            self.values,
            &mut self.encoder,
            &mut self.out,
            from,
            bits,
            count,
        )?;
        Ok(())
    }
}

// Appends the deltas of the numbers of so many values that a path reaches. It takes no memory but theirs.
pub fn push_row_deltas<D: DeltaValues>(
    values: &D,
    nested: &[Nested],
    count: usize,
    out: Vec<u8>,
) -> Result<Vec<u8>>
    requires well { IsPath (parts_of nested.now) }
    requires leaf { leaf_count_or 0 (parts_of nested.now) ≤ D.places values.now }
    requires count { count ≡ length (path_places (parts_of nested.now)) }
    ensures ok { IfOk result (λ body. AppendsDeltas D.width D.physical out.items body.items
        (map (D.at values.now) (path_places (parts_of nested.now)))) }
    ensures err { IfErr result (λ e. e ≡ Memory) }
{
    let mut out = out;
    let encoder = Encoder::new(&mut out, count)?;
    let mut feeding = Feeding {
        values,
        encoder,
        out,
    };
    take_places(&mut feeding, nested)?;
    let mut out = feeding.out;
    feeding.encoder.finish(&mut out)?;
    Ok(out)
}

// Appends so many numbers that a path reaches, spelled by deltas.
pub fn push_number_deltas<D: DeltaValues>(
    values: &D,
    nested: &[Nested],
    count: usize,
    out: Vec<u8>,
) -> Result<Vec<u8>>
    requires numbers { AreNumbersOf D.physical D.width }
    requires well { IsPath (parts_of nested.now) }
    requires leaf { leaf_count_or 0 (parts_of nested.now) ≤ D.places values.now }
    requires count { count ≡ length (path_places (parts_of nested.now)) }
    ensures ok { IfOk result (λ body. AppendsSpelled delta D.physical out.items body.items
        (map (D.at values.now) (path_places (parts_of nested.now)))) }
    ensures err { IfErr result (λ e. e ≡ Memory) }
{
    push_row_deltas(values, nested, count, out)
}
