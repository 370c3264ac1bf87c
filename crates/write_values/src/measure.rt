//! How many values a path reaches, and how many bytes they take.
ghost use Rattle.std.specs.Prelude.{◌≡◌, ◌*◌, ◌<◌, ◌≤◌, ◌∷◌, [], ℕ, List, cond, false, length, map, slice_index_or, IfSome};
ghost use Rattle.shredding.specs.Parts.{IsPath, slot_count};
ghost use Rattle.levels.specs.Nested.{parts_of};
ghost use Rattle.levels.specs.Ranges.{leaf_count_or};
ghost use Rattle.pq_files.specs.Layout.{plain_length};
ghost use Rattle.write_places.specs.Places.{gather, path_places};
ghost use Rattle.write_places.specs.There.{is_there, there_places};
ghost use Rattle.write_values.specs.Rows.{Measures};

use crate::measured::Measured;
use crate::row::LeafValues;
use columns_core::{Bitmap, Result};
use levels::Nested;
use write_places::{Taker, take_places};

// Counts values and the bytes of their plain spelling, each up to the largest number.
#[derive(Drop)]
struct Measuring<'a, L> {
    leaf: &'a L,
    measured: Measured,
}

impl<'a, L: LeafValues> Taker for Measuring<'a, L> {
    ghost use Rattle.std.specs.Prelude.{◌≡◌, ℕ, List, refl};
    ghost use Rattle.write_values.specs.Rows.{Adds, adds-none};

    ghost limit = { λ s. L.count s.leaf.now };

    ghost has = { λ a b places. (b.leaf.now ≡ a.leaf.now) × Adds (L.physical a.leaf.now) (L.count a.leaf.now)
        (L.stored a.leaf.now) places a.measured b.measured };

    ghost sound = { λ s. Unit {0} };

    ghost accepts = { λ s places. Unit {0} };

    ghost refuses = { λ s e. ⊥ };

    ghost none = { λ s. (
      refl,
      adds-none (L.physical s.leaf.now) (L.count s.leaf.now)
          (L.stored s.leaf.now) s.measured,
    ) };

    ghost front = { λ s xs ys h. tt };

    ghost back = { λ s xs ys h. tt };

    fn take(&mut self, from: usize, to: usize) -> Result<()> {
        let plain = self.leaf.plain_size(from, to);
        self.measured = Measured {
            values: self.measured.values.saturating_add(to - from),
            plain: self.measured.plain.saturating_add(plain),
        };
        Ok(())
    }

    fn take_some(&mut self, from: usize, bits: u64, count: usize) -> Result<()> {
        let plain = self.leaf.some_size(from, bits, count);
        self.measured = Measured {
            values: self
                .measured
                .values
                .saturating_add(bits.count_ones() as usize),
            plain: self.measured.plain.saturating_add(plain),
        };
        Ok(())
    }
}

// The number of the values that a path reaches and that of the bytes of their plain spelling. It takes no memory.
pub fn measure_row<L: LeafValues>(leaf: &L, nested: &[Nested]) -> Measured
    requires well { IsPath (parts_of nested.now) }
    requires leaf { leaf_count_or 0 (parts_of nested.now) ≤ L.count leaf.now }
    ensures { Measures (L.physical leaf.now) (L.count leaf.now) (L.stored leaf.now)
        (path_places (parts_of nested.now)) result }
{
    let mut measuring = Measuring {
        leaf,
        measured: Measured {
            values: 0,
            plain: 0,
        },
    };
    match take_places(&mut measuring, nested) {
        Ok(()) => measuring.measured,
        Err(_) => unreachable!(),
    }
}

// How many positions a mask keeps, 64 at a time.
fn kept(mask: &Bitmap) -> usize
    ensures { result ≡ length (gather (λ i. cond (slice_index_or mask.now i false) (i ∷ []) []) 0 (length mask.now)) }
{
    let size = mask.len();
    let mut kept = 0;
    let mut place = 0;
    while size - place >= 64 {
        kept += mask.word_at(place, 64).count_ones() as usize;
        place += 64;
    }
    kept + mask.word_at(place, size - place).count_ones() as usize
}

// The mask of a path that is no more than an optional leaf with one.
fn flat_mask(nested: &[Nested]) -> Option<&Bitmap>
    requires well { IsPath (parts_of nested.now) }
    ensures size { IfSome result (λ mask. length mask.now ≡ slot_count (parts_of nested.now)) }
    ensures tell { IfSome result (λ mask. (i : ℕ) → i < slot_count (parts_of nested.now)
        → slice_index_or mask.now i false ≡ is_there (parts_of nested.now) i) }
    ensures leaf { IfSome result (λ _. (i : ℕ) → there_places (parts_of nested.now) i ≡ i ∷ []) }
    ensures room { IfSome result (λ _. slot_count (parts_of nested.now) ≤ leaf_count_or 0 (parts_of nested.now)) }
{
    let Some((part, _)) = nested.split_first() else {
        unreachable!()
    };
    match part {
        Nested::Primitive(Some(mask), true, _) => Some(mask),
        _ => None,
    }
}

// The same of values that all have so many bytes. It takes no memory.
pub fn measure_fixed<L: LeafValues>(leaf: &L, width: usize, nested: &[Nested]) -> Measured
    requires well { IsPath (parts_of nested.now) }
    requires leaf { leaf_count_or 0 (parts_of nested.now) ≤ L.count leaf.now }
    requires each { (places : List ℕ) → length places * width ≡ plain_length (L.physical leaf.now)
        (map (L.stored leaf.now) places) }
    ensures { Measures (L.physical leaf.now) (L.count leaf.now) (L.stored leaf.now)
        (path_places (parts_of nested.now)) result }
{
    match flat_mask(nested) {
        Some(mask) => {
            let values = kept(mask);
            Measured {
                values,
                plain: values as u128 * width as u128,
            }
        }
        None => measure_row(leaf, nested),
    }
}
