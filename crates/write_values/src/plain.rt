//! The plain spelling of the values that a path reaches.
ghost use Rattle.std.specs.Prelude.{◌≡◌, ◌≤◌, map, IfOk, IfErr};
ghost use Rattle.columns_base.specs.declared.error.Error.TheVariants.{Memory};
ghost use Rattle.shredding.specs.Parts.{IsPath};
ghost use Rattle.levels.specs.Nested.{parts_of};
ghost use Rattle.levels.specs.Ranges.{leaf_count_or};
ghost use Rattle.pq_files.specs.Layout.{plain_length};
ghost use Rattle.pq_files.specs.Room.{max_size};
ghost use Rattle.write_places.specs.Places.{path_places};
ghost use Rattle.write_values.specs.Rows.{AppendsPlain};

use crate::row::LeafValues;
use columns_core::Result;
use levels::Nested;
use write_places::{Taker, take_places};

// Appends the plain spelling of the values that it takes.
#[derive(Drop)]
struct Plain<'a, L> {
    leaf: &'a L,
    out: Vec<u8>,
}

impl<'a, L: LeafValues> Taker for Plain<'a, L> {
    ghost use Rattle.std.specs.Prelude.{◌≡◌, ◌≤◌, ℕ, List, map, refl};
    ghost use Rattle.columns_base.specs.declared.error.Error.TheVariants.{Memory};
    ghost use Rattle.pq_files.specs.Layout.{plain_length};
    ghost use Rattle.pq_files.specs.Room.{max_size};
    ghost use Rattle.write_values.specs.Rows.{AppendsRow, row-none};
    ghost use Rattle.write_values.specs.Lengths.{front_fits, back_fits};

    ghost limit = { λ s. L.count s.leaf.now };

    ghost has = { λ a b places. (b.leaf.now ≡ a.leaf.now) × AppendsRow
        (L.physical a.leaf.now) a.out.items b.out.items (map (L.stored a.leaf.now) places) };

    ghost sound = { λ s. Unit {0} };

    ghost accepts = { λ s places. plain_length (L.physical s.leaf.now) (map (L.stored s.leaf.now) places) ≤ max_size };

    ghost refuses = { λ s e. e ≡ Memory };

    ghost none = { λ s. (refl, row-none (L.physical s.leaf.now) s.out.items) };

    ghost front = { λ s xs ys h. front_fits (L.physical s.leaf.now) (L.stored s.leaf.now) xs ys
        (L.in_a_row s.leaf.now) h };

    ghost back = { λ s xs ys h. back_fits (L.physical s.leaf.now) (L.stored s.leaf.now) xs ys
        (L.in_a_row s.leaf.now) h };

    fn take(&mut self, from: usize, to: usize) -> Result<()> {
        self.leaf.push_plain(&mut self.out, from, to)?;
        Ok(())
    }

    fn take_some(&mut self, from: usize, bits: u64, count: usize) -> Result<()> {
        self.leaf.push_some(&mut self.out, from, bits, count)?;
        Ok(())
    }
}

// Appends the plain spelling of the values that a path reaches, which has at most 2^31 - 1 bytes.
pub fn push_row<L: LeafValues>(leaf: &L, nested: &[Nested], out: Vec<u8>) -> Result<Vec<u8>>
    requires well { IsPath (parts_of nested.now) }
    requires leaf { leaf_count_or 0 (parts_of nested.now) ≤ L.count leaf.now }
    requires small { plain_length (L.physical leaf.now) (map (L.stored leaf.now) (path_places (parts_of nested.now)))
        ≤ max_size }
    ensures ok { IfOk result (λ body. AppendsPlain (L.physical leaf.now) out.items body.items
        (map (L.stored leaf.now) (path_places (parts_of nested.now)))) }
    ensures err { IfErr result (λ e. e ≡ Memory) }
{
    let mut plain = Plain { leaf, out };
    take_places(&mut plain, nested)?;
    Ok(plain.out)
}
