//! Places of a leaf array that are taken one by one.
ghost use Rattle.std.specs.Prelude.{◌≤◌, All, IfOk, IfErr};
ghost use Rattle.shredding.specs.Parts.{IsPath};
ghost use Rattle.levels.specs.Nested.{parts_of};
ghost use Rattle.levels.specs.Ranges.{leaf_count_or};
ghost use Rattle.write_places.specs.Places.{path_places};

use columns_core::Result;
use levels::Nested;
use write_places::{Taker, take_places};

/// Takes places of a leaf array in order, one by one.
pub trait EachPlace: Drop {
    ghost use Rattle.std.specs.Prelude.{◌≡◌, ◌<◌, ℕ, List, [], ◌∷◌, ◌++◌, OnOk, IfErr};
    ghost use Rattle.columns_base.specs.declared.error.Error.{Error};

    // the number of places that there are
    ghost limit: { Self → ℕ };

    // from one state to the other it has taken these places
    ghost has: { Self → Self → List ℕ → Type 0 };

    // it can take this place
    ghost accepts: { Self → ℕ → Type 0 };

    // why it may be refused
    ghost refuses: { Self → Error → Type 0 };

    /// The number of places that there are.
    fn len(&self) -> usize
        ensures { result ≡ limit self.now };

    /// Takes one place more.
    fn take_one(&mut self, place: usize) -> Result<()>
        requires within { place < limit self.old }
        requires accepted { accepts self.old place }
        ensures limit { limit self.new ≡ limit self.old }
        ensures accepts { (i : ℕ) → accepts self.old i → accepts self.new i }
        ensures taken { OnOk result ((first : Self) (places : List ℕ) → has first self.old places
            → has first self.new (places ++ place ∷ [])) }
        ensures refused { IfErr result (refuses self.old) }
        ensures same { (e : Error) → refuses self.new e → refuses self.old e };

    ghost none: { (s : Self) → has s s [] };
}

// Takes the places of stretches one by one.
#[derive(Drop)]
struct OneByOne<T> {
    taker: T,
}

impl<T: EachPlace> Taker for OneByOne<T> {
    ghost use Rattle.std.specs.Prelude.{All};
    ghost use Rattle.dictionary_pages.specs.Taken.{front-all, back-all};

    ghost limit = { λ s. T.limit s.taker };

    ghost has = { λ a b places. T.has a.taker b.taker places };

    ghost sound = { λ s. Unit {0} };

    ghost accepts = { λ s places. All (T.accepts s.taker) places };

    ghost refuses = { λ s e. T.refuses s.taker e };

    ghost none = { λ s. T.none s.taker };

    ghost front = { λ s xs ys h. front-all (T.accepts s.taker) xs ys h };

    ghost back = { λ s xs ys h. back-all (T.accepts s.taker) xs ys h };

    fn take(&mut self, from: usize, to: usize) -> Result<()> {
        for place in from..to {
            self.taker.take_one(place)?;
        }
        Ok(())
    }

    fn take_some(&mut self, from: usize, bits: u64, count: usize) -> Result<()> {
        let _places = self.taker.len();
        let mut left = bits;
        while left != 0 {
            let i = left.trailing_zeros() as usize;
            self.taker.take_one(from + i)?;
            left ^= 1 << i;
        }
        Ok(())
    }
}

/// Hands on the places of the leaf array that a well-formed path reaches, one by one. No memory is taken but the taker's own.
///
/// # Errors
///
/// Those of the taker.
pub fn take_each<T: EachPlace>(taker: T, nested: &[Nested]) -> Result<T>
    requires well { IsPath (parts_of nested.now) }
    requires leaf { leaf_count_or 0 (parts_of nested.now) ≤ T.limit taker }
    requires accepted { All (T.accepts taker) (path_places (parts_of nested.now)) }
    ensures taken { IfOk result (λ after. T.has taker after (path_places (parts_of nested.now))) }
    ensures refused { IfErr result (T.refuses taker) }
{
    let mut each = OneByOne { taker };
    take_places(&mut each, nested)?;
    Ok(each.taker)
}
