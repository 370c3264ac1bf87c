//! What takes the places of a leaf array.
use columns_core::Result;

/// Takes places of a leaf array in order, stretch by stretch: a reader of the values there that counts them, or writes them.
pub trait Taker: Drop {
    ghost use Rattle.std.specs.Prelude.{◌≡◌, ◌≤◌, ◌<◌, ◌+◌, ◌-◌, ◌^◌, ◌++◌, ℕ, List, [], OnOk, IfErr};
    ghost use Rattle.write_places.specs.Places.{range, picked};
    ghost use Rattle.columns_base.specs.declared.error.Error.{Error};

    // the number of places that there are
    ghost limit: { Self → ℕ };

    // from one state to the other it has taken these places
    ghost has: { Self → Self → List ℕ → Type 0 };

    // what holds of its state between calls
    ghost sound: { Self → Type 0 };

    // it can take these places
    ghost accepts: { Self → List ℕ → Type 0 };

    // why it may be refused
    ghost refuses: { Self → Error → Type 0 };

    /// Takes the places from `from` on to `to`, which is not taken.
    fn take(&mut self, from: usize, to: usize) -> Result<()>
        requires sound { sound self.old }
        requires some { from < to }
        requires within { to ≤ limit self.old }
        requires accepted { accepts self.old (range from (to - from)) }
        ensures sound { sound self.new }
        ensures limit { limit self.new ≡ limit self.old }
        ensures accepts { (places : List ℕ) → accepts self.old places → accepts self.new places }
        ensures taken { OnOk result ((first : Self) (places : List ℕ) → has first self.old places
            → has first self.new (places ++ range from (to - from))) }
        ensures refused { IfErr result (refuses self.old) }
        ensures same { (e : Error) → refuses self.new e → refuses self.old e };

    /// Takes those of `count` places from `from` on whose bits in the word are set, the lowest bit first.
    fn take_some(&mut self, from: usize, bits: u64, count: usize) -> Result<()>
        requires sound { sound self.old }
        requires few { count ≤ 64 }
        requires low { bits < 2 ^ count }
        requires within { from + count ≤ limit self.old }
        requires accepted { accepts self.old (picked bits from count) }
        ensures sound { sound self.new }
        ensures limit { limit self.new ≡ limit self.old }
        ensures accepts { (places : List ℕ) → accepts self.old places → accepts self.new places }
        ensures taken { OnOk result ((first : Self) (places : List ℕ) → has first self.old places
            → has first self.new (places ++ picked bits from count)) }
        ensures refused { IfErr result (refuses self.old) }
        ensures same { (e : Error) → refuses self.new e → refuses self.old e };

    ghost none: { (s : Self) → has s s [] };

    ghost front: { (s : Self) (xs ys : List ℕ) → accepts s (xs ++ ys) → accepts s xs };

    ghost back: { (s : Self) (xs ys : List ℕ) → accepts s (xs ++ ys) → accepts s ys };
}
