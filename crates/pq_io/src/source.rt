//! A source of bytes.
ghost use Rattle.std.specs.Prelude.{◌≤◌, List, ℕ, OnErr};
ghost use Rattle.std.specs.declared.option.Option.{Option};
ghost use Rattle.std.specs.Io.{ReadsAtMost};
ghost use Rattle.std.specs.Io.KnownBytes.{ReadConsumes};
ghost use Rattle.pq_io.specs.Causes.{Rose};

/// A read failed.
#[derive(Clone, Copy, Debug, PartialEq, Eq)]
pub struct Failed;

/// Gives bytes, one after another.
pub trait Source {
    /// The bytes that it still gives, where it tells them.
    ghost left: { Self → Option (List ℕ) };

    /// How often it has failed.
    ghost faults: { Self → ℕ };

    /// Moves the first bytes that are left into the front of the buffer, and answers how many.
    /// None for a buffer that isn't empty is the end. `Failed` comes only where the count of faults
    /// rose in the call; the bytes left are then as before, and nothing is said of the buffer.
    fn pull(&mut self, into: &mut [u8]) -> Result<usize, Failed>
        ensures bound { ReadsAtMost result into.new }
        ensures bytes { ReadConsumes (left self.old) (left self.new) result into.new }
        ensures later { faults self.old ≤ faults self.new }
        ensures cause { OnErr result (Rose (faults self.old) (faults self.new)) };
}
