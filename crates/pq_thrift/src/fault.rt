//! Why bytes could not be read, inside of this crate.

ghost use Rattle.std.specs.Prelude.{◌≡◌};
ghost use Rattle.pq_thrift.specs.declared.fault.Refusal.TheVariants.{Memory};

use std::alloc::{AllocError, AllocFailed};

/// What is wrong with the bytes: the first fault from left to right.
#[derive(Clone, Copy, Debug, PartialEq, Eq)]
pub enum Fault {
    /// The bytes leave the grammar.
    Outside,
    /// A value nests too deep.
    Deep,
}

/// Why reading ended.
#[derive(Debug, Drop)]
pub enum Refusal {
    /// Memory ran out.
    Memory,
    /// The bytes have a fault.
    Fault(Fault),
}

impl From<AllocError> for Refusal {
    ghost from_gives = { λ _ e. e ≡ Memory };

    fn from(_e: AllocError) -> Refusal {
        Refusal::Memory
    }
}

impl<T: Drop> From<AllocFailed<T>> for Refusal {
    ghost from_gives = { λ _ e. e ≡ Memory };

    fn from(_e: AllocFailed<T>) -> Refusal {
        Refusal::Memory
    }
}
