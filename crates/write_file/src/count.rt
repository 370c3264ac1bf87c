//! Numbers that a footer has a field for.
ghost use Rattle.std.specs.Prelude.{◌≡◌, ◌+◌, ◌-◌, ◌<◌, ◌≤◌, pos, IfOk, IfErr};
ghost use Rattle.columns_base.specs.declared.error.Error.TheVariants.{Overflow};
ghost use Rattle.columns_base.specs.declared.error.V.TheVariants.{V3};
ghost use Rattle.pq_files.specs.Room.{max_count};

use columns_base::{Error, Result, V};
use std::marker::Model;

/// The greatest number of 64 bits that a footer states.
const MAX_COUNT: u64 = 9_223_372_036_854_775_807;

/// A number of bytes, rows, level pairs or pages, at most 2^63 - 1 (Parquet format, parquet.thrift: the fields of type i64).
#[derive(Clone, Copy, Debug, Drop)]
pub struct Count {
    number: u64,
}

impl Model for Count {
    ghost use Rattle.std.specs.Prelude.{◌≤◌, ℕ};
    ghost use Rattle.pq_files.specs.Room.{max_count};

    ghost Value = { ℕ };

    ghost view = { λ c. c.number };

    ghost inverse = { λ n. record { number = n } };

    ghost invariant = { λ c. c.number ≤ max_count };
}

impl Count {
    /// Zero.
    pub fn zero() -> Self
        ensures { result ≡ 0 }
    {
        Count { number: 0 }
    }

    /// So many more.
    ///
    /// # Errors
    ///
    /// `Overflow(V3)`: the sum passes 2^63 - 1.
    pub fn plus(self, more: u64) -> Result<Self>
        ensures ok { IfOk result (λ s. s ≡ self + more) }
        ensures most { IfOk result (λ s. s ≤ max_count) }
        ensures err { IfErr result (λ e. (e ≡ Overflow V3) × (max_count < self + more)) }
    {
        match self.number.checked_add(more) {
            Some(number) if number <= MAX_COUNT => Ok(Count { number }),
            _ => Err(Error::Overflow(V::V3)),
        }
    }

    /// What it is more than another one.
    pub fn minus(self, other: Self) -> Self
        requires { other ≤ self }
        ensures { result ≡ self - other }
    {
        Count {
            number: self.number - other.number,
        }
    }

    /// As a number without a sign.
    pub fn get(self) -> u64
        ensures is { result ≡ self }
        ensures most { result ≤ max_count }
    {
        self.number
    }

    /// As a number of a footer.
    pub fn stated(self) -> i64
        ensures { result ≡ pos self }
    {
        self.number as i64
    }
}
