//! Deltas that wait for their block.

ghost use Rattle.std.specs.Prelude.{◌≡◌, ◌<◌, ◌≤◌, ◌++◌, List, [], ◌∷◌, length};

use std::marker::Model;

/// At most 128 deltas.
#[derive(Drop)]
pub struct Waiting {
    deltas: [i64; 128],
    filled: usize,
}

impl Model for Waiting {
    ghost use Rattle.std.specs.Prelude.{List, ℤ, take, length, ◌≤◌};

    ghost Value = { List ℤ };

    ghost view = { λ p. take p.filled p.deltas };

    ghost invariant = { λ p. p.filled ≤ 128 };
}

impl Waiting {
    pub fn new() -> Self
        ensures { result ≡ [] }
    {
        Waiting {
            deltas: [0; 128],
            filled: 0,
        }
    }

    pub fn len(&self) -> usize
        ensures value { result ≡ length self.now }
        ensures most { result ≤ 128 }
    {
        self.filled
    }

    pub fn push(&mut self, delta: i64)
        requires { length self.old < 128 }
        ensures { self.new ≡ self.old ++ delta ∷ [] }
    {
        self.deltas[self.filled] = delta;
        self.filled += 1;
    }

    pub fn clear(&mut self)
        ensures { self.new ≡ [] }
    {
        self.filled = 0;
    }

    pub fn as_slice(&self) -> &[i64]
        ensures { result.now ≡ self.now }
    {
        &self.deltas[..self.filled]
    }
}
