//! Numbers that wait to be handed out.

ghost use Rattle.std.specs.Prelude.{◌≡◌, ◌<◌, ◌≤◌, ◌∷◌, List, [], length};
ghost use Rattle.pq_numbers.specs.Bits.{unpacked};

use crate::bits::unpack;
use std::marker::Model;

/// At most 32 numbers.
#[derive(Drop)]
pub struct Buffer {
    numbers: [u64; 32],
    at: usize,
    filled: usize,
}

impl Model for Buffer {
    ghost use Rattle.std.specs.Prelude.{List, ℕ, take, drop, ◌≤◌};

    ghost Value = { List ℕ };

    ghost view = { λ b. drop b.at (take b.filled b.numbers) };

    ghost invariant = { λ b. (b.at ≤ b.filled) × (b.filled ≤ 32) };
}

impl Buffer {
    pub fn new() -> Self
        ensures { result ≡ [] }
    {
        Buffer {
            numbers: [0; 32],
            at: 0,
            filled: 0,
        }
    }

    pub fn len(&self) -> usize
        ensures value { result ≡ length self.now }
        ensures most { result ≤ 32 }
    {
        self.filled - self.at
    }

    /// In place of what waits come the first packed numbers of the bytes.
    pub fn fill(&mut self, bytes: &[u8], width: u32, count: usize)
        requires fits { width ≤ 64 }
        requires few { count ≤ 32 }
        ensures { self.new ≡ unpacked width count bytes.now }
    {
        unpack(bytes, width, &mut self.numbers[..count]);
        self.at = 0;
        self.filled = count;
    }

    pub fn take(&mut self) -> u64
        requires { 0 < length self.old }
        ensures { self.old ≡ result ∷ self.new }
    {
        let number = self.numbers[self.at];
        self.at += 1;
        number
    }
}
