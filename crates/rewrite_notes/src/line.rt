//! A line of text in a fixed array.
ghost use Rattle.std.specs.Prelude.{◌≡◌, ◌+◌, ◌≤◌, ◌++◌, ◌∷◌, [], length, decimal};

/// Two lines: five numbers of at most 20 digits, and what stands between them.
const CAPACITY: usize = 144;

#[derive(Drop)]
pub struct Line {
    bytes: [u8; CAPACITY],
    len: usize,
    ghost within: { len ≤ 144 },
}

impl Line {
    ghost use Rattle.rewrite_notes.specs.Line.{line_bytes};

    pub fn new() -> Self
        ensures { line_bytes result ≡ [] }
    {
        Line {
            bytes: [0; CAPACITY],
            len: 0,
        }
    }

    pub fn bytes(&self) -> &[u8]
        ensures { result.now ≡ line_bytes self.now }
    {
        &self.bytes[..self.len]
    }

    pub fn text(&mut self, text: &[u8])
        requires { length (line_bytes self.old) + length text.now ≤ 144 }
        ensures bytes { line_bytes self.new ≡ line_bytes self.old ++ text.now }
        ensures len { length (line_bytes self.new) ≡ length (line_bytes self.old) + length text.now }
    {
        let end = self.len + text.len();
        self.bytes[self.len..end].copy_from_slice(text);
        self.len = end;
    }

    fn byte(&mut self, byte: u8)
        requires { length (line_bytes self.old) + 1 ≤ 144 }
        ensures bytes { line_bytes self.new ≡ line_bytes self.old ++ byte ∷ [] }
        ensures len { length (line_bytes self.new) ≡ length (line_bytes self.old) + 1 }
    {
        self.bytes[self.len] = byte;
        self.len += 1;
    }

    #[tactic(auto, using(crate::proofs::Numbers::decimal_one, crate::proofs::Numbers::decimal_more, crate::proofs::Numbers::length_decimal_one, crate::proofs::Numbers::length_decimal_more))]
    pub fn number(&mut self, number: u64)
        requires { length (line_bytes self.old) + length (decimal number) ≤ 144 }
        ensures bytes { line_bytes self.new ≡ line_bytes self.old ++ decimal number }
        ensures len { length (line_bytes self.new) ≡ length (line_bytes self.old) + length (decimal number) }
    {
        if number < 10 {
            self.byte(b'0' + number as u8);
        } else {
            self.number(number / 10);
            self.byte(b'0' + (number % 10) as u8);
        }
    }
}
