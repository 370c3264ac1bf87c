//! The numbers that texts of bounds spell.
ghost use Rattle.std.specs.Prelude.{◌≡◌, ℕ, ℤ, pos, Some};
ghost use Rattle.shredding.specs.Shape.{signed, unsigned};
ghost use Rattle.shredding.specs.Slot.{number};
ghost use Rattle.page_statistics.specs.Spelled.{IsSpelled};
ghost use Rattle.pq_tree.specs.Physical.{Physical};

use pq_numbers::{read_i32_le, read_i64_le};

// The number that the text of a signed one spells, in 32 or 64 bits.
pub fn signed_number(text: &[u8]) -> Option<i64>
    ensures { (p : Physical) (w : ℕ) (z : ℤ) → IsSpelled (signed w) p text.now (number z) → result ≡ Some z }
{
    if text.len() >= 8 {
        return read_i64_le(text);
    }
    match read_i32_le(text) {
        Some(number) => Some(number as i64),
        None => None,
    }
}

// The same of an unsigned one.
pub fn unsigned_number(text: &[u8]) -> Option<u64>
    ensures { (p : Physical) (w n : ℕ) → IsSpelled (unsigned w) p text.now (number (pos n)) → result ≡ Some n }
{
    if text.len() >= 8 {
        return match read_i64_le(text) {
            Some(number) => Some(number.cast_unsigned()),
            None => None,
        };
    }
    match read_i32_le(text) {
        Some(number) => Some(number.cast_unsigned() as u64),
        None => None,
    }
}
