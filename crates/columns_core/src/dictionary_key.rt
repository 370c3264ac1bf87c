//! The numbers that a dictionary's keys may be.
ghost use Rattle.std.specs.Prelude.{◌≡◌, ◌↔◌, ℕ, ℤ, pos, ◌<◌, ◌≤◌, IsTrue, MatchOption};
ghost use Rattle.columns_core.specs.Rising.{IsWhole, whole};
ghost use Rattle.columns_core.specs.declared.types.IntegerType.{IntegerType};

use crate::native::NativeType;
use crate::types::IntegerType;

/// A key of a dictionary (Arrow columnar format, "Dictionary-encoded Layout").
pub trait DictionaryKey: NativeType {
    ghost number: { Self → ℤ };

    // one above the largest
    ghost limit: { ℕ };

    ghost kind: { IntegerType };

    /// The type of such keys.
    fn key_type() -> IntegerType
        ensures { result ≡ kind };

    /// Whether it is a place among as many entries.
    fn is_below(&self, count: usize) -> bool
        ensures { IsTrue result ↔ IsWhole (number self.now) × (whole (number self.now) < count) };

    /// The number, which is not negative.
    fn to_usize(&self) -> usize
        requires { IsWhole (number self.now) }
        ensures { result ≡ whole (number self.now) };

    /// The key of this number, if it fits.
    fn from_usize(n: usize) -> Option<Self>
        ensures { MatchOption result (limit ≤ n) (λ k. (number k ≡ pos n) × (n < limit)) };
}

impl DictionaryKey for i8 {
    ghost use Rattle.std.specs.Prelude.{◌^◌, pos};
    ghost use Rattle.columns_core.specs.declared.types.IntegerType.TheVariants as kinds;

    ghost number = { λ x. x };

    ghost limit = { 2 ^ 7 };

    ghost kind = { kinds.Int8 };

    fn key_type() -> IntegerType {
        IntegerType::Int8
    }

    fn is_below(&self, count: usize) -> bool {
        *self >= 0 && (*self as usize) < count
    }

    fn to_usize(&self) -> usize {
        *self as usize
    }

    fn from_usize(n: usize) -> Option<i8> {
        if n < 0x80 { Some(n as i8) } else { None }
    }
}

impl DictionaryKey for i16 {
    ghost use Rattle.std.specs.Prelude.{◌^◌, pos};
    ghost use Rattle.columns_core.specs.declared.types.IntegerType.TheVariants as kinds;

    ghost number = { λ x. x };

    ghost limit = { 2 ^ 15 };

    ghost kind = { kinds.Int16 };

    fn key_type() -> IntegerType {
        IntegerType::Int16
    }

    fn is_below(&self, count: usize) -> bool {
        *self >= 0 && (*self as usize) < count
    }

    fn to_usize(&self) -> usize {
        *self as usize
    }

    fn from_usize(n: usize) -> Option<i16> {
        if n < 0x8000 { Some(n as i16) } else { None }
    }
}

impl DictionaryKey for i32 {
    ghost use Rattle.std.specs.Prelude.{◌^◌, pos};
    ghost use Rattle.columns_core.specs.declared.types.IntegerType.TheVariants as kinds;

    ghost number = { λ x. x };

    ghost limit = { 2 ^ 31 };

    ghost kind = { kinds.Int32 };

    fn key_type() -> IntegerType {
        IntegerType::Int32
    }

    fn is_below(&self, count: usize) -> bool {
        *self >= 0 && (*self as usize) < count
    }

    fn to_usize(&self) -> usize {
        *self as usize
    }

    fn from_usize(n: usize) -> Option<i32> {
        if n < 0x8000_0000 {
            Some(n as i32)
        } else {
            None
        }
    }
}

impl DictionaryKey for i64 {
    ghost use Rattle.std.specs.Prelude.{◌^◌, pos};
    ghost use Rattle.columns_core.specs.declared.types.IntegerType.TheVariants as kinds;

    ghost number = { λ x. x };

    ghost limit = { 2 ^ 63 };

    ghost kind = { kinds.Int64 };

    fn key_type() -> IntegerType {
        IntegerType::Int64
    }

    fn is_below(&self, count: usize) -> bool {
        *self >= 0 && (*self as usize) < count
    }

    fn to_usize(&self) -> usize {
        *self as usize
    }

    fn from_usize(n: usize) -> Option<i64> {
        if n < 0x8000_0000_0000_0000 {
            Some(n as i64)
        } else {
            None
        }
    }
}

impl DictionaryKey for u8 {
    ghost use Rattle.std.specs.Prelude.{◌^◌, pos};
    ghost use Rattle.columns_core.specs.declared.types.IntegerType.TheVariants as kinds;

    ghost number = { λ x. pos x };

    ghost limit = { 2 ^ 8 };

    ghost kind = { kinds.UInt8 };

    fn key_type() -> IntegerType {
        IntegerType::UInt8
    }

    fn is_below(&self, count: usize) -> bool {
        (*self as usize) < count
    }

    fn to_usize(&self) -> usize {
        *self as usize
    }

    fn from_usize(n: usize) -> Option<u8> {
        if n < 0x100 { Some(n as u8) } else { None }
    }
}

impl DictionaryKey for u16 {
    ghost use Rattle.std.specs.Prelude.{◌^◌, pos};
    ghost use Rattle.columns_core.specs.declared.types.IntegerType.TheVariants as kinds;

    ghost number = { λ x. pos x };

    ghost limit = { 2 ^ 16 };

    ghost kind = { kinds.UInt16 };

    fn key_type() -> IntegerType {
        IntegerType::UInt16
    }

    fn is_below(&self, count: usize) -> bool {
        (*self as usize) < count
    }

    fn to_usize(&self) -> usize {
        *self as usize
    }

    fn from_usize(n: usize) -> Option<u16> {
        if n < 0x1_0000 { Some(n as u16) } else { None }
    }
}

impl DictionaryKey for u32 {
    ghost use Rattle.std.specs.Prelude.{◌^◌, pos};
    ghost use Rattle.columns_core.specs.declared.types.IntegerType.TheVariants as kinds;

    ghost number = { λ x. pos x };

    ghost limit = { 2 ^ 32 };

    ghost kind = { kinds.UInt32 };

    fn key_type() -> IntegerType {
        IntegerType::UInt32
    }

    fn is_below(&self, count: usize) -> bool {
        (*self as usize) < count
    }

    fn to_usize(&self) -> usize {
        *self as usize
    }

    fn from_usize(n: usize) -> Option<u32> {
        if n < 0x1_0000_0000 {
            Some(n as u32)
        } else {
            None
        }
    }
}

impl DictionaryKey for u64 {
    ghost use Rattle.std.specs.Prelude.{◌^◌, pos};
    ghost use Rattle.columns_core.specs.declared.types.IntegerType.TheVariants as kinds;

    ghost number = { λ x. pos x };

    ghost limit = { 2 ^ 64 };

    ghost kind = { kinds.UInt64 };

    fn key_type() -> IntegerType {
        IntegerType::UInt64
    }

    fn is_below(&self, count: usize) -> bool {
        (*self as usize) < count
    }

    fn to_usize(&self) -> usize {
        *self as usize
    }

    fn from_usize(n: usize) -> Option<u64> {
        Some(n as u64)
    }
}
