//! Numbers of 32 and 64 bits as plain bytes.
ghost use Rattle.std.specs.Prelude.{◌≡◌, length};
ghost use Rattle.shredding.specs.Slot.{number};
ghost use Rattle.pq_tree.specs.Views.{physical_view};
ghost use Rattle.pq_files.specs.Plain.{IsOne};

use columns_core::ParquetNativeType;

/// A number that a column stores as it is, and its plain bytes (Parquet format, Encodings, "Plain").
pub trait PlainNumber: ParquetNativeType {
    ghost use Rattle.std.specs.Prelude.{ℕ, ℤ};

    // the number
    ghost plain_number: { Self → ℤ };

    ghost byte_count: { ℕ };

    /// How many bytes such a number has.
    fn width() -> usize
        ensures { result ≡ byte_count };

    /// The number that these bytes spell, the lowest first.
    fn from_plain(bytes: &[u8]) -> Self
        requires { length bytes.now ≡ byte_count }
        ensures { IsOne (physical_view Self.physical) bytes.now (number (plain_number result)) };

    /// Callers learn that the bytes of `push_le_bytes` spell the number.
    fn know(self)
        ensures spelled { IsOne (physical_view Self.physical) (Self.stored self) (number (plain_number self)) }
        ensures width { length (Self.stored self) ≡ byte_count };
}

impl PlainNumber for i32 {
    ghost plain_number = { λ x. x };

    ghost byte_count = { 4 };

    fn width() -> usize {
        4
    }

    fn from_plain(bytes: &[u8]) -> i32 {
        i32::from_le_bytes([bytes[0], bytes[1], bytes[2], bytes[3]])
    }

    fn know(self) {}
}

impl PlainNumber for i64 {
    ghost plain_number = { λ x. x };

    ghost byte_count = { 8 };

    fn width() -> usize {
        8
    }

    fn from_plain(bytes: &[u8]) -> i64 {
        i64::from_le_bytes([
            bytes[0], bytes[1], bytes[2], bytes[3], bytes[4], bytes[5], bytes[6], bytes[7],
        ])
    }

    fn know(self) {}
}
