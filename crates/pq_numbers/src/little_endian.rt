//! Numbers of fixed size, lowest byte first (Parquet format, Encodings, "Plain").

ghost use Rattle.std.specs.Prelude.{◌≡◌, ◌<◌, ◌++◌, length, take, OnOk, OnErr, MatchOption, None};
ghost use Rattle.std.specs.Int.{w32, w64, to_le_bytes, cast_signed, cast_unsigned};
ghost use Rattle.pq_numbers.specs.Texts.{number_of};

use std::alloc::AllocError;

/// Appends the four little-endian bytes of a number.
///
/// # Errors
///
/// Want of memory; `out` is then as before.
pub fn push_u32_le(out: &mut Vec<u8>, number: u32) -> Result<(), AllocError>
    ensures ok { OnOk result (out.new.items ≡ out.old.items ++ to_le_bytes w32 number) }
    ensures err { OnErr result (out.new.items ≡ out.old.items) }
{
    out.extend_from_slice(&number.to_le_bytes())
}

/// Appends the four little-endian bytes of a signed number, in two's complement.
///
/// # Errors
///
/// Want of memory; `out` is then as before.
pub fn push_i32_le(out: &mut Vec<u8>, number: i32) -> Result<(), AllocError>
    ensures ok { OnOk result (out.new.items ≡ out.old.items ++ to_le_bytes w32 (cast_unsigned w32 number)) }
    ensures err { OnErr result (out.new.items ≡ out.old.items) }
{
    out.extend_from_slice(&number.to_le_bytes())
}

/// Appends the eight little-endian bytes of a signed number, in two's complement.
///
/// # Errors
///
/// Want of memory; `out` is then as before.
pub fn push_i64_le(out: &mut Vec<u8>, number: i64) -> Result<(), AllocError>
    ensures ok { OnOk result (out.new.items ≡ out.old.items ++ to_le_bytes w64 (cast_unsigned w64 number)) }
    ensures err { OnErr result (out.new.items ≡ out.old.items) }
{
    out.extend_from_slice(&number.to_le_bytes())
}

/// The number that the first four bytes spell, lowest first; `None` where there are fewer.
pub fn read_u32_le(bytes: &[u8]) -> Option<u32>
    ensures gives { MatchOption result (length bytes.now < 4) (λ n. n ≡ number_of (take 4 bytes.now)) }
    ensures few { length bytes.now < 4 → result ≡ None }
{
    match bytes {
        [a, b, c, d, ..] => Some(u32::from_le_bytes([*a, *b, *c, *d])),
        _ => None,
    }
}

/// The signed number that the first four bytes spell in two's complement, lowest first; `None` where there are fewer.
pub fn read_i32_le(bytes: &[u8]) -> Option<i32>
    ensures gives { MatchOption result (length bytes.now < 4) (λ z. z ≡ cast_signed w32 (number_of (take 4 bytes.now))) }
    ensures few { length bytes.now < 4 → result ≡ None }
{
    match bytes {
        [a, b, c, d, ..] => Some(i32::from_le_bytes([*a, *b, *c, *d])),
        _ => None,
    }
}

/// The signed number that the first eight bytes spell in two's complement, lowest first; `None` where there are fewer.
pub fn read_i64_le(bytes: &[u8]) -> Option<i64>
    ensures gives { MatchOption result (length bytes.now < 8) (λ z. z ≡ cast_signed w64 (number_of (take 8 bytes.now))) }
    ensures few { length bytes.now < 8 → result ≡ None }
{
    match bytes {
        [a, b, c, d, e, f, g, h, ..] => {
            Some(i64::from_le_bytes([*a, *b, *c, *d, *e, *f, *g, *h]))
        }
        _ => None,
    }
}
