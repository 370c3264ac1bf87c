//! Varints of the Thrift compact protocol.

ghost use Rattle.std.specs.Prelude.{◌≡◌, ◌<◌, ◌++◌, ℕ, List, length, OnOk, OnErr, Some, None, MatchOption, IfSome};
ghost use Rattle.pq_numbers.specs.Varint.{varint, varint_at, varint_up_to};

use std::alloc::AllocError;

// Appends the digits. After an error some of them may stand there.
fn push_digits(out: &mut Vec<u8>, n: u64) -> Result<(), AllocError>
    ensures ok { OnOk result (out.new.items ≡ out.old.items ++ varint n) }
    ensures err { OnErr result ((some : List ℕ) × (out.new.items ≡ out.old.items ++ some)) }
{
    let mut left = n;
    while left >= 128 {
        out.push((left % 128 + 128) as u8)?;
        left /= 128;
    }
    out.push(left as u8)?;
    Ok(())
}

/// Appends the number as a varint: seven bits a byte, lowest first, in as few bytes as hold it.
///
/// # Errors
///
/// Want of memory; `out` is then as before.
pub fn push_varint(out: &mut Vec<u8>, n: u64) -> Result<(), AllocError>
    ensures ok { OnOk result (out.new.items ≡ out.old.items ++ varint n) }
    ensures err { OnErr result (out.new.items ≡ out.old.items) }
{
    let before = out.len();
    let pushed = push_digits(out, n);
    if pushed.is_err() {
        out.truncate(before);
    }
    pushed
}

#[tactic(auto, unfolding(crate::specs::Varint::varint_up_to))]
fn take_varint_up_to(most: u8, bytes: &[u8]) -> Option<(u64, &[u8])>
    ensures gives { MatchOption result (varint_up_to most bytes.now ≡ None) (λ x. varint_up_to most bytes.now
        ≡ Some (x.0, x.1.now)) }
    ensures shorter { IfSome result (λ x. length x.1.now < length bytes.now) }
{
    if most == 0 {
        return None;
    }
    match bytes {
        [] => None,
        [byte, rest @ ..] => {
            let byte = u64::from(*byte);
            if byte < 128 {
                return Some((byte, rest));
            }
            let (high, rest) = take_varint_up_to(most - 1, rest)?;
            if high >= 1 << 57 {
                return None;
            }
            Some((byte % 128 + 128 * high, rest))
        }
    }
}

/// The varint at the front, and the bytes behind it.
/// `None` where none stands there: the bytes end before its last byte, it has more than ten, or it passes 64 bits.
pub fn take_varint(bytes: &[u8]) -> Option<(u64, &[u8])>
    ensures gives { MatchOption result (varint_at bytes.now ≡ None) (λ x. varint_at bytes.now ≡ Some (x.0, x.1.now)) }
    ensures shorter { IfSome result (λ x. length x.1.now < length bytes.now) }
{
    take_varint_up_to(10, bytes)
}
