//! Zigzag numbers of the Thrift compact protocol.

ghost use Rattle.std.specs.Prelude.{◌≡◌};
ghost use Rattle.pq_numbers.specs.Zigzag.{zigzag, unzigzag};

/// The signed number whose zigzag `n` is.
pub fn from_zigzag(n: u64) -> i64
    ensures { result ≡ unzigzag n }
{
    let half = (n / 2) as i64;
    if n % 2 == 0 { half } else { -1 - half }
}

/// The zigzag of a signed number: 0, -1, 1, -2 are 0, 1, 2, 3.
pub fn to_zigzag(n: i64) -> u64
    ensures { result ≡ zigzag n }
{
    if n >= 0 {
        2 * (n as u64)
    } else {
        2 * ((-1 - n) as u64) + 1
    }
}
