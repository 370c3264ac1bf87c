//! Parts of bytes.
ghost use Rattle.std.specs.Prelude.{◌≡◌, ◌≤◌, length, take, drop};

/// The bytes from a place on.
pub fn skip(bytes: &[u8], count: usize) -> &[u8]
    requires { count ≤ length bytes.now }
    ensures { result.now ≡ drop count bytes.now }
{
    &bytes[count..]
}

/// The first bytes.
pub fn front(bytes: &[u8], count: usize) -> &[u8]
    requires { count ≤ length bytes.now }
    ensures { result.now ≡ take count bytes.now }
{
    &bytes[..count]
}
