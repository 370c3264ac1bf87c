//! Decimal numbers in words.
ghost use Rattle.std.specs.Prelude.{◌≡◌};
ghost use Rattle.rewrite_words.specs.Numbers.{number_of, number_after};

/// The most digits that a number may have.
const MAX_DIGITS: usize = 19;

/// The least number that is too large.
const NUMBER_LIMIT: u64 = 1 << 63;

/// The number that 1 to 19 digits write; None for any other text, and for a number of 2^63 and more.
pub(crate) fn read_number(text: &[u8]) -> Option<u64>
    ensures { result ≡ number_of text.now }
{
    if text.is_empty() {
        return None;
    }
    if text.len() > MAX_DIGITS {
        return None;
    }
    let mut number: u64 = 0;
    for byte in text {
        if !byte.is_ascii_digit() {
            return None;
        }
        number = number * 10 + u64::from(*byte - b'0');
    }
    if number < NUMBER_LIMIT {
        Some(number)
    } else {
        None
    }
}

/// The number behind a name, where the word is that name and a number.
pub fn number_after(word: &[u8], name: &[u8]) -> Option<u64>
    ensures { result ≡ number_after name.now word.now }
{
    match word.strip_prefix(name) {
        Some(text) => read_number(text),
        None => None,
    }
}
