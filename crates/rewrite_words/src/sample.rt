//! The second form of words.
ghost use Rattle.std.specs.Prelude.{◌≡◌, map, string_bytes};
ghost use Rattle.rewrite_words.specs.Sample.{sample_of, sized};

use crate::numbers::read_number;

/// The most rows of a sample.
const MAX_ROWS: u64 = 1_000_000;

// The number as that of a sample's rows, if it is one.
fn as_rows(number: u64) -> Option<u32>
    ensures { result ≡ sized number }
{
    if 1 <= number && number <= MAX_ROWS {
        Some(number as u32)
    } else {
        None
    }
}

/// How many rows the words ask for a sample of: where they are the word `sample` and a number from 1 to 1,000,000, in 1 to 19 digits. `None` for
/// all other words.
pub fn read_sample(words: &[String]) -> Option<u32>
    ensures { result ≡ sample_of (map string_bytes words.now) }
{
    if words.len() != 2 {
        return None;
    }
    if words[0].as_str() != "sample" {
        return None;
    }
    match read_number(words[1].as_bytes()) {
        Some(number) => as_rows(number),
        None => None,
    }
}
