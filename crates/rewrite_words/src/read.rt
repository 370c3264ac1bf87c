//! The words of the command line as options.
ghost use Rattle.std.specs.Prelude.{◌≡◌, map, string_bytes};
ghost use Rattle.rewrite_words.specs.Words.{options_of};

use crate::RewriteOptions;
use crate::asked::NOTHING;
use crate::setting::read_word;

/// The options that the words ask for; None exactly where a word is none of these or an option is given twice.
///
/// | Word | Option | Without it |
/// |---|---|---|
/// | `--version=1`, `--version=2` | the version of the file and of its pages | 1 |
/// | `--page=N` | about how many bytes of values a page has | 1,048,576 |
/// | `--chunk=N` | how many rows go into a group | the groups of the input |
/// | `--no-stats` | no statistics of pages and columns | they stand |
/// | `--delta` | delta encodings | none |
/// | `--ignore-key` | the schema that the file carries is not used | it is |
/// | `--limit=N` | the most bytes that the input may have | 268,435,456 |
/// | `--pairs=N` | the most level pairs that its footer may claim | 134,217,728 |
///
/// The words stand in any order. N is 1 to 19 decimal digits, whose number is below 2^63.
pub fn read_words(words: &[String]) -> Option<RewriteOptions>
    ensures { result ≡ options_of (map string_bytes words.now) }
{
    let mut asked = NOTHING;
    for word in words {
        let setting = read_word(word.as_str())?;
        if asked.set(setting) {
            return None;
        }
    }
    Some(asked.finish())
}
