//! What one word asks for.
ghost use Rattle.std.specs.Prelude.{◌≡◌};
ghost use Rattle.rewrite_words.specs.Words.{numbered_of, setting_of};

use crate::numbers::number_after;
use pq_tree::Version;
use schema_key::KeyRule;

/// An option and the value that a word gives it. Numbers are below 2^63.
#[derive(Clone, Copy, Debug, PartialEq, Eq, Drop)]
pub enum Setting {
    Version(Version),
    PageLimit(u64),
    ChunkSize(u64),
    Statistics(bool),
    Delta(bool),
    KeyRule(KeyRule),
    ByteLimit(u64),
    PairLimit(u64),
}

/// What a word of a name and a number asks for.
fn read_numbered(word: &[u8]) -> Option<Setting>
    ensures { result ≡ numbered_of word.now }
{
    let page = number_after(word, b"--page=").map(Setting::PageLimit);
    let chunk = number_after(word, b"--chunk=").map(Setting::ChunkSize);
    let limit = number_after(word, b"--limit=").map(Setting::ByteLimit);
    let pairs = number_after(word, b"--pairs=").map(Setting::PairLimit);
    page.or(chunk).or(limit).or(pairs)
}

/// What a word asks for; None where it is no word of the table.
pub fn read_word(word: &str) -> Option<Setting>
    ensures { result ≡ setting_of word.now }
{
    match word {
        "--version=1" => Some(Setting::Version(Version::V1)),
        "--version=2" => Some(Setting::Version(Version::V2)),
        "--no-stats" => Some(Setting::Statistics(false)),
        "--delta" => Some(Setting::Delta(true)),
        "--ignore-key" => Some(Setting::KeyRule(KeyRule::Ignore)),
        _ => read_numbered(word.as_bytes()),
    }
}
