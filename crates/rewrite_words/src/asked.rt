//! What the words so far ask for.
ghost use Rattle.std.specs.Prelude.{◌≡◌};
ghost use Rattle.rewrite_words.specs.Asked.{is_set, with_setting, finished};

use crate::RewriteOptions;
use crate::setting::Setting;
use pq_tree::Version;
use schema_key::KeyRule;

/// The options where no word asks for others.
const DEFAULTS: RewriteOptions = RewriteOptions {
    version: Version::V1,
    page_limit: 1_048_576,
    chunk_size: None,
    statistics: true,
    delta: false,
    key_rule: KeyRule::Use,
    byte_limit: 268_435_456,
    pair_limit: 134_217_728,
};

/// The values that the words so far gave to options.
#[derive(Clone, Copy, Debug, PartialEq, Eq, Drop)]
pub struct Asked {
    pub version: Option<Version>,
    pub page_limit: Option<u64>,
    pub chunk_size: Option<u64>,
    pub statistics: Option<bool>,
    pub delta: Option<bool>,
    pub key_rule: Option<KeyRule>,
    pub byte_limit: Option<u64>,
    pub pair_limit: Option<u64>,
}

/// No word gave a value yet.
pub const NOTHING: Asked = Asked {
    version: None,
    page_limit: None,
    chunk_size: None,
    statistics: None,
    delta: None,
    key_rule: None,
    byte_limit: None,
    pair_limit: None,
};

impl Asked {
    /// Sets an option, and says whether it was set before.
    pub fn set(&mut self, setting: Setting) -> bool
        ensures before { result ≡ is_set self.old setting }
        ensures after { self.new ≡ with_setting self.old setting }
    {
        match setting {
            Setting::Version(version) => self.version.replace(version).is_some(),
            Setting::PageLimit(limit) => self.page_limit.replace(limit).is_some(),
            Setting::ChunkSize(size) => self.chunk_size.replace(size).is_some(),
            Setting::Statistics(asked) => self.statistics.replace(asked).is_some(),
            Setting::Delta(asked) => self.delta.replace(asked).is_some(),
            Setting::KeyRule(rule) => self.key_rule.replace(rule).is_some(),
            Setting::ByteLimit(limit) => self.byte_limit.replace(limit).is_some(),
            Setting::PairLimit(limit) => self.pair_limit.replace(limit).is_some(),
        }
    }

    /// The options, with the defaults for those that are not set.
    pub fn finish(&self) -> RewriteOptions
        ensures { result ≡ finished self.now }
    {
        RewriteOptions {
            version: self.version.unwrap_or(DEFAULTS.version),
            page_limit: self.page_limit.map_or(DEFAULTS.page_limit, |n| n as usize),
            chunk_size: self.chunk_size.map(|n| n as usize),
            statistics: self.statistics.unwrap_or(DEFAULTS.statistics),
            delta: self.delta.unwrap_or(DEFAULTS.delta),
            key_rule: self.key_rule.unwrap_or(DEFAULTS.key_rule),
            byte_limit: self.byte_limit.map_or(DEFAULTS.byte_limit, |n| n as usize),
            pair_limit: self.pair_limit.unwrap_or(DEFAULTS.pair_limit),
        }
    }
}
