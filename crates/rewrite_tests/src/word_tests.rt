//! Words and what they ask for.
use pq_tree::Version;
use rewrite_words::{RewriteOptions, read_words};
use schema_key::KeyRule;
use std::alloc::{AllocError, Global};
use std::test::Fail;

type TestResult = Result<(), Fail>;

const PLAIN: RewriteOptions = RewriteOptions {
    version: Version::V1,
    page_limit: 1_048_576,
    chunk_size: None,
    statistics: true,
    delta: false,
    key_rule: KeyRule::Use,
    byte_limit: 268_435_456,
    pair_limit: 134_217_728,
};

const ALL: RewriteOptions = RewriteOptions {
    version: Version::V2,
    page_limit: 1,
    chunk_size: Some(0),
    statistics: false,
    delta: true,
    key_rule: KeyRule::Ignore,
    byte_limit: 9_223_372_036_854_775_807,
    pair_limit: 4,
};

// Lines of words, with commas between them, that ask for all options.
const ALL_LINES: &[&str] = &[
    "--version=2,--page=1,--chunk=0,--no-stats,--delta,--ignore-key,--limit=9223372036854775807,--pairs=4",
    "--pairs=0004,--limit=9223372036854775807,--ignore-key,--delta,--no-stats,--chunk=00,--page=01,--version=2",
];

// Lines that ask for what stands without words.
const PLAIN_LINES: &[&str] = &[
    "--version=1",
    "--page=1048576",
    "--pairs=134217728,--limit=268435456",
];

const NO_STATISTICS: RewriteOptions = RewriteOptions {
    version: Version::V1,
    page_limit: 1_048_576,
    chunk_size: None,
    statistics: false,
    delta: false,
    key_rule: KeyRule::Use,
    byte_limit: 268_435_456,
    pair_limit: 134_217_728,
};

// Lines with a word that asks for nothing, or with an option twice.
const NO_LINES: &[&str] = &[
    "",
    "--version=1,--version=2",
    "--delta,--delta",
    "--page=1,--chunk=2,--page=1",
    "--version=3",
    "--page",
    "--page=",
    "--page=+1",
    "--page=1x",
    "--page=9223372036854775808",
    "--page=00000000000000000001",
    "--delta ",
    "-delta",
    "--deltas",
    "--limit=1,,--delta",
];

fn read_line(alloc: Global, line: &str) -> Result<Option<RewriteOptions>, AllocError> {
    let mut words = Vec::new(alloc);
    for word in line.split(',') {
        words.push(String::from_str(alloc, word)?)?;
    }
    Ok(read_words(&words))
}

#[test]
fn words_are_read(rt: HostRuntime) -> TestResult {
    assert!(rt; read_words(&[]) == Some(PLAIN));
    for line in PLAIN_LINES {
        assert!(rt; read_line(rt.alloc(), line)? == Some(PLAIN), "{line}");
    }
    assert!(rt; read_line(rt.alloc(), "--no-stats")? == Some(NO_STATISTICS));
    for line in ALL_LINES {
        assert!(rt; read_line(rt.alloc(), line)? == Some(ALL), "{line}");
    }
    Ok(())
}

#[test]
fn other_words_are_refused(rt: HostRuntime) -> TestResult {
    for line in NO_LINES {
        assert!(rt; read_line(rt.alloc(), line)?.is_none(), "{line}");
    }
    Ok(())
}
