//! Words, and ends that fail.
use super::ends::{BY_KEY, Faults, NO_FAULTS, run_on, run_with, words_of};
use super::files::bases::THE_FIRST_FILE;
use pq_rewrite::{NoView, PlainSink, PlainSource, run};
use schema_fb::FlatCodec;
use std::alloc::{AllocError, Global};

/// Words that are no options, and options that are given twice.
const BAD: &[&[&str]] = &[
    &[""],
    &["-"],
    &["sample"],
    &["sample", "0"],
    &["sample", "1000001"],
    &["sample", "ten"],
    &["sample", "10", "--delta"],
    &["--delta", "sample", "10"],
    &["--version=3"],
    &["--version"],
    &["--page="],
    &["--page=+1"],
    &["--chunk=x"],
    &["--chunk=9223372036854775808"],
    &["--limit=00000000000000000001"],
    &["--no-stats "],
    &["--delta", "--delta"],
    &["--version=1", "--version=2"],
    &["--page=1", "--chunk=2", "-"],
];

/// Whether a run with the words gains nothing and leaves the source as it was, so that one without words rewrites it.
fn are_bad(alloc: Global, words: &[&str]) -> Result<bool, AllocError> {
    let mut source = PlainSource::new(Vec::from_slice(alloc, THE_FIRST_FILE)?);
    let mut sink = PlainSink::new(alloc);
    let mut notes = PlainSink::new(alloc);
    let mut view = NoView;
    let words = words_of(alloc, words)?;
    let status = run(
        alloc,
        &words,
        &mut source,
        &mut sink,
        &mut notes,
        &FlatCodec,
        &mut view,
    );
    let is_refused = status == 2
        && sink.bytes().is_empty()
        && notes.bytes() == b"bad words\n".as_slice();
    let status = run(
        alloc,
        &[],
        &mut source,
        &mut sink,
        &mut notes,
        &FlatCodec,
        &mut view,
    );
    Ok(is_refused && status == 0)
}

#[test]
fn other_words_are_refused(rt: HostRuntime) -> Result<(), AllocError> {
    for words in BAD {
        assert!(rt; are_bad(rt.alloc(), words)?);
    }
    Ok(())
}

/// Words, and the status and the line with which the first file is rewritten. It has 145 bytes, 4 rows and 5 level pairs.
const ASKED: &[(&[&str], u8, &[u8])] = &[
    (&[], 0, b"groups 1, rows 4, pages 1\n"),
    (&["--version=2"], 0, b"groups 1, rows 4, pages 1\n"),
    (&["--version=1"], 0, b"groups 1, rows 4, pages 1\n"),
    // 8 bytes in 4 rows: pages of max(1, N / 3) rows
    (&["--page=1"], 0, b"groups 1, rows 4, pages 4\n"),
    (&["--page=6"], 0, b"groups 1, rows 4, pages 2\n"),
    (&["--page=9"], 0, b"groups 1, rows 4, pages 2\n"),
    (&["--page=0012"], 0, b"groups 1, rows 4, pages 1\n"),
    (&["--chunk=1"], 0, b"groups 4, rows 4, pages 4\n"),
    (&["--chunk=3"], 0, b"groups 2, rows 4, pages 2\n"),
    (&["--chunk=4"], 0, b"groups 1, rows 4, pages 1\n"),
    (&["--chunk=0"], 8, b"InvalidArgumentError A1\n"),
    (
        &["--chunk=9223372036854775807"],
        0,
        b"groups 1, rows 4, pages 1\n",
    ),
    (&["--no-stats"], 0, b"groups 1, rows 4, pages 1\n"),
    // what is in a list stays plain
    (&["--delta"], 0, b"groups 1, rows 4, pages 1\n"),
    (&["--chunk=0", "--delta"], 8, b"InvalidArgumentError A1\n"),
    (&["--ignore-key"], 0, b"groups 1, rows 4, pages 1\n"),
    (&["--limit=144"], 5, b"InputLimit Bytes\n"),
    (&["--limit=145"], 0, b"groups 1, rows 4, pages 1\n"),
    (&["--limit=0"], 5, b"InputLimit Bytes\n"),
    (&["--pairs=4"], 5, b"InputLimit Pairs\n"),
    (&["--pairs=5"], 0, b"groups 1, rows 4, pages 1\n"),
    (
        &[
            "--pairs=5",
            "--limit=145",
            "--ignore-key",
            "--no-stats",
            "--chunk=2",
            "--page=1",
            "--version=2",
        ],
        0,
        b"groups 2, rows 4, pages 4\n",
    ),
];

fn answers(alloc: Global, words: &[&str], status: u8, line: &[u8]) -> Result<bool, AllocError> {
    let made = run_on(alloc, words, THE_FIRST_FILE)?;
    Ok(
        made.status == status
            && made.notes.as_slice() == line
            && made.gained.is_empty() == (status != 0),
    )
}

#[test]
fn words_ask_for_options(rt: HostRuntime) -> Result<(), AllocError> {
    for (words, status, line) in ASKED {
        assert!(rt; answers(rt.alloc(), words, *status, line)?);
    }
    Ok(())
}

#[test]
fn each_group_is_cut_by_itself(rt: HostRuntime) -> Result<(), AllocError> {
    // groups of 3 rows and of 1, then of 2, 1 and 1
    let first = run_with(rt.alloc(), &["--chunk=3"], THE_FIRST_FILE, NO_FAULTS)?;
    let made = run_with(
        rt.alloc(),
        &["--chunk=2"],
        first.gained.as_slice(),
        NO_FAULTS,
    )?;
    assert!(rt;
        made.status == 0 && made.notes.as_slice() == b"groups 3, rows 4, pages 3\n".as_slice()
    );
    Ok(())
}

/// Whether what is written with the words has the same rows: rewritten without words it is what is written without words at once.
fn keeps_rows(alloc: Global, words: &[&str]) -> Result<bool, AllocError> {
    let once = run_on(alloc, words, THE_FIRST_FILE)?;
    let again = run_on(alloc, BY_KEY, &once.gained)?;
    let plain = run_on(alloc, BY_KEY, THE_FIRST_FILE)?;
    Ok(again.status == 0 && again.gained.as_slice() == plain.gained.as_slice())
}

#[test]
fn words_keep_the_rows(rt: HostRuntime) -> Result<(), AllocError> {
    for word in [
        "--page=1",
        "--page=6",
        "--no-stats",
        "--ignore-key",
        "--chunk=4",
        "--delta",
    ] {
        assert!(rt; keeps_rows(rt.alloc(), &[word])?);
    }
    Ok(())
}

/// Whether a run whose source fails at this call gains nothing.
fn source_fails_at(alloc: Global, call: u64) -> Result<bool, AllocError> {
    let faults = Faults {
        source: call,
        ..NO_FAULTS
    };
    let made = run_with(alloc, BY_KEY, THE_FIRST_FILE, faults)?;
    Ok(
        made.status == 3
            && made.gained.is_empty()
            && made.notes.as_slice() == b"ReadFault\n".as_slice(),
    )
}

#[test]
fn a_source_fails(rt: HostRuntime) -> Result<(), AllocError> {
    // the second call finds the end
    for call in 1..3 {
        assert!(rt; source_fails_at(rt.alloc(), call)?);
    }
    Ok(())
}

/// Whether a run whose sink takes a byte a call, and fails at this one, leaves the bytes of the calls before.
fn sink_fails_at(alloc: Global, call: u64, whole: &[u8]) -> Result<bool, AllocError> {
    let faults = Faults {
        sink: call,
        limit: 1,
        ..NO_FAULTS
    };
    let made = run_with(alloc, BY_KEY, THE_FIRST_FILE, faults)?;
    Ok(
        made.status == 4
            && made.gained.len() as u64 + 1 == call
            && whole.starts_with(&made.gained)
            && made.notes.as_slice() == b"WriteFault\n".as_slice(),
    )
}

#[test]
fn a_sink_fails_at_each_call(rt: HostRuntime) -> Result<(), AllocError> {
    let whole = run_on(rt.alloc(), BY_KEY, THE_FIRST_FILE)?;
    for call in 0..whole.gained.len() {
        assert!(rt; sink_fails_at(rt.alloc(), call as u64 + 1, &whole.gained)?);
    }
    Ok(())
}

/// Whether a run whose sink takes so many bytes a call writes the same.
fn is_written_by(alloc: Global, limit: usize) -> Result<bool, AllocError> {
    let whole = run_on(alloc, BY_KEY, THE_FIRST_FILE)?;
    let faults = Faults { limit, ..NO_FAULTS };
    let made = run_with(alloc, BY_KEY, THE_FIRST_FILE, faults)?;
    Ok(made.status == 0 && made.gained.as_slice() == whole.gained.as_slice())
}

#[test]
fn sinks_take_little(rt: HostRuntime) -> Result<(), AllocError> {
    for limit in [1, 2, 100] {
        assert!(rt; is_written_by(rt.alloc(), limit)?);
    }
    Ok(())
}

/// Whether notes that fail change neither the status nor what is written.
fn notes_fail(alloc: Global) -> Result<bool, AllocError> {
    let whole = run_on(alloc, BY_KEY, THE_FIRST_FILE)?;
    let faults = Faults {
        notes: 1,
        ..NO_FAULTS
    };
    let made = run_with(alloc, BY_KEY, THE_FIRST_FILE, faults)?;
    Ok(
        made.status == 0
            && made.notes.is_empty()
            && made.gained.as_slice() == whole.gained.as_slice(),
    )
}

#[test]
fn failing_notes_change_nothing(rt: HostRuntime) -> Result<(), AllocError> {
    assert!(rt; notes_fail(rt.alloc())?);
    Ok(())
}
