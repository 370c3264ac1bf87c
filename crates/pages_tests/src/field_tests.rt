//! Which fields the structs of a footer and of a page's header need, and what may stand in them
//! (Parquet format, parquet.thrift; docs/FORMAT.md has the table).
use columns_base::{Error, N, S};
use pq_container::{read_footer, read_page_header};
use std::alloc::Global;
use std::test::Fail;

/// Which struct the bytes are to be.
#[derive(Clone, Copy, Debug, PartialEq, Eq)]
enum Record {
    Element,
    Column,
    Chunk,
    Group,
    Key,
    Footer,
    Page,
    DataPage,
    DataPageV2,
    DictionaryPage,
}

/// A field with its header in the long form (its kind, its id in zigzag), and whether the struct
/// is refused without it.
type Field = (&'static [u8], bool);

/// The place of a field, what stands in its stead, and whether the struct is read then.
type Change = (usize, &'static [u8], bool);

const ELEMENT: &[Field] = &[
    (&[0x05, 0x02, 0x0e], false),
    (&[0x05, 0x04, 0x20], true),
    (&[0x05, 0x06, 0x02], true),
    (&[0x08, 0x08, 1, b'a'], true),
    (&[0x05, 0x0a, 0x00], false),
    (&[0x05, 0x0c, 0x0a], false),
    (&[0x05, 0x0e, 0x04], false),
    (&[0x05, 0x10, 0x12], false),
    (&[0x05, 0x12, 0x01], false),
    (
        &[
            0x0c, 0x14, 0x0c, 0x0a, 0x05, 0x02, 0x04, 0x05, 0x04, 0x12, 0, 0,
        ],
        false,
    ),
];

const COLUMN: &[Field] = &[
    (&[0x05, 0x02, 0x02], true),
    (&[0x09, 0x04, 0x15, 0x06], false),
    (&[0x09, 0x06, 0x18, 1, b'a'], false),
    (&[0x05, 0x08, 0x00], true),
    (&[0x06, 0x0a, 0x0a], true),
    (&[0x06, 0x0c, 0x4c], false),
    (&[0x06, 0x0e, 0x4c], true),
    (&[0x06, 0x12, 0x08], true),
    (&[0x06, 0x16, 0x04], false),
    (
        &[0x0c, 0x18, 0x06, 0x06, 0x02, 0x08, 0x0a, 1, b'z', 0],
        false,
    ),
];

const CHUNK: &[Field] = &[
    (&[0x08, 0x02, 1, b'f'], false),
    (&[0x06, 0x04, 0x08], false),
    (
        &[
            0x0c, 0x06, 0x15, 0x02, 0x35, 0x00, 0x16, 0x0a, 0x26, 0x4c, 0x26, 0x08, 0,
        ],
        true,
    ),
];

const GROUP: &[Field] = &[
    (&[0x09, 0x02, 0x0c], true),
    (&[0x06, 0x04, 0x4c], false),
    (&[0x06, 0x06, 0x08], true),
    (&[0x06, 0x0a, 0x08], false),
    (&[0x06, 0x0c, 0x4c], false),
    (&[0x04, 0x0e, 0x00], false),
];

const KEY: &[Field] = &[
    (&[0x08, 0x02, 1, b'k'], true),
    (&[0x08, 0x04, 1, b'v'], false),
];

const FOOTER: &[Field] = &[
    (&[0x05, 0x02, 0x02], false),
    (&[0x09, 0x04, 0x1c, 0x48, 1, b'r', 0], true),
    (&[0x06, 0x06, 0x00], false),
    (&[0x09, 0x08, 0x0c], true),
    (&[0x09, 0x0a, 0x1c, 0x18, 1, b'k', 0], false),
    (&[0x08, 0x0c, 1, 0xff], false),
];

const PAGE: &[Field] = &[
    (&[0x05, 0x02, 0x00], true),
    (&[0x05, 0x04, 0x2a], false),
    (&[0x05, 0x06, 0x2a], true),
    (&[0x05, 0x08, 0x00], false),
    (&[0x0c, 0x0a, 0x15, 0x0a, 0x15, 0x00, 0], true),
];

const DATA_PAGE: &[Field] = &[
    (&[0x05, 0x02, 0x0a], true),
    (&[0x05, 0x04, 0x00], true),
    (&[0x05, 0x06, 0x06], false),
    (&[0x05, 0x08, 0x06], false),
    (&[0x0c, 0x0a, 0], false),
];

const DATA_PAGE_V2: &[Field] = &[
    (&[0x05, 0x02, 0x0a], true),
    (&[0x05, 0x04, 0x04], false),
    (&[0x05, 0x06, 0x08], true),
    (&[0x05, 0x08, 0x00], true),
    (&[0x05, 0x0a, 0x04], true),
    (&[0x05, 0x0c, 0x04], true),
    (&[0x02, 0x0e], false),
];

const DICTIONARY_PAGE: &[Field] = &[
    (&[0x05, 0x02, 0x0a], true),
    (&[0x05, 0x04, 0x00], true),
    (&[0x02, 0x06], false),
];

fn fields_of(record: Record) -> &'static [Field] {
    match record {
        Record::Element => ELEMENT,
        Record::Column => COLUMN,
        Record::Chunk => CHUNK,
        Record::Group => GROUP,
        Record::Key => KEY,
        Record::Footer => FOOTER,
        Record::Page => PAGE,
        Record::DataPage => DATA_PAGE,
        Record::DataPageV2 => DATA_PAGE_V2,
        Record::DictionaryPage => DICTIONARY_PAGE,
    }
}

/// What stands in front of the struct's fields, so that the whole is a footer or a page's header: of a footer its
/// root, and what leads to the struct.
fn front(record: Record) -> &'static [u8] {
    match record {
        Record::Element => b"\x29\x2c\x48\x01r\x15\x02\x00",
        Record::Column => b"\x29\x1c\x48\x01r\x00\x16\x00\x19\x1c\x19\x1c\x0c\x06",
        Record::Chunk => b"\x29\x1c\x48\x01r\x00\x16\x00\x19\x1c\x19\x1c",
        Record::Group => b"\x29\x1c\x48\x01r\x00\x16\x00\x19\x1c",
        Record::Key => b"\x29\x1c\x48\x01r\x00\x16\x00\x19\x0c\x19\x1c",
        Record::DataPage => b"\x15\x00\x25\x2a\x2c",
        Record::DataPageV2 => b"\x15\x06\x25\x2a\x5c",
        Record::DictionaryPage => b"\x15\x04\x25\x2a\x4c",
        Record::Footer | Record::Page => b"",
    }
}

/// What stands behind them.
fn back(record: Record) -> &'static [u8] {
    match record {
        Record::Element => b"\x00\x16\x00\x19\x0c\x00",
        Record::Column => b"\x00\x00\x26\x00\x00\x00",
        Record::Chunk => b"\x00\x26\x00\x00\x00",
        Record::Group | Record::Key => b"\x00\x00",
        Record::DataPage | Record::DataPageV2 | Record::DictionaryPage => b"\x00\x00",
        Record::Footer | Record::Page => b"\x00",
    }
}

/// The struct's fields, but for the one at the place, in whose stead the text stands.
fn changed(alloc: Global, record: Record, at: usize, text: &[u8]) -> Result<Vec<u8>, Fail> {
    let mut bytes = front(record).to_vec(alloc)?;
    for (i, (field, _)) in fields_of(record).iter().enumerate() {
        bytes.extend_from_slice(if i == at { text } else { field })?;
    }
    bytes.extend_from_slice(back(record))?;
    Ok(bytes)
}

fn footer_outcome(alloc: Global, bytes: &[u8]) -> Option<Error> {
    match read_footer(alloc, bytes) {
        Ok(_) => None,
        Err(error) => Some(error),
    }
}

fn header_outcome(alloc: Global, bytes: &[u8]) -> Option<Error> {
    match read_page_header(alloc, bytes) {
        Ok(_) => None,
        Err(error) => Some(error),
    }
}

/// Whether the bytes are read where they should be, and refused by the struct's own reason where not.
fn is_so(alloc: Global, record: Record, bytes: &[u8], is_read: bool) -> bool {
    let is_header = matches!(
        record,
        Record::Page | Record::DataPage | Record::DataPageV2 | Record::DictionaryPage
    );
    let (outcome, reason) = if is_header {
        (header_outcome(alloc, bytes), S::S3)
    } else {
        (footer_outcome(alloc, bytes), S::S1)
    };
    outcome
        == if is_read {
            None
        } else {
            Some(Error::OutOfSpec(reason))
        }
}

fn is_changed_so(alloc: Global, record: Record, change: &Change) -> Result<bool, Fail> {
    let bytes = changed(alloc, record, change.0, change.1)?;
    Ok(is_so(alloc, record, &bytes, change.2))
}

/// Whether each field is needed as the table says.
fn are_needed(alloc: Global, record: Record) -> Result<bool, Fail> {
    let mut are = true;
    for (i, (_, is_needed)) in fields_of(record).iter().enumerate() {
        are = is_changed_so(alloc, record, &(i, b"", !*is_needed))? && are;
    }
    Ok(is_changed_so(alloc, record, &(100, b"", true))? && are)
}

#[test]
fn needed_fields_are_needed(rt: HostRuntime) -> Result<(), Fail> {
    let records = [
        Record::Element,
        Record::Column,
        Record::Chunk,
        Record::Group,
        Record::Key,
        Record::Footer,
        Record::Page,
        Record::DataPage,
        Record::DataPageV2,
        Record::DictionaryPage,
    ];
    for record in records {
        assert!(rt; are_needed(rt.alloc(), record)?, "{record:?}");
    }
    Ok(())
}

const ELEMENTS: &[Change] = &[
    // another kind than the table's
    (0, &[0x06, 0x02, 0x0e], false),
    (3, &[0x05, 0x08, 0x02], false),
    (4, &[0x06, 0x0a, 0x00], false),
    (9, &[0x05, 0x14, 0x00], false),
    // the last of two fields counts
    (2, &[0x05, 0x06, 0x06, 0x05, 0x06, 0x02], true),
    (2, &[0x05, 0x06, 0x02, 0x05, 0x06, 0x06], false),
    (2, &[0x08, 0x06, 0, 0x05, 0x06, 0x02], true),
    // a field that is not known, and the id -1
    (4, &[0x05, 0x16, 0x00], true),
    (4, &[0x08, 0x01, 0], true),
    // types: 8, -1, and arrays of no bytes
    (0, &[0x05, 0x02, 0x10], false),
    (0, &[0x05, 0x02, 0x01], false),
    (1, &[0x05, 0x04, 0x00], false),
    (1, &[0x05, 0x04, 0x01], false),
    // repetitions: 3 and -1
    (2, &[0x05, 0x06, 0x06], false),
    (2, &[0x05, 0x06, 0x01], false),
    // a name of no text, and an empty one
    (3, &[0x08, 0x08, 1, 0xff], false),
    (3, &[0x08, 0x08, 0], true),
    // fewer than no children
    (4, &[0x05, 0x0a, 0x01], false),
    // converted types that are not known: 22 and -1
    (5, &[0x05, 0x0c, 0x2c], true),
    (5, &[0x05, 0x0c, 0x01], true),
    // a scale and a precision of -1
    (6, &[0x05, 0x0e, 0x01], false),
    (7, &[0x05, 0x10, 0x01], false),
    // a logical type that is not known: member 9
    (9, &[0x0c, 0x14, 0x0c, 0x12, 0, 0], true),
    (9, &[0x0c, 0x14, 0x0c, 0x0a, 0x05, 0x02, 0x01, 0, 0], false),
];

const COLUMNS: &[Change] = &[
    // lists of another kind, and an empty one of no kind
    (1, &[0x09, 0x04, 0x16, 0x06], false),
    (1, &[0x09, 0x04, 0x00], true),
    (2, &[0x09, 0x06, 0x15, 0x06], false),
    // statistics of another kind
    (9, &[0x0c, 0x18, 0x05, 0x06, 0x02, 0], false),
];

const FOOTERS: &[Change] = &[
    // no root, a root with a type, and a node behind it
    (1, &[0x09, 0x04, 0x0c], false),
    (1, &[0x09, 0x04, 0x1c, 0x15, 0x02, 0x38, 1, b'r', 0], false),
    (
        1,
        &[0x09, 0x04, 0x2c, 0x48, 1, b'r', 0, 0x35, 0x02, 0x18, 0, 0],
        true,
    ),
    // a key of no text, and a file whose columns are encrypted
    (4, &[0x09, 0x0a, 0x1c, 0x18, 1, 0xff, 0], false),
    (5, &[0x0c, 0x10, 0], false),
    // more nodes than the bytes hold
    (1, &[0x09, 0x04, 0xfc, 0xff, 0xff, 0xff, 0xff, 0x07], false),
];

// A size and a count of -1.
const PAGES: &[Change] = &[(2, &[0x05, 0x06, 0x01], false)];

const DATA_PAGES: &[Change] = &[(0, &[0x05, 0x02, 0x01], false)];

#[test]
fn changed_fields_are_read_or_refused(rt: HostRuntime) -> Result<(), Fail> {
    let tables = [
        (Record::Element, ELEMENTS),
        (Record::Column, COLUMNS),
        (Record::Footer, FOOTERS),
        (Record::Page, PAGES),
        (Record::DataPage, DATA_PAGES),
    ];
    for (record, changes) in tables {
        for change in changes {
            assert!(rt;
                is_changed_so(rt.alloc(), record, change)?,
                "{record:?} {change:?}"
            );
        }
    }
    Ok(())
}

/// A header's fields, and whether they are of an index page or of a type that is not known.
const TYPES: &[(&[u8], bool)] = &[
    // an index page, and the types 4, -1 and 7, with everything else absent
    (&[0x15, 0x02, 0], true),
    (&[0x15, 0x08, 0], true),
    (&[0x15, 0x01, 0], true),
    (&[0x15, 0x0e, 0], true),
    // no type, and one of another kind
    (&[0], false),
    (&[0x16, 0x02, 0], false),
    // the types 0, 2 and 3 without their struct
    (&[0x15, 0x00, 0], false),
    (&[0x15, 0x04, 0], false),
    (&[0x15, 0x06, 0], false),
    // the last of two types counts
    (&[0x15, 0x00, 0x05, 0x02, 0x02, 0], true),
    (&[0x15, 0x02, 0x05, 0x02, 0x00, 0], false),
    // an index page that is cut, and whole ones with a size
    (&[0x15, 0x02], false),
    (&[0x15, 0x02, 0x15, 0x2a, 0x15, 0x2a, 0], true),
    (&[0x15, 0x08, 0x15, 0x2a, 0x15, 0x2a, 0], true),
];

#[test]
fn page_types_are_reported(rt: HostRuntime) -> Result<(), Fail> {
    for (bytes, is_other) in TYPES {
        let reason = if *is_other {
            Error::NotYetImplemented(N::N4)
        } else {
            Error::OutOfSpec(S::S3)
        };
        assert!(rt;
            header_outcome(rt.alloc(), bytes) == Some(reason),
            "{bytes:?}"
        );
    }
    Ok(())
}

/// A struct of one list, which holds lists down to the depth.
fn nested(alloc: Global, depth: usize) -> Result<Vec<u8>, Fail> {
    let mut bytes = vec![in alloc; 0x19u8; depth]?;
    bytes.extend_from_slice(&[0, 0])?;
    Ok(bytes)
}

// A struct over 127 lists nests 128, and one over 128 lists 129.
#[test]
fn deep_structs_are_reported(rt: HostRuntime) -> Result<(), Fail> {
    let alloc = rt.alloc();
    let within = nested(alloc, 127)?;
    let past = nested(alloc, 128)?;
    assert!(rt; footer_outcome(alloc, &within) == Some(Error::OutOfSpec(S::S1)));
    assert!(rt; footer_outcome(alloc, &past) == Some(Error::NotYetImplemented(N::N7)));
    assert!(rt; header_outcome(alloc, &past) == Some(Error::OutOfSpec(S::S3)));
    Ok(())
}
