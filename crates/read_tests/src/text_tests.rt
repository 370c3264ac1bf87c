//! Texts that a struct has.
ghost use Rattle.std.specs.Prelude.{◌≡◌, ◌<◌};

use columns_base::{Error, Result, S};
use read_leaf::{PlainStrings, StringDecoder, StringValues, Text};
use read_state::{InitNested, NestedState, Steps, init_nested};
use read_walk::{NestedPage, extend_levels};
use std::alloc::Global;
use std::marker::Brand;
use std::sync::ledger::{Blank, Ledger};

// The texts "a", null, "bc" of a struct that is required.
const DEFS: &[u8] = &[3, 0b0000_0101];

const VALUES: &[u8] = &[1, 0, 0, 0, 97, 2, 0, 0, 0, 98, 99];

// The walk of all rows of a required struct with a nullable text. Its steps are counted in a ledger of their own.
fn walk_in<L: Ledger>(
    alloc: Global,
    values: &[u8],
    blank: Blank,
) -> Result<(NestedState, StringValues<i32, Text>)>
    requires name { blank.name ≡ L.name }
    requires parts { blank.parts ≡ L.parts }
    requires some { 0 < blank.parts }
{
    let mut steps: Steps<L> = Steps::new(blank);
    let mut nested = init_nested(
        alloc,
        &[InitNested::Struct(false), InitNested::Primitive(true)],
        0,
    )?;
    let mut decoded = StringValues::<i32, Text>::new(alloc)?;
    let mut page = NestedPage::try_new(&[], 0, DEFS, 1, 3)?;
    let mut values = PlainStrings { values };
    let decoder = StringDecoder::<i32, Text>::new();
    extend_levels(
        &mut page,
        &mut values,
        &mut nested,
        &mut decoded,
        &decoder,
        3,
        &mut steps,
    )?;
    Ok((nested, decoded))
}

fn walk(alloc: Global, values: &[u8]) -> Result<(NestedState, StringValues<i32, Text>)> {
    walk_in::<Brand>(alloc, values, Blank::new(1))
}

fn reads_texts(alloc: Global) -> Result<bool> {
    let (_nested, decoded) = walk(alloc, VALUES)?;
    let (strings, validity) = decoded.into_parts();
    let (offsets, bytes) = strings.into_parts();
    let places = offsets.into_buffer()?;
    Ok(
        places.buffer() == [0, 1, 1, 3].as_slice()
            && bytes.as_slice() == [97, 98, 99].as_slice()
            && validity.into_bitmap()?.unset_bits() == 1,
    )
}

#[test]
fn texts_are_read(rt: HostRuntime) -> Result<()> {
    assert!(rt; reads_texts(rt.alloc())?);
    Ok(())
}

// The walk is refused for this reason.
fn refuses(alloc: Global, values: &[u8], want: Error) -> bool {
    match walk(alloc, values) {
        Ok(_) => false,
        Err(error) => error == want,
    }
}

#[test]
fn cut_texts_and_other_bytes_are_refused(rt: HostRuntime) {
    let rows: [(&[u8], S); 4] = [
        (&[1, 0, 0, 0, 97, 2, 0, 0, 0, 98], S::S6),
        (&[1, 0, 0, 0, 97, 2, 0, 0], S::S6),
        (&[1, 0, 0, 0, 97], S::S6),
        (&[1, 0, 0, 0, 97, 1, 0, 0, 0, 255], S::S7),
    ];
    for (values, fault) in &rows {
        assert!(rt; refuses(rt.alloc(), values, Error::OutOfSpec(*fault)));
    }
}
