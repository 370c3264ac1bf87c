//! The entries of a dictionary page as an array, and numbers as keys.
use columns_array::ArrayBox;
use columns_base::{Error, Result, S};
use columns_core::DataType;
use columns_leaf::keys::DictionaryKeys;
use dictionary_leaves::{entry_array, kept_keys};
use read_leaf::{NumberValues, Text};
use read_pieces::{LeafReader, PlainBytes, extend_leaf};
use read_state::{InitNested, init_nested};
use read_types::{Numbers, Strings};
use read_walk::NestedPage;
use std::alloc::Global;

// The texts "a" and "bc" in PLAIN, and a text behind them (Parquet format, Encodings, "Plain").
const TEXTS: &[u8] = &[1, 0, 0, 0, 97, 2, 0, 0, 0, 98, 99, 0, 0, 0, 0];

fn texts(alloc: Global, body: &[u8]) -> Result<ArrayBox> {
    entry_array(alloc, &Strings::<i32, Text>::new(), body, 2, DataType::Utf8)
}

// Two texts in three bytes.
fn makes_texts(alloc: Global) -> Result<bool> {
    match texts(alloc, TEXTS)? {
        ArrayBox::Utf8(array) => Ok(
            array.values() == b"abc".as_slice()
                && array.offsets().buffer() == [0, 1, 3].as_slice()
                && array.null_count() == 0,
        ),
        _ => Ok(false),
    }
}

// The second text wants a byte.
fn is_cut(alloc: Global) -> bool {
    match texts(alloc, &TEXTS[..10]) {
        Err(error) => error == Error::OutOfSpec(S::S6),
        Ok(_) => false,
    }
}

// The numbers 1, 5, 0 and -1 in PLAIN.
const NUMBERS: &[u8] = &[1, 0, 0, 0, 5, 0, 0, 0, 0, 0, 0, 0, 255, 255, 255, 255];

fn numbers(alloc: Global) -> Result<NumberValues<i8>> {
    let mut nested = init_nested(alloc, &[InitNested::Primitive(false)], 0)?;
    let leaf = Numbers::<i8, i32>::new();
    let mut values = leaf.begin(alloc)?;
    let mut page = NestedPage::try_new(&[], 0, &[], 0, 4)?;
    let mut bytes = PlainBytes {
        values: NUMBERS,
        bit: 0,
    };
    extend_leaf(&leaf, &mut page, &mut bytes, &mut nested, &mut values, 4)?;
    Ok(values)
}

// Of two entries 1 and 0 are the numbers; 5 and -1 are no keys.
fn keeps_keys(alloc: Global) -> Result<bool> {
    match kept_keys(alloc, numbers(alloc)?, 2)? {
        DictionaryKeys::Int8(keys) => match keys.validity() {
            Some(mask) => Ok(
                keys.values() == [1, 5, 0, -1].as_slice()
                    && mask.len() == 4
                    && mask.word_at(0, 4) == 0b0101,
            ),
            None => Ok(false),
        },
        _ => Ok(false),
    }
}

#[test]
fn entries_are_an_array(rt: HostRuntime) -> Result<()> {
    assert!(rt; makes_texts(rt.alloc())?);
    Ok(())
}

#[test]
fn entries_that_are_cut_are_refused(rt: HostRuntime) -> Result<()> {
    assert!(rt; is_cut(rt.alloc()));
    Ok(())
}

#[test]
fn numbers_of_no_entry_are_null(rt: HostRuntime) -> Result<()> {
    assert!(rt; keeps_keys(rt.alloc())?);
    Ok(())
}
