//! Messages with bytes changed: those that tell no schema, and those that still do.
use crate::bytes::unspelled;
use columns_core::Schema;
use schema_codec::{PlainCodec, SchemaCodec};
use schema_fb::FlatCodec;
use std::alloc::Global;
use std::test::Fail;

type TestResult = Result<(), Fail>;

// Bytes in place of others: where, and which.
type Changes<'a> = &'a [(usize, u8)];

// The message of a nullable field `a` of 32-bit numbers. Message: vtable at 8, table at 24. Schema: 64, 80. The vector of
// fields: 112. Field: 120, 144. Its name: 208. Int: 216, 224. The vector of children: 248.
const NUMBERS_A: [u8; 256] = [
    24, 0, 0, 0, 0, 0, 0, 0, 12, 0, 40, 0, 8, 0, 16, 0, 24, 0, 0, 0, 0, 0, 0, 0, 16, 0, 0, 0, 0, 0,
    0, 0, 4, 0, 0, 0, 0, 0, 0, 0, 1, 0, 0, 0, 0, 0, 0, 0, 32, 0, 0, 0, 0, 0, 0, 0, 0, 0, 0, 0, 0,
    0, 0, 0, 10, 0, 32, 0, 0, 0, 16, 0, 0, 0, 0, 0, 0, 0, 0, 0, 16, 0, 0, 0, 0, 0, 0, 0, 0, 0, 0,
    0, 0, 0, 0, 0, 16, 0, 0, 0, 0, 0, 0, 0, 0, 0, 0, 0, 0, 0, 0, 0, 1, 0, 0, 0, 28, 0, 0, 0, 18, 0,
    64, 0, 8, 0, 16, 0, 24, 0, 32, 0, 0, 0, 48, 0, 0, 0, 0, 0, 0, 0, 0, 0, 24, 0, 0, 0, 0, 0, 0, 0,
    56, 0, 0, 0, 0, 0, 0, 0, 1, 0, 0, 0, 0, 0, 0, 0, 2, 0, 0, 0, 0, 0, 0, 0, 48, 0, 0, 0, 0, 0, 0,
    0, 0, 0, 0, 0, 0, 0, 0, 0, 56, 0, 0, 0, 0, 0, 0, 0, 0, 0, 0, 0, 0, 0, 0, 0, 1, 0, 0, 0, 97, 0,
    0, 0, 8, 0, 24, 0, 8, 0, 16, 0, 8, 0, 0, 0, 0, 0, 0, 0, 32, 0, 0, 0, 0, 0, 0, 0, 1, 0, 0, 0, 0,
    0, 0, 0, 0, 0, 0, 0, 0, 0, 0, 0,
];

// Each makes of it no schema.
const DAMAGED: &[Changes] = &[
    // the offset of the message: none, and none that lies within the bytes
    &[(0, 0)],
    &[(0, 253)],
    &[(3, 255)],
    // a vtable before the bytes, behind them, partly behind them
    &[(24, 25)],
    &[(27, 128)],
    &[(9, 1)],
    &[(144, 25)],
    // a vtable's size below 4, and odd
    &[(24, 0)],
    &[(8, 2)],
    &[(8, 13)],
    &[(80, 0)],
    &[(224, 0)],
    // no header type, another header, no header, a header outside
    &[(14, 0)],
    &[(40, 0)],
    &[(40, 2)],
    &[(16, 0)],
    &[(48, 0)],
    &[(51, 255)],
    // a slot outside
    &[(15, 255)],
    // big endian
    &[(68, 16)],
    // fields outside, more of them than there are, one outside
    &[(99, 255)],
    &[(112, 2)],
    &[(115, 255)],
    &[(119, 255)],
    // a name outside, too long, no UTF-8
    &[(155, 255)],
    &[(208, 45)],
    &[(211, 255)],
    &[(212, 255)],
    // truth values
    &[(160, 2)],
    &[(160, 255)],
    &[(240, 2)],
    // a tag that is absent, or without a type
    &[(128, 0)],
    &[(168, 0)],
    &[(168, 22)],
    &[(168, 255)],
    // a type's table that is absent, or outside
    &[(130, 0)],
    &[(179, 255)],
    // a width that is absent, and widths that no type has
    &[(220, 0)],
    &[(232, 0)],
    &[(232, 33)],
    &[(233, 1)],
    &[(235, 128)],
    // precision, units, mode and truth of 32
    &[(168, 3)],
    &[(168, 8)],
    &[(168, 9)],
    &[(168, 10)],
    &[(168, 11)],
    &[(168, 14)],
    &[(168, 17)],
    &[(168, 18)],
    // lists and a map without a child
    &[(168, 12)],
    &[(168, 16)],
    &[(168, 21)],
    &[(168, 17), (232, 1)],
    // negative: a size, a precision, a scale
    &[(168, 15), (235, 128)],
    &[(168, 7), (235, 128)],
    &[(168, 7), (243, 128)],
    // a dictionary's table without a vtable, and metadata outside
    &[(132, 40)],
    &[(136, 8)],
];

// Each makes of it a schema, in the plain codec's bytes.
const SOUND: &[(Changes, &[u8])] = &[
    (
        &[],
        &[1, 0, 0, 0, 1, 0, 0, 0, b'a', 1, 4, 0, 0, 0, 0, 0, 0, 0, 0],
    ),
    // what is not looked at: four bytes behind the offset, the version, where the body's length stands, a table's size
    (
        &[(4, 1), (7, 9)],
        &[1, 0, 0, 0, 1, 0, 0, 0, b'a', 1, 4, 0, 0, 0, 0, 0, 0, 0, 0],
    ),
    (
        &[(32, 255), (33, 255)],
        &[1, 0, 0, 0, 1, 0, 0, 0, b'a', 1, 4, 0, 0, 0, 0, 0, 0, 0, 0],
    ),
    (
        &[(18, 255), (19, 255)],
        &[1, 0, 0, 0, 1, 0, 0, 0, b'a', 1, 4, 0, 0, 0, 0, 0, 0, 0, 0],
    ),
    (
        &[(10, 0)],
        &[1, 0, 0, 0, 1, 0, 0, 0, b'a', 1, 4, 0, 0, 0, 0, 0, 0, 0, 0],
    ),
    // nor the byte behind a text, nor the children of a type that has none
    (
        &[(213, 1)],
        &[1, 0, 0, 0, 1, 0, 0, 0, b'a', 1, 4, 0, 0, 0, 0, 0, 0, 0, 0],
    ),
    (
        &[(195, 255)],
        &[1, 0, 0, 0, 1, 0, 0, 0, b'a', 1, 4, 0, 0, 0, 0, 0, 0, 0, 0],
    ),
    // endianness 0, and metadata without entries
    (
        &[(68, 8)],
        &[1, 0, 0, 0, 1, 0, 0, 0, b'a', 1, 4, 0, 0, 0, 0, 0, 0, 0, 0],
    ),
    (
        &[(136, 56)],
        &[1, 0, 0, 0, 1, 0, 0, 0, b'a', 1, 4, 0, 0, 0, 0, 0, 0, 0, 0],
    ),
    // defaults of what is absent: nullable, the name, whether numbers are signed, fields
    (
        &[(126, 0)],
        &[1, 0, 0, 0, 1, 0, 0, 0, b'a', 0, 4, 0, 0, 0, 0, 0, 0, 0, 0],
    ),
    (
        &[(124, 0)],
        &[1, 0, 0, 0, 0, 0, 0, 0, 1, 4, 0, 0, 0, 0, 0, 0, 0, 0],
    ),
    (
        &[(222, 0)],
        &[1, 0, 0, 0, 1, 0, 0, 0, b'a', 1, 8, 0, 0, 0, 0, 0, 0, 0, 0],
    ),
    (&[(70, 0)], &[0, 0, 0, 0, 0, 0, 0, 0]),
    // no field, an empty name
    (&[(112, 0)], &[0, 0, 0, 0, 0, 0, 0, 0]),
    (
        &[(208, 0)],
        &[1, 0, 0, 0, 0, 0, 0, 0, 1, 4, 0, 0, 0, 0, 0, 0, 0, 0],
    ),
    // other types over the same table: Null, FixedSizeBinary, Decimal of 128 bits
    (
        &[(168, 1)],
        &[1, 0, 0, 0, 1, 0, 0, 0, b'a', 1, 0, 0, 0, 0, 0, 0, 0, 0, 0],
    ),
    (
        &[(168, 15)],
        &[
            1, 0, 0, 0, 1, 0, 0, 0, b'a', 1, 21, 32, 0, 0, 0, 0, 0, 0, 0, 0, 0, 0, 0, 0, 0, 0, 0,
        ],
    ),
    (
        &[(168, 7)],
        &[
            1, 0, 0, 0, 1, 0, 0, 0, b'a', 1, 32, 32, 0, 0, 0, 0, 0, 0, 0, 1, 0, 0, 0, 0, 0, 0, 0,
            0, 0, 0, 0, 0, 0, 0, 0,
        ],
    ),
];

// The message with bytes changed.
fn changed(changes: Changes) -> [u8; 256] {
    let mut message = NUMBERS_A;
    for (place, byte) in changes {
        if let Some(it) = message.get_mut(*place) {
            *it = *byte;
        }
    }
    message
}

fn is_schema(alloc: Global, message: &[u8]) -> Result<bool, Fail> {
    Ok(FlatCodec.decode(alloc, message)?.is_some())
}

#[test]
fn damaged_messages_are_no_schema(rt: HostRuntime) -> TestResult {
    for changes in DAMAGED {
        assert!(rt; !is_schema(rt.alloc(), &changed(changes))?);
    }
    Ok(())
}

// Whether the message tells the schema of the plain bytes.
fn tells(alloc: Global, message: &[u8], plain: &[u8]) -> Result<bool, Fail> {
    let schema: Option<Schema> = FlatCodec.decode(alloc, message)?;
    Ok(schema.is_some() && schema == PlainCodec.decode(alloc, plain)?)
}

#[test]
fn what_is_not_looked_at_changes_nothing(rt: HostRuntime) -> TestResult {
    for (changes, plain) in SOUND {
        assert!(rt; tells(rt.alloc(), &changed(changes), plain)?);
    }
    Ok(())
}

#[test]
fn a_cut_message_is_no_schema(rt: HostRuntime) -> TestResult {
    for size in 0..241 {
        assert!(rt; !is_schema(rt.alloc(), &NUMBERS_A[..size])?);
    }
    // whether numbers are signed stands last; what is behind it is not looked at
    assert!(rt; is_schema(rt.alloc(), &NUMBERS_A[..241])?);
    Ok(())
}

// A message of 64 offsets to one field, whose name has 255 bytes: 16,384 fields and bytes of texts.
const SHARED: &str =
    "GAAAAAAAAAAMACgACAAQABgAAAAAAAAAEAAAAAAAAAAEAAAAAAAAAAEAAAAAAAAAIAAAAAAAAAAAAAAAAAAAAAoAIAAAABAAAAAAAAAAAAAQAAAAAAAAAAAAAAAAAAAAEAAAAAAAAAAAAAAAAAAAAEAAAAAcAQAAGAEAABQBAAAQAQAADAEAAAgBAAAEAQAAAAEAAPwAAAD4AAAA9AAAAPAAAADsAAAA6AAAAOQAAADgAAAA3AAAANgAAADUAAAA0AAAAMwAAADIAAAAxAAAAMAAAAC8AAAAuAAAALQAAACwAAAArAAAAKgAAACkAAAAoAAAAJwAAACYAAAAlAAAAJAAAACMAAAAiAAAAIQAAACAAAAAfAAAAHgAAAB0AAAAcAAAAGwAAABoAAAAZAAAAGAAAABcAAAAWAAAAFQAAABQAAAATAAAAEgAAABEAAAAQAAAADwAAAA4AAAANAAAADAAAAAsAAAAKAAAACQAAAAgAAAAAAAAABIAQAAIABAAGAAgAAAAMAAAAAAAAAAAABgAAAAAAAAAOAAAAAAAAAABAAAAAAAAAAEAAAAAAAAAMAEAAAAAAAAAAAAAAAAAACgBAAAAAAAAAAAAAAAAAAD/AAAAeHh4eHh4eHh4eHh4eHh4eHh4eHh4eHh4eHh4eHh4eHh4eHh4eHh4eHh4eHh4eHh4eHh4eHh4eHh4eHh4eHh4eHh4eHh4eHh4eHh4eHh4eHh4eHh4eHh4eHh4eHh4eHh4eHh4eHh4eHh4eHh4eHh4eHh4eHh4eHh4eHh4eHh4eHh4eHh4eHh4eHh4eHh4eHh4eHh4eHh4eHh4eHh4eHh4eHh4eHh4eHh4eHh4eHh4eHh4eHh4eHh4eHh4eHh4eHh4eHh4eHh4eHh4eHh4eHh4eHh4eHh4eHh4eHh4eHh4eHh4eHh4eHh4eHh4eHh4eHh4eHh4eHh4eHh4eHh4eHh4AAAAAAAEAAgAAAAAAAgAAAAAAAAAAAAAAAAAAAA=";

// The message, and zero bytes behind it.
fn lengthened(alloc: Global, size: usize) -> Result<Vec<u8>, Fail> {
    let mut message = unspelled(alloc, SHARED)?;
    message.resize(size, 0)?;
    Ok(message)
}

#[test]
fn a_message_tells_no_more_than_16_times_its_length(rt: HostRuntime) -> TestResult {
    assert!(rt; is_schema(rt.alloc(), &lengthened(rt.alloc(), 1024)?)?);
    assert!(rt; !is_schema(rt.alloc(), &lengthened(rt.alloc(), 1023)?)?);
    Ok(())
}
