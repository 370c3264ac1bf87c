//! Bitmaps, offsets, types and metadata: values that others state, and that each call succeeds where there is memory.
use super::build::field;
use columns_base::{Error, PhysicalType, Result, S};
use columns_core::{
    Bitmap, DataType, Metadata, MutableBitmap, Offset, Offsets, OffsetsBuffer, ParquetNativeType,
    Schema, TimeUnit,
};
use std::alloc::Global;
use std::test::Fail;

type TestResult = std::result::Result<(), Fail>;

fn grown(alloc: Global) -> Result<Bitmap> {
    let mut bits = MutableBitmap::new(alloc);
    bits.reserve(20)?;
    bits.push(true)?;
    bits.extend_constant(2, false)?;
    bits.extend_from_slice(&[0b1010_0101, 0b0000_0001], 1, 9)?;
    bits.extend_from_word(0b1011_0110, 5)?;
    bits.into_bitmap()
}

/// The bits by hand: 1, 00, 010010110 and 01101.
fn is_grown(alloc: Global) -> Result<bool> {
    let bits = [
        true, false, false, false, true, false, false, true, false, true, true, false, false, true,
        true, false, true,
    ];
    let wanted = Bitmap::from_slice(alloc, &bits)?;
    Ok(grown(alloc)? == wanted && wanted.unset_bits() == 9)
}

/// The bits from the fourth to the eighth, and the ends of their runs.
fn is_parted(alloc: Global) -> Result<bool> {
    let mut bits = MutableBitmap::with_capacity(alloc, 5)?;
    let mut whole = grown(alloc)?;
    if whole.len() < 17 {
        return Ok(false);
    }
    let ends = whole.run_end(4, 17, true) == 5 && whole.run_end(5, 17, false) == 7;
    bits.extend_from_bitmap(&whole, 3, 5)?;
    whole.slice(3, 5);
    let one_byte = bits.as_slice().len() == 1;
    Ok(ends && one_byte && bits.into_bitmap()? == whole && whole.iter().count() == 5)
}

/// 200 bits of which the 150th alone is set.
fn is_run(alloc: Global) -> Result<bool> {
    let mut bits = MutableBitmap::new(alloc);
    bits.extend_constant(149, false)?;
    bits.push(true)?;
    bits.extend_constant(50, false)?;
    let bitmap = bits.into_bitmap()?;
    if bitmap.len() < 200 {
        return Ok(false);
    }
    Ok(bitmap.run_end(3, 200, false) == 149 && bitmap.run_end(150, 190, false) == 190)
}

#[test]
fn bits_grow_lowest_first(rt: HostRuntime) -> TestResult {
    assert!(rt; is_grown(rt.alloc())?);
    assert!(rt; is_parted(rt.alloc())?);
    assert!(rt; is_run(rt.alloc())?);
    Ok(())
}

/// 0, 3, 3, 3, 5, 9 and 9.
fn offsets<O: Offset>(alloc: Global) -> Result<OffsetsBuffer<O>> {
    let mut offsets = Offsets::<O>::with_capacity(alloc, 1)?;
    offsets.reserve(4)?;
    offsets.try_push_usize(3)?;
    offsets.extend_constant(2)?;
    offsets.try_extend_from_lengths([2, 4, 0].iter().copied())?;
    offsets.into_buffer()
}

fn are_grown(alloc: Global) -> Result<bool> {
    let offsets = offsets::<i32>(alloc)?;
    Ok(offsets.clone()?.buffer() == [0, 3, 3, 3, 5, 9, 9].as_slice() && offsets.range() == 9)
}

/// A cut counts offsets, not the ranges between them.
fn are_cut(alloc: Global) -> Result<bool> {
    let values = Vec::from_array(alloc, [3, 4, 4, 9])?;
    let mut offsets = OffsetsBuffer::<i64>::try_from_vec(values)?;
    offsets.slice(1, 2);
    Ok(offsets.buffer() == [4, 4].as_slice() && offsets.len_proxy() == 1)
}

#[test]
fn offsets_grow_and_are_cut(rt: HostRuntime) -> TestResult {
    assert!(rt; are_grown(rt.alloc())?);
    assert!(rt; are_cut(rt.alloc())?);
    Ok(())
}

fn metadata(alloc: Global) -> Result<Metadata> {
    let mut metadata = Metadata::new(alloc);
    let (key, text) = (String::from_str(alloc, "k")?, String::from_str(alloc, "v")?);
    let _former = metadata.insert(key, text)?;
    Ok(metadata)
}

fn schema(alloc: Global) -> Result<Schema> {
    let zone = String::from_str(alloc, "UTC")?;
    let entry = field(
        alloc,
        DataType::Timestamp(TimeUnit::Millisecond, Some(zone)),
    )?;
    let data_type = DataType::Map(Box::new(alloc, entry)?, false);
    let mut fields = Vec::new(alloc);
    fields.push(field(alloc, data_type)?)?;
    let metadata = metadata(alloc)?;
    Ok(Schema { fields, metadata })
}

fn is_cloned(alloc: Global) -> Result<bool> {
    let schema = schema(alloc)?;
    let mut copy = schema.clone(alloc)?;
    let same = copy == schema && copy.nests_within(2) && !copy.nests_within(1);
    let text = copy.metadata.remove("k");
    Ok(same && text.is_some() && copy != schema)
}

#[test]
fn types_and_schemas_are_cloned_and_compared(rt: HostRuntime) -> TestResult {
    assert!(rt; is_cloned(rt.alloc())?);
    Ok(())
}

fn le_bytes<P: ParquetNativeType>(alloc: Global, number: P) -> Result<Vec<u8>> {
    let mut out = Vec::new(alloc);
    number.push_le_bytes(&mut out)?;
    Ok(out)
}

fn is_stored(alloc: Global) -> Result<bool> {
    let small = le_bytes(alloc, -2i32)?;
    let large = le_bytes(alloc, 258i64)?;
    Ok(
        small.as_slice() == [0xfe, 0xff, 0xff, 0xff].as_slice()
            && large.as_slice() == [2, 1, 0, 0, 0, 0, 0, 0].as_slice()
            && <i64 as ParquetNativeType>::physical_type() == PhysicalType::Int64,
    )
}

#[test]
fn stored_numbers_have_their_bytes(rt: HostRuntime) -> TestResult {
    assert!(rt; is_stored(rt.alloc())?);
    Ok(())
}

#[test]
fn an_answer_is_its_line(rt: HostRuntime) -> TestResult {
    let error = Error::OutOfSpec(S::S10);
    let text = format!(in rt.alloc(); "{error}")?;
    assert!(rt; text.as_str() == "OutOfSpec S10");
    Ok(())
}
