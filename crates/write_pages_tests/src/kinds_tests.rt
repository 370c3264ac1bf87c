//! The calls for one kind of array, each in both versions, against bytes worked by hand (Parquet format, "Data Pages", "Nested Encoding"; Encodings, "Plain",
//! "Delta Encoding", "Delta-length byte array").
use crate::arrays::{large_strings, numbers, pairs, texts, truths};
use crate::shapes::{Shape, Wanted, is_page, optional, options, path, states_so};
use columns_array::ArrayBox;
use columns_base::{A, Error, N, PhysicalType, Result};
use columns_core::DataType;
use leaf_pages::{
    array_to_page_simple, binary, boolean, check_along, check_flat, fixed_len_bytes, primitive,
    utf8,
};
use levels::Nested;
use pq_pages::{DataPage, Page};
use pq_tree::{Encoding, FixedLenStatistics, Version};
use std::alloc::Global;

const VERSIONS: [Version; 2] = [Version::V1, Version::V2];

// -1 and 5, plain and as deltas: blocks of 128 in 4 miniblocks, 2 numbers, the first of them -1 (1 as a zigzag number), and the delta 6 (12), which is the
// least one, so that its miniblock has no bits.
const NUMBERS: Wanted<'static> = Wanted {
    plain: b"\xff\xff\xff\xff\x05\x00\x00\x00",
    least: b"\xff\xff\xff\xff",
    greatest: b"\x05\x00\x00\x00",
};

const DELTAS: Wanted<'static> = Wanted {
    plain: b"\x80\x01\x04\x02\x01\x0c\x00\x00\x00\x00",
    ..NUMBERS
};

// `ab` and `a`, each behind its length, and behind both lengths as deltas: 2 lengths, the first of them 2 (4), and the delta -1 (1), which is the least one.
const STRINGS: Wanted<'static> = Wanted {
    plain: b"\x02\x00\x00\x00ab\x01\x00\x00\x00a",
    least: b"a",
    greatest: b"ab",
};

const LENGTHS: Wanted<'static> = Wanted {
    plain: b"\x80\x01\x04\x02\x04\x01\x00\x00\x00\x00aba",
    ..STRINGS
};

fn truth_page(alloc: Global, version: Version) -> Result<DataPage> {
    let array = truths(alloc, &[true, true, false])?;
    let type_ = optional(alloc, PhysicalType::Boolean)?;
    check_flat(alloc, &ArrayBox::Boolean(array.clone(alloc)?), &type_)?;
    boolean::array_to_page(alloc, &array, options(version), type_)
}

#[test]
fn truth_values(rt: HostRuntime) -> Result<()> {
    let wanted = Wanted {
        plain: b"\x01",
        least: b"\x00",
        greatest: b"\x01",
    };
    for version in VERSIONS {
        let page = truth_page(rt.alloc(), version)?;
        assert!(rt; is_page(rt.alloc(), &page, wanted, Shape::Flat, version)?);
    }
    Ok(())
}

fn number_page(alloc: Global, version: Version, encoding: Encoding) -> Result<DataPage> {
    let array = numbers(alloc, DataType::Int32, &[-1, 9, 5])?;
    let type_ = optional(alloc, PhysicalType::Int32)?;
    check_flat(alloc, &ArrayBox::Int32(array.clone(alloc)?), &type_)?;
    primitive::array_to_page_integer::<i32, i32>(alloc, &array, options(version), type_, encoding)
}

#[test]
fn numbers_plain_and_as_deltas(rt: HostRuntime) -> Result<()> {
    for version in VERSIONS {
        let page = number_page(rt.alloc(), version, Encoding::Plain)?;
        assert!(rt; is_page(rt.alloc(), &page, NUMBERS, Shape::Flat, version)?);
        let page = number_page(rt.alloc(), version, Encoding::DeltaBinaryPacked)?;
        assert!(rt; is_page(rt.alloc(), &page, DELTAS, Shape::Flat, version)?);
    }
    Ok(())
}

fn number_list_page(alloc: Global, version: Version) -> Result<DataPage> {
    let array = numbers(alloc, DataType::Int32, &[-1, 9, 5])?;
    let type_ = optional(alloc, PhysicalType::Int32)?;
    let path = path(alloc, Shape::List)?;
    check_along(&ArrayBox::Int32(array.clone(alloc)?), &type_, &path)?;
    primitive::nested_array_to_page::<i32, i32>(alloc, &array, options(version), type_, &path)
}

#[test]
fn numbers_in_lists(rt: HostRuntime) -> Result<()> {
    for version in VERSIONS {
        let page = number_list_page(rt.alloc(), version)?;
        assert!(rt; is_page(rt.alloc(), &page, NUMBERS, Shape::List, version)?);
    }
    Ok(())
}

fn text_page(alloc: Global, version: Version, encoding: Encoding) -> Result<DataPage> {
    let array = texts(alloc)?;
    let type_ = optional(alloc, PhysicalType::ByteArray)?;
    check_flat(alloc, &ArrayBox::Utf8(array.clone(alloc)?), &type_)?;
    utf8::array_to_page(alloc, &array, options(version), type_, encoding)
}

#[test]
fn texts_plain_and_by_their_lengths(rt: HostRuntime) -> Result<()> {
    for version in VERSIONS {
        let page = text_page(rt.alloc(), version, Encoding::Plain)?;
        assert!(rt; is_page(rt.alloc(), &page, STRINGS, Shape::Flat, version)?);
        let page = text_page(rt.alloc(), version, Encoding::DeltaLengthByteArray)?;
        assert!(rt; is_page(rt.alloc(), &page, LENGTHS, Shape::Flat, version)?);
    }
    Ok(())
}

#[test]
fn texts_have_no_deltas_of_numbers(rt: HostRuntime) -> Result<()> {
    let page = text_page(rt.alloc(), Version::V1, Encoding::DeltaBinaryPacked);
    assert!(rt; matches!(page, Err(Error::NotYetImplemented(N::N4))));
    Ok(())
}

fn string_list_page(alloc: Global, version: Version) -> Result<DataPage> {
    let array = large_strings(alloc)?;
    let type_ = optional(alloc, PhysicalType::ByteArray)?;
    let path = path(alloc, Shape::List)?;
    check_along(&ArrayBox::LargeBinary(array.clone(alloc)?), &type_, &path)?;
    binary::nested_array_to_page(alloc, &array, options(version), type_, &path)
}

#[test]
fn byte_strings_in_lists(rt: HostRuntime) -> Result<()> {
    for version in VERSIONS {
        let page = string_list_page(rt.alloc(), version)?;
        assert!(rt; is_page(rt.alloc(), &page, STRINGS, Shape::List, version)?);
    }
    Ok(())
}

// The bounds are those that are handed in, whether they are right or not.
fn pair_page(alloc: Global, version: Version) -> Result<DataPage> {
    let array = pairs(alloc, b"cd..ab")?;
    let type_ = optional(alloc, PhysicalType::FixedLenByteArray(2))?;
    check_flat(
        alloc,
        &ArrayBox::FixedSizeBinary(array.clone(alloc)?),
        &type_,
    )?;
    let statistics = FixedLenStatistics {
        primitive_type: type_.clone(alloc)?,
        null_count: Some(7),
        min_value: Some(b"aa".as_slice().to_vec(alloc)?),
        max_value: Some(b"zz".as_slice().to_vec(alloc)?),
    };
    fixed_len_bytes::array_to_page(alloc, &array, options(version), type_, Some(statistics))
}

#[test]
fn byte_strings_of_one_size_state_what_is_given(rt: HostRuntime) -> Result<()> {
    let wanted = Wanted {
        plain: b"cdab",
        least: b"aa",
        greatest: b"zz",
    };
    for version in VERSIONS {
        let page = pair_page(rt.alloc(), version)?;
        assert!(rt; states_so(rt.alloc(), &page, 7, wanted, Shape::Flat, version)?);
    }
    Ok(())
}

#[test]
fn any_array_of_a_flat_column(rt: HostRuntime) -> Result<()> {
    let alloc = rt.alloc();
    let array = ArrayBox::Utf8(texts(alloc)?);
    let type_ = optional(alloc, PhysicalType::ByteArray)?;
    check_flat(alloc, &array, &type_)?;
    let options = options(Version::V2);
    let page = array_to_page_simple(alloc, &array, type_, options, Encoding::Plain)?;
    let is_so = match page {
        Page::Data(page) => is_page(alloc, &page, STRINGS, Shape::Flat, Version::V2)?,
        Page::Dict(_) => false,
    };
    assert!(rt; is_so);
    Ok(())
}

// Whether it is the refusal of a path or type that does not fit.
fn is_misfit(answer: Result<()>) -> bool {
    matches!(answer, Err(Error::InvalidArgumentError(A::A8)))
}

#[test]
fn what_does_not_fit_is_refused(rt: HostRuntime) -> Result<()> {
    let alloc = rt.alloc();
    let array = ArrayBox::Utf8(texts(alloc)?);
    let text = optional(alloc, PhysicalType::ByteArray)?;
    let number = optional(alloc, PhysicalType::Int32)?;
    let short = [Nested::Primitive(None, true, 2)];
    assert!(rt; is_misfit(check_flat(alloc, &array, &number)));
    assert!(rt; is_misfit(check_along(&array, &text, &short)));
    assert!(rt; is_misfit(check_along(&array, &text, &[])));
    Ok(())
}

#[test]
fn a_wide_decimal_is_refused(rt: HostRuntime) -> Result<()> {
    let alloc = rt.alloc();
    let wide = ArrayBox::Int128(numbers(alloc, DataType::Decimal(12, 0), &[1 << 31, 9, 5])?);
    let number = optional(alloc, PhysicalType::Int32)?;
    let answer = check_flat(alloc, &wide, &number);
    assert!(rt; matches!(answer, Err(Error::InvalidArgumentError(A::A7))));
    Ok(())
}
