//! Byte strings of one size, from plain bytes (Parquet format, "Types", FIXED_LEN_BYTE_ARRAY; Encodings, "Plain").
ghost use Rattle.std.specs.Prelude.{◌≡◌, true, IfOk};
ghost use Rattle.columns_core.specs.Shapes.{base};
ghost use Rattle.columns_core.specs.Tree.{t_fixed_size_binary};
ghost use Rattle.columns_core.specs.View.{type_view};
ghost use Rattle.read_types.specs.LeafTypes.{reads_chunks};

use columns_array::ArrayBox;
use columns_base::{Error, N, PhysicalType, Result, S};
use columns_core::DataType;
use pq_pages::VecPages;
use read_leaf::FixedBytesValues;
use read_leaves::LeafColumn;
use read_pieces::{LeafReader, PlainBytes, extend_leaf};
use read_state::{InitNested, init_nested};
use read_types::{FixedBytes, LeafArray, LeafKind};
use read_walk::NestedPage;
use std::alloc::Global;

// Of so many rows, with these definition levels; with none no row may be null.
fn read_strings(
    alloc: Global,
    size: usize,
    rows: usize,
    levels: &[u8],
    bytes: &[u8],
) -> Result<FixedBytesValues>
    ensures { IfOk result (λ v. v.0 ≡ size) }
{
    let leaf = FixedBytes { size };
    let is_nullable = !levels.is_empty();
    let mut nested = init_nested(alloc, &[InitNested::Primitive(is_nullable)], 0)?;
    let mut values = leaf.begin(alloc)?;
    let mut page = NestedPage::try_new(&[], 0, levels, usize::from(is_nullable), rows)?;
    let mut bytes = PlainBytes {
        values: bytes,
        bit: 0,
    };
    extend_leaf(&leaf, &mut page, &mut bytes, &mut nested, &mut values, rows)?;
    Ok(values)
}

// The array of this type, of strings of its size.
fn array_of(
    alloc: Global,
    size: usize,
    values: Result<FixedBytesValues>,
    data_type: DataType,
) -> Result<ArrayBox>
    requires makes { reads_chunks size (base (type_view data_type)) ≡ true }
    requires sized { IfOk values (λ v. v.0 ≡ size) }
{
    let leaf = FixedBytes { size };
    match values {
        Ok(values) => leaf.into_array(alloc, values, data_type),
        Err(error) => Err(error),
    }
}

// These bytes, and so many nulls.
fn has_strings(array: Result<ArrayBox>, want: &[u8], nulls: usize) -> bool {
    match array {
        Ok(ArrayBox::FixedSizeBinary(array)) => {
            array.values() == want && array.null_count() == nulls
        }
        _ => false,
    }
}

fn makes(
    alloc: Global,
    size: usize,
    rows: usize,
    levels: &[u8],
    bytes: &[u8],
    want: &[u8],
    nulls: usize,
) -> bool
    requires { reads_chunks size (t_fixed_size_binary size) ≡ true }
{
    let values = read_strings(alloc, size, rows, levels, bytes);
    has_strings(
        array_of(alloc, size, values, DataType::FixedSizeBinary(size)),
        want,
        nulls,
    )
}

#[test]
fn strings_are_made(rt: HostRuntime) {
    let alloc = rt.alloc();
    // none may be null
    assert!(rt;
        makes(
            alloc,
            3,
            2,
            &[],
            &[1, 2, 3, 4, 5, 6],
            &[1, 2, 3, 4, 5, 6],
            0
        )
    );
    assert!(rt; makes(alloc, 1, 3, &[], &[7, 8, 9, 10], &[7, 8, 9], 0));
    // the levels 1, 0, 1
    assert!(rt;
        makes(
            alloc,
            3,
            3,
            &[3, 0b101],
            &[1, 2, 3, 4, 5, 6],
            &[1, 2, 3, 0, 0, 0, 4, 5, 6],
            1
        )
    );
    // three times the level 0
    assert!(rt; makes(alloc, 2, 3, &[6, 0], &[], &[0, 0, 0, 0, 0, 0], 3));
    // no row
    assert!(rt; makes(alloc, 4, 0, &[], &[], &[], 0));
}

// Of 72 rows the first four and the last four have one byte each.
fn keeps_places(alloc: Global) -> bool {
    let levels = &[19, 0x0f, 0, 0, 0, 0, 0, 0, 0, 0xf0];
    let values = read_strings(alloc, 1, 72, levels, &[1, 2, 3, 4, 5, 6, 7, 8]);
    match array_of(alloc, 1, values, DataType::FixedSizeBinary(1)) {
        Ok(ArrayBox::FixedSizeBinary(array)) => {
            array.len() == 72
                && array.null_count() == 64
                && matches!(array.values(), [1, 2, 3, 4, 0, 0, .., 0, 0, 5, 6, 7, 8])
        }
        _ => false,
    }
}

#[test]
fn strings_stand_among_many_nulls(rt: HostRuntime) {
    assert!(rt; keeps_places(rt.alloc()));
}

fn fails_with<T: Drop>(outcome: Result<T>, want: Error) -> bool {
    match outcome {
        Ok(_) => false,
        Err(error) => error == want,
    }
}

#[test]
fn missing_bytes_are_refused(rt: HostRuntime) {
    let alloc = rt.alloc();
    let missing = Error::OutOfSpec(S::S6);
    assert!(rt; fails_with(read_strings(alloc, 3, 2, &[], &[1, 2, 3, 4, 5]), missing));
    assert!(rt;
        fails_with(
            read_strings(alloc, 3, 3, &[3, 0b101], &[1, 2, 3, 4, 5]),
            missing
        )
    );
    assert!(rt; fails_with(read_strings(alloc, 1, 1, &[], &[]), missing));
}

// The identifiers of sixteen bytes, as a type of their own.
fn identifiers(alloc: Global) -> Result<DataType>
    ensures { IfOk result (λ t. reads_chunks 2 (base (type_view t)) ≡ true) }
{
    let name = String::from_str(alloc, "arrow.uuid")?;
    let inner = Box::new(alloc, DataType::FixedSizeBinary(2))?;
    Ok(DataType::Extension(name, inner, None))
}

// The array has that type whole.
fn keeps_type(alloc: Global) -> Result<bool> {
    let values = read_strings(alloc, 2, 2, &[], &[1, 2, 3, 4])?;
    match array_of(alloc, 2, Ok(values), identifiers(alloc)?)? {
        ArrayBox::FixedSizeBinary(array) => Ok(
            array.values() == [1, 2, 3, 4].as_slice() && *array.data_type() == identifiers(alloc)?,
        ),
        _ => Ok(false),
    }
}

#[test]
fn an_extension_keeps_its_name(rt: HostRuntime) -> Result<()> {
    assert!(rt; keeps_type(rt.alloc())?);
    Ok(())
}

fn has_kind(size: usize, physical_type: PhysicalType, want: Option<LeafKind>) -> bool {
    LeafKind::of(&DataType::FixedSizeBinary(size), physical_type) == want
}

// Strings of this size under the physical type of that size.
fn is_of_size(size: usize, stored: usize, want: Option<LeafKind>) -> bool {
    has_kind(size, PhysicalType::FixedLenByteArray(stored), want)
}

#[test]
fn kinds_of_strings_are_told(rt: HostRuntime) {
    let most = 2_147_483_647;
    assert!(rt;
        is_of_size(16, 16, Some(LeafKind::FixedSizeBinary(16)))
            && is_of_size(most, most, Some(LeafKind::FixedSizeBinary(most)))
            && is_of_size(16, 12, None)
            && is_of_size(0, 0, None)
            && is_of_size(most + 1, most + 1, None)
            && has_kind(4, PhysicalType::ByteArray, None)
    );
}

// A column without pages, of strings of four bytes beneath these parts.
fn open_column(
    alloc: Global,
    parts: &[InitNested],
    physical_type: PhysicalType,
) -> Result<LeafColumn<VecPages>> {
    LeafColumn::try_new(
        alloc,
        VecPages::new(Vec::new(alloc)),
        DataType::FixedSizeBinary(4),
        physical_type,
        Vec::from_slice(alloc, parts)?,
        None,
        0,
    )
}

#[test]
fn columns_beneath_others_are_not_read(rt: HostRuntime) {
    let alloc = rt.alloc();
    let unserved = Error::NotYetImplemented(N::N5);
    let stored = PhysicalType::FixedLenByteArray(4);
    let leaf = InitNested::Primitive(true);
    assert!(rt; open_column(alloc, &[leaf], stored).is_ok());
    assert!(rt;
        fails_with(
            open_column(alloc, &[InitNested::List(true), leaf], stored),
            unserved
        )
    );
    assert!(rt;
        fails_with(
            open_column(alloc, &[InitNested::Struct(false), leaf], stored),
            unserved
        )
    );
    // stored as another size
    let other = PhysicalType::FixedLenByteArray(5);
    assert!(rt; fails_with(open_column(alloc, &[leaf], other), unserved));
}
