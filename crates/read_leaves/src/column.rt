//! The reader of a column of each kind.
ghost use Rattle.std.specs.Prelude.{◌≡◌, ◌≢◌, [], List, ℕ, true, IfErr, IfOk, None, Some};
ghost use Rattle.columns_base.specs.declared.error.Error.TheVariants.{Memory};
ghost use Rattle.columns_core.specs.Shapes.{base};
ghost use Rattle.columns_core.specs.View.{type_view};
ghost use Rattle.pq_tree.specs.Views.{physical_view};
ghost use Rattle.shredding.specs.Along.{thin};
ghost use Rattle.shredding.specs.Shred.{Triple};
ghost use Rattle.read_column.specs.Queues.{IsSuited};
ghost use Rattle.read_column.specs.Reading.{IsReading};
ghost use Rattle.read_pieces.specs.Columns.{ColumnOpening, GivesPiece, IsReadable};
ghost use Rattle.read_pieces.specs.Pieces.{IsPieceOf};
ghost use Rattle.read_state.specs.Initial.{IsWay};
ghost use Rattle.read_walk.specs.Values.{Stored};
ghost use Rattle.read_leaf.specs.Fixed.{stored_fixed};
ghost use Rattle.read_leaf.specs.FixedBytes.{loaded_bytes};
ghost use Rattle.read_types.specs.Arrays.{makes_fixed};
ghost use Rattle.read_types.specs.LeafTypes.{reads_chunks};
ghost use Rattle.read_types.specs.Reads.{limit_of, stored_of, types_of};
ghost use Rattle.read_leaves.specs.Kinds.{IsSized, kind_in, reader_in};

use crate::piece::piece_of;
use columns_base::{PhysicalType, Result};
use columns_core::{DataType, DaysMs};
use pq_pages::Pages;
use read_column::ColumnReader;
use read_leaf::{Bytes, FixedValue, Text};
use read_pieces::{ColumnPiece, LeafReader};
use read_state::InitNested;
use read_types::{
    Fixed, FixedBytes, LeafArray, LeafKind, Nulls, NumberBox, Numbers, Strings, Truths,
};
use std::alloc::Global;
use std::marker::PhantomData;

/// The reader of a column, by how its values are read.
#[derive(Drop)]
pub enum KindColumn<I: Pages> {
    Boolean(Box<ColumnReader<I, Truths>>),
    Null(Box<ColumnReader<I, Nulls>>),
    Int8(Box<ColumnReader<I, Numbers<i8, i32>>>),
    Int16(Box<ColumnReader<I, Numbers<i16, i32>>>),
    Int32(Box<ColumnReader<I, Numbers<i32, i32>>>),
    UInt8(Box<ColumnReader<I, Numbers<u8, i32>>>),
    UInt16(Box<ColumnReader<I, Numbers<u16, i32>>>),
    UInt32(Box<ColumnReader<I, Numbers<u32, i32>>>),
    Int64(Box<ColumnReader<I, Numbers<i64, i64>>>),
    Decimal(Box<ColumnReader<I, Numbers<i128, i32>>>),
    WideDecimal(Box<ColumnReader<I, Numbers<i128, i64>>>),
    WideUInt32(Box<ColumnReader<I, Numbers<u32, i64>>>),
    UInt64(Box<ColumnReader<I, Numbers<u64, i64>>>),
    Utf8(Box<ColumnReader<I, Strings<i32, Text>>>),
    LargeUtf8(Box<ColumnReader<I, Strings<i64, Text>>>),
    Binary(Box<ColumnReader<I, Strings<i32, Bytes>>>),
    LargeBinary(Box<ColumnReader<I, Strings<i64, Bytes>>>),
    /// With the size of each value.
    FixedDecimal(Box<ColumnReader<I, Fixed<i128>>>, usize),
    Months(Box<ColumnReader<I, Fixed<i32>>>),
    Days(Box<ColumnReader<I, Fixed<DaysMs>>>),
    /// With the size of each string.
    FixedSizeBinary(Box<ColumnReader<I, FixedBytes>>, usize),
}

/// The pages of a column, its physical type, the parts of the way to its leaf, and how its rows are read.
#[derive(Drop)]
pub struct PagesOfRows<I: Pages> {
    pub alloc: Global,
    pub pages: I,
    pub physical_type: PhysicalType,
    pub nested: Vec<InitNested>,
    pub chunk_size: Option<usize>,
    pub num_rows: usize,
}

// The reader of the column of such a leaf. Pages and reader are on the heap, since both are large: the call of each kind has a place of its own for
// what it hands over, and the reader is handed up through several calls.
#[inline(never)]
fn read<I: Pages, L: LeafReader>(
    rows: Box<PagesOfRows<I>>,
    leaf: &L,
) -> Result<Box<ColumnReader<I, L>>>
    ensures reads { (o : ColumnOpening) (stored : List ℕ → List Stored) (limit : ℕ) → IsReadable o stored limit
        → o.leaf.physical ≡ physical_view rows.value.physical_type → o.outcomes ≡ I.outcomes rows.value.pages
        → IsWay rows.value.nested.items (thin o.column.way) → o.rows ≡ rows.value.num_rows
        → o.chunk_size ≡ rows.value.chunk_size → IfOk result (λ b. IsReading stored limit o [] b.value) }
    ensures suits { IfOk result (λ b. IsSuited (L.suits leaf.now) b.value.queue) }
    ensures err { IfErr result (λ e. e ≡ Memory) }
{
    let rows = Box::into_inner(rows);
    let reader = match ColumnReader::new(
        rows.alloc,
        leaf,
        rows.pages,
        rows.physical_type,
        rows.nested,
        rows.chunk_size,
        rows.num_rows,
    ) {
        Ok(reader) => reader,
        Err(error) => return Err(error),
    };
    Ok(Box::new(rows.alloc, reader)?)
}

// How values that are stored as so many bytes each are read.
fn fixed_of<T>(size: usize) -> Fixed<T>
    ensures { result.size ≡ size }
{
    Fixed {
        size,
        value: PhantomData,
    }
}

// The next piece, with the array of its leaf, of this type.
fn next_of<I: Pages, L: LeafArray>(
    reader: &mut Box<ColumnReader<I, L>>,
    leaf: &L,
    alloc: Global,
    data_type: &DataType,
) -> Option<Result<ColumnPiece>>
    requires makes { L.makes leaf.now (base (type_view data_type.now)) ≡ true }
    requires suits { IsSuited (L.suits leaf.now) reader.old.value.queue }
    ensures gives { (o : ColumnOpening) (pieces : List (List Triple))
        → IsReading (λ text. L.stored leaf.now text 0) L.byte_limit o pieces reader.old.value
        → GivesPiece (IsReading (λ text. L.stored leaf.now text 0) L.byte_limit)
        (λ p ts. IsPieceOf o.column (type_view data_type.now) ts None p) o pieces result reader.new.value }
    ensures suits { IsSuited (L.suits leaf.now) reader.new.value.queue }
{
    piece_of(alloc, leaf, data_type, reader.next_piece(leaf))
}

// The same of values that are stored as so many bytes each.
fn next_fixed<I: Pages, T: FixedValue + NumberBox>(
    reader: &mut Box<ColumnReader<I, Fixed<T>>>,
    size: usize,
    alloc: Global,
    data_type: &DataType,
) -> Option<Result<ColumnPiece>>
    requires { makes_fixed T.stores (base (type_view data_type.now)) ≡ true }
    ensures { (o : ColumnOpening) (pieces : List (List Triple))
        → IsReading (stored_fixed T.loaded size) 0 o pieces reader.old.value
        → GivesPiece (IsReading (stored_fixed T.loaded size) 0)
        (λ p ts. IsPieceOf o.column (type_view data_type.now) ts None p) o pieces result reader.new.value }
{
    let leaf = Fixed {
        size,
        value: PhantomData,
    };
    next_of(reader, &leaf, alloc, data_type)
}

// The same of byte strings of so many bytes each.
fn next_chunks<I: Pages>(
    reader: &mut Box<ColumnReader<I, FixedBytes>>,
    size: usize,
    alloc: Global,
    data_type: &DataType,
) -> Option<Result<ColumnPiece>>
    requires makes { reads_chunks size (base (type_view data_type.now)) ≡ true }
    requires suits { IsSuited (λ n. n ≡ size) reader.old.value.queue }
    ensures gives { (o : ColumnOpening) (pieces : List (List Triple))
        → IsReading (stored_fixed loaded_bytes size) 0 o pieces reader.old.value
        → GivesPiece (IsReading (stored_fixed loaded_bytes size) 0)
        (λ p ts. IsPieceOf o.column (type_view data_type.now) ts None p) o pieces result reader.new.value }
    ensures suits { IsSuited (λ n. n ≡ size) reader.new.value.queue }
{
    next_of(reader, &FixedBytes { size }, alloc, data_type)
}

impl<I: Pages> KindColumn<I> {
    /// The reader of a column whose values are read so.
    ///
    /// # Errors
    ///
    /// `Memory`.
    pub fn new(kind: LeafKind, rows: Box<PagesOfRows<I>>) -> Result<Self>
        ensures kind { IfOk result (λ c. kind_in c ≡ kind) }
        ensures reads { (o : ColumnOpening) → IsReadable o (stored_of kind) (limit_of kind)
            → o.leaf.physical ≡ physical_view rows.value.physical_type → o.outcomes ≡ I.outcomes rows.value.pages
            → IsWay rows.value.nested.items (thin o.column.way) → o.rows ≡ rows.value.num_rows
            → o.chunk_size ≡ rows.value.chunk_size → IfOk result
            (λ c. IsReading (stored_of kind) (limit_of kind) o [] (reader_in c)) }
        ensures sized { IfOk result (λ c. IsSized (kind_in c) (reader_in c)) }
        ensures err { IfErr result (λ e. e ≡ Memory) }
    {
        Ok(match kind {
            LeafKind::Boolean => KindColumn::Boolean(read(rows, &Truths)?),
            LeafKind::Null => KindColumn::Null(read(rows, &Nulls)?),
            LeafKind::Int8 => KindColumn::Int8(read(rows, &Numbers::new())?),
            LeafKind::Int16 => KindColumn::Int16(read(rows, &Numbers::new())?),
            LeafKind::Int32 => KindColumn::Int32(read(rows, &Numbers::new())?),
            LeafKind::UInt8 => KindColumn::UInt8(read(rows, &Numbers::new())?),
            LeafKind::UInt16 => KindColumn::UInt16(read(rows, &Numbers::new())?),
            LeafKind::UInt32 => KindColumn::UInt32(read(rows, &Numbers::new())?),
            LeafKind::Int64 => KindColumn::Int64(read(rows, &Numbers::new())?),
            LeafKind::Decimal => KindColumn::Decimal(read(rows, &Numbers::new())?),
            LeafKind::WideDecimal => KindColumn::WideDecimal(read(rows, &Numbers::new())?),
            LeafKind::WideUInt32 => KindColumn::WideUInt32(read(rows, &Numbers::new())?),
            LeafKind::UInt64 => KindColumn::UInt64(read(rows, &Numbers::new())?),
            LeafKind::Utf8 => KindColumn::Utf8(read(rows, &Strings::new())?),
            LeafKind::LargeUtf8 => KindColumn::LargeUtf8(read(rows, &Strings::new())?),
            LeafKind::Binary => KindColumn::Binary(read(rows, &Strings::new())?),
            LeafKind::LargeBinary => KindColumn::LargeBinary(read(rows, &Strings::new())?),
            LeafKind::FixedDecimal(size) => KindColumn::FixedDecimal(
                read(rows, &fixed_of(size))?,
                size,
            ),
            LeafKind::Months => KindColumn::Months(read(rows, &fixed_of(12))?),
            LeafKind::Days => KindColumn::Days(read(rows, &fixed_of(12))?),
            LeafKind::FixedSizeBinary(size) => KindColumn::FixedSizeBinary(
                read(rows, &FixedBytes { size })?,
                size,
            ),
        })
    }

    /// The next piece, with the array of its leaf, of this type.
    ///
    /// # Errors
    ///
    /// Those of `ColumnReader`.
    pub fn next_piece(&mut self, alloc: Global, data_type: &DataType) -> Option<Result<ColumnPiece>>
        requires typed { types_of (kind_in self.old) (base (type_view data_type.now)) ≡ true }
        requires sized { IsSized (kind_in self.old) (reader_in self.old) }
        ensures kind { kind_in self.new ≡ kind_in self.old }
        ensures sized { IsSized (kind_in self.new) (reader_in self.new) }
        ensures gives { (o : ColumnOpening) (pieces : List (List Triple))
            → IsReading (stored_of (kind_in self.old)) (limit_of (kind_in self.old)) o pieces (reader_in self.old)
            → GivesPiece (IsReading (stored_of (kind_in self.old)) (limit_of (kind_in self.old)))
            (λ p ts. IsPieceOf o.column (type_view data_type.now) ts None p) o pieces result (reader_in self.new) }
    {
        match self {
            KindColumn::Boolean(reader) => next_of(reader, &Truths, alloc, data_type),
            KindColumn::Null(reader) => next_of(reader, &Nulls, alloc, data_type),
            KindColumn::Int8(reader) => next_of(reader, &Numbers::new(), alloc, data_type),
            KindColumn::Int16(reader) => next_of(reader, &Numbers::new(), alloc, data_type),
            KindColumn::Int32(reader) => next_of(reader, &Numbers::new(), alloc, data_type),
            KindColumn::UInt8(reader) => next_of(reader, &Numbers::new(), alloc, data_type),
            KindColumn::UInt16(reader) => next_of(reader, &Numbers::new(), alloc, data_type),
            KindColumn::UInt32(reader) => next_of(reader, &Numbers::new(), alloc, data_type),
            KindColumn::Int64(reader) => next_of(reader, &Numbers::new(), alloc, data_type),
            KindColumn::Decimal(reader) => next_of(reader, &Numbers::new(), alloc, data_type),
            KindColumn::WideDecimal(reader) => next_of(reader, &Numbers::new(), alloc, data_type),
            KindColumn::WideUInt32(reader) => next_of(reader, &Numbers::new(), alloc, data_type),
            KindColumn::UInt64(reader) => next_of(reader, &Numbers::new(), alloc, data_type),
            KindColumn::Utf8(reader) => next_of(reader, &Strings::new(), alloc, data_type),
            KindColumn::LargeUtf8(reader) => next_of(reader, &Strings::new(), alloc, data_type),
            KindColumn::Binary(reader) => next_of(reader, &Strings::new(), alloc, data_type),
            KindColumn::LargeBinary(reader) => next_of(reader, &Strings::new(), alloc, data_type),
            KindColumn::FixedDecimal(reader, size) => next_fixed(reader, *size, alloc, data_type),
            KindColumn::Months(reader) => next_fixed(reader, 12, alloc, data_type),
            KindColumn::Days(reader) => next_fixed(reader, 12, alloc, data_type),
            KindColumn::FixedSizeBinary(reader, size) => {
                next_chunks(reader, *size, alloc, data_type)
            }
        }
    }
}
