//! The column of a dictionary's keys.
ghost use Rattle.std.specs.Prelude.{◌≡◌, [], List, ℕ, map, IfErr, IfOk};
ghost use Rattle.columns_base.specs.declared.error.Error.TheVariants.{Memory};
ghost use Rattle.dictionary_columns.specs.Keys.{key_physical};
ghost use Rattle.dictionary_columns.specs.Lending.{keyed_from};
ghost use Rattle.dictionary_leaves.specs.KeyColumns.{GivesKeys, MakesKeys, key_in, number_kind, reader_in, shown};
ghost use Rattle.pq_pages.specs.Outcomes.{Outcome, page_shown};
ghost use Rattle.pq_tree.specs.Views.{physical_view};
ghost use Rattle.read_column.specs.Foreseen.{foreseeing, foreseen};
ghost use Rattle.read_column.specs.Reading.{IsReading};
ghost use Rattle.read_leaf.specs.Numbers.{number_slots};
ghost use Rattle.read_pieces.specs.Columns.{ColumnOpening, IsReadable};
ghost use Rattle.read_state.specs.Initial.{IsWay};
ghost use Rattle.read_types.specs.Reads.{stored_of};
ghost use Rattle.read_walk.specs.Values.{Stored};
ghost use Rattle.shredding.specs.Along.{thin};

use crate::keys::{KeyNumber, kept_keys};
use columns_base::{PhysicalType, Result};
use columns_core::IntegerType;
use columns_leaf::keys::DictionaryKeys;
use dictionary_columns::KeyPages;
use pq_pages::Pages;
use read_column::ColumnReader;
use read_leaf::NumberValues;
use read_pieces::LeafReader;
use read_state::{InitNested, NestedState};
use read_types::Numbers;
use std::alloc::Global;

/// The reader of a column of keys, by their type.
#[derive(Drop)]
pub enum KeyColumn<I: Pages> {
    Int8(ColumnReader<KeyPages<I>, Numbers<i8, i32>>),
    Int16(ColumnReader<KeyPages<I>, Numbers<i16, i32>>),
    Int32(ColumnReader<KeyPages<I>, Numbers<i32, i32>>),
    Int64(ColumnReader<KeyPages<I>, Numbers<i64, i64>>),
    UInt8(ColumnReader<KeyPages<I>, Numbers<u8, i32>>),
    UInt16(ColumnReader<KeyPages<I>, Numbers<u16, i32>>),
    UInt32(ColumnReader<KeyPages<I>, Numbers<u32, i32>>),
    UInt64(ColumnReader<KeyPages<I>, Numbers<u64, i64>>),
}

// As which numbers keys of the type are stored.
fn stored_as(key: IntegerType) -> PhysicalType
    ensures { physical_view result ≡ key_physical key }
{
    match key {
        IntegerType::Int64 | IntegerType::UInt64 => PhysicalType::Int64,
        _ => PhysicalType::Int32,
    }
}

/// The pages of a column of keys, the parts of the way to its leaf, and how its rows are read.
#[derive(Drop)]
pub struct KeyRows<I: Pages> {
    pub alloc: Global,
    pub pages: KeyPages<I>,
    pub nested: Vec<InitNested>,
    pub chunk_size: Option<usize>,
    pub num_rows: usize,
}

impl<I: Pages> KeyRows<I> {
    // The reader of the column of keys of this type.
    fn read<L: LeafReader>(self, leaf: &L, key: IntegerType) -> Result<ColumnReader<KeyPages<I>, L>>
        ensures reads { (o : ColumnOpening) (stored : List ℕ → List Stored) (limit : ℕ) → IsReadable o stored limit
            → o.leaf.physical ≡ key_physical key → o.outcomes
            ≡ keyed_from self.pages.lent (page_shown self.pages.keys) (I.outcomes self.pages.pages)
            → IsWay self.nested.items (thin o.column.way) → o.rows ≡ self.num_rows → o.chunk_size ≡ self.chunk_size
            → IfOk result (λ r. IsReading stored limit o [] r) }
        ensures foreseen { (o : ColumnOpening) (stored : List ℕ → List Stored) (limit : ℕ) (others : List Outcome)
            → IsReadable o stored limit → o.leaf.physical ≡ key_physical key
            → o.outcomes
            ≡ foreseen (keyed_from self.pages.lent (page_shown self.pages.keys) (I.outcomes self.pages.pages)) others
            → IsWay self.nested.items (thin o.column.way) → o.rows ≡ self.num_rows → o.chunk_size ≡ self.chunk_size
            → IfOk result (λ r. IsReading stored limit o [] (foreseeing others r)) }
        ensures err { IfErr result (λ e. e ≡ Memory) }
    {
        ColumnReader::new(
            self.alloc,
            leaf,
            self.pages,
            stored_as(key),
            self.nested,
            self.chunk_size,
            self.num_rows,
        )
    }
}

// The keys of one of so many entries, of a piece of numbers.
fn keys_among<K: KeyNumber>(
    alloc: Global,
    item: Option<Result<(NestedState, NumberValues<K>)>>,
    count: usize,
) -> Option<Result<(NestedState, DictionaryKeys)>>
    ensures { MakesKeys K.key count (shown (λ v. number_slots (map K.loaded_key v.0) v.1) item) result }
{
    match item {
        None => None,
        Some(Err(error)) => Some(Err(error)),
        Some(Ok((nested, values))) => match kept_keys(alloc, values, count) {
            Ok(keys) => Some(Ok((nested, keys))),
            Err(error) => Some(Err(error)),
        },
    }
}

impl<I: Pages> KeyColumn<I> {
    /// The reader of a column of keys of this type.
    ///
    /// # Errors
    ///
    /// `Memory`.
    pub fn new(key: IntegerType, rows: KeyRows<I>) -> Result<Self>
        ensures kind { IfOk result (λ c. key_in c ≡ key) }
        ensures reads { (o : ColumnOpening) → IsReadable o (stored_of (number_kind key)) 1
            → o.leaf.physical ≡ key_physical key → o.outcomes
            ≡ keyed_from rows.pages.lent (page_shown rows.pages.keys) (I.outcomes rows.pages.pages)
            → IsWay rows.nested.items (thin o.column.way) → o.rows ≡ rows.num_rows → o.chunk_size ≡ rows.chunk_size
            → IfOk result (λ c. IsReading (stored_of (number_kind key)) 1 o [] (reader_in c)) }
        ensures foreseen { (o : ColumnOpening) (others : List Outcome) → IsReadable o (stored_of (number_kind key)) 1
            → o.leaf.physical ≡ key_physical key → o.outcomes
            ≡ foreseen (keyed_from rows.pages.lent (page_shown rows.pages.keys) (I.outcomes rows.pages.pages)) others
            → IsWay rows.nested.items (thin o.column.way) → o.rows ≡ rows.num_rows → o.chunk_size ≡ rows.chunk_size
            → IfOk result (λ c. IsReading (stored_of (number_kind key)) 1 o [] (foreseeing others (reader_in c))) }
        ensures err { IfErr result (λ e. e ≡ Memory) }
    {
        Ok(match key {
            IntegerType::Int8 => KeyColumn::Int8(rows.read(&Numbers::new(), key)?),
            IntegerType::Int16 => KeyColumn::Int16(rows.read(&Numbers::new(), key)?),
            IntegerType::Int32 => KeyColumn::Int32(rows.read(&Numbers::new(), key)?),
            IntegerType::Int64 => KeyColumn::Int64(rows.read(&Numbers::new(), key)?),
            IntegerType::UInt8 => KeyColumn::UInt8(rows.read(&Numbers::new(), key)?),
            IntegerType::UInt16 => KeyColumn::UInt16(rows.read(&Numbers::new(), key)?),
            IntegerType::UInt32 => KeyColumn::UInt32(rows.read(&Numbers::new(), key)?),
            IntegerType::UInt64 => KeyColumn::UInt64(rows.read(&Numbers::new(), key)?),
        })
    }

    /// The next piece: its state, and the keys of one of so many entries, null where there is none.
    ///
    /// # Errors
    ///
    /// Those of `ColumnReader`.
    pub fn next_keys(
        &mut self,
        alloc: Global,
        count: usize,
    ) -> Option<Result<(NestedState, DictionaryKeys)>>
        ensures kind { key_in self.new ≡ key_in self.old }
        ensures gives { GivesKeys (key_in self.old) count (reader_in self.old) (reader_in self.new) result }
    {
        match self {
            KeyColumn::Int8(reader) => {
                keys_among(alloc, reader.next_piece(&Numbers::new()), count)
            }
            KeyColumn::Int16(reader) => {
                keys_among(alloc, reader.next_piece(&Numbers::new()), count)
            }
            KeyColumn::Int32(reader) => {
                keys_among(alloc, reader.next_piece(&Numbers::new()), count)
            }
            KeyColumn::Int64(reader) => {
                keys_among(alloc, reader.next_piece(&Numbers::new()), count)
            }
            KeyColumn::UInt8(reader) => {
                keys_among(alloc, reader.next_piece(&Numbers::new()), count)
            }
            KeyColumn::UInt16(reader) => {
                keys_among(alloc, reader.next_piece(&Numbers::new()), count)
            }
            KeyColumn::UInt32(reader) => {
                keys_among(alloc, reader.next_piece(&Numbers::new()), count)
            }
            KeyColumn::UInt64(reader) => {
                keys_among(alloc, reader.next_piece(&Numbers::new()), count)
            }
        }
    }
}
