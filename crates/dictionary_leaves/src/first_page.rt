//! The first page of a dictionary's column.
ghost use Rattle.std.specs.Prelude.{◌≡◌, ◌⊎◌, [], List, false, true, IfErr, IfOk};
ghost use Rattle.columns_array.specs.Boxed.{boxed};
ghost use Rattle.columns_base.specs.declared.error.Error.TheVariants.{Memory, NotYetImplemented, OutOfSpec};
ghost use Rattle.columns_base.specs.declared.error.N.TheVariants.{N4};
ghost use Rattle.columns_base.specs.declared.error.S.TheVariants.{S3};
ghost use Rattle.columns_core.specs.Tree.{TypeTree};
ghost use Rattle.dictionary_columns.specs.Keys.{key_physical};
ghost use Rattle.dictionary_columns.specs.Sources.{has_indices, keyed_outcomes};
ghost use Rattle.dictionary_leaves.specs.Dictionaries.{IsUnreadDictionary};
ghost use Rattle.dictionary_leaves.specs.First.{IsFirst, IsOfPage, Opens};
ghost use Rattle.dictionary_leaves.specs.KeyColumns.{key_in, number_kind, reader_in};
ghost use Rattle.pq_pages.specs.Outcomes.{Outcome, Takes, page_shown};
ghost use Rattle.pq_tree.specs.Views.{typed_view};
ghost use Rattle.pq_tree.specs.declared.types.TypedPageHeader.TheVariants as T;
ghost use Rattle.read_column.specs.Foreseen.{foreseeing, foreseen};
ghost use Rattle.read_column.specs.Reading.{IsReading};
ghost use Rattle.read_pieces.specs.Columns.{ColumnOpening, IsReadable};
ghost use Rattle.read_state.specs.Initial.{IsWay};
ghost use Rattle.read_types.specs.Reads.{stored_of};
ghost use Rattle.shredding.specs.Along.{thin};

use crate::entry_type::{EntryType, ReadEntries};
use crate::key_column::{KeyColumn, KeyRows};
use columns_array::ArrayBox;
use columns_base::{Error, N, Result, S};
use columns_core::IntegerType;
use dictionary_columns::{KeyPages, Lent, gives_indices};
use pq_pages::{Page, Pages};
use pq_tree::DataPageHeader;
use read_state::InitNested;
use std::alloc::Global;

/// The pages of a column of which none was read, the parts of the way to its leaf, and how its rows are read.
#[derive(Drop)]
pub struct Unread<I: Pages> {
    pub pages: I,
    pub nested: Vec<InitNested>,
    pub chunk_size: Option<usize>,
    pub num_rows: usize,
}

/// The column of a dictionary's keys, and its entries.
#[derive(Drop)]
pub struct Opened<I: Pages> {
    pub keys: KeyColumn<I>,
    pub entries: ArrayBox,
}

// Why a data page is not read before which no dictionary page stands.
fn first_error(header: &DataPageHeader) -> Error
    ensures { ((result ≡ OutOfSpec S3) × (has_indices (typed_view (T.Data header.now)) ≡ true))
        ⊎ ((result ≡ NotYetImplemented N4) × (has_indices (typed_view (T.Data header.now)) ≡ false)) }
{
    if gives_indices(header) {
        return Error::OutOfSpec(S::S3);
    }
    Error::NotYetImplemented(N::N4)
}

// The entries and the page of their keys, of the first page.
fn of_page(alloc: Global, entries: &EntryType, page: &Page) -> Result<Option<ReadEntries>>
    ensures { IsOfPage entries.now (page_shown page.now) result }
{
    match page {
        Page::Data(page) => Err(first_error(page.header())),
        Page::Dict(page) => match entries.read(alloc, page) {
            Ok(read) => Ok(Some(read)),
            Err(error) => Err(error),
        },
    }
}

// None where there is no page and no row.
fn read_first<I: Pages>(
    alloc: Global,
    entries: &EntryType,
    pages: &I,
    num_rows: usize,
) -> Result<Option<ReadEntries>>
    ensures { IsFirst entries.now num_rows (I.lent pages.now) result }
{
    match pages.get() {
        Some(page) => of_page(alloc, entries, page),
        None => {
            if num_rows == 0 {
                return Ok(None);
            }
            Err(Error::OutOfSpec(S::S9))
        }
    }
}

// The column of keys of this type, with this page of them in front of the other pages.
fn over_keys<I: Pages>(
    alloc: Global,
    key: IntegerType,
    keys: Page,
    unread: Unread<I>,
) -> Result<KeyColumn<I>>
    ensures kind { IfOk result (λ c. key_in c ≡ key) }
    ensures reads { (o : ColumnOpening) → IsReadable o (stored_of (number_kind key)) 1
        → o.leaf.physical ≡ key_physical key → o.outcomes ≡ keyed_outcomes (page_shown keys)
        (I.outcomes unread.pages) → IsWay unread.nested.items (thin o.column.way) → o.rows ≡ unread.num_rows
        → o.chunk_size ≡ unread.chunk_size
        → IfOk result (λ c. IsReading (stored_of (number_kind key)) 1 o [] (reader_in c)) }
    ensures foreseen { (o : ColumnOpening) (others : List Outcome) → IsReadable o (stored_of (number_kind key)) 1
        → o.leaf.physical ≡ key_physical key → o.outcomes ≡ foreseen
        (keyed_outcomes (page_shown keys) (I.outcomes unread.pages)) others
        → IsWay unread.nested.items (thin o.column.way) → o.rows ≡ unread.num_rows → o.chunk_size ≡ unread.chunk_size
        → IfOk result (λ c. IsReading (stored_of (number_kind key)) 1 o [] (foreseeing others (reader_in c))) }
    ensures err { IfErr result (λ e. e ≡ Memory) }
{
    let rows = KeyRows {
        alloc,
        pages: KeyPages {
            pages: unread.pages,
            keys,
            lent: Lent::Ahead,
        },
        nested: unread.nested,
        chunk_size: unread.chunk_size,
        num_rows: unread.num_rows,
    };
    KeyColumn::new(key, rows)
}

// The column of the keys, and the entries, once the first page was taken.
fn open_taken<I: Pages>(
    alloc: Global,
    entries: &EntryType,
    unread: Unread<I>,
) -> Result<Option<Opened<I>>>
    ensures { (o : ColumnOpening) (t : TypeTree) (given : List Outcome)
        → IsUnreadDictionary o t entries.now given unread.nested.items unread.chunk_size unread.num_rows
        → Takes given (I.outcomes unread.pages) (I.lent unread.pages) → Opens o t result }
{
    match read_first(alloc, entries, &unread.pages, unread.num_rows) {
        Ok(Some(read)) => match over_keys(alloc, entries.key(), read.keys, unread) {
            Ok(keys) => Ok(Some(Opened {
                keys,
                entries: read.array,
            })),
            Err(error) => Err(error),
        },
        Ok(None) => Ok(None),
        Err(error) => Err(error),
    }
}

/// The column of the keys, and the entries, by the first page. None where there is no page and no row.
///
/// # Errors
///
/// That of the source; S9 where there is no page but a row, S3 and N4 where the first page is a data page, and those of `EntryType::read`.
pub fn open_dictionary<I: Pages>(
    alloc: Global,
    entries: &EntryType,
    unread: Unread<I>,
) -> Result<Option<Opened<I>>>
    ensures { (o : ColumnOpening) (t : TypeTree) → IsUnreadDictionary o t entries.now
        (I.outcomes unread.pages) unread.nested.items unread.chunk_size unread.num_rows → Opens o t result }
{
    let mut unread = unread;
    match unread.pages.advance() {
        Ok(()) => open_taken(alloc, entries, unread),
        Err(error) => Err(error),
    }
}
