//! The column of a dictionary type.
ghost use Rattle.std.specs.Prelude.{◌≡◌, ◌⊎◌, ◌↔◌, [], List, false, IfErr, IfOk, IsErrOf};
ghost use Rattle.columns_array.specs.Boxed.{boxed};
ghost use Rattle.columns_base.specs.declared.error.Error.TheVariants.{Memory, NotYetImplemented};
ghost use Rattle.columns_base.specs.declared.error.N.TheVariants.{N5};
ghost use Rattle.columns_core.specs.Shapes.{base};
ghost use Rattle.columns_core.specs.Tree.{TypeTree};
ghost use Rattle.columns_core.specs.View.{type_view};
ghost use Rattle.dictionary_leaves.specs.Dictionaries.{IsDictionaryPiece, IsOpenDictionary, is_dictionary_read};
ghost use Rattle.dictionary_leaves.specs.KeyColumns.{key_in, reader_in};
ghost use Rattle.dictionary_leaves.specs.Stages.{IsReadingDictionary};
ghost use Rattle.pq_tree.specs.Views.{physical_view};
ghost use Rattle.read_pieces.specs.Columns.{ColumnOpening, GivesPiece, IsColumnOpening};
ghost use Rattle.read_state.specs.Initial.{IsWay};
ghost use Rattle.shredding.specs.Along.{thin};
ghost use Rattle.shredding.specs.Shred.{Triple};

use crate::entry_type::EntryType;
use crate::first_page::{Opened, Unread, open_dictionary};
use crate::next::next_of;
use columns_base::{PhysicalType, Result};
use columns_core::DataType;
use pq_pages::Pages;
use read_pieces::ColumnPiece;
use read_state::InitNested;
use std::alloc::Global;
use std::marker::Model;
use std::mem;

/// How far a column was read.
#[derive(Drop)]
pub enum Stage<I: Pages> {
    /// No page was read.
    Ahead(Unread<I>),
    /// The entries were read; of the keys' column pieces are.
    Open(Opened<I>),
    /// Nothing is given any more.
    Ended,
}

/// Reads the column of a dictionary type in pieces of whole rows, from any source of its pages: the level pairs of each in a nested state, and the
/// keys in a dictionary array over the entries of the dictionary page.
///
/// After an error it gives nothing more.
#[derive(Drop)]
pub struct DictionaryColumn<I: Pages> {
    alloc: Global,
    data_type: DataType,
    entries: EntryType,
    stage: Stage<I>,
}

impl<I: Pages> Model for DictionaryColumn<I> {
    ghost use Rattle.std.specs.Coded.{codes};
    ghost use Rattle.columns_core.specs.TypeCode.{type_code};
    ghost use Rattle.columns_core.specs.View.{type_view};
    ghost use Rattle.columns_slots.specs.Tree.{tree_code};
    ghost use Rattle.read_column.specs.SlotCode.{slot_code};
    ghost use Rattle.dictionary_leaves.specs.Stages.{DictionaryReading, stage_view};

    ghost Value = { DictionaryReading };

    ghost coded = { Prim.hlevel (codes, slot_code, type_code, tree_code) };

    ghost view = { λ c. record {
      data_type = type_view c.data_type;
      entries = c.entries;
      stage = stage_view I.outcomes c.stage;
    } };
}

impl<I: Pages> DictionaryColumn<I> {
    /// The reader of a column of this dictionary type, whose entries are stored under this physical type, of so many rows, whose pages the source
    /// gives, along the parts of the way to its leaf; with a chunk size each piece has as many rows, or as are left.
    ///
    /// # Errors
    ///
    /// N5 exactly where the type is no dictionary, or where entries of its entry type are not read under this physical type at the end of such a way;
    /// `Memory`.
    pub fn try_new(
        alloc: Global,
        pages: I,
        data_type: DataType,
        physical_type: PhysicalType,
        nested: Vec<InitNested>,
        chunk_size: Option<usize>,
        num_rows: usize,
    ) -> Result<Self>
        ensures ok { (o : ColumnOpening) → IsColumnOpening o (type_view data_type) (physical_view physical_type)
            → o.outcomes ≡ I.outcomes pages → IsWay nested.items (thin o.column.way) → o.rows ≡ num_rows
            → o.chunk_size ≡ chunk_size → IfOk result (λ c. IsReadingDictionary o (type_view data_type) [] c) }
        ensures unserved { IsErrOf result (NotYetImplemented N5)
            ↔ (is_dictionary_read nested.items (base (type_view data_type)) (physical_view physical_type) ≡ false) }
        ensures err { IfErr result (λ e. (e ≡ Memory) ⊎ (e ≡ NotYetImplemented N5)) }
    {
        let entries = match EntryType::try_new(alloc, &nested, &data_type, physical_type) {
            Ok(entries) => entries,
            Err(error) => return Err(error),
        };
        let unread = Unread {
            pages,
            nested,
            chunk_size,
            num_rows,
        };
        Ok(DictionaryColumn {
            alloc,
            data_type,
            entries,
            stage: Stage::Ahead(unread),
        })
    }

    // The next piece of a column whose entries were read.
    fn go_on(&mut self, opened: Opened<I>) -> Option<Result<ColumnPiece>>
        ensures { (o : ColumnOpening) (pieces : List (List Triple))
            → IsOpenDictionary o (self.old.data_type) pieces (key_in opened.keys) (reader_in opened.keys)
            (boxed opened.entries) → GivesPiece (λ x ps r. IsReadingDictionary x (self.old.data_type) ps r)
            (λ p ts. IsDictionaryPiece o (self.old.data_type) ts p) o pieces result self.new }
    {
        let Opened { mut keys, entries } = opened;
        match next_of(&mut keys, &entries, self.alloc, &self.data_type) {
            Some(Ok(piece)) => {
                self.stage = Stage::Open(Opened { keys, entries });
                Some(Ok(piece))
            }
            Some(Err(error)) => Some(Err(error)),
            None => None,
        }
    }

    /// The next piece: of exactly as many rows as go into a piece, or as are left. None once all rows were given and the pages have ended.
    ///
    /// # Errors
    ///
    /// Those of `ColumnReader` of `read_column`, S3 too where indices come without a dictionary page, N4 for a page that is not of indices, S6 and S7
    /// where the dictionary page has not its entries, used or not, V1 where they pass the offsets of their array, and V2 where they are more than the
    /// keys' type numbers.
    pub fn next_piece(&mut self) -> Option<Result<ColumnPiece>>
        ensures { (o : ColumnOpening) (t : TypeTree) (pieces : List (List Triple))
            → IsReadingDictionary o t pieces self.old → GivesPiece (λ x ps r. IsReadingDictionary x t ps r)
            (λ p ts. IsDictionaryPiece o t ts p) o pieces result self.new }
    {
        match mem::replace(&mut self.stage, Stage::Ended) {
            Stage::Ended => None,
            Stage::Open(opened) => self.go_on(opened),
            Stage::Ahead(unread) => match open_dictionary(self.alloc, &self.entries, unread) {
                Ok(Some(opened)) => self.go_on(opened),
                Ok(None) => None,
                Err(error) => Some(Err(error)),
            },
        }
    }
}
