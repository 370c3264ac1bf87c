//! The column of a leaf or of a dictionary.
ghost use Rattle.std.specs.Prelude.{◌≡◌, ◌⊎◌, ◌↔◌, [], List, false, IfErr, IfOk, IsErrOf};
ghost use Rattle.columns_base.specs.declared.error.Error.TheVariants.{Memory, NotYetImplemented};
ghost use Rattle.columns_base.specs.declared.error.N.TheVariants.{N5};
ghost use Rattle.columns_core.specs.Shapes.{base};
ghost use Rattle.columns_core.specs.Tree.{TypeTree};
ghost use Rattle.columns_core.specs.View.{type_view};
ghost use Rattle.dictionary_leaves.specs.Dictionaries.{is_dictionary_read};
ghost use Rattle.dictionary_leaves.specs.Stages.{IsReadingDictionary};
ghost use Rattle.pq_headline.specs.Columns.{is_dictionary};
ghost use Rattle.pq_tree.specs.Views.{physical_view};
ghost use Rattle.read_pieces.specs.Columns.{ColumnOpening, GivesPiece, IsColumnOpening};
ghost use Rattle.read_state.specs.Initial.{IsWay};
ghost use Rattle.shredding.specs.Along.{thin};
ghost use Rattle.shredding.specs.Shred.{Triple};
ghost use Rattle.read_columns.specs.Columns.{IsColumnPiece, IsReadingColumn, is_column_read};
ghost use Rattle.read_columns.specs.Readers.{reading_in};

use columns_base::{PhysicalType, Result};
use columns_core::DataType;
use dictionary_leaves::DictionaryColumn;
use pq_pages::Pages;
use read_leaves::LeafColumn;
use read_pieces::ColumnPiece;
use read_state::InitNested;
use std::alloc::Global;
use std::marker::Model;

/// The reader of a column, by its type.
#[derive(Drop)]
pub enum Reader<I: Pages> {
    Leaf(LeafColumn<I>),
    /// On the heap, since it is large and there are few.
    Dictionary(Box<DictionaryColumn<I>>),
}

/// Reads a column in pieces of whole rows, from any source of its pages: the level pairs of each in a nested state, and the values in an array of the
/// leaf's type, of a dictionary type over the entries of the dictionary page.
///
/// After an error nothing is said of further calls.
#[derive(Drop)]
pub struct Column<I: Pages> {
    reader: Reader<I>,
}

impl<I: Pages> Model for Column<I> {
    ghost use Rattle.std.specs.Coded.{codes};
    ghost use Rattle.columns_core.specs.TypeCode.{type_code};
    ghost use Rattle.columns_slots.specs.Tree.{tree_code};
    ghost use Rattle.read_column.specs.SlotCode.{slot_code};
    ghost use Rattle.read_columns.specs.Columns.{ColumnReading};
    ghost use Rattle.read_columns.specs.Readers.{reading_in};

    ghost Value = { ColumnReading };

    ghost coded = { Prim.hlevel (codes, slot_code, type_code, tree_code) };

    ghost view = { λ c. reading_in c.reader };
}

// Whether a type is that of dictionaries.
fn is_keyed(data_type: &DataType) -> bool
    ensures { result ≡ is_dictionary (base (type_view data_type.now)) }
{
    match data_type.base() {
        DataType::Dictionary(_, _, _) => true,
        _ => false,
    }
}

// The reader of a column of a dictionary type, on the heap.
#[inline(never)]
fn open_dictionary<I: Pages>(
    alloc: Global,
    pages: I,
    data_type: DataType,
    physical_type: PhysicalType,
    nested: Vec<InitNested>,
    chunk_size: Option<usize>,
    num_rows: usize,
) -> Result<Box<DictionaryColumn<I>>>
    ensures ok { (o : ColumnOpening) → IsColumnOpening o (type_view data_type) (physical_view physical_type)
        → o.outcomes ≡ I.outcomes pages → IsWay nested.items (thin o.column.way) → o.rows ≡ num_rows
        → o.chunk_size ≡ chunk_size → IfOk result (λ b. IsReadingDictionary o (type_view data_type) [] b.value) }
    ensures unserved { IsErrOf result (NotYetImplemented N5)
        ↔ (is_dictionary_read nested.items (base (type_view data_type)) (physical_view physical_type) ≡ false) }
    ensures err { IfErr result (λ e. (e ≡ Memory) ⊎ (e ≡ NotYetImplemented N5)) }
{
    let column = match DictionaryColumn::try_new(
        alloc,
        pages,
        data_type,
        physical_type,
        nested,
        chunk_size,
        num_rows,
    ) {
        Ok(column) => column,
        Err(error) => return Err(error),
    };
    Ok(Box::new(alloc, column)?)
}

impl<I: Pages> Reader<I> {
    // The next piece, of the reader that it is.
    fn next_piece(&mut self) -> Option<Result<ColumnPiece>>
        ensures { (o : ColumnOpening) (t : TypeTree) (pieces : List (List Triple))
            → IsReadingColumn o t pieces (reading_in self.old)
            → GivesPiece (λ x ps r. IsReadingColumn x t ps r) (λ p ts. IsColumnPiece o t ts p) o pieces result
            (reading_in self.new) }
    {
        match self {
            Reader::Leaf(column) => column.next_piece(),
            Reader::Dictionary(column) => column.next_piece(),
        }
    }
}

impl<I: Pages> Column<I> {
    /// The reader of a column of this type, stored under this physical type, of a dictionary type that of its entries; of so many rows, whose pages
    /// the source gives, along the parts of the way to its leaf. With a chunk size each piece has as many rows, or as are left.
    ///
    /// # Errors
    ///
    /// N5 exactly where neither `LeafColumn` nor `DictionaryColumn` reads the type under this physical type at the end of such a way; `Memory`.
    #[tactic(auto, using(crate::proofs::Openings::keyed_unserved, crate::proofs::Openings::direct_unserved), unfolding(crate::specs::Columns::IsReadingColumn))]
    pub fn try_new(
        alloc: Global,
        pages: I,
        data_type: DataType,
        physical_type: PhysicalType,
        nested: Vec<InitNested>,
        chunk_size: Option<usize>,
        num_rows: usize,
    ) -> Result<Self>
        ensures ok { (o : ColumnOpening) → IsColumnOpening o (type_view data_type) (physical_view physical_type)
            → o.outcomes ≡ I.outcomes pages → IsWay nested.items (thin o.column.way) → o.rows ≡ num_rows
            → o.chunk_size ≡ chunk_size → IfOk result (λ c. IsReadingColumn o (type_view data_type) [] c) }
        ensures unserved { IsErrOf result (NotYetImplemented N5)
            ↔ (is_column_read nested.items (base (type_view data_type)) (physical_view physical_type) ≡ false) }
        ensures err { IfErr result (λ e. (e ≡ Memory) ⊎ (e ≡ NotYetImplemented N5)) }
    {
        if is_keyed(&data_type) {
            return match open_dictionary(
                alloc,
                pages,
                data_type,
                physical_type,
                nested,
                chunk_size,
                num_rows,
            ) {
                Ok(column) => Ok(Column {
                    reader: Reader::Dictionary(column),
                }),
                Err(error) => Err(error),
            };
        }
        match LeafColumn::try_new(
            alloc,
            pages,
            data_type,
            physical_type,
            nested,
            chunk_size,
            num_rows,
        ) {
            Ok(column) => Ok(Column {
                reader: Reader::Leaf(column),
            }),
            Err(error) => Err(error),
        }
    }

    /// The next piece: of exactly as many rows as go into a piece, or as are left. None once all rows were given and the pages have ended.
    ///
    /// # Errors
    ///
    /// Those of `LeafColumn` and of `DictionaryColumn`.
    pub fn next_piece(&mut self) -> Option<Result<ColumnPiece>>
        ensures { (o : ColumnOpening) (t : TypeTree) (pieces : List (List Triple)) → IsReadingColumn o t pieces self.old
            → GivesPiece (λ x ps r. IsReadingColumn x t ps r)
            (λ p ts. IsColumnPiece o t ts p) o pieces result self.new }
    {
        self.reader.next_piece()
    }
}
