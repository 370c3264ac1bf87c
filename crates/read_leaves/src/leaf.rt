//! The column of a leaf.
ghost use Rattle.std.specs.Prelude.{◌≡◌, ◌⊎◌, ◌↔◌, [], List, false, true, IfErr, IfOk, IsErrOf, MatchOption, None};
ghost use Rattle.columns_base.specs.declared.error.Error.TheVariants.{Memory, NotYetImplemented};
ghost use Rattle.columns_base.specs.declared.error.N.TheVariants.{N5};
ghost use Rattle.columns_core.specs.Shapes.{base};
ghost use Rattle.columns_core.specs.Tree.{TypeTree};
ghost use Rattle.columns_core.specs.View.{type_view};
ghost use Rattle.pq_tree.specs.Views.{physical_view};
ghost use Rattle.shredding.specs.Along.{thin};
ghost use Rattle.shredding.specs.Shred.{Triple};
ghost use Rattle.read_pieces.specs.Columns.{ColumnOpening, GivesPiece};
ghost use Rattle.read_pieces.specs.Pieces.{IsPieceOf};
ghost use Rattle.read_state.specs.Initial.{IsWay};
ghost use Rattle.read_types.specs.LeafTypes.{reads_nested, reads_required};
ghost use Rattle.read_types.specs.Reads.{physical_of, types_of};
ghost use Rattle.read_leaves.specs.Leaf.{IsLeafOpening, IsReadingLeaf, ends_optional, is_leaf_alone, is_read_along};

use crate::column::{KindColumn, PagesOfRows};
use columns_base::{Error, N, PhysicalType, Result};
use columns_core::DataType;
use pq_pages::Pages;
use read_pieces::ColumnPiece;
use read_state::InitNested;
use read_types::LeafKind;
use std::alloc::Global;
use std::marker::Model;

/// Reads the column of a leaf in pieces of whole rows, from any source of its pages: the level pairs of each in a nested state, and the values in an
/// array of the leaf's type.
///
/// After an error nothing is said of further calls.
#[derive(Drop)]
pub struct LeafColumn<I: Pages> {
    alloc: Global,
    data_type: DataType,
    column: KindColumn<I>,
}

impl<I: Pages> Model for LeafColumn<I> {
    ghost use Rattle.std.specs.Prelude.{◌≡◌, true};
    ghost use Rattle.std.specs.Coded.{codes};
    ghost use Rattle.columns_core.specs.Shapes.{base};
    ghost use Rattle.columns_core.specs.TypeCode.{type_code};
    ghost use Rattle.columns_core.specs.View.{type_view};
    ghost use Rattle.read_column.specs.SlotCode.{slot_code};
    ghost use Rattle.read_types.specs.Reads.{types_of};
    ghost use Rattle.read_leaves.specs.Leaf.{LeafReading};

    ghost Value = { LeafReading };

    ghost coded = { Prim.hlevel (codes, slot_code, type_code) };

    ghost use Rattle.read_leaves.specs.Kinds.{IsSized, kind_in, reader_in};

    ghost view = { λ c. record {
      data_type = type_view c.data_type;
      kind = kind_in c.column;
      reader = reader_in c.column;
    } };

    ghost invariant = { λ c. (types_of (kind_in c.column) (base (type_view c.data_type)) ≡ true)
        × IsSized (kind_in c.column) (reader_in c.column) };
}

// Whether leaves of this type are read beneath lists and structs too.
fn may_nest(data_type: &DataType) -> bool
    ensures { result ≡ reads_nested (base (type_view data_type.now)) }
{
    match data_type.base() {
        DataType::Decimal(_, _) => false,
        DataType::Interval(_) => false,
        DataType::FixedSizeBinary(_) => false,
        _ => true,
    }
}

// Whether a leaf is all of the way.
fn stands_alone(parts: &[InitNested]) -> bool
    ensures { result ≡ is_leaf_alone parts.now }
{
    match parts {
        [InitNested::Primitive(_)] => true,
        _ => false,
    }
}

// Whether leaves of this type are read where they may not be null too.
fn may_be_required(data_type: &DataType) -> bool
    ensures { result ≡ reads_required (base (type_view data_type.now)) }
{
    match data_type.base() {
        DataType::Null => false,
        _ => true,
    }
}

// Whether the leaf at the end of the way may be null.
fn may_be_null(parts: &[InitNested]) -> bool
    ensures { result ≡ ends_optional parts.now }
{
    match parts {
        [] => false,
        [InitNested::Primitive(is_nullable), ..] => *is_nullable,
        [_, rest @ ..] => may_be_null(rest),
    }
}

// How a leaf of this type under this physical type is read at the end of such a way; none where it is not read yet.
fn kind_along(
    parts: &[InitNested],
    data_type: &DataType,
    physical_type: PhysicalType,
) -> Option<LeafKind>
    ensures { MatchOption result (is_read_along parts.now (base (type_view data_type.now)) (physical_view physical_type)
        ≡ false) (λ k. (physical_of k ≡ physical_view physical_type)
        × (types_of k (base (type_view data_type.now)) ≡ true)
        × (is_read_along parts.now (base (type_view data_type.now)) (physical_view physical_type) ≡ true)) }
{
    if !may_nest(data_type) && !stands_alone(parts) {
        return None;
    }
    if !may_be_required(data_type) && !may_be_null(parts) {
        return None;
    }
    LeafKind::of(data_type, physical_type)
}

impl<I: Pages> LeafColumn<I> {
    /// The reader of a column of this type, stored under this physical type, of so many rows, whose pages the source gives, along the parts of the
    /// way to its leaf; with a chunk size each piece has as many rows, or as are left.
    ///
    /// # Errors
    ///
    /// N5 exactly where leaves of this type and physical type are not read yet, or not beneath lists and structs, or not
    /// where they may not be null; `Memory`.
    pub fn try_new(
        alloc: Global,
        pages: I,
        data_type: DataType,
        physical_type: PhysicalType,
        nested: Vec<InitNested>,
        chunk_size: Option<usize>,
        num_rows: usize,
    ) -> Result<Self>
        ensures ok { (o : ColumnOpening) → IsLeafOpening o (type_view data_type) (physical_view physical_type)
            → o.outcomes ≡ I.outcomes pages → IsWay nested.items (thin o.column.way) → o.rows ≡ num_rows
            → o.chunk_size ≡ chunk_size → IfOk result (λ c. IsReadingLeaf o (type_view data_type) [] c) }
        ensures unserved { IsErrOf result (NotYetImplemented N5)
            ↔ (is_read_along nested.items (base (type_view data_type)) (physical_view physical_type) ≡ false) }
        ensures err { IfErr result (λ e. (e ≡ Memory) ⊎ (e ≡ NotYetImplemented N5)) }
    {
        let Some(kind) = kind_along(&nested, &data_type, physical_type) else {
            return Err(Error::NotYetImplemented(N::N5));
        };
        let rows = PagesOfRows {
            alloc,
            pages,
            physical_type,
            nested,
            chunk_size,
            num_rows,
        };
        let rows = Box::new(alloc, rows)?;
        match KindColumn::new(kind, rows) {
            Ok(column) => Ok(LeafColumn {
                alloc,
                data_type,
                column,
            }),
            Err(error) => Err(error),
        }
    }

    /// The next piece: of exactly as many rows as go into a piece, or as are left. None once all rows were given and the pages have ended.
    ///
    /// # Errors
    ///
    /// Those of `ColumnReader` of `read_column`: S3 or N4 of the source; N4 for a page in an encoding that its physical type has not, or of deltas
    /// in a column that is not flat; S5 or N8 where a page's first pair goes on with a row; S4, S6, S7 and S10 where a page's levels or values are
    /// not those of rows; S9 where the pages have more or fewer rows than the group, or one of version 2 than its header states; V1 where a piece
    /// passes the offsets of its array; `Memory`.
    pub fn next_piece(&mut self) -> Option<Result<ColumnPiece>>
        ensures { (o : ColumnOpening) (t : TypeTree) (pieces : List (List Triple)) → IsReadingLeaf o t pieces self.old
            → GivesPiece (λ o ps r. IsReadingLeaf o t ps r) (λ p ts. IsPieceOf o.column t ts None p) o pieces result
            self.new }
    {
        self.column.next_piece(self.alloc, &self.data_type)
    }
}
