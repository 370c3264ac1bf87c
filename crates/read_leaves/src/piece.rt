//! Pieces of what a column's reader gives.
ghost use Rattle.std.specs.Prelude.{◌≡◌, true, Some, Ok};
ghost use Rattle.columns_core.specs.Shapes.{base};
ghost use Rattle.columns_core.specs.View.{type_view};
ghost use Rattle.read_column.specs.Queues.{GivesSuited};
ghost use Rattle.read_leaves.specs.Made.{MakesPiece};

use columns_base::Result;
use columns_core::DataType;
use read_pieces::{ColumnPiece, LeafReader};
use read_state::NestedState;
use read_types::LeafArray;
use std::alloc::Global;

// The piece of a state and the decoded values.
fn make_piece<L: LeafArray>(
    alloc: Global,
    leaf: &L,
    data_type: &DataType,
    nested: NestedState,
    values: L::Values,
) -> Result<ColumnPiece>
    requires makes { L.makes leaf.now (base (type_view data_type.now)) ≡ true }
    requires suits { L.suits leaf.now (L.width values) }
    ensures { MakesPiece L.slots (type_view data_type.now) (Some (Ok (nested, values))) (Some result) }
{
    let data_type = match data_type.clone(alloc) {
        Ok(data_type) => data_type,
        Err(error) => return Err(error),
    };
    match leaf.into_array(alloc, values, data_type) {
        Ok(values) => Ok(ColumnPiece { nested, values }),
        Err(error) => Err(error),
    }
}

/// The next piece with the array of its leaf, of this type.
///
/// # Errors
///
/// The error that is given, and `Memory`.
pub fn piece_of<L: LeafArray>(
    alloc: Global,
    leaf: &L,
    data_type: &DataType,
    item: Option<Result<(NestedState, L::Values)>>,
) -> Option<Result<ColumnPiece>>
    requires makes { L.makes leaf.now (base (type_view data_type.now)) ≡ true }
    requires suited { GivesSuited (λ v. L.suits leaf.now (L.width v)) item }
    ensures { MakesPiece L.slots (type_view data_type.now) item result }
{
    match item {
        None => None,
        Some(Err(error)) => Some(Err(error)),
        Some(Ok((nested, values))) => Some(make_piece(alloc, leaf, data_type, nested, values)),
    }
}
