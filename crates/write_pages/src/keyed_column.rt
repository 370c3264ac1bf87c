//! The column of a dictionary, with all its rows.
ghost use Rattle.std.specs.Prelude.{◌≡◌, ◌⊎◌, true, IfOk, IfErr};
ghost use Rattle.columns_array.specs.Boxed.{boxed};
ghost use Rattle.columns_base.specs.declared.error.Error.TheVariants.{Memory};
ghost use Rattle.columns_core.specs.Shapes.{base};
ghost use Rattle.columns_slots.specs.Slots.{tree_len, type_of};
ghost use Rattle.levels.specs.InBounds.{IsInBounds};
ghost use Rattle.levels.specs.Nested.{parts_of};
ghost use Rattle.levels.specs.Ranges.{leaf_count_or};
ghost use Rattle.schema_to_tree.specs.Encodes.{is_dictionary};
ghost use Rattle.write_pages.specs.Keyed.{IsWhole};

use crate::cut_column::cut_column;
use crate::keys::as_dictionary;
use columns_array::{ArrayBox, DictionaryArray};
use columns_core::Result;
use levels::{Nested, slot_count};
use std::alloc::Global;

// A path and its leaf, a dictionary.
#[derive(Drop)]
pub struct KeyedColumn {
    pub array: DictionaryArray,
    pub nested: Vec<Nested>,
}

// The path in bounds and its dictionary, with all their rows. Masks, offsets, keys and entries are shared.
pub fn whole_column(alloc: Global, array: &ArrayBox, nested: &[Nested]) -> Result<KeyedColumn>
    requires in_bounds { IsInBounds (parts_of nested.now) }
    requires leaf { tree_len (boxed array.now) ≡ leaf_count_or 0 (parts_of nested.now) }
    requires keyed { is_dictionary (base (type_of (boxed array.now))) ≡ true }
    ensures ok { IfOk result (IsWhole (boxed array.now) (parts_of nested.now)) }
    ensures err { IfErr result (λ e. e ≡ Memory) }
{
    let whole = cut_column(alloc, array, nested, 0, slot_count(nested))?;
    match as_dictionary(&whole.array) {
        Some(keyed) => Ok(KeyedColumn {
            array: keyed.clone(alloc)?,
            nested: whole.nested,
        }),
        None => unreachable!(),
    }
}
