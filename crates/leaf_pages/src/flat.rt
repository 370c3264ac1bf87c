//! The path of a flat column.
ghost use Rattle.std.specs.Prelude.{◌≡◌, ◌≤◌, length, IfOk, IfErr};
ghost use Rattle.columns_base.specs.declared.error.Error.TheVariants.{Memory};
ghost use Rattle.columns_array.specs.Boxed.{boxed};
ghost use Rattle.columns_slots.specs.Slots.{mask_of};
ghost use Rattle.leaf_pages.specs.Columns.{column_along, leaf_column};
ghost use Rattle.levels.specs.Nested.{parts_of};
ghost use Rattle.nested_paths.specs.Nodes.{is_optional};
ghost use Rattle.pq_tree.specs.TreeViews.{leaf_view};
ghost use Rattle.shredding.specs.Parts.{IsPath};

use columns_array::ArrayBox;
use columns_base::Result;
use columns_core::Bitmap;
use levels::Nested;
use pq_tree::{PrimitiveType, Repetition};
use std::alloc::Global;

// Whether the leaf of a tree may be null.
pub fn is_optional(type_: &PrimitiveType) -> bool
    ensures { result ≡ is_optional (leaf_view type_.now) }
{
    type_.field_info.repetition != Repetition::Required
}

// The mask, shared.
fn shared_mask(array: &ArrayBox) -> Result<Option<Bitmap>>
    ensures ok { IfOk result (λ mask. mask ≡ mask_of (boxed array.now)) }
    ensures err { IfErr result (λ e. e ≡ Memory) }
{
    match array.validity() {
        Some(mask) => Ok(Some(mask.clone()?)),
        None => Ok(None),
    }
}

// The path of a column that is no more than its leaf.
pub fn flat_path(alloc: Global, array: &ArrayBox, type_: &PrimitiveType) -> Result<Vec<Nested>>
    ensures ok { IfOk result (λ path. column_along type_.now path.items (boxed array.now)
        ≡ leaf_column type_.now (boxed array.now)) }
    ensures well { IfOk result (λ path. IsPath (parts_of path.items)) }
    ensures one { IfOk result (λ path. length path.items ≤ 128) }
    ensures err { IfErr result (λ e. e ≡ Memory) }
{
    array.know();
    let mask = shared_mask(array)?;
    let mut path = Vec::with_capacity(alloc, 1)?;
    path.push(Nested::Primitive(mask, is_optional(type_), array.len()))?;
    Ok(path)
}
