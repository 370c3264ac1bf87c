//! What each group takes for itself.
ghost use Rattle.std.specs.Prelude.{◌≡◌, IfErr, IfOk, map};
ghost use Rattle.columns_base.specs.declared.error.Error.TheVariants.{Memory};
ghost use Rattle.columns_core.specs.View.{fields_view};
ghost use Rattle.pq_tree.specs.TreeViews.{trees_view};

use columns_base::Result;
use columns_core::Field;
use pq_tree::{Encoding, ParquetType};
use std::alloc::Global;

// The same trees.
pub fn copy_trees(alloc: Global, trees: &[ParquetType]) -> Result<Vec<ParquetType>>
    ensures ok { IfOk result (λ copies. trees_view copies.items ≡ trees_view trees.now) }
    ensures err { IfErr result (λ e. e ≡ Memory) }
{
    let mut copies = Vec::new(alloc);
    for tree in trees {
        copies.push(tree.clone(alloc)?)?;
    }
    Ok(copies)
}

// The same fields.
pub fn copy_fields(alloc: Global, fields: &[Field]) -> Result<Vec<Field>>
    ensures ok { IfOk result (λ copies. fields_view copies.items ≡ fields_view fields.now) }
    ensures err { IfErr result (λ e. e ≡ Memory) }
{
    let mut copies = Vec::new(alloc);
    for field in fields {
        copies.push(field.clone(alloc)?)?;
    }
    Ok(copies)
}

fn copy_list(alloc: Global, encodings: &[Encoding]) -> Result<Vec<Encoding>>
    ensures ok { IfOk result (λ copy. copy.items ≡ encodings.now) }
    ensures err { IfErr result (λ e. e ≡ Memory) }
{
    let mut copy = Vec::new(alloc);
    copy.extend_from_slice(encodings)?;
    Ok(copy)
}

// The same lists of encodings.
pub fn copy_encodings(alloc: Global, encodings: &[Vec<Encoding>]) -> Result<Vec<Vec<Encoding>>>
    ensures ok { IfOk result (λ copies. map (λ es. es.items) copies.items ≡ map (λ es. es.items) encodings.now) }
    ensures err { IfErr result (λ e. e ≡ Memory) }
{
    let mut copies = Vec::new(alloc);
    for list in encodings {
        copies.push(copy_list(alloc, list)?)?;
    }
    Ok(copies)
}
