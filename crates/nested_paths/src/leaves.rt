//! The leaves of an array.
ghost use Rattle.std.specs.Prelude.{◌≡◌, ◌⊎◌, IfOk, IfErr, true, false};
ghost use Rattle.columns_base.specs.declared.error.Error.TheVariants.{Memory, NotYetImplemented};
ghost use Rattle.columns_base.specs.declared.error.N.TheVariants.{N5};
ghost use Rattle.columns_array.specs.Boxed.{boxed, all_boxed};
ghost use Rattle.nested_paths.specs.Leaves.{array_leaves, leaves_in, has_fixed_list, have_fixed_list};
ghost use Rattle.nested_paths.specs.Taken.{shown, TakesLeaves};

use crate::inner::{Inner, inner_of};
use columns_array::ArrayBox;
use columns_base::{Error, N, Result};
use std::alloc::Global;

/// The leaves of an array, in order: those of a list's or map's items, those of a struct's fields one after another, and every other
/// array, a dictionary too.
///
/// # Errors
///
/// - `NotYetImplemented(N5)`: a list of a fixed size is on the way to a leaf.
/// - `Memory`: memory ran out.
pub fn to_leaves(alloc: Global, array: &ArrayBox) -> Result<Vec<&ArrayBox>>
    ensures ok { IfOk result (λ leaves. shown leaves.items ≡ array_leaves (boxed array.now)) }
    ensures written { IfOk result (λ leaves. has_fixed_list (boxed array.now) ≡ false) }
    ensures err { IfErr result (λ e. (e ≡ Memory) ⊎ ((e ≡ NotYetImplemented N5)
        × (has_fixed_list (boxed array.now) ≡ true))) }
{
    let mut leaves = Vec::new(alloc);
    push_leaves(array, &mut leaves)?;
    Ok(leaves)
}

#[cycle(leaves)]
fn push_leaves<'a>(array: &'a ArrayBox, leaves: &mut Vec<&'a ArrayBox>) -> Result<()>
    ensures { TakesLeaves (shown leaves.old.items) (shown leaves.new.items) (array_leaves (boxed array.now))
        (has_fixed_list (boxed array.now)) result }
{
    match inner_of(array) {
        Inner::Leaf => {
            leaves.push(array)?;
            Ok(())
        }
        Inner::Items(items) => push_leaves(items, leaves),
        Inner::Fields(arrays) => push_all_leaves(arrays, leaves),
        Inner::Fixed => Err(Error::NotYetImplemented(N::N5)),
    }
}

#[cycle(leaves)]
fn push_all_leaves<'a>(arrays: &'a [ArrayBox], leaves: &mut Vec<&'a ArrayBox>) -> Result<()>
    ensures { TakesLeaves (shown leaves.old.items) (shown leaves.new.items) (leaves_in (all_boxed arrays.now))
        (have_fixed_list (all_boxed arrays.now)) result }
{
    for array in arrays {
        push_leaves(array, leaves)?;
    }
    Ok(())
}
