//! What is inside an array.
ghost use Rattle.std.specs.Prelude.{◌≡◌, IfOk, IfErr};
ghost use Rattle.columns_base.specs.declared.error.Error.TheVariants.{Memory};
ghost use Rattle.columns_slots.specs.Slots.{mask_of};
ghost use Rattle.columns_array.specs.Boxed.{boxed};
ghost use Rattle.levels.specs.Nested.{part_of, is_large};
ghost use Rattle.nested_paths.specs.Inner.{IsInner};
ghost use Rattle.nested_paths.specs.Kinds.{is_large_array};
ghost use Rattle.nested_paths.specs.Paths.{part_at};

use columns_array::ArrayBox;
use columns_base::Result;
use columns_core::Bitmap;
use levels::{ListNested, Nested};

// What a walk to the leaves of an array goes on with.
#[derive(Clone, Copy, Drop)]
pub enum Inner<'a> {
    // nothing: the array is a leaf
    Leaf,
    // the items of lists or maps
    Items(&'a ArrayBox),
    // the arrays of a struct's fields
    Fields(&'a [ArrayBox]),
    // the lists are of a fixed size
    Fixed,
}

pub(crate) fn inner_of(array: &ArrayBox) -> Inner<'_>
    ensures { IsInner (boxed array.now) result }
{
    match array {
        ArrayBox::List(lists) => {
            lists.know();
            Inner::Items(lists.values())
        }
        ArrayBox::LargeList(lists) => {
            lists.know();
            Inner::Items(lists.values())
        }
        ArrayBox::Map(maps) => {
            maps.know();
            Inner::Items(maps.field())
        }
        ArrayBox::Struct(structs) => {
            structs.know();
            Inner::Fields(structs.values())
        }
        ArrayBox::FixedSizeList(lists) => {
            lists.know();
            Inner::Fixed
        }
        ArrayBox::Dictionary(keyed) => {
            keyed.know();
            Inner::Leaf
        }
        _ => Inner::Leaf,
    }
}

fn shared_validity(array: &ArrayBox) -> Result<Option<Bitmap>>
    ensures ok { IfOk result (λ m. m ≡ mask_of (boxed array.now)) }
    ensures err { IfErr result (λ e. e ≡ Memory) }
{
    match array.validity() {
        Some(mask) => Ok(Some(mask.clone()?)),
        None => Ok(None),
    }
}

// The part of a path that the array is. It shares the array's mask and offsets.
#[tactic(auto, using(crate::proofs::Inners::list_is, crate::proofs::Widths::small_is, crate::proofs::Widths::large_is, crate::proofs::Widths::map_is, crate::proofs::Widths::struct_is_small, crate::proofs::Widths::fixed_is_small, crate::proofs::Widths::keyed_is_small, crate::proofs::Inners::struct_is, crate::proofs::Inners::fixed_is, crate::proofs::Inners::keyed_is))]
pub(crate) fn part_of(array: &ArrayBox, is_optional: bool) -> Result<Nested>
    ensures ok { IfOk result (λ part. part_of part ≡ part_at is_optional (boxed array.now)) }
    ensures kind { IfOk result (λ part. is_large part ≡ is_large_array (boxed array.now)) }
    ensures err { IfErr result (λ e. e ≡ Memory) }
{
    let validity = shared_validity(array)?;
    match array {
        ArrayBox::List(lists) => {
            lists.know();
            let offsets = lists.offsets().clone()?;
            Ok(Nested::List(ListNested::new(offsets, validity, is_optional)))
        }
        ArrayBox::LargeList(lists) => {
            lists.know();
            let offsets = lists.offsets().clone()?;
            Ok(Nested::LargeList(ListNested::new(offsets, validity, is_optional)))
        }
        ArrayBox::Map(maps) => {
            maps.know();
            let offsets = maps.offsets().clone()?;
            Ok(Nested::List(ListNested::new(offsets, validity, is_optional)))
        }
        ArrayBox::Struct(structs) => {
            structs.know();
            Ok(Nested::Struct(validity, is_optional, structs.len()))
        }
        ArrayBox::FixedSizeList(lists) => {
            lists.know();
            Ok(Nested::Primitive(validity, is_optional, lists.len()))
        }
        ArrayBox::Dictionary(keyed) => {
            keyed.know();
            Ok(Nested::Primitive(validity, is_optional, keyed.len()))
        }
        _ => Ok(Nested::Primitive(validity, is_optional, array.len())),
    }
}
