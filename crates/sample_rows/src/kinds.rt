//! The kinds of arrays that items lie in, told from their types.
ghost use Rattle.std.specs.Prelude.{◌≡◌, ◌≢◌, MatchOption};
ghost use Rattle.columns_array.specs.Boxed.{boxed};
ghost use Rattle.columns_core.specs.Tree.{t_int32};
ghost use Rattle.columns_slots.specs.Slots.{type_of};
ghost use Rattle.sample_rows.specs.Parts.{AreInt32, numbers_tree};
ghost use Rattle.sample_rows.specs.Fields.{items_type};

use columns_array::{ArrayBox, ListArray};
use columns_leaf::PrimitiveArray;

/// The array as lists under offsets of 32 bits.
pub fn lists_in(array: &ArrayBox) -> Option<&ListArray>
    ensures { MatchOption result (type_of (boxed array.now) ≢ items_type) (λ lists. lists.now ≡ boxed array.now) }
{
    match array {
        ArrayBox::List(a) => Some(a),
        ArrayBox::LargeList(a) => {
            a.know();
            None
        }
        ArrayBox::FixedSizeList(a) => {
            a.know();
            None
        }
        ArrayBox::Struct(a) => {
            a.know();
            None
        }
        ArrayBox::Map(a) => {
            a.know();
            None
        }
        ArrayBox::Dictionary(a) => {
            a.know();
            None
        }
        _ => {
            array.know();
            None
        }
    }
}

// Callers learn that arrays of the type are of the kind.
fn know_numbers(array: &ArrayBox)
    ensures { type_of (boxed array.now) ≡ t_int32 → AreInt32 array.now }
{
    match array {
        ArrayBox::Null(a) => a.know(),
        ArrayBox::Boolean(a) => a.know(),
        ArrayBox::Int8(a) => a.know(),
        ArrayBox::Int16(a) => a.know(),
        ArrayBox::Int32(a) => a.know(),
        ArrayBox::Int64(a) => a.know(),
        ArrayBox::Int128(a) => a.know(),
        ArrayBox::UInt8(a) => a.know(),
        ArrayBox::UInt16(a) => a.know(),
        ArrayBox::UInt32(a) => a.know(),
        ArrayBox::UInt64(a) => a.know(),
        ArrayBox::DaysMs(a) => a.know(),
        ArrayBox::Utf8(a) => a.know(),
        ArrayBox::LargeUtf8(a) => a.know(),
        ArrayBox::Binary(a) => a.know(),
        ArrayBox::LargeBinary(a) => a.know(),
        ArrayBox::FixedSizeBinary(a) => a.know(),
        ArrayBox::Dictionary(a) => a.know(),
        ArrayBox::List(a) => a.know(),
        ArrayBox::LargeList(a) => a.know(),
        ArrayBox::FixedSizeList(a) => a.know(),
        ArrayBox::Struct(a) => a.know(),
        ArrayBox::Map(a) => a.know(),
    }
}

/// The array as numbers of 32 bits.
pub fn numbers_in(array: &ArrayBox) -> Option<&PrimitiveArray<i32>>
    ensures { MatchOption result (type_of (boxed array.now) ≢ t_int32) (λ numbers. numbers_tree numbers.now
        ≡ boxed array.now) }
{
    know_numbers(array);
    match array {
        ArrayBox::Int32(a) => Some(a),
        _ => None,
    }
}
