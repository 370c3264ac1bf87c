//! The order of values by their texts as bounds.
ghost use Rattle.std.specs.Prelude.{◌≡◌, false, IfSome, IsTrue};
ghost use Rattle.shredding.specs.Shape.{LeafType};
ghost use Rattle.shredding.specs.Slot.{Value};
ghost use Rattle.columns_core.specs.Shapes.{leaf_type};
ghost use Rattle.columns_core.specs.View.{type_view};
ghost use Rattle.page_statistics.specs.Spelled.{IsSpelled};
ghost use Rattle.pq_files.specs.Statistics.{IsUpTo};
ghost use Rattle.pq_tree.specs.Physical.{Physical};
ghost use Rattle.joined_statistics.specs.Orders.{AreBytes, AreSigned, AreUnsigned, IsOrderOf};

use crate::numbers::{signed_number, unsigned_number};
use columns_core::DataType;
use std::cmp::Ordering;
use write_statistics::ord_binary;

/// How the values of a type are ordered, by their texts as bounds (Parquet format, `ColumnOrder`).
#[derive(Clone, Copy, Debug, PartialEq, Eq, Drop)]
pub enum TextOrder {
    /// As signed numbers, lowest byte first.
    Signed,
    /// As unsigned ones.
    Unsigned,
    /// As bytes without a sign.
    Bytes,
}

fn are_signed(data_type: &DataType) -> bool
    ensures { IsTrue result → AreSigned (leaf_type (type_view data_type.now)) }
{
    match data_type {
        DataType::Int8 | DataType::Int16 | DataType::Int32 | DataType::Int64 => true,
        DataType::Date32 | DataType::Date64 | DataType::Timestamp(_, _) => true,
        _ => false,
    }
}

fn are_unsigned(data_type: &DataType) -> bool
    ensures { IsTrue result → AreUnsigned (leaf_type (type_view data_type.now)) }
{
    matches!(
        data_type,
        DataType::UInt8 | DataType::UInt16 | DataType::UInt32 | DataType::UInt64
    )
}

fn are_bytes(data_type: &DataType) -> bool
    ensures { IsTrue result → AreBytes (leaf_type (type_view data_type.now)) }
{
    matches!(
        data_type,
        DataType::Utf8 | DataType::LargeUtf8 | DataType::Binary | DataType::LargeBinary
    )
}

/// The order of the values of a type of numbers or of byte strings, by their texts. Of other types it tells none.
pub fn text_order(data_type: &DataType) -> Option<TextOrder>
    ensures { IfSome result (λ o. IsOrderOf o (leaf_type (type_view data_type.now))) }
{
    let base = data_type.base();
    if are_signed(base) {
        return Some(TextOrder::Signed);
    }
    if are_unsigned(base) {
        return Some(TextOrder::Unsigned);
    }
    if are_bytes(base) {
        return Some(TextOrder::Bytes);
    }
    None
}

fn is_signed_less(a: &[u8], b: &[u8]) -> bool
    ensures less { IsTrue result → (t : LeafType) (p : Physical) (u v : Value) → AreSigned t → IsSpelled t p a.now u
        → IsSpelled t p b.now v → IsUpTo u v }
    ensures other { result ≡ false → (t : LeafType) (p : Physical) (u v : Value) → AreSigned t → IsSpelled t p a.now u
        → IsSpelled t p b.now v → IsUpTo v u }
{
    match signed_number(a) {
        Some(x) => match signed_number(b) {
            Some(y) => {
                if x < y {
                    return true;
                }
                false
            }
            None => false,
        },
        None => false,
    }
}

fn is_unsigned_less(a: &[u8], b: &[u8]) -> bool
    ensures less { IsTrue result → (t : LeafType) (p : Physical) (u v : Value) → AreUnsigned t → IsSpelled t p a.now u
        → IsSpelled t p b.now v → IsUpTo u v }
    ensures other { result ≡ false → (t : LeafType) (p : Physical) (u v : Value) → AreUnsigned t → IsSpelled t p a.now u
        → IsSpelled t p b.now v → IsUpTo v u }
{
    match unsigned_number(a) {
        Some(x) => match unsigned_number(b) {
            Some(y) => {
                if x < y {
                    return true;
                }
                false
            }
            None => false,
        },
        None => false,
    }
}

fn are_bytes_less(a: &[u8], b: &[u8]) -> bool
    ensures less { IsTrue result → (t : LeafType) (p : Physical) (u v : Value) → AreBytes t → IsSpelled t p a.now u
        → IsSpelled t p b.now v → IsUpTo u v }
    ensures other { result ≡ false → (t : LeafType) (p : Physical) (u v : Value) → AreBytes t → IsSpelled t p a.now u
        → IsSpelled t p b.now v → IsUpTo v u }
{
    match ord_binary(a, b) {
        Ordering::Less => true,
        Ordering::Equal => false,
        Ordering::Greater => false,
    }
}

// Whether the value of one text is below that of another.
pub fn is_text_less(order: TextOrder, a: &[u8], b: &[u8]) -> bool
    ensures less { IsTrue result → (t : LeafType) (p : Physical) (u v : Value) → IsOrderOf order t
        → IsSpelled t p a.now u → IsSpelled t p b.now v → IsUpTo u v }
    ensures other { result ≡ false → (t : LeafType) (p : Physical) (u v : Value) → IsOrderOf order t
        → IsSpelled t p a.now u → IsSpelled t p b.now v → IsUpTo v u }
{
    match order {
        TextOrder::Signed => is_signed_less(a, b),
        TextOrder::Unsigned => is_unsigned_less(a, b),
        TextOrder::Bytes => are_bytes_less(a, b),
    }
}
