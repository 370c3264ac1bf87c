//! The enum over all arrays, and the arrays that hold arrays.
mod boxes;
mod cells;
pub(crate) mod clone;
mod dictionary;
mod equal;
mod fixed_size_list;
mod keys;
mod large_list;
mod list;
mod map;
mod nulls;
mod structs;

use columns_core::{Bitmap, DataType, DaysMs, OffsetsBuffer};
use columns_leaf::{
    BinaryArray, BooleanArray, DictionaryKeys, FixedSizeBinaryArray, NullArray, PrimitiveArray,
    Utf8Array,
};
use std::marker::Model;

/// Any array. It stands for one list of slots of its type (Arrow columnar format, "Physical Memory Layout").
#[cycle(array)]
#[derive(Debug, Drop)]
pub enum ArrayBox {
    Null(NullArray),
    Boolean(BooleanArray),
    Int8(PrimitiveArray<i8>),
    Int16(PrimitiveArray<i16>),
    Int32(PrimitiveArray<i32>),
    Int64(PrimitiveArray<i64>),
    Int128(PrimitiveArray<i128>),
    UInt8(PrimitiveArray<u8>),
    UInt16(PrimitiveArray<u16>),
    UInt32(PrimitiveArray<u32>),
    UInt64(PrimitiveArray<u64>),
    DaysMs(PrimitiveArray<DaysMs>),
    Utf8(Utf8Array<i32>),
    LargeUtf8(Utf8Array<i64>),
    Binary(BinaryArray<i32>),
    LargeBinary(BinaryArray<i64>),
    FixedSizeBinary(FixedSizeBinaryArray),
    Dictionary(DictionaryArray),
    List(ListArray),
    LargeList(LargeListArray),
    FixedSizeList(FixedSizeListArray),
    Struct(StructArray),
    Map(MapArray),
}

/// Lists under offsets of 32 bits (Arrow columnar format, "Variable-size List Layout").
#[cycle(array)]
#[derive(Debug, Drop)]
pub struct ListArray {
    data_type: DataType,
    offsets: OffsetsBuffer<i32>,
    values: Box<ArrayBox>,
    validity: Option<Bitmap>,
}

/// Lists under offsets of 64 bits (Arrow columnar format, "Variable-size List Layout").
#[cycle(array)]
#[derive(Debug, Drop)]
pub struct LargeListArray {
    data_type: DataType,
    offsets: OffsetsBuffer<i64>,
    values: Box<ArrayBox>,
    validity: Option<Bitmap>,
}

/// Lists that all have the same number of items (Arrow columnar format, "Fixed-Size List Layout").
#[cycle(array)]
#[derive(Debug, Drop)]
pub struct FixedSizeListArray {
    data_type: DataType,
    width: usize,
    size: usize,
    values: Box<ArrayBox>,
    validity: Option<Bitmap>,
}

/// Maps, as lists of their entries (Arrow columnar format, "Map Layout").
#[cycle(array)]
#[derive(Debug, Drop)]
pub struct MapArray {
    data_type: DataType,
    offsets: OffsetsBuffer<i32>,
    values: Box<ArrayBox>,
    validity: Option<Bitmap>,
}

/// Structs: an array for each field, all of the same length (Arrow columnar format, "Struct Layout").
#[cycle(array)]
#[derive(Debug, Drop)]
pub struct StructArray {
    data_type: DataType,
    size: usize,
    values: Vec<ArrayBox>,
    validity: Option<Bitmap>,
}

/// Entries, and for each position a key that numbers one of them (Arrow columnar format, "Dictionary-encoded Layout").
#[cycle(array)]
#[derive(Debug, Drop)]
pub struct DictionaryArray {
    data_type: DataType,
    keys: DictionaryKeys,
    values: Box<ArrayBox>,
}

impl Model for ListArray {
    ghost use Rattle.std.specs.Prelude.{◌≡◌, Some};
    ghost use Rattle.columns_core.specs.View.{type_view};
    ghost use Rattle.columns_core.specs.Shapes.{base};
    ghost use Rattle.columns_slots.specs.Tree.{ArrayTree, tree_code, list_array};
    ghost use Rattle.columns_slots.specs.Slots.{IsSound, tree_size, first_len, type_of};
    ghost use Rattle.columns_slots.specs.Types.{small_item, large_item, map_item, key_type};

    ghost Value = { ArrayTree };

    ghost coded = { tree_code };

    ghost use Rattle.columns_array.specs.Boxed.{boxed, all_boxed};
    ghost use Rattle.columns_leaf.specs.Keyed.{keys_of, key_mask, key_kind};

    ghost view = { λ a. list_array (type_view a.data_type) a.offsets (boxed a.values.value) a.validity };

    ghost invariant = { λ a. IsSound (list_array (type_view a.data_type) a.offsets (boxed a.values.value) a.validity)
        × (small_item (base (type_view a.data_type)) ≡ Some (type_of (boxed a.values.value))) };

    ghost size = { tree_size };

    ghost use Rattle.columns_array.specs.Falls.{box_falls};
    ghost use Rattle.std.proofs.Common.{arith};

    ghost size_decreases = { λ a h. omega (arith, box_falls a.values.value) };
}

impl Model for LargeListArray {
    ghost use Rattle.std.specs.Prelude.{◌≡◌, Some};
    ghost use Rattle.columns_core.specs.View.{type_view};
    ghost use Rattle.columns_core.specs.Shapes.{base};
    ghost use Rattle.columns_slots.specs.Tree.{ArrayTree, tree_code, list_array};
    ghost use Rattle.columns_slots.specs.Slots.{IsSound, tree_size, first_len, type_of};
    ghost use Rattle.columns_slots.specs.Types.{small_item, large_item, map_item, key_type};

    ghost Value = { ArrayTree };

    ghost coded = { tree_code };

    ghost use Rattle.columns_array.specs.Boxed.{boxed, all_boxed};
    ghost use Rattle.columns_leaf.specs.Keyed.{keys_of, key_mask, key_kind};

    ghost view = { λ a. list_array (type_view a.data_type) a.offsets (boxed a.values.value) a.validity };

    ghost invariant = { λ a. IsSound (list_array (type_view a.data_type) a.offsets (boxed a.values.value) a.validity)
        × (large_item (base (type_view a.data_type)) ≡ Some (type_of (boxed a.values.value))) };

    ghost size = { tree_size };

    ghost use Rattle.columns_array.specs.Falls.{box_falls};
    ghost use Rattle.std.proofs.Common.{arith};

    ghost size_decreases = { λ a h. omega (arith, box_falls a.values.value) };
}

impl Model for FixedSizeListArray {
    ghost use Rattle.std.specs.Prelude.{◌≡◌, Some};
    ghost use Rattle.columns_core.specs.View.{type_view};
    ghost use Rattle.columns_core.specs.Shapes.{base};
    ghost use Rattle.columns_slots.specs.Tree.{ArrayTree, tree_code, fixed_list_array};
    ghost use Rattle.columns_slots.specs.Slots.{IsSound, tree_size, first_len, type_of};
    ghost use Rattle.columns_slots.specs.Types.{small_item, large_item, map_item, key_type};

    ghost Value = { ArrayTree };

    ghost coded = { tree_code };

    ghost use Rattle.columns_array.specs.Boxed.{boxed, all_boxed};
    ghost use Rattle.columns_leaf.specs.Keyed.{keys_of, key_mask, key_kind};

    ghost view = { λ a. fixed_list_array (type_view a.data_type) a.width a.size (boxed a.values.value) a.validity };

    ghost invariant = { λ a. IsSound (fixed_list_array (type_view a.data_type) a.width a.size
        (boxed a.values.value) a.validity) };

    ghost size = { tree_size };

    ghost use Rattle.columns_array.specs.Falls.{box_falls};
    ghost use Rattle.std.proofs.Common.{arith};

    ghost size_decreases = { λ a h. omega (arith, box_falls a.values.value) };
}

impl Model for MapArray {
    ghost use Rattle.std.specs.Prelude.{◌≡◌, Some};
    ghost use Rattle.columns_core.specs.View.{type_view};
    ghost use Rattle.columns_core.specs.Shapes.{base};
    ghost use Rattle.columns_slots.specs.Tree.{ArrayTree, tree_code, list_array};
    ghost use Rattle.columns_slots.specs.Slots.{IsSound, tree_size, first_len, type_of};
    ghost use Rattle.columns_slots.specs.Types.{small_item, large_item, map_item, key_type};

    ghost Value = { ArrayTree };

    ghost coded = { tree_code };

    ghost use Rattle.columns_array.specs.Boxed.{boxed, all_boxed};
    ghost use Rattle.columns_leaf.specs.Keyed.{keys_of, key_mask, key_kind};

    ghost view = { λ a. list_array (type_view a.data_type) a.offsets (boxed a.values.value) a.validity };

    ghost invariant = { λ a. IsSound (list_array (type_view a.data_type) a.offsets (boxed a.values.value) a.validity)
        × (map_item (base (type_view a.data_type)) ≡ Some (type_of (boxed a.values.value))) };

    ghost size = { tree_size };

    ghost use Rattle.columns_array.specs.Falls.{box_falls};
    ghost use Rattle.std.proofs.Common.{arith};

    ghost size_decreases = { λ a h. omega (arith, box_falls a.values.value) };
}

impl Model for StructArray {
    ghost use Rattle.std.specs.Prelude.{◌≡◌, Some};
    ghost use Rattle.columns_core.specs.View.{type_view};
    ghost use Rattle.columns_core.specs.Shapes.{base};
    ghost use Rattle.columns_slots.specs.Tree.{ArrayTree, tree_code, struct_array};
    ghost use Rattle.columns_slots.specs.Slots.{IsSound, tree_size, first_len, type_of};
    ghost use Rattle.columns_slots.specs.Types.{small_item, large_item, map_item, key_type};

    ghost Value = { ArrayTree };

    ghost coded = { tree_code };

    ghost use Rattle.columns_array.specs.Boxed.{boxed, all_boxed};
    ghost use Rattle.columns_leaf.specs.Keyed.{keys_of, key_mask, key_kind};

    ghost view = { λ a. struct_array (type_view a.data_type) (all_boxed a.values.items) a.validity };

    ghost invariant = { λ a. (a.size ≡ first_len (all_boxed a.values.items))
        × IsSound (struct_array (type_view a.data_type) (all_boxed a.values.items) a.validity) };

    ghost size = { tree_size };

    ghost use Rattle.columns_array.specs.Falls.{boxes_fall};
    ghost use Rattle.std.proofs.Common.{arith};

    ghost size_decreases = { λ a h. omega (arith, boxes_fall a.values.items) };
}

impl Model for DictionaryArray {
    ghost use Rattle.std.specs.Prelude.{◌≡◌, Some};
    ghost use Rattle.columns_core.specs.View.{type_view};
    ghost use Rattle.columns_core.specs.Shapes.{base};
    ghost use Rattle.columns_slots.specs.Tree.{ArrayTree, tree_code, dictionary_array};
    ghost use Rattle.columns_slots.specs.Slots.{IsSound, tree_size, first_len, type_of};
    ghost use Rattle.columns_slots.specs.Types.{small_item, large_item, map_item, key_type};

    ghost Value = { ArrayTree };

    ghost coded = { tree_code };

    ghost use Rattle.columns_array.specs.Boxed.{boxed, all_boxed};
    ghost use Rattle.columns_leaf.specs.Keyed.{keys_of, key_mask, key_kind};

    ghost view = { λ a. dictionary_array (type_view a.data_type) (keys_of a.keys) (boxed a.values.value)
        (key_mask a.keys) };

    ghost invariant = { λ a. IsSound
        (dictionary_array (type_view a.data_type) (keys_of a.keys) (boxed a.values.value) (key_mask a.keys))
        × (key_type (base (type_view a.data_type)) ≡ Some (key_kind a.keys)) };

    ghost size = { tree_size };

    ghost use Rattle.columns_array.specs.Falls.{box_falls};
    ghost use Rattle.std.proofs.Common.{arith};

    ghost size_decreases = { λ a h. omega (arith, box_falls a.values.value) };
}
