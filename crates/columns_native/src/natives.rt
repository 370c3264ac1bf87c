//! Arrays of numbers.

ghost use Rattle.std.specs.Prelude.{◌≡◌, map};
ghost use Rattle.columns_core.specs.Shapes.{base};
ghost use Rattle.columns_slots.specs.Tree.{ArrayTree, leaf_array};
ghost use Rattle.columns_array.specs.Boxed.{boxed};

use columns_array::ArrayBox;
use columns_core::{DaysMs, NativeType};
use columns_leaf::PrimitiveArray;

/// Puts an array `A` over a number into its variant of `ArrayBox`.
pub trait IntoBox<A> {
    // what the array stands for
    ghost tree: { A → ArrayTree };

    /// The array, as one of any kind (Arrow columnar format, "Fixed-Size Primitive Layout").
    fn into_box(array: A) -> ArrayBox
        ensures { boxed result ≡ tree array };
}

/// A stored number whose arrays are a variant of `ArrayBox`: boxed, an array stands for the leaf array of the same type, values and
/// mask. Its default stands at null positions.
pub trait NativeArray: NativeType + Default + IntoBox<PrimitiveArray<Self>> {
    ghost use Rattle.std.specs.Prelude.{List};
    ghost use Rattle.columns_core.specs.Tree.{TypeTree};
    ghost use Rattle.columns_slots.specs.Tree.{Mask};

    ghost is_leaf: { (t : TypeTree) (xs : List Self) (mask : Mask)
        → Self.tree (t, (xs, mask)) ≡ leaf_array t (map (Self.value (base t)) xs) mask };
}

impl IntoBox<PrimitiveArray<i8>> for i8 {
    ghost use Rattle.columns_core.specs.Natives.{value_i8};

    ghost tree = { λ a. leaf_array a.0 (map (value_i8 (base a.0)) a.1.0) a.1.1 };

    fn into_box(array: PrimitiveArray<i8>) -> ArrayBox {
        ArrayBox::Int8(array)
    }
}

impl NativeArray for i8 {
    ghost use Rattle.std.specs.Prelude.{refl};

    ghost is_leaf = { λ t xs mask. refl };
}

impl IntoBox<PrimitiveArray<i16>> for i16 {
    ghost use Rattle.columns_core.specs.Natives.{value_i16};

    ghost tree = { λ a. leaf_array a.0 (map (value_i16 (base a.0)) a.1.0) a.1.1 };

    fn into_box(array: PrimitiveArray<i16>) -> ArrayBox {
        ArrayBox::Int16(array)
    }
}

impl NativeArray for i16 {
    ghost use Rattle.std.specs.Prelude.{refl};

    ghost is_leaf = { λ t xs mask. refl };
}

impl IntoBox<PrimitiveArray<i32>> for i32 {
    ghost use Rattle.columns_core.specs.Natives.{value_i32};

    ghost tree = { λ a. leaf_array a.0 (map (value_i32 (base a.0)) a.1.0) a.1.1 };

    fn into_box(array: PrimitiveArray<i32>) -> ArrayBox {
        ArrayBox::Int32(array)
    }
}

impl NativeArray for i32 {
    ghost use Rattle.std.specs.Prelude.{refl};

    ghost is_leaf = { λ t xs mask. refl };
}

impl IntoBox<PrimitiveArray<i64>> for i64 {
    ghost use Rattle.columns_core.specs.Natives.{value_i64};

    ghost tree = { λ a. leaf_array a.0 (map (value_i64 (base a.0)) a.1.0) a.1.1 };

    fn into_box(array: PrimitiveArray<i64>) -> ArrayBox {
        ArrayBox::Int64(array)
    }
}

impl NativeArray for i64 {
    ghost use Rattle.std.specs.Prelude.{refl};

    ghost is_leaf = { λ t xs mask. refl };
}

impl IntoBox<PrimitiveArray<i128>> for i128 {
    ghost use Rattle.columns_core.specs.Natives.{value_i128};

    ghost tree = { λ a. leaf_array a.0 (map (value_i128 (base a.0)) a.1.0) a.1.1 };

    fn into_box(array: PrimitiveArray<i128>) -> ArrayBox {
        ArrayBox::Int128(array)
    }
}

impl NativeArray for i128 {
    ghost use Rattle.std.specs.Prelude.{refl};

    ghost is_leaf = { λ t xs mask. refl };
}

impl IntoBox<PrimitiveArray<u8>> for u8 {
    ghost use Rattle.columns_core.specs.Natives.{value_u8};

    ghost tree = { λ a. leaf_array a.0 (map (value_u8 (base a.0)) a.1.0) a.1.1 };

    fn into_box(array: PrimitiveArray<u8>) -> ArrayBox {
        ArrayBox::UInt8(array)
    }
}

impl NativeArray for u8 {
    ghost use Rattle.std.specs.Prelude.{refl};

    ghost is_leaf = { λ t xs mask. refl };
}

impl IntoBox<PrimitiveArray<u16>> for u16 {
    ghost use Rattle.columns_core.specs.Natives.{value_u16};

    ghost tree = { λ a. leaf_array a.0 (map (value_u16 (base a.0)) a.1.0) a.1.1 };

    fn into_box(array: PrimitiveArray<u16>) -> ArrayBox {
        ArrayBox::UInt16(array)
    }
}

impl NativeArray for u16 {
    ghost use Rattle.std.specs.Prelude.{refl};

    ghost is_leaf = { λ t xs mask. refl };
}

impl IntoBox<PrimitiveArray<u32>> for u32 {
    ghost use Rattle.columns_core.specs.Natives.{value_u32};

    ghost tree = { λ a. leaf_array a.0 (map (value_u32 (base a.0)) a.1.0) a.1.1 };

    fn into_box(array: PrimitiveArray<u32>) -> ArrayBox {
        ArrayBox::UInt32(array)
    }
}

impl NativeArray for u32 {
    ghost use Rattle.std.specs.Prelude.{refl};

    ghost is_leaf = { λ t xs mask. refl };
}

impl IntoBox<PrimitiveArray<u64>> for u64 {
    ghost use Rattle.columns_core.specs.Natives.{value_u64};

    ghost tree = { λ a. leaf_array a.0 (map (value_u64 (base a.0)) a.1.0) a.1.1 };

    fn into_box(array: PrimitiveArray<u64>) -> ArrayBox {
        ArrayBox::UInt64(array)
    }
}

impl NativeArray for u64 {
    ghost use Rattle.std.specs.Prelude.{refl};

    ghost is_leaf = { λ t xs mask. refl };
}

impl IntoBox<PrimitiveArray<DaysMs>> for DaysMs {
    ghost use Rattle.columns_core.specs.Natives.{value_days};

    ghost tree = { λ a. leaf_array a.0 (map (value_days (base a.0)) a.1.0) a.1.1 };

    fn into_box(array: PrimitiveArray<DaysMs>) -> ArrayBox {
        ArrayBox::DaysMs(array)
    }
}

impl NativeArray for DaysMs {
    ghost use Rattle.std.specs.Prelude.{refl};

    ghost is_leaf = { λ t xs mask. refl };
}
