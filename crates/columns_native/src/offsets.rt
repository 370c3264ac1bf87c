//! Arrays of texts and of byte strings.

ghost use Rattle.std.specs.Prelude.{◌≡◌};
ghost use Rattle.columns_slots.specs.Bytes.{pieces_values};
ghost use Rattle.columns_slots.specs.Tree.{ArrayTree, leaf_array};
ghost use Rattle.columns_array.specs.Boxed.{boxed};

use columns_array::ArrayBox;
use columns_core::Offset;
use columns_leaf::{BinaryArray, Utf8Array};

/// Puts an array of texts `T` and one of byte strings `B` under the same offsets into their variants of `ArrayBox`.
pub trait IntoStrings<T, B> {
    // what the array of texts stands for
    ghost text_tree: { T → ArrayTree };

    // what the array of byte strings stands for
    ghost binary_tree: { B → ArrayTree };

    /// The texts, as an array of any kind (Arrow columnar format, "Variable-size Binary Layout").
    fn text_box(array: T) -> ArrayBox
        ensures { boxed result ≡ text_tree array };

    /// The byte strings, as an array of any kind (Arrow columnar format, "Variable-size Binary Layout").
    fn binary_box(array: B) -> ArrayBox
        ensures { boxed result ≡ binary_tree array };
}

/// An offset whose arrays are variants of `ArrayBox`: boxed, an array stands for the leaf array of the same type, strings and mask.
pub trait OffsetArray: Offset + IntoStrings<Utf8Array<Self>, BinaryArray<Self>> {
    ghost use Rattle.std.specs.Prelude.{ℕ, List};
    ghost use Rattle.columns_core.specs.Tree.{TypeTree};
    ghost use Rattle.columns_slots.specs.Tree.{Mask};

    ghost are_texts: { (t : TypeTree) (offsets bytes : List ℕ) (mask : Mask)
        → Self.text_tree (t, (offsets, (bytes, mask))) ≡ leaf_array t (pieces_values offsets bytes) mask };

    ghost are_strings: { (t : TypeTree) (offsets bytes : List ℕ) (mask : Mask)
        → Self.binary_tree (t, (offsets, (bytes, mask))) ≡ leaf_array t (pieces_values offsets bytes) mask };
}

impl IntoStrings<Utf8Array<i32>, BinaryArray<i32>> for i32 {
    ghost text_tree = { λ a. leaf_array a.0 (pieces_values a.1.0 a.1.1.0) a.1.1.1 };

    ghost binary_tree = { λ a. leaf_array a.0 (pieces_values a.1.0 a.1.1.0) a.1.1.1 };

    fn text_box(array: Utf8Array<i32>) -> ArrayBox {
        ArrayBox::Utf8(array)
    }

    fn binary_box(array: BinaryArray<i32>) -> ArrayBox {
        ArrayBox::Binary(array)
    }
}

impl OffsetArray for i32 {
    ghost use Rattle.std.specs.Prelude.{refl};

    ghost are_texts = { λ t offsets bytes mask. refl };

    ghost are_strings = { λ t offsets bytes mask. refl };
}

impl IntoStrings<Utf8Array<i64>, BinaryArray<i64>> for i64 {
    ghost text_tree = { λ a. leaf_array a.0 (pieces_values a.1.0 a.1.1.0) a.1.1.1 };

    ghost binary_tree = { λ a. leaf_array a.0 (pieces_values a.1.0 a.1.1.0) a.1.1.1 };

    fn text_box(array: Utf8Array<i64>) -> ArrayBox {
        ArrayBox::LargeUtf8(array)
    }

    fn binary_box(array: BinaryArray<i64>) -> ArrayBox {
        ArrayBox::LargeBinary(array)
    }
}

impl OffsetArray for i64 {
    ghost use Rattle.std.specs.Prelude.{refl};

    ghost are_texts = { λ t offsets bytes mask. refl };

    ghost are_strings = { λ t offsets bytes mask. refl };
}
