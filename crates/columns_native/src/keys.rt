//! Keys of dictionaries.

ghost use Rattle.std.specs.Prelude.{◌≡◌, ℤ, List};
ghost use Rattle.columns_core.specs.declared.types.IntegerType.{IntegerType};
ghost use Rattle.columns_slots.specs.Tree.{Mask};
ghost use Rattle.columns_leaf.specs.Keyed.{keys_of, key_mask, key_kind, key_data_type};
ghost use Rattle.columns_core.specs.Tree.{TypeTree};

use columns_core::DictionaryKey;
use columns_leaf::{DictionaryKeys, PrimitiveArray};

/// Puts an array `A` of keys into its variant of `DictionaryKeys`.
pub trait IntoKeys<A> {
    // the keys, as numbers
    ghost numbers: { A → List ℤ };

    // which of them are not null
    ghost validity: { A → Mask };

    // the type of the keys
    ghost keys_are: { IntegerType };

    // the type of their array, with the extensions that it may have
    ghost array_type: { A → TypeTree };

    /// The keys, as those of any type (Arrow columnar format, "Dictionary-encoded Layout").
    fn into_keys(array: A) -> DictionaryKeys
        ensures same { keys_of result ≡ numbers array }
        ensures mask { key_mask result ≡ validity array }
        ensures kind { key_kind result ≡ keys_are }
        ensures typed { key_data_type result ≡ array_type array };
}

/// A key whose arrays are a variant of `DictionaryKeys`: that variant has the same numbers, mask, type of keys and type of their
/// array.
pub trait KeyArray: DictionaryKey + IntoKeys<PrimitiveArray<Self>> {
    ghost use Rattle.std.specs.Prelude.{List, map};
    ghost use Rattle.columns_core.specs.Tree.{TypeTree};
    ghost use Rattle.columns_slots.specs.Tree.{Mask};

    ghost same_numbers: { (t : TypeTree) (xs : List Self) (mask : Mask)
        → Self.numbers (t, (xs, mask)) ≡ map Self.number xs };

    ghost same_mask: { (t : TypeTree) (xs : List Self) (mask : Mask) → Self.validity (t, (xs, mask)) ≡ mask };

    ghost same_kind: { Self.keys_are ≡ Self.kind };

    ghost same_type: { (t : TypeTree) (xs : List Self) (mask : Mask) → Self.array_type (t, (xs, mask)) ≡ t };
}

impl IntoKeys<PrimitiveArray<i8>> for i8 {
    ghost use Rattle.columns_core.specs.declared.types.IntegerType.TheVariants as kinds;

    ghost numbers = { λ a. a.1.0 };

    ghost validity = { λ a. a.1.1 };

    ghost keys_are = { kinds.Int8 };

    ghost array_type = { λ a. a.0 };

    fn into_keys(array: PrimitiveArray<i8>) -> DictionaryKeys {
        DictionaryKeys::Int8(array)
    }
}

impl KeyArray for i8 {
    ghost use Rattle.std.specs.Prelude.{refl};
    ghost use Rattle.columns_native.specs.Same.{as_they_are};

    ghost same_numbers = { λ t xs mask. as_they_are xs };

    ghost same_mask = { λ t xs mask. refl };

    ghost same_kind = { refl };

    ghost same_type = { λ t xs mask. refl };
}

impl IntoKeys<PrimitiveArray<i16>> for i16 {
    ghost use Rattle.columns_core.specs.declared.types.IntegerType.TheVariants as kinds;

    ghost numbers = { λ a. a.1.0 };

    ghost validity = { λ a. a.1.1 };

    ghost keys_are = { kinds.Int16 };

    ghost array_type = { λ a. a.0 };

    fn into_keys(array: PrimitiveArray<i16>) -> DictionaryKeys {
        DictionaryKeys::Int16(array)
    }
}

impl KeyArray for i16 {
    ghost use Rattle.std.specs.Prelude.{refl};
    ghost use Rattle.columns_native.specs.Same.{as_they_are};

    ghost same_numbers = { λ t xs mask. as_they_are xs };

    ghost same_mask = { λ t xs mask. refl };

    ghost same_kind = { refl };

    ghost same_type = { λ t xs mask. refl };
}

impl IntoKeys<PrimitiveArray<i32>> for i32 {
    ghost use Rattle.columns_core.specs.declared.types.IntegerType.TheVariants as kinds;

    ghost numbers = { λ a. a.1.0 };

    ghost validity = { λ a. a.1.1 };

    ghost keys_are = { kinds.Int32 };

    ghost array_type = { λ a. a.0 };

    fn into_keys(array: PrimitiveArray<i32>) -> DictionaryKeys {
        DictionaryKeys::Int32(array)
    }
}

impl KeyArray for i32 {
    ghost use Rattle.std.specs.Prelude.{refl};
    ghost use Rattle.columns_native.specs.Same.{as_they_are};

    ghost same_numbers = { λ t xs mask. as_they_are xs };

    ghost same_mask = { λ t xs mask. refl };

    ghost same_kind = { refl };

    ghost same_type = { λ t xs mask. refl };
}

impl IntoKeys<PrimitiveArray<i64>> for i64 {
    ghost use Rattle.columns_core.specs.declared.types.IntegerType.TheVariants as kinds;

    ghost numbers = { λ a. a.1.0 };

    ghost validity = { λ a. a.1.1 };

    ghost keys_are = { kinds.Int64 };

    ghost array_type = { λ a. a.0 };

    fn into_keys(array: PrimitiveArray<i64>) -> DictionaryKeys {
        DictionaryKeys::Int64(array)
    }
}

impl KeyArray for i64 {
    ghost use Rattle.std.specs.Prelude.{refl};
    ghost use Rattle.columns_native.specs.Same.{as_they_are};

    ghost same_numbers = { λ t xs mask. as_they_are xs };

    ghost same_mask = { λ t xs mask. refl };

    ghost same_kind = { refl };

    ghost same_type = { λ t xs mask. refl };
}

impl IntoKeys<PrimitiveArray<u8>> for u8 {
    ghost use Rattle.std.specs.Prelude.{pos, map};
    ghost use Rattle.columns_core.specs.declared.types.IntegerType.TheVariants as kinds;

    ghost numbers = { λ a. map pos a.1.0 };

    ghost validity = { λ a. a.1.1 };

    ghost keys_are = { kinds.UInt8 };

    ghost array_type = { λ a. a.0 };

    fn into_keys(array: PrimitiveArray<u8>) -> DictionaryKeys {
        DictionaryKeys::UInt8(array)
    }
}

impl KeyArray for u8 {
    ghost use Rattle.std.specs.Prelude.{refl};

    ghost same_numbers = { λ t xs mask. refl };

    ghost same_mask = { λ t xs mask. refl };

    ghost same_kind = { refl };

    ghost same_type = { λ t xs mask. refl };
}

impl IntoKeys<PrimitiveArray<u16>> for u16 {
    ghost use Rattle.std.specs.Prelude.{pos, map};
    ghost use Rattle.columns_core.specs.declared.types.IntegerType.TheVariants as kinds;

    ghost numbers = { λ a. map pos a.1.0 };

    ghost validity = { λ a. a.1.1 };

    ghost keys_are = { kinds.UInt16 };

    ghost array_type = { λ a. a.0 };

    fn into_keys(array: PrimitiveArray<u16>) -> DictionaryKeys {
        DictionaryKeys::UInt16(array)
    }
}

impl KeyArray for u16 {
    ghost use Rattle.std.specs.Prelude.{refl};

    ghost same_numbers = { λ t xs mask. refl };

    ghost same_mask = { λ t xs mask. refl };

    ghost same_kind = { refl };

    ghost same_type = { λ t xs mask. refl };
}

impl IntoKeys<PrimitiveArray<u32>> for u32 {
    ghost use Rattle.std.specs.Prelude.{pos, map};
    ghost use Rattle.columns_core.specs.declared.types.IntegerType.TheVariants as kinds;

    ghost numbers = { λ a. map pos a.1.0 };

    ghost validity = { λ a. a.1.1 };

    ghost keys_are = { kinds.UInt32 };

    ghost array_type = { λ a. a.0 };

    fn into_keys(array: PrimitiveArray<u32>) -> DictionaryKeys {
        DictionaryKeys::UInt32(array)
    }
}

impl KeyArray for u32 {
    ghost use Rattle.std.specs.Prelude.{refl};

    ghost same_numbers = { λ t xs mask. refl };

    ghost same_mask = { λ t xs mask. refl };

    ghost same_kind = { refl };

    ghost same_type = { λ t xs mask. refl };
}

impl IntoKeys<PrimitiveArray<u64>> for u64 {
    ghost use Rattle.std.specs.Prelude.{pos, map};
    ghost use Rattle.columns_core.specs.declared.types.IntegerType.TheVariants as kinds;

    ghost numbers = { λ a. map pos a.1.0 };

    ghost validity = { λ a. a.1.1 };

    ghost keys_are = { kinds.UInt64 };

    ghost array_type = { λ a. a.0 };

    fn into_keys(array: PrimitiveArray<u64>) -> DictionaryKeys {
        DictionaryKeys::UInt64(array)
    }
}

impl KeyArray for u64 {
    ghost use Rattle.std.specs.Prelude.{refl};

    ghost same_numbers = { λ t xs mask. refl };

    ghost same_mask = { λ t xs mask. refl };

    ghost same_kind = { refl };

    ghost same_type = { λ t xs mask. refl };
}
