//! Stored numbers by the page table.
ghost use Rattle.std.specs.Prelude.{◌≡◌, ◌↔◌, IsTrue};

use crate::cast::AsPrimitive;
use crate::plain::PlainNumber;

/// A number that a column stores as one of `P`, as the page table says (Parquet format, LogicalTypes): by its low bits.
pub trait StoredAs<P: PlainNumber>: AsPrimitive<P> {
    ghost use Rattle.std.specs.Prelude.{ℤ};

    // the number that is stored
    ghost stored_number: { Self → ℤ };

    // only a decimal may be too large
    ghost is_storable: { Self → Type 0 };

    /// Whether the number can be stored: all can, but for a decimal outside the signed range of `P`.
    fn can_be_stored(&self) -> bool
        ensures { IsTrue result ↔ is_storable self.now };

    /// The number that is stored.
    fn to_stored(self) -> P
        requires { is_storable self }
        ensures { P.plain_number result ≡ stored_number self };

    ghost use Rattle.std.specs.Prelude.{◌≡◌, true};
    ghost use Rattle.shredding.specs.Slot.{number};
    ghost use Rattle.columns_core.specs.Tree.{TypeTree};
    ghost use Rattle.columns_core.specs.Shapes.{leaf_type};
    ghost use Rattle.pq_tree.specs.Views.{physical_view};
    ghost use Rattle.pq_files.specs.Statistics.{has_order};
    ghost use Rattle.pq_files.specs.Stored.{IsStored};

    ghost by_the_table: { (t : TypeTree) (x : Self) → is_storable x → Self.stores t ≡ true
        → has_order (leaf_type t) ≡ true → IsStored (leaf_type t) (physical_view P.physical) (Self.value t x)
        (number (stored_number x)) };
}

impl StoredAs<i32> for i8 {
    ghost use Rattle.columns_native.specs.Stored.{stored_signed, stored_i8};

    ghost stored_number = { λ x. stored_signed 8 x };

    ghost is_storable = { λ _. Unit {0} };

    ghost by_the_table = { λ t x s. stored_i8 t x };

    fn can_be_stored(&self) -> bool {
        true
    }

    fn to_stored(self) -> i32 {
        self.as_()
    }
}

impl StoredAs<i32> for i16 {
    ghost use Rattle.columns_native.specs.Stored.{stored_signed, stored_i16};

    ghost stored_number = { λ x. stored_signed 16 x };

    ghost is_storable = { λ _. Unit {0} };

    ghost by_the_table = { λ t x s. stored_i16 t x };

    fn can_be_stored(&self) -> bool {
        true
    }

    fn to_stored(self) -> i32 {
        self.as_()
    }
}

impl StoredAs<i32> for i32 {
    ghost use Rattle.columns_native.specs.Stored.{stored_signed, stored_i32};

    ghost stored_number = { λ x. stored_signed 32 x };

    ghost is_storable = { λ _. Unit {0} };

    ghost by_the_table = { λ t x s. stored_i32 t x };

    fn can_be_stored(&self) -> bool {
        true
    }

    fn to_stored(self) -> i32 {
        self.as_()
    }
}

impl StoredAs<i64> for i64 {
    ghost use Rattle.columns_native.specs.Stored.{stored_signed, stored_i64};

    ghost stored_number = { λ x. stored_signed 64 x };

    ghost is_storable = { λ _. Unit {0} };

    ghost by_the_table = { λ t x s. stored_i64 t x };

    fn can_be_stored(&self) -> bool {
        true
    }

    fn to_stored(self) -> i64 {
        self.as_()
    }
}

impl StoredAs<i32> for u8 {
    ghost use Rattle.columns_native.specs.Stored.{stored_unsigned, stored_u8};
    ghost use Rattle.std.specs.Int.{w32};

    ghost stored_number = { λ x. stored_unsigned w32 8 x };

    ghost is_storable = { λ _. Unit {0} };

    ghost by_the_table = { λ t x s. stored_u8 t x };

    fn can_be_stored(&self) -> bool {
        true
    }

    fn to_stored(self) -> i32 {
        self.as_()
    }
}

impl StoredAs<i32> for u16 {
    ghost use Rattle.columns_native.specs.Stored.{stored_unsigned, stored_u16};
    ghost use Rattle.std.specs.Int.{w32};

    ghost stored_number = { λ x. stored_unsigned w32 16 x };

    ghost is_storable = { λ _. Unit {0} };

    ghost by_the_table = { λ t x s. stored_u16 t x };

    fn can_be_stored(&self) -> bool {
        true
    }

    fn to_stored(self) -> i32 {
        self.as_()
    }
}

impl StoredAs<i32> for u32 {
    ghost use Rattle.columns_native.specs.Stored.{stored_unsigned, stored_u32};
    ghost use Rattle.std.specs.Int.{w32};

    ghost stored_number = { λ x. stored_unsigned w32 32 x };

    ghost is_storable = { λ _. Unit {0} };

    ghost by_the_table = { λ t x s. stored_u32 t x };

    fn can_be_stored(&self) -> bool {
        true
    }

    fn to_stored(self) -> i32 {
        self.as_()
    }
}

impl StoredAs<i64> for u32 {
    ghost use Rattle.columns_native.specs.Stored.{stored_unsigned, wide_u32};
    ghost use Rattle.std.specs.Int.{w64};

    ghost stored_number = { λ x. stored_unsigned w64 32 x };

    ghost is_storable = { λ _. Unit {0} };

    ghost by_the_table = { λ t x s. wide_u32 t x };

    fn can_be_stored(&self) -> bool {
        true
    }

    fn to_stored(self) -> i64 {
        self.as_()
    }
}

impl StoredAs<i64> for u64 {
    ghost use Rattle.columns_native.specs.Stored.{stored_unsigned, stored_u64};
    ghost use Rattle.std.specs.Int.{w64};

    ghost stored_number = { λ x. stored_unsigned w64 64 x };

    ghost is_storable = { λ _. Unit {0} };

    ghost by_the_table = { λ t x s. stored_u64 t x };

    fn can_be_stored(&self) -> bool {
        true
    }

    fn to_stored(self) -> i64 {
        self.as_()
    }
}

impl StoredAs<i32> for i128 {
    ghost use Rattle.shredding.specs.Shape.{Fits};
    ghost use Rattle.columns_core.specs.Natives.{within_signed};
    ghost use Rattle.columns_native.specs.Stored.{stored_signed, small_decimal};

    ghost stored_number = { λ x. stored_signed 128 x };

    ghost is_storable = { λ x. Fits 32 (within_signed 128 x) };

    ghost by_the_table = { small_decimal };

    fn can_be_stored(&self) -> bool {
        i128::from(i32::MIN) <= *self && *self <= i128::from(i32::MAX)
    }

    fn to_stored(self) -> i32 {
        self.as_()
    }
}

impl StoredAs<i64> for i128 {
    ghost use Rattle.shredding.specs.Shape.{Fits};
    ghost use Rattle.columns_core.specs.Natives.{within_signed};
    ghost use Rattle.columns_native.specs.Stored.{stored_signed, wide_decimal};

    ghost stored_number = { λ x. stored_signed 128 x };

    ghost is_storable = { λ x. Fits 64 (within_signed 128 x) };

    ghost by_the_table = { wide_decimal };

    fn can_be_stored(&self) -> bool {
        i128::from(i64::MIN) <= *self && *self <= i128::from(i64::MAX)
    }

    fn to_stored(self) -> i64 {
        self.as_()
    }
}
