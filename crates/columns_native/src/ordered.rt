//! The order of stored numbers.
ghost use Rattle.std.specs.Prelude.{◌↔◌, IsTrue, ◌<ℤ◌};

use columns_core::NativeType;

/// A stored number with an order: that of statistics, which goes by the number (Parquet format, `ColumnOrder`). Intervals have none.
pub trait OrderedNative: NativeType {
    ghost use Rattle.std.specs.Prelude.{ℤ};

    // the number that it is ordered by
    ghost ordinal: { Self → ℤ };

    /// Whether the number is below the other.
    fn is_less(&self, other: &Self) -> bool
        ensures { IsTrue result ↔ ordinal self.now <ℤ ordinal other.now };

    ghost use Rattle.std.specs.Prelude.{◌≡◌, true};
    ghost use Rattle.shredding.specs.Slot.{number};
    ghost use Rattle.columns_core.specs.Tree.{TypeTree};
    ghost use Rattle.columns_core.specs.Shapes.{leaf_type};
    ghost use Rattle.pq_files.specs.Statistics.{has_order};

    ghost in_order: { (t : TypeTree) (x : Self) → Self.stores t ≡ true → has_order (leaf_type t) ≡ true
        → Self.value t x ≡ number (ordinal x) };
}

impl OrderedNative for i8 {
    ghost use Rattle.columns_native.specs.Ordered.{signed_order, ordered_i8};

    ghost ordinal = { λ x. signed_order 8 x };

    ghost in_order = { ordered_i8 };

    fn is_less(&self, other: &i8) -> bool {
        self < other
    }
}

impl OrderedNative for i16 {
    ghost use Rattle.columns_native.specs.Ordered.{signed_order, ordered_i16};

    ghost ordinal = { λ x. signed_order 16 x };

    ghost in_order = { ordered_i16 };

    fn is_less(&self, other: &i16) -> bool {
        self < other
    }
}

impl OrderedNative for i32 {
    ghost use Rattle.columns_native.specs.Ordered.{signed_order, ordered_i32};

    ghost ordinal = { λ x. signed_order 32 x };

    ghost in_order = { ordered_i32 };

    fn is_less(&self, other: &i32) -> bool {
        self < other
    }
}

impl OrderedNative for i64 {
    ghost use Rattle.columns_native.specs.Ordered.{signed_order, ordered_i64};

    ghost ordinal = { λ x. signed_order 64 x };

    ghost in_order = { ordered_i64 };

    fn is_less(&self, other: &i64) -> bool {
        self < other
    }
}

impl OrderedNative for i128 {
    ghost use Rattle.columns_native.specs.Ordered.{signed_order, ordered_i128};

    ghost ordinal = { λ x. signed_order 128 x };

    ghost in_order = { ordered_i128 };

    fn is_less(&self, other: &i128) -> bool {
        self < other
    }
}

impl OrderedNative for u8 {
    ghost use Rattle.columns_native.specs.Ordered.{unsigned_order, ordered_u8};

    ghost ordinal = { λ x. unsigned_order 8 x };

    ghost in_order = { ordered_u8 };

    fn is_less(&self, other: &u8) -> bool {
        self < other
    }
}

impl OrderedNative for u16 {
    ghost use Rattle.columns_native.specs.Ordered.{unsigned_order, ordered_u16};

    ghost ordinal = { λ x. unsigned_order 16 x };

    ghost in_order = { ordered_u16 };

    fn is_less(&self, other: &u16) -> bool {
        self < other
    }
}

impl OrderedNative for u32 {
    ghost use Rattle.columns_native.specs.Ordered.{unsigned_order, ordered_u32};

    ghost ordinal = { λ x. unsigned_order 32 x };

    ghost in_order = { ordered_u32 };

    fn is_less(&self, other: &u32) -> bool {
        self < other
    }
}

impl OrderedNative for u64 {
    ghost use Rattle.columns_native.specs.Ordered.{unsigned_order, ordered_u64};

    ghost ordinal = { λ x. unsigned_order 64 x };

    ghost in_order = { ordered_u64 };

    fn is_less(&self, other: &u64) -> bool {
        self < other
    }
}
