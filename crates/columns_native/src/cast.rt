//! Stored numbers as the numbers that a column stores.
ghost use Rattle.std.specs.Prelude.{◌≡◌};

use columns_core::{NativeType, ParquetNativeType};

/// A number whose low bits are a number of `P`: as many as `P` has, in two's complement. A number that `P` has stays as it is.
pub trait AsPrimitive<P: ParquetNativeType>: NativeType {
    // what is left of the number in P
    ghost wrapped: { Self → P };

    /// The number of `P` with the low bits of this one.
    fn as_(self) -> P
        ensures { result ≡ wrapped self };
}

impl AsPrimitive<i32> for i8 {
    ghost use Rattle.std.specs.Int.{w32};
    ghost use Rattle.num_traits.specs.Laws.{wrap_signed};

    ghost wrapped = { λ x. wrap_signed w32 x };

    fn as_(self) -> i32 {
        num_traits::AsPrimitive::as_(self)
    }
}

impl AsPrimitive<i32> for i16 {
    ghost use Rattle.std.specs.Int.{w32};
    ghost use Rattle.num_traits.specs.Laws.{wrap_signed};

    ghost wrapped = { λ x. wrap_signed w32 x };

    fn as_(self) -> i32 {
        num_traits::AsPrimitive::as_(self)
    }
}

impl AsPrimitive<i32> for i32 {
    ghost use Rattle.std.specs.Int.{w32};
    ghost use Rattle.num_traits.specs.Laws.{wrap_signed};

    ghost wrapped = { λ x. wrap_signed w32 x };

    fn as_(self) -> i32 {
        num_traits::AsPrimitive::as_(self)
    }
}

impl AsPrimitive<i32> for i64 {
    ghost use Rattle.std.specs.Int.{w32};
    ghost use Rattle.num_traits.specs.Laws.{wrap_signed};

    ghost wrapped = { λ x. wrap_signed w32 x };

    fn as_(self) -> i32 {
        num_traits::AsPrimitive::as_(self)
    }
}

impl AsPrimitive<i32> for i128 {
    ghost use Rattle.std.specs.Int.{w32};
    ghost use Rattle.num_traits.specs.Laws.{wrap_signed};

    ghost wrapped = { λ x. wrap_signed w32 x };

    fn as_(self) -> i32 {
        num_traits::AsPrimitive::as_(self)
    }
}

impl AsPrimitive<i32> for u8 {
    ghost use Rattle.std.specs.Prelude.{pos};
    ghost use Rattle.std.specs.Int.{w32};
    ghost use Rattle.num_traits.specs.Laws.{wrap_signed};

    ghost wrapped = { λ x. wrap_signed w32 (pos x) };

    fn as_(self) -> i32 {
        num_traits::AsPrimitive::as_(self)
    }
}

impl AsPrimitive<i32> for u16 {
    ghost use Rattle.std.specs.Prelude.{pos};
    ghost use Rattle.std.specs.Int.{w32};
    ghost use Rattle.num_traits.specs.Laws.{wrap_signed};

    ghost wrapped = { λ x. wrap_signed w32 (pos x) };

    fn as_(self) -> i32 {
        num_traits::AsPrimitive::as_(self)
    }
}

impl AsPrimitive<i32> for u32 {
    ghost use Rattle.std.specs.Prelude.{pos};
    ghost use Rattle.std.specs.Int.{w32};
    ghost use Rattle.num_traits.specs.Laws.{wrap_signed};

    ghost wrapped = { λ x. wrap_signed w32 (pos x) };

    fn as_(self) -> i32 {
        num_traits::AsPrimitive::as_(self)
    }
}

impl AsPrimitive<i32> for u64 {
    ghost use Rattle.std.specs.Prelude.{pos};
    ghost use Rattle.std.specs.Int.{w32};
    ghost use Rattle.num_traits.specs.Laws.{wrap_signed};

    ghost wrapped = { λ x. wrap_signed w32 (pos x) };

    fn as_(self) -> i32 {
        num_traits::AsPrimitive::as_(self)
    }
}

impl AsPrimitive<i64> for i8 {
    ghost use Rattle.std.specs.Int.{w64};
    ghost use Rattle.num_traits.specs.Laws.{wrap_signed};

    ghost wrapped = { λ x. wrap_signed w64 x };

    fn as_(self) -> i64 {
        num_traits::AsPrimitive::as_(self)
    }
}

impl AsPrimitive<i64> for i16 {
    ghost use Rattle.std.specs.Int.{w64};
    ghost use Rattle.num_traits.specs.Laws.{wrap_signed};

    ghost wrapped = { λ x. wrap_signed w64 x };

    fn as_(self) -> i64 {
        num_traits::AsPrimitive::as_(self)
    }
}

impl AsPrimitive<i64> for i32 {
    ghost use Rattle.std.specs.Int.{w64};
    ghost use Rattle.num_traits.specs.Laws.{wrap_signed};

    ghost wrapped = { λ x. wrap_signed w64 x };

    fn as_(self) -> i64 {
        num_traits::AsPrimitive::as_(self)
    }
}

impl AsPrimitive<i64> for i64 {
    ghost use Rattle.std.specs.Int.{w64};
    ghost use Rattle.num_traits.specs.Laws.{wrap_signed};

    ghost wrapped = { λ x. wrap_signed w64 x };

    fn as_(self) -> i64 {
        self
    }
}

impl AsPrimitive<i64> for i128 {
    ghost use Rattle.std.specs.Int.{w64};
    ghost use Rattle.num_traits.specs.Laws.{wrap_signed};

    ghost wrapped = { λ x. wrap_signed w64 x };

    fn as_(self) -> i64 {
        num_traits::AsPrimitive::as_(self)
    }
}

impl AsPrimitive<i64> for u8 {
    ghost use Rattle.std.specs.Prelude.{pos};
    ghost use Rattle.std.specs.Int.{w64};
    ghost use Rattle.num_traits.specs.Laws.{wrap_signed};

    ghost wrapped = { λ x. wrap_signed w64 (pos x) };

    fn as_(self) -> i64 {
        num_traits::AsPrimitive::as_(self)
    }
}

impl AsPrimitive<i64> for u16 {
    ghost use Rattle.std.specs.Prelude.{pos};
    ghost use Rattle.std.specs.Int.{w64};
    ghost use Rattle.num_traits.specs.Laws.{wrap_signed};

    ghost wrapped = { λ x. wrap_signed w64 (pos x) };

    fn as_(self) -> i64 {
        num_traits::AsPrimitive::as_(self)
    }
}

impl AsPrimitive<i64> for u32 {
    ghost use Rattle.std.specs.Prelude.{pos};
    ghost use Rattle.std.specs.Int.{w64};
    ghost use Rattle.num_traits.specs.Laws.{wrap_signed};

    ghost wrapped = { λ x. wrap_signed w64 (pos x) };

    fn as_(self) -> i64 {
        num_traits::AsPrimitive::as_(self)
    }
}

impl AsPrimitive<i64> for u64 {
    ghost use Rattle.std.specs.Prelude.{pos};
    ghost use Rattle.std.specs.Int.{w64};
    ghost use Rattle.num_traits.specs.Laws.{wrap_signed};

    ghost wrapped = { λ x. wrap_signed w64 (pos x) };

    fn as_(self) -> i64 {
        num_traits::AsPrimitive::as_(self)
    }
}
