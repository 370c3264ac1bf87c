//! The numbers of each native type, from those that a column stores (Parquet format, LogicalTypes).

use crate::stored::FromStored;

impl FromStored<i32> for i8 {
    ghost use Rattle.std.specs.Prelude.{Some, pos};
    ghost use Rattle.read_leaf.specs.Numbers.{as_signed};
    ghost use Rattle.columns_core.specs.Natives.{within_signed};

    ghost loaded = { as_signed 8 };

    ghost loaded_number = { λ x. within_signed 8 x };

    ghost use Rattle.columns_native.specs.Ordered.{ordered_i8};
    ghost use Rattle.read_leaf.specs.Loads.{loads-i8};

    ghost valued = { ordered_i8 };

    ghost loads = { loads-i8 };

    fn from_stored(stored: i32) -> Option<i8> {
        if -128 <= stored && stored <= 127 {
            Some(stored as i8)
        } else {
            None
        }
    }

    fn zero() -> i8 {
        0
    }
}

impl FromStored<i32> for i16 {
    ghost use Rattle.std.specs.Prelude.{Some, pos};
    ghost use Rattle.read_leaf.specs.Numbers.{as_signed};
    ghost use Rattle.columns_core.specs.Natives.{within_signed};

    ghost loaded = { as_signed 16 };

    ghost loaded_number = { λ x. within_signed 16 x };

    ghost use Rattle.columns_native.specs.Ordered.{ordered_i16};
    ghost use Rattle.read_leaf.specs.Loads.{loads-i16};

    ghost valued = { ordered_i16 };

    ghost loads = { loads-i16 };

    fn from_stored(stored: i32) -> Option<i16> {
        if -32768 <= stored && stored <= 32767 {
            Some(stored as i16)
        } else {
            None
        }
    }

    fn zero() -> i16 {
        0
    }
}

impl FromStored<i32> for i32 {
    ghost use Rattle.std.specs.Prelude.{Some, pos};
    ghost use Rattle.columns_core.specs.Natives.{within_signed};

    ghost loaded = { λ z. Some z };

    ghost loaded_number = { λ x. within_signed 32 x };

    ghost use Rattle.columns_native.specs.Ordered.{ordered_i32};
    ghost use Rattle.read_leaf.specs.Loads.{loads-i32};

    ghost valued = { ordered_i32 };

    ghost loads = { loads-i32 };

    fn from_stored(stored: i32) -> Option<i32> {
        Some(stored)
    }

    fn zero() -> i32 {
        0
    }
}

impl FromStored<i64> for i64 {
    ghost use Rattle.std.specs.Prelude.{Some, pos};
    ghost use Rattle.columns_core.specs.Natives.{within_signed};

    ghost loaded = { λ z. Some z };

    ghost loaded_number = { λ x. within_signed 64 x };

    ghost use Rattle.columns_native.specs.Ordered.{ordered_i64};
    ghost use Rattle.read_leaf.specs.Loads.{loads-i64};

    ghost valued = { ordered_i64 };

    ghost loads = { loads-i64 };

    fn from_stored(stored: i64) -> Option<i64> {
        Some(stored)
    }

    fn zero() -> i64 {
        0
    }
}

impl FromStored<i32> for u8 {
    ghost use Rattle.std.specs.Prelude.{Some, pos};
    ghost use Rattle.read_leaf.specs.Numbers.{as_unsigned};
    ghost use Rattle.std.specs.Int.{w32};
    ghost use Rattle.columns_core.specs.Natives.{within_unsigned};

    ghost loaded = { as_unsigned w32 8 };

    ghost loaded_number = { λ x. pos (within_unsigned 8 x) };

    ghost use Rattle.columns_native.specs.Ordered.{ordered_u8};
    ghost use Rattle.read_leaf.specs.Loads.{loads-u8};

    ghost valued = { ordered_u8 };

    ghost loads = { loads-u8 };

    fn from_stored(stored: i32) -> Option<u8> {
        let bits = stored.cast_unsigned();
        if bits < 0x100 { Some(bits as u8) } else { None }
    }

    fn zero() -> u8 {
        0
    }
}

impl FromStored<i32> for u16 {
    ghost use Rattle.std.specs.Prelude.{Some, pos};
    ghost use Rattle.read_leaf.specs.Numbers.{as_unsigned};
    ghost use Rattle.std.specs.Int.{w32};
    ghost use Rattle.columns_core.specs.Natives.{within_unsigned};

    ghost loaded = { as_unsigned w32 16 };

    ghost loaded_number = { λ x. pos (within_unsigned 16 x) };

    ghost use Rattle.columns_native.specs.Ordered.{ordered_u16};
    ghost use Rattle.read_leaf.specs.Loads.{loads-u16};

    ghost valued = { ordered_u16 };

    ghost loads = { loads-u16 };

    fn from_stored(stored: i32) -> Option<u16> {
        let bits = stored.cast_unsigned();
        if bits < 0x1_0000 {
            Some(bits as u16)
        } else {
            None
        }
    }

    fn zero() -> u16 {
        0
    }
}

impl FromStored<i32> for u32 {
    ghost use Rattle.std.specs.Prelude.{Some, pos};
    ghost use Rattle.std.specs.Int.{w32, cast_unsigned};
    ghost use Rattle.columns_core.specs.Natives.{within_unsigned};

    ghost loaded = { λ z. Some (pos (cast_unsigned w32 z)) };

    ghost loaded_number = { λ x. pos (within_unsigned 32 x) };

    ghost use Rattle.columns_native.specs.Ordered.{ordered_u32};
    ghost use Rattle.read_leaf.specs.Loads.{loads-u32};

    ghost valued = { ordered_u32 };

    ghost loads = { loads-u32 };

    fn from_stored(stored: i32) -> Option<u32> {
        Some(stored.cast_unsigned())
    }

    fn zero() -> u32 {
        0
    }
}

impl FromStored<i64> for u32 {
    ghost use Rattle.std.specs.Prelude.{Some, pos};
    ghost use Rattle.read_leaf.specs.Numbers.{as_unsigned};
    ghost use Rattle.std.specs.Int.{w64};
    ghost use Rattle.columns_core.specs.Natives.{within_unsigned};

    ghost loaded = { as_unsigned w64 32 };

    ghost loaded_number = { λ x. pos (within_unsigned 32 x) };

    ghost use Rattle.columns_native.specs.Ordered.{ordered_u32};
    ghost use Rattle.read_leaf.specs.Loads.{loads-wide-u32};

    ghost valued = { ordered_u32 };

    ghost loads = { loads-wide-u32 };

    fn from_stored(stored: i64) -> Option<u32> {
        let bits = stored.cast_unsigned();
        if bits < 0x1_0000_0000 {
            Some(bits as u32)
        } else {
            None
        }
    }

    fn zero() -> u32 {
        0
    }
}

impl FromStored<i64> for u64 {
    ghost use Rattle.std.specs.Prelude.{Some, pos};
    ghost use Rattle.std.specs.Int.{w64, cast_unsigned};
    ghost use Rattle.columns_core.specs.Natives.{within_unsigned};

    ghost loaded = { λ z. Some (pos (cast_unsigned w64 z)) };

    ghost loaded_number = { λ x. pos (within_unsigned 64 x) };

    ghost use Rattle.columns_native.specs.Ordered.{ordered_u64};
    ghost use Rattle.read_leaf.specs.Loads.{loads-u64};

    ghost valued = { ordered_u64 };

    ghost loads = { loads-u64 };

    fn from_stored(stored: i64) -> Option<u64> {
        Some(stored.cast_unsigned())
    }

    fn zero() -> u64 {
        0
    }
}

impl FromStored<i32> for i128 {
    ghost use Rattle.std.specs.Prelude.{Some, pos};
    ghost use Rattle.columns_core.specs.Natives.{within_signed};

    ghost loaded = { λ z. Some z };

    ghost loaded_number = { λ x. within_signed 128 x };

    ghost use Rattle.columns_native.specs.Ordered.{ordered_i128};
    ghost use Rattle.read_leaf.specs.Loads.{loads-i128};

    ghost valued = { ordered_i128 };

    ghost loads = { loads-i128 };

    fn from_stored(stored: i32) -> Option<i128> {
        Some(i128::from(stored))
    }

    fn zero() -> i128 {
        0
    }
}

impl FromStored<i64> for i128 {
    ghost use Rattle.std.specs.Prelude.{Some, pos};
    ghost use Rattle.columns_core.specs.Natives.{within_signed};

    ghost loaded = { λ z. Some z };

    ghost loaded_number = { λ x. within_signed 128 x };

    ghost use Rattle.columns_native.specs.Ordered.{ordered_i128};
    ghost use Rattle.read_leaf.specs.Loads.{loads-wide-i128};

    ghost valued = { ordered_i128 };

    ghost loads = { loads-wide-i128 };

    fn from_stored(stored: i64) -> Option<i128> {
        Some(i128::from(stored))
    }

    fn zero() -> i128 {
        0
    }
}
