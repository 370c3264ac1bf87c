//! Stored numbers.
ghost use Rattle.std.specs.Prelude.{◌≡◌};
ghost use Rattle.columns_core.specs.Shapes.{base};
ghost use Rattle.columns_core.specs.View.{type_view};

use crate::types::{DataType, IntervalUnit};

/// Days and milliseconds.
#[derive(Clone, Copy, Debug, Default, PartialEq, Eq, Drop)]
pub struct DaysMs {
    pub days: i32,
    pub milliseconds: i32,
}

/// A number that an array stores: `value` is the leaf that it stands for in a type, `stores` says in which.
pub trait NativeType: Copy + Drop {
    ghost use Rattle.shredding.specs.Slot.{Value};
    ghost use Rattle.std.specs.Prelude.{Bool};
    ghost use Rattle.columns_core.specs.Tree.{TypeTree};

    ghost value: { TypeTree → Self → Value };

    ghost stores: { TypeTree → Bool };

    fn is_stored_as(data_type: &DataType) -> bool
        ensures { result ≡ stores (base (type_view data_type.now)) };

    ghost use Rattle.std.specs.Prelude.{◌≡◌, true};
    ghost use Rattle.shredding.specs.Shape.{IsInRange};
    ghost use Rattle.columns_core.specs.Shapes.{leaf_type};

    ghost ranged: { (t : TypeTree) (x : Self) → stores t ≡ true → IsInRange (leaf_type t) (value t x) };
}

impl NativeType for i8 {
    ghost use Rattle.columns_core.specs.Natives.{stores_i8, value_i8, ranged_i8};

    ghost value = { value_i8 };

    ghost stores = { stores_i8 };

    ghost ranged = { ranged_i8 };

    fn is_stored_as(data_type: &DataType) -> bool {
        match data_type.base() {
            DataType::Int8 => true,
            _ => false,
        }
    }
}

impl NativeType for i16 {
    ghost use Rattle.columns_core.specs.Natives.{stores_i16, value_i16, ranged_i16};

    ghost value = { value_i16 };

    ghost stores = { stores_i16 };

    ghost ranged = { ranged_i16 };

    fn is_stored_as(data_type: &DataType) -> bool {
        match data_type.base() {
            DataType::Int16 => true,
            _ => false,
        }
    }
}

impl NativeType for i32 {
    ghost use Rattle.columns_core.specs.Natives.{stores_i32, value_i32, ranged_i32};

    ghost value = { value_i32 };

    ghost stores = { stores_i32 };

    ghost ranged = { ranged_i32 };

    fn is_stored_as(data_type: &DataType) -> bool {
        match data_type.base() {
            DataType::Int32
            | DataType::Date32
            | DataType::Time32(_)
            | DataType::Interval(IntervalUnit::YearMonth) => true,
            _ => false,
        }
    }
}

impl NativeType for i64 {
    ghost use Rattle.columns_core.specs.Natives.{stores_i64, value_i64, ranged_i64};

    ghost value = { value_i64 };

    ghost stores = { stores_i64 };

    ghost ranged = { ranged_i64 };

    fn is_stored_as(data_type: &DataType) -> bool {
        match data_type.base() {
            DataType::Int64
            | DataType::Date64
            | DataType::Time64(_)
            | DataType::Timestamp(_, _)
            | DataType::Duration(_) => true,
            _ => false,
        }
    }
}

impl NativeType for i128 {
    ghost use Rattle.columns_core.specs.Natives.{stores_i128, value_i128, ranged_i128};

    ghost value = { value_i128 };

    ghost stores = { stores_i128 };

    ghost ranged = { ranged_i128 };

    fn is_stored_as(data_type: &DataType) -> bool {
        match data_type.base() {
            DataType::Decimal(_, _) => true,
            _ => false,
        }
    }
}

impl NativeType for u8 {
    ghost use Rattle.columns_core.specs.Natives.{stores_u8, value_u8, ranged_u8};

    ghost value = { value_u8 };

    ghost stores = { stores_u8 };

    ghost ranged = { ranged_u8 };

    fn is_stored_as(data_type: &DataType) -> bool {
        match data_type.base() {
            DataType::UInt8 => true,
            _ => false,
        }
    }
}

impl NativeType for u16 {
    ghost use Rattle.columns_core.specs.Natives.{stores_u16, value_u16, ranged_u16};

    ghost value = { value_u16 };

    ghost stores = { stores_u16 };

    ghost ranged = { ranged_u16 };

    fn is_stored_as(data_type: &DataType) -> bool {
        match data_type.base() {
            DataType::UInt16 => true,
            _ => false,
        }
    }
}

impl NativeType for u32 {
    ghost use Rattle.columns_core.specs.Natives.{stores_u32, value_u32, ranged_u32};

    ghost value = { value_u32 };

    ghost stores = { stores_u32 };

    ghost ranged = { ranged_u32 };

    fn is_stored_as(data_type: &DataType) -> bool {
        match data_type.base() {
            DataType::UInt32 => true,
            _ => false,
        }
    }
}

impl NativeType for u64 {
    ghost use Rattle.columns_core.specs.Natives.{stores_u64, value_u64, ranged_u64};

    ghost value = { value_u64 };

    ghost stores = { stores_u64 };

    ghost ranged = { ranged_u64 };

    fn is_stored_as(data_type: &DataType) -> bool {
        match data_type.base() {
            DataType::UInt64 => true,
            _ => false,
        }
    }
}

impl NativeType for DaysMs {
    ghost use Rattle.columns_core.specs.Natives.{stores_days, value_days, ranged_days};

    ghost value = { value_days };

    ghost stores = { stores_days };

    ghost ranged = { ranged_days };

    fn is_stored_as(data_type: &DataType) -> bool {
        match data_type.base() {
            DataType::Interval(IntervalUnit::DayTime) => true,
            _ => false,
        }
    }
}
