//! The column of ids.
ghost use Rattle.std.specs.Prelude.{◌≡◌, IfOk, IfErr, pos, None};
ghost use Rattle.columns_core.specs.Tree.{t_int64};
ghost use Rattle.sample_rows.specs.Rows.{each_row};

use columns_base::{Error, Result};
use columns_core::DataType;
use columns_leaf::PrimitiveArray;
use std::alloc::Global;

/// The numbers of so many rows.
#[tactic(auto, using(crate::proofs::Tables::row_more))]
fn numbers(alloc: Global, count: u32) -> Result<Vec<i64>>
    ensures ok { IfOk result (λ v. v.items ≡ each_row pos count) }
    ensures err { IfErr result (λ e. e ≡ Error.Memory) }
{
    let mut numbers = Vec::with_capacity(alloc, count as usize)?;
    for i in 0..count {
        numbers.push(i64::from(i))?;
    }
    Ok(numbers)
}

/// The ids of so many rows.
pub fn ids(alloc: Global, count: u32) -> Result<PrimitiveArray<i64>>
    ensures ok { IfOk result (λ a. a ≡ (t_int64, (each_row pos count, None))) }
    ensures err { IfErr result (λ e. e ≡ Error.Memory) }
{
    let numbers = numbers(alloc, count)?;
    PrimitiveArray::try_new(alloc, DataType::Int64, numbers, None)
}
