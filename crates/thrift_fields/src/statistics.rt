//! Statistics of a column (Parquet format, parquet.thrift, `Statistics`).
ghost use Rattle.std.specs.Prelude.{IfOk, OnOk, option_map};
ghost use Rattle.pq_tree.specs.Views.{statistics_view};
ghost use Rattle.pq_files.specs.Written.{statistics_value};
ghost use Rattle.thrift_fields.specs.Appended.{AppendsField, AppendsSome, AppendsValue};

use crate::fields::push_struct_head;
use crate::some::{push_some_bytes, push_some_i64};
use pq_tree::Statistics;
use std::alloc::AllocError;

// Statistics as a struct.
fn push_statistics(out: &mut Vec<u8>, statistics: &Statistics) -> Result<(), AllocError>
    ensures { OnOk result
        (AppendsValue (statistics_value (statistics_view statistics.now)) out.old.items out.new.items) }
{
    let last = push_some_i64(out, 0, 3, statistics.null_count)?;
    let last = push_some_bytes(out, last, 5, &statistics.max_value)?;
    push_some_bytes(out, last, 6, &statistics.min_value)?;
    out.push(0)?;
    Ok(())
}

// The same with the id, behind a field with the id `last`.
fn push_bounds(
    out: &mut Vec<u8>,
    last: u8,
    id: u8,
    statistics: &Statistics,
) -> Result<(), AllocError>
    ensures { OnOk result (AppendsField last id
        (statistics_value (statistics_view statistics.now)) out.old.items out.new.items) }
{
    push_struct_head(out, last, id)?;
    push_statistics(out, statistics)?;
    Ok(())
}

/// Appends statistics with the id, if there are some, behind a field with the id `last`. Gives the id of the last field then.
pub fn push_some_statistics(
    out: &mut Vec<u8>,
    last: u8,
    id: u8,
    statistics: &Option<Statistics>,
) -> Result<u8, AllocError>
    ensures { IfOk result (λ next. AppendsSome last id (option_map statistics_value
        (option_map statistics_view statistics.now)) next out.old.items out.new.items) }
{
    let Some(statistics) = statistics else {
        return Ok(last);
    };
    push_bounds(out, last, id, statistics)?;
    Ok(id)
}
