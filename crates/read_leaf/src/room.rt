//! Room for what a page still has.
ghost use Rattle.std.specs.Prelude.{◌≡◌, IfErr};
ghost use Rattle.columns_base.specs.declared.error.Error.{Error};

use columns_base::Result;

// Makes room for what is to come: for seven times as many items as there are, or 1,024, but for no more than those that are `left`. Does nothing
// where these are few, since room for `count` items is then made at twice what there is.
#[cold]
#[inline(never)]
fn make_room<T>(values: &mut Vec<T>, count: usize, left: usize) -> Result<()>
    ensures same { values.new.items ≡ values.old.items }
    ensures err { IfErr result (λ e. e ≡ Error.Memory) }
{
    let len = values.len();
    let more = len.saturating_mul(7).max(1024).max(count).min(left);
    if more < count.max(len / 4) {
        return Ok(());
    }
    values.reserve_exact(more)?;
    Ok(())
}

/// Makes room for items to come, at most as many as are `left`, where there is none for `count`.
///
/// # Errors
///
/// `Memory`.
pub fn want_room<T>(values: &mut Vec<T>, count: usize, left: usize) -> Result<()>
    ensures same { values.new.items ≡ values.old.items }
    ensures err { IfErr result (λ e. e ≡ Error.Memory) }
{
    if count <= values.capacity().saturating_sub(values.len()) {
        return Ok(());
    }
    make_room(values, count, left)
}
