//! Intervals, which a column stores as 12 bytes (Parquet format, LogicalTypes, "INTERVAL").
ghost use Rattle.std.specs.Prelude.{◌≡◌, ◌∷◌, [], pos, true, OnOk, IfErr};
ghost use Rattle.columns_base.specs.declared.error.Error.TheVariants.{Memory};
ghost use Rattle.columns_core.specs.Natives.{interval_bytes};
ghost use Rattle.columns_core.specs.Shapes.{base};
ghost use Rattle.pq_tree.specs.Physical.{fixed};
ghost use Rattle.shredding.specs.Slot.{bytes};
ghost use Rattle.write_values.specs.Rows.{AppendsRow};
ghost use Rattle.write_values.specs.Served.{are_months};

use crate::fixed::FixedValues;
use columns_core::{DaysMs, Result};
use columns_leaf::PrimitiveArray;

// The bytes of months, days and milliseconds, each with the lowest first.
fn interval_text(months: i32, days: i32, milliseconds: i32) -> [u8; 12]
    ensures { result ≡ interval_bytes months days milliseconds }
{
    let [a, b, c, d] = months.to_le_bytes();
    let [e, f, g, h] = days.to_le_bytes();
    let [i, j, k, l] = milliseconds.to_le_bytes();
    [a, b, c, d, e, f, g, h, i, j, k, l]
}

// Appends an interval of months.
fn push_months(out: &mut Vec<u8>, months: &i32) -> Result<()>
    ensures ok { OnOk result (AppendsRow (fixed 12) out.old.items out.new.items
        (bytes (interval_bytes months.now (pos 0) (pos 0)) ∷ [])) }
    ensures err { IfErr result (λ e. e ≡ Memory) }
{
    out.extend_from_slice(&interval_text(*months, 0, 0))?;
    Ok(())
}

// Appends an interval of days and milliseconds.
fn push_days(out: &mut Vec<u8>, interval: &DaysMs) -> Result<()>
    ensures ok { OnOk result (AppendsRow (fixed 12) out.old.items out.new.items
        (bytes (interval_bytes (pos 0) interval.now.days interval.now.milliseconds) ∷ [])) }
    ensures err { IfErr result (λ e. e ≡ Memory) }
{
    out.extend_from_slice(&interval_text(0, interval.days, interval.milliseconds))?;
    Ok(())
}

// The intervals of an array of months.
#[derive(Drop)]
pub struct Months<'a> {
    array: &'a PrimitiveArray<i32>,
    ghost are: { are_months (base array.now.0) ≡ true },
}

impl<'a> Months<'a> {
    // The intervals of this array.
    pub fn new(array: &'a PrimitiveArray<i32>) -> Self
        requires { are_months (base array.now.0) ≡ true }
        ensures { result.array.now ≡ array.now }
    {
        Months { array }
    }
}

impl<'a> FixedValues for Months<'a> {
    ghost use Rattle.std.specs.Prelude.{map, refl};
    ghost use Rattle.columns_core.specs.Natives.{value_i32};
    ghost use Rattle.columns_core.specs.Shapes.{base};
    ghost use Rattle.columns_slots.specs.Tree.{leaf_array};
    ghost use Rattle.columns_slots.specs.Slots.{tree_len};
    ghost use Rattle.pq_tree.specs.Physical.{fixed};
    ghost use Rattle.write_values.specs.Numbers.{fixed_in_a_row};
    ghost use Rattle.write_values.specs.Stored.{stored_at};

    ghost places = { λ s. tree_len (leaf_array s.array.now.0
        (map (value_i32 (base s.array.now.0)) s.array.now.1.0) s.array.now.1.1) };

    ghost physical = { λ s. fixed 12 };

    ghost size = { λ s. 12 };

    ghost at = { λ s. stored_at (leaf_array s.array.now.0
        (map (value_i32 (base s.array.now.0)) s.array.now.1.0) s.array.now.1.1) (fixed 12) };

    ghost sizes = { λ s v. refl };

    ghost in_rows = { λ s. fixed_in_a_row 12 };

    fn len(&self) -> usize {
        self.array.len()
    }

    fn width(&self) -> usize {
        12
    }

    fn push_one(&self, out: &mut Vec<u8>, i: usize) -> Result<()> {
        push_months(out, &self.array.values()[i])?;
        Ok(())
    }
}

// The intervals of an array of days and milliseconds.
#[derive(Drop)]
pub struct Days<'a> {
    pub array: &'a PrimitiveArray<DaysMs>,
}

impl<'a> FixedValues for Days<'a> {
    ghost use Rattle.std.specs.Prelude.{map, refl};
    ghost use Rattle.columns_core.specs.Natives.{value_days};
    ghost use Rattle.columns_core.specs.Shapes.{base};
    ghost use Rattle.columns_slots.specs.Tree.{leaf_array};
    ghost use Rattle.columns_slots.specs.Slots.{tree_len};
    ghost use Rattle.pq_tree.specs.Physical.{fixed};
    ghost use Rattle.write_values.specs.Numbers.{fixed_in_a_row};
    ghost use Rattle.write_values.specs.Stored.{stored_at};

    ghost places = { λ s. tree_len (leaf_array s.array.now.0
        (map (value_days (base s.array.now.0)) s.array.now.1.0) s.array.now.1.1) };

    ghost physical = { λ s. fixed 12 };

    ghost size = { λ s. 12 };

    ghost at = { λ s. stored_at (leaf_array s.array.now.0
        (map (value_days (base s.array.now.0)) s.array.now.1.0) s.array.now.1.1) (fixed 12) };

    ghost sizes = { λ s v. refl };

    ghost in_rows = { λ s. fixed_in_a_row 12 };

    fn len(&self) -> usize {
        self.array.len()
    }

    fn width(&self) -> usize {
        12
    }

    fn push_one(&self, out: &mut Vec<u8>, i: usize) -> Result<()> {
        push_days(out, &self.array.values()[i])?;
        Ok(())
    }
}
