//! Decimals, which a column stores as numbers or as byte strings of one length (Parquet format, LogicalTypes, "DECIMAL").
ghost use Rattle.std.specs.Prelude.{◌≡◌, ◌*◌, ◌≤◌, ◌++◌, ◌∷◌, [], length, drop, OnOk, IfErr};
ghost use Rattle.columns_base.specs.declared.error.Error.TheVariants.{Memory};
ghost use Rattle.columns_core.specs.Natives.{within_signed};
ghost use Rattle.page_statistics.specs.Spelled.{bound_text};
ghost use Rattle.pq_tree.specs.Physical.{fixed, int32, int64};
ghost use Rattle.shredding.specs.Slot.{number};
ghost use Rattle.std.specs.Int.{int_wrap, w32, w64};
ghost use Rattle.write_values.specs.Decimals.{IsForm, fits_in, form_physical, form_size, holds_decimal, stored_decimal};
ghost use Rattle.write_values.specs.Rows.{AppendsRow};

use crate::feeding::DeltaValues;
use crate::fixed::FixedValues;
use columns_core::{ParquetNativeType, Result};
use columns_leaf::PrimitiveArray;
use columns_native::{AsPrimitive, PlainNumber};
use pq_deltas::delta_bitpacked::Encoder;
use std::alloc::AllocError;

// How a column stores decimals.
#[derive(Clone, Copy, Drop)]
pub enum DecimalForm {
    // as numbers of 32 bits
    Int32,
    // as numbers of 64 bits
    Int64,
    // as so many bytes, from 1 to 16
    Fixed(usize),
}

// Whether the number is one of so many bits.
fn fits_in(number: i128, bits: usize) -> bool
    requires some { 1 ≤ bits }
    requires few { bits ≤ 128 }
    ensures { result ≡ fits_in bits number }
{
    let above = number >> (bits - 1);
    above == 0 || above == -1
}

impl DecimalForm {
    // The bytes of a decimal.
    pub fn size(self) -> usize
        ensures { result ≡ form_size self }
    {
        match self {
            DecimalForm::Int32 => 4,
            DecimalForm::Int64 => 8,
            DecimalForm::Fixed(size) => size,
        }
    }

    // Whether a column holds the number.
    pub fn holds(self, number: &i128) -> bool
        requires { IsForm self }
        ensures { result ≡ holds_decimal (form_physical self) (within_signed 128 number.now) }
    {
        match self {
            DecimalForm::Int32 => fits_in(*number, 32),
            DecimalForm::Int64 => fits_in(*number, 64),
            DecimalForm::Fixed(size) => fits_in(*number, 8 * size),
        }
    }
}

// The low 32 bits of a number.
fn low_32(number: &i128) -> i32
    ensures { result ≡ int_wrap w32 (within_signed 128 number.now) }
{
    (*number).as_()
}

// Appends a number of 32 bits, the lowest byte first.
fn push_32(out: &mut Vec<u8>, stored: &i32) -> Result<()>
    ensures ok { OnOk result (AppendsRow int32 out.old.items out.new.items (number stored.now ∷ [])) }
    ensures text { OnOk result (out.new.items ≡ out.old.items ++ bound_text int32 (number stored.now)) }
    ensures err { IfErr result (λ e. e ≡ Memory) }
{
    stored.know();
    stored.push_le_bytes(out)?;
    Ok(())
}

// The low 64 bits of a number.
fn low_64(number: &i128) -> i64
    ensures { result ≡ int_wrap w64 (within_signed 128 number.now) }
{
    (*number).as_()
}

// Appends a number of 64 bits, the lowest byte first.
fn push_64(out: &mut Vec<u8>, stored: &i64) -> Result<()>
    ensures ok { OnOk result (AppendsRow int64 out.old.items out.new.items (number stored.now ∷ [])) }
    ensures text { OnOk result (out.new.items ≡ out.old.items ++ bound_text int64 (number stored.now)) }
    ensures err { IfErr result (λ e. e ≡ Memory) }
{
    stored.know();
    stored.push_le_bytes(out)?;
    Ok(())
}

// The bytes from a place on.
fn skip(all: &[u8], start: usize) -> &[u8]
    requires { start ≤ length all.now }
    ensures { result.now ≡ drop start all.now }
{
    &all[start..]
}

// Appends the low bytes of a number, the highest of them first.
fn push_low_bytes(out: &mut Vec<u8>, number: &i128, size: usize) -> Result<()>
    requires { size ≤ 16 }
    ensures ok { OnOk result (AppendsRow (fixed size) out.old.items out.new.items
        (stored_decimal (fixed size) (within_signed 128 number.now) ∷ [])) }
    ensures text { OnOk result (out.new.items ≡ out.old.items ++ bound_text (fixed size)
        (stored_decimal (fixed size) (within_signed 128 number.now))) }
    ensures err { IfErr result (λ e. e ≡ Memory) }
{
    let all = number.to_be_bytes();
    out.extend_from_slice(skip(&all, 16 - size))?;
    Ok(())
}

// Appends what is stored for a decimal.
pub fn push_decimal(out: &mut Vec<u8>, number: &i128, form: DecimalForm) -> Result<()>
    requires { IsForm form }
    ensures ok { OnOk result (AppendsRow (form_physical form) out.old.items out.new.items
        (stored_decimal (form_physical form) (within_signed 128 number.now) ∷ [])) }
    ensures text { OnOk result (out.new.items ≡ out.old.items ++ bound_text (form_physical form)
        (stored_decimal (form_physical form) (within_signed 128 number.now))) }
    ensures err { IfErr result (λ e. e ≡ Memory) }
{
    match form {
        DecimalForm::Int32 => push_32(out, &low_32(number)),
        DecimalForm::Int64 => push_64(out, &low_64(number)),
        DecimalForm::Fixed(size) => push_low_bytes(out, number, size),
    }
}

// The decimals of an array.
#[derive(Clone, Copy, Drop)]
pub struct Decimals<'a> {
    pub array: &'a PrimitiveArray<i128>,
    pub form: DecimalForm,
    ghost is_form: { IsForm form },
}

impl<'a> Decimals<'a> {
    // The decimals of this array, stored so.
    pub fn new(array: &'a PrimitiveArray<i128>, form: DecimalForm) -> Self
        requires { IsForm form }
        ensures array { result.array.now ≡ array.now }
        ensures form { result.form ≡ form }
    {
        Decimals { array, form }
    }
}

impl<'a> FixedValues for Decimals<'a> {
    ghost use Rattle.std.specs.Prelude.{map};
    ghost use Rattle.columns_core.specs.Natives.{value_i128};
    ghost use Rattle.columns_core.specs.Shapes.{base};
    ghost use Rattle.columns_slots.specs.Tree.{leaf_array};
    ghost use Rattle.columns_slots.specs.Slots.{tree_len};
    ghost use Rattle.write_values.specs.Decimals.{form_in_a_row, form_physical, form_size, form_sizes};
    ghost use Rattle.write_values.specs.Stored.{stored_at};

    ghost places = { λ s. tree_len (leaf_array s.array.now.0
        (map (value_i128 (base s.array.now.0)) s.array.now.1.0) s.array.now.1.1) };

    ghost physical = { λ s. form_physical s.form };

    ghost size = { λ s. form_size s.form };

    ghost at = { λ s. stored_at (leaf_array s.array.now.0
        (map (value_i128 (base s.array.now.0)) s.array.now.1.0) s.array.now.1.1) (form_physical s.form) };

    ghost sizes = { λ s v. form_sizes s.form v };

    ghost in_rows = { λ s. form_in_a_row s.form };

    fn len(&self) -> usize {
        self.array.len()
    }

    fn width(&self) -> usize {
        self.form.size()
    }

    fn push_one(&self, out: &mut Vec<u8>, i: usize) -> Result<()> {
        self.array.know();
        push_decimal(out, &self.array.values()[i], self.form)?;
        Ok(())
    }
}

// The decimals of an array, stored as numbers of 32 bits.
#[derive(Clone, Copy, Drop)]
pub struct Decimals32<'a> {
    pub array: &'a PrimitiveArray<i128>,
}

impl<'a> DeltaValues for Decimals32<'a> {
    ghost use Rattle.std.specs.Prelude.{map};
    ghost use Rattle.std.specs.Int.{w32};
    ghost use Rattle.std.proofs.Common.{lit≤};
    ghost use Rattle.columns_core.specs.Natives.{value_i128};
    ghost use Rattle.columns_core.specs.Shapes.{base};
    ghost use Rattle.columns_slots.specs.Tree.{leaf_array};
    ghost use Rattle.columns_slots.specs.Slots.{tree_len};
    ghost use Rattle.pq_tree.specs.Physical.{int32};
    ghost use Rattle.write_values.specs.Stored.{stored_at};

    ghost width = { w32 };

    ghost physical = { int32 };

    ghost places = { λ s. tree_len (leaf_array s.array.now.0
        (map (value_i128 (base s.array.now.0)) s.array.now.1.0) s.array.now.1.1) };

    ghost at = { λ s. stored_at (leaf_array s.array.now.0
        (map (value_i128 (base s.array.now.0)) s.array.now.1.0) s.array.now.1.1) int32 };

    ghost narrow = { lit≤ tt };

    fn len(&self) -> usize {
        self.array.len()
    }

    fn push_one(
        &self,
        encoder: &mut Encoder,
        out: &mut Vec<u8>,
        i: usize,
    ) -> std::result::Result<(), AllocError> {
        self.array.know();
        encoder.push_i32(out, low_32(&self.array.values()[i]))
    }
}

// The decimals of an array, stored as numbers of 64 bits.
#[derive(Clone, Copy, Drop)]
pub struct Decimals64<'a> {
    pub array: &'a PrimitiveArray<i128>,
}

impl<'a> DeltaValues for Decimals64<'a> {
    ghost use Rattle.std.specs.Prelude.{map};
    ghost use Rattle.std.specs.Int.{w64};
    ghost use Rattle.std.proofs.Common.{lit≤};
    ghost use Rattle.columns_core.specs.Natives.{value_i128};
    ghost use Rattle.columns_core.specs.Shapes.{base};
    ghost use Rattle.columns_slots.specs.Tree.{leaf_array};
    ghost use Rattle.columns_slots.specs.Slots.{tree_len};
    ghost use Rattle.pq_tree.specs.Physical.{int64};
    ghost use Rattle.write_values.specs.Stored.{stored_at};

    ghost width = { w64 };

    ghost physical = { int64 };

    ghost places = { λ s. tree_len (leaf_array s.array.now.0
        (map (value_i128 (base s.array.now.0)) s.array.now.1.0) s.array.now.1.1) };

    ghost at = { λ s. stored_at (leaf_array s.array.now.0
        (map (value_i128 (base s.array.now.0)) s.array.now.1.0) s.array.now.1.1) int64 };

    ghost narrow = { lit≤ tt };

    fn len(&self) -> usize {
        self.array.len()
    }

    fn push_one(
        &self,
        encoder: &mut Encoder,
        out: &mut Vec<u8>,
        i: usize,
    ) -> std::result::Result<(), AllocError> {
        self.array.know();
        encoder.push(out, low_64(&self.array.values()[i]))
    }
}
