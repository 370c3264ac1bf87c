//! Arrays of byte strings of one width.
ghost use Rattle.std.specs.Prelude.{◌≡◌, ◌↔◌, ◌⊎◌, ℕ, ◌+◌, ◌*◌, ◌≤◌, ◌<◌, IfOk, IfErr, IsErrOf, Some, option_map, take, drop, length as list_length};
ghost use Rattle.columns_core.specs.View.{type_view};
ghost use Rattle.columns_core.specs.Shapes.{base};
ghost use Rattle.columns_slots.specs.Slots.{cut_mask, nulls_in};
ghost use Rattle.shredding.specs.Parts.{MaskFits};
ghost use Rattle.columns_slots.specs.Types.{byte_width};
ghost use Rattle.columns_leaf.specs.Fixed.{fixed_width, fixed_count, AreWhole};

use crate::validity::{copy_validity, count_unset, cut_validity, mask_fits};
use columns_core::bitmap::Bitmap;
use columns_core::types::DataType;
use columns_core::{A, Error, Result};
use std::alloc::Global;
use std::marker::Model;
use std::rc::Rc;

/// Byte strings of the type's width, one behind the other (Arrow columnar format, "Fixed-Size Primitive Layout").
#[derive(Debug, Drop)]
pub struct FixedSizeBinaryArray {
    data_type: DataType,
    values: Rc<Vec<u8>>,
    width: usize,
    start: usize,
    size: usize,
    validity: Option<Bitmap>,
}

impl Model for FixedSizeBinaryArray {
    ghost use Rattle.std.specs.Prelude.{◌≡◌, ℕ, List, ◌+◌, ◌*◌, ◌≤◌, ◌<◌, take, drop, length as list_length};
    ghost use Rattle.std.specs.Coded.{coded×, coded_list, coded_ℕ};
    ghost use Rattle.columns_core.specs.Tree.{TypeTree};
    ghost use Rattle.columns_core.specs.TypeCode.{type_code};
    ghost use Rattle.columns_core.specs.View.{type_view};
    ghost use Rattle.columns_core.specs.Shapes.{base};
    ghost use Rattle.columns_slots.specs.Tree.{Mask, mask_code};
    ghost use Rattle.shredding.specs.Parts.{MaskFits};
    ghost use Rattle.columns_leaf.specs.Fixed.{fixed_width};

    ghost Value = { TypeTree × (List ℕ × Mask) };

    ghost coded = { coded× type_code (coded× (coded_list coded_ℕ) mask_code) };

    ghost view = { λ a. (
      type_view a.data_type,
      (take (a.size * a.width) (drop a.start a.values.value.items), a.validity),
    ) };

    ghost invariant = { λ a. (a.start + a.size * a.width ≤ list_length a.values.value.items)
        × MaskFits a.validity a.size × (fixed_width (base (type_view a.data_type)) ≡ a.width) × (0 < a.width) };
}

impl FixedSizeBinaryArray {
    /// The byte strings of the type's width, null where the mask is false.
    ///
    /// # Errors
    ///
    /// A8 exactly where the type is not that of byte strings of one width, the width is 0, the bytes are no whole strings, or a mask has
    /// another length; `Memory`.
    pub fn try_new(
        alloc: Global,
        data_type: DataType,
        values: Vec<u8>,
        validity: Option<Bitmap>,
    ) -> Result<FixedSizeBinaryArray>
        ensures ok { IfOk result (λ a. a ≡ (type_view data_type, (values.items, validity))) }
        ensures refused { IsErrOf result (Error.InvalidArgumentError A.A8)
            ↔ ¬ (AreWhole (base (type_view data_type)) values.items
            × MaskFits validity (fixed_count (base (type_view data_type)) values.items)) }
        ensures err { IfErr result (λ e. (e ≡ Error.Memory) ⊎ (e ≡ Error.InvalidArgumentError A.A8)) }
    {
        let width = width_of(&data_type);
        if width == 0 {
            return Err(Error::InvalidArgumentError(A::A8));
        }
        if values.len() % width != 0 {
            return Err(Error::InvalidArgumentError(A::A8));
        }
        let size = values.len() / width;
        if !mask_fits(&validity, size) {
            return Err(Error::InvalidArgumentError(A::A8));
        }
        Ok(FixedSizeBinaryArray {
            data_type,
            values: Rc::new(alloc, values)?,
            width,
            start: 0,
            size,
            validity,
        })
    }

    /// Callers learn what holds of every such array.
    pub fn know(&self)
        ensures whole { AreWhole (base self.now.0) self.now.1.0 }
        ensures mask { MaskFits self.now.1.1 (fixed_count (base self.now.0) self.now.1.0) }
        ensures width { byte_width (base self.now.0) ≡ Some (fixed_width (base self.now.0)) }
    {
        let _ = &self.size;
    }

    /// How many positions there are.
    pub fn len(&self) -> usize
        ensures { result ≡ fixed_count (base self.now.0) self.now.1.0 }
    {
        self.size
    }

    /// The type of the array.
    pub fn data_type(&self) -> &DataType
        ensures { type_view result.now ≡ self.now.0 }
    {
        &self.data_type
    }

    /// The bytes of all strings, those of null positions too.
    pub fn values(&self) -> &[u8]
        ensures { result.now ≡ self.now.1.0 }
    {
        &self.values[self.start..self.start + self.size * self.width]
    }

    /// Which positions are not null; with no mask, all.
    pub fn validity(&self) -> Option<&Bitmap>
        ensures { option_map (λ m. m.now) result ≡ self.now.1.1 }
    {
        self.validity.as_ref()
    }

    /// How many positions are null.
    pub fn null_count(&self) -> usize
        ensures { result ≡ nulls_in self.now.1.1 }
    {
        count_unset(&self.validity)
    }

    /// Keeps `length` positions from the position `offset` on. Nothing is copied.
    pub fn slice(&mut self, offset: usize, length: usize)
        requires { offset + length ≤ fixed_count (base self.old.0) self.old.1.0 }
        ensures { let width = fixed_width (base self.old.0) in self.new
            ≡ (
              self.old.0,
              (
                take (length * width)
                    (drop (offset * width) self.old.1.0),
                cut_mask self.old.1.1 offset length,
              ),
            ) }
    {
        self.start += offset * self.width;
        self.size = length;
        cut_validity(&mut self.validity, offset, length);
    }

    /// An equal array, which shares its values.
    ///
    /// # Errors
    ///
    /// `Memory`.
    pub fn clone(&self, alloc: Global) -> Result<FixedSizeBinaryArray>
        ensures ok { IfOk result (λ a. a ≡ self.now) }
        ensures err { IfErr result (λ e. e ≡ Error.Memory) }
    {
        Ok(FixedSizeBinaryArray {
            data_type: self.data_type.clone(alloc)?,
            values: self.values.clone()?,
            width: self.width,
            start: self.start,
            size: self.size,
            validity: copy_validity(&self.validity)?,
        })
    }
}

// The width of a type's strings, and 0 where it has none.
fn width_of(data_type: &DataType) -> usize
    ensures { result ≡ fixed_width (base (type_view data_type.now)) }
{
    match data_type.base() {
        DataType::FixedSizeBinary(width) => *width,
        _ => 0,
    }
}
