//! Arrays of nulls, of truth values and of numbers.
ghost use Rattle.std.specs.Prelude.{◌≡◌, ◌↔◌, ◌+◌, ◌≤◌, ◌<◌, ◌⊎◌, IsTrue, true, false, IfOk, IfErr, IsErrOf, IsNone, option_map, take, drop, All, map, length as list_length};
ghost use Rattle.shredding.specs.Shape.{IsInRange};
ghost use Rattle.columns_core.specs.View.{type_view};
ghost use Rattle.columns_core.specs.Shapes.{base, leaf_type};
ghost use Rattle.columns_slots.specs.Slots.{cut_mask, nulls_in};
ghost use Rattle.shredding.specs.Parts.{MaskFits};
ghost use Rattle.columns_slots.specs.Types.{is_null_type, is_boolean};

use crate::validity::{copy_validity, count_unset, cut_validity, mask_fits};
use columns_core::bitmap::Bitmap;
use columns_core::native::NativeType;
use columns_core::types::DataType;
use columns_core::{A, Error, Result};
use std::alloc::Global;
use std::marker::Model;
use std::rc::Rc;

/// Nulls alone (Arrow columnar format, "Null Layout").
#[derive(Debug, Drop)]
pub struct NullArray {
    data_type: DataType,
    size: usize,
}

impl Model for NullArray {
    ghost use Rattle.std.specs.Prelude.{◌≡◌, ℕ, true};
    ghost use Rattle.std.specs.Coded.{coded×, coded_ℕ};
    ghost use Rattle.columns_core.specs.Tree.{TypeTree};
    ghost use Rattle.columns_core.specs.TypeCode.{type_code};
    ghost use Rattle.columns_core.specs.View.{type_view};
    ghost use Rattle.columns_core.specs.Shapes.{base};
    ghost use Rattle.columns_slots.specs.Types.{is_null_type};

    ghost Value = { TypeTree × ℕ };

    ghost coded = { coded× type_code coded_ℕ };

    ghost view = { λ a. (type_view a.data_type, a.size) };

    ghost invariant = { λ a. is_null_type (base (type_view a.data_type)) ≡ true };
}

impl NullArray {
    /// So many nulls, which take no memory.
    ///
    /// # Errors
    ///
    /// A8 exactly where the type is not that of nulls; no other.
    pub fn try_new(_alloc: Global, data_type: DataType, length: usize) -> Result<NullArray>
        ensures ok { IfOk result (λ a. a ≡ (type_view data_type, length)) }
        ensures err { IfErr result (λ e. e ≡ Error.InvalidArgumentError A.A8) }
        ensures refused { IsErrOf result (Error.InvalidArgumentError A.A8)
            ↔ ¬ (is_null_type (base (type_view data_type)) ≡ true) }
    {
        if !is_null(&data_type) {
            return Err(Error::InvalidArgumentError(A::A8));
        }
        Ok(NullArray {
            data_type,
            size: length,
        })
    }

    /// Callers learn what holds of every such array.
    pub fn know(&self)
        ensures { is_null_type (base self.now.0) ≡ true }
    {
        let _ = &self.size;
    }

    /// How many positions there are.
    pub fn len(&self) -> usize
        ensures { result ≡ self.now.1 }
    {
        self.size
    }

    /// The type of the array.
    pub fn data_type(&self) -> &DataType
        ensures { type_view result.now ≡ self.now.0 }
    {
        &self.data_type
    }

    /// Keeps `length` positions from the position `offset` on. Nothing is copied.
    pub fn slice(&mut self, offset: usize, length: usize)
        requires { offset + length ≤ self.old.1 }
        ensures { self.new ≡ (self.old.0, length) }
    {
        self.size = length;
    }

    /// There is no mask, though each position is null.
    pub fn validity(&self) -> Option<&Bitmap>
        ensures { IsNone result }
    {
        None
    }

    /// How many positions are null: all.
    pub fn null_count(&self) -> usize
        ensures { result ≡ self.now.1 }
    {
        self.size
    }

    /// An equal array.
    ///
    /// # Errors
    ///
    /// `Memory`.
    pub fn clone(&self, alloc: Global) -> Result<NullArray>
        ensures ok { IfOk result (λ a. a ≡ self.now) }
        ensures err { IfErr result (λ e. e ≡ Error.Memory) }
    {
        Ok(NullArray {
            data_type: self.data_type.clone(alloc)?,
            size: self.size,
        })
    }
}

fn is_null(data_type: &DataType) -> bool
    ensures { result ≡ is_null_type (base (type_view data_type.now)) }
{
    match data_type.base() {
        DataType::Null => true,
        _ => false,
    }
}

fn is_bool(data_type: &DataType) -> bool
    ensures { result ≡ is_boolean (base (type_view data_type.now)) }
{
    match data_type.base() {
        DataType::Boolean => true,
        _ => false,
    }
}

/// Truth values (Arrow columnar format, "Fixed-Size Primitive Layout").
#[derive(Debug, Drop)]
pub struct BooleanArray {
    data_type: DataType,
    values: Bitmap,
    validity: Option<Bitmap>,
}

impl Model for BooleanArray {
    ghost use Rattle.std.specs.Prelude.{◌≡◌, List, Bool, true, length as list_length};
    ghost use Rattle.std.specs.Coded.{coded×, coded_list, coded_bool};
    ghost use Rattle.columns_core.specs.Tree.{TypeTree};
    ghost use Rattle.columns_core.specs.TypeCode.{type_code};
    ghost use Rattle.columns_core.specs.View.{type_view};
    ghost use Rattle.columns_core.specs.Shapes.{base};
    ghost use Rattle.columns_slots.specs.Tree.{Mask, mask_code};
    ghost use Rattle.shredding.specs.Parts.{MaskFits};
    ghost use Rattle.columns_slots.specs.Types.{is_boolean};

    ghost Value = { TypeTree × (List Bool × Mask) };

    ghost coded = { coded× type_code (coded× (coded_list coded_bool) mask_code) };

    ghost view = { λ a. (type_view a.data_type, (a.values, a.validity)) };

    ghost invariant = { λ a. MaskFits a.validity (list_length a.values)
        × (is_boolean (base (type_view a.data_type)) ≡ true) };
}

impl BooleanArray {
    /// Truth values, null where the mask is false.
    ///
    /// # Errors
    ///
    /// A8 exactly where the type is not that of truth values, or a mask has another length; no other.
    pub fn try_new(
        _alloc: Global,
        data_type: DataType,
        values: Bitmap,
        validity: Option<Bitmap>,
    ) -> Result<BooleanArray>
        ensures err { IfErr result (λ e. e ≡ Error.InvalidArgumentError A.A8) }
        ensures ok { IfOk result (λ a. a ≡ (type_view data_type, (values, validity))) }
        ensures refused { IsErrOf result (Error.InvalidArgumentError A.A8)
            ↔ ¬ (MaskFits validity (list_length values) × (is_boolean (base (type_view data_type)) ≡ true)) }
    {
        if !is_bool(&data_type) || !mask_fits(&validity, values.len()) {
            return Err(Error::InvalidArgumentError(A::A8));
        }
        Ok(BooleanArray {
            data_type,
            values,
            validity,
        })
    }

    /// Callers learn what holds of every such array.
    pub fn know(&self)
        ensures mask { MaskFits self.now.1.1 (list_length self.now.1.0) }
        ensures typed { is_boolean (base self.now.0) ≡ true }
    {
        let _ = &self.values;
    }

    /// How many positions there are.
    pub fn len(&self) -> usize
        ensures { result ≡ list_length self.now.1.0 }
    {
        self.values.len()
    }

    /// The type of the array.
    pub fn data_type(&self) -> &DataType
        ensures { type_view result.now ≡ self.now.0 }
    {
        &self.data_type
    }

    /// The truth values, those of null positions too.
    pub fn values(&self) -> &Bitmap
        ensures { result.now ≡ self.now.1.0 }
    {
        &self.values
    }

    /// Which positions are not null; with no mask, all.
    pub fn validity(&self) -> Option<&Bitmap>
        ensures { option_map (λ m. m.now) result ≡ self.now.1.1 }
    {
        self.validity.as_ref()
    }

    /// Keeps `length` positions from the position `offset` on. Nothing is copied.
    #[tactic(auto, using(columns_slots::proofs::Sound::mask_over, columns_slots::proofs::Sound::mask_cut, columns_slots::proofs::Sound::length_cut))]
    pub fn slice(&mut self, offset: usize, length: usize)
        requires { offset + length ≤ list_length self.old.1.0 }
        ensures { self.new
            ≡ (self.old.0, (take length (drop offset self.old.1.0), cut_mask self.old.1.1 offset length)) }
    {
        self.values.slice(offset, length);
        cut_validity(&mut self.validity, offset, length);
    }

    /// How many positions are null.
    pub fn null_count(&self) -> usize
        ensures { result ≡ nulls_in self.now.1.1 }
    {
        count_unset(&self.validity)
    }

    /// An equal array, which shares its values.
    ///
    /// # Errors
    ///
    /// `Memory`.
    pub fn clone(&self, alloc: Global) -> Result<BooleanArray>
        ensures ok { IfOk result (λ a. a ≡ self.now) }
        ensures err { IfErr result (λ e. e ≡ Error.Memory) }
    {
        Ok(BooleanArray {
            data_type: self.data_type.clone(alloc)?,
            values: self.values.clone()?,
            validity: copy_validity(&self.validity)?,
        })
    }
}

/// Numbers of one type (Arrow columnar format, "Fixed-Size Primitive Layout").
#[derive(Debug, Drop)]
pub struct PrimitiveArray<T: NativeType> {
    data_type: DataType,
    values: Rc<Vec<T>>,
    start: usize,
    size: usize,
    validity: Option<Bitmap>,
}

impl<T: NativeType> Model for PrimitiveArray<T> {
    ghost use Rattle.std.specs.Prelude.{◌≡◌, List, true, ◌+◌, ◌≤◌, take, drop, length as list_length};
    ghost use Rattle.std.specs.Coded.{coded×, coded_list};
    ghost use Rattle.columns_core.specs.Tree.{TypeTree};
    ghost use Rattle.columns_core.specs.TypeCode.{type_code};
    ghost use Rattle.columns_core.specs.View.{type_view};
    ghost use Rattle.columns_core.specs.Shapes.{base};
    ghost use Rattle.columns_slots.specs.Tree.{Mask, mask_code};
    ghost use Rattle.shredding.specs.Parts.{MaskFits};

    ghost Value = { TypeTree × (List T × Mask) };

    ghost coded = { coded× type_code (coded× (coded_list T.code) mask_code) };

    ghost view = { λ a. (type_view a.data_type, (take a.size (drop a.start a.values.value.items), a.validity)) };

    ghost invariant = { λ a. (a.start + a.size ≤ list_length a.values.value.items) × MaskFits a.validity a.size
        × (T.stores (base (type_view a.data_type)) ≡ true) };
}

impl<T: NativeType> PrimitiveArray<T> {
    /// Numbers, null where the mask is false.
    ///
    /// # Errors
    ///
    /// A8 exactly where the type does not store such numbers, or a mask has another length; `Memory`.
    pub fn try_new(
        alloc: Global,
        data_type: DataType,
        values: Vec<T>,
        validity: Option<Bitmap>,
    ) -> Result<PrimitiveArray<T>>
        ensures err { IfErr result (λ e. (e ≡ Error.Memory) ⊎ (e ≡ Error.InvalidArgumentError A.A8)) }
        ensures ok { IfOk result (λ a. a ≡ (type_view data_type, (values.items, validity))) }
        ensures refused { IsErrOf result (Error.InvalidArgumentError A.A8)
            ↔ ¬ (MaskFits validity (list_length values.items) × (T.stores (base (type_view data_type)) ≡ true)) }
    {
        let size = values.len();
        if !T::is_stored_as(&data_type) || !mask_fits(&validity, size) {
            return Err(Error::InvalidArgumentError(A::A8));
        }
        Ok(PrimitiveArray {
            data_type,
            values: Rc::new(alloc, values)?,
            start: 0,
            size,
            validity,
        })
    }

    /// Callers learn what holds of every such array.
    #[tactic(auto, using(columns_slots::proofs::Sound::length_cut))]
    pub fn know(&self)
        ensures mask { MaskFits self.now.1.1 (list_length self.now.1.0) }
        ensures typed { T.stores (base self.now.0) ≡ true }
        ensures ranged { All (IsInRange (leaf_type (base self.now.0))) (map (T.value (base self.now.0)) self.now.1.0) }
    {
        let _ = &self.size;
    }

    /// How many positions there are.
    #[tactic(auto, using(columns_slots::proofs::Sound::length_cut))]
    pub fn len(&self) -> usize
        ensures { result ≡ list_length self.now.1.0 }
    {
        self.size
    }

    /// The type of the array.
    pub fn data_type(&self) -> &DataType
        ensures { type_view result.now ≡ self.now.0 }
    {
        &self.data_type
    }

    /// The numbers, those of null positions too.
    pub fn values(&self) -> &[T]
        ensures { result.now ≡ self.now.1.0 }
    {
        &self.values[self.start..self.start + self.size]
    }

    /// Which positions are not null; with no mask, all.
    pub fn validity(&self) -> Option<&Bitmap>
        ensures { option_map (λ m. m.now) result ≡ self.now.1.1 }
    {
        self.validity.as_ref()
    }

    /// Keeps `length` positions from the position `offset` on. Nothing is copied.
    pub fn slice(&mut self, offset: usize, length: usize)
        requires { offset + length ≤ list_length self.old.1.0 }
        ensures { self.new
            ≡ (self.old.0, (take length (drop offset self.old.1.0), cut_mask self.old.1.1 offset length)) }
    {
        self.start += offset;
        self.size = length;
        cut_validity(&mut self.validity, offset, length);
    }

    /// How many positions are null.
    pub fn null_count(&self) -> usize
        ensures { result ≡ nulls_in self.now.1.1 }
    {
        count_unset(&self.validity)
    }

    /// An equal array, which shares its values.
    ///
    /// # Errors
    ///
    /// `Memory`.
    pub fn clone(&self, alloc: Global) -> Result<PrimitiveArray<T>>
        ensures ok { IfOk result (λ a. a ≡ self.now) }
        ensures err { IfErr result (λ e. e ≡ Error.Memory) }
    {
        Ok(PrimitiveArray {
            data_type: self.data_type.clone(alloc)?,
            values: self.values.clone()?,
            start: self.start,
            size: self.size,
            validity: copy_validity(&self.validity)?,
        })
    }
}
