//! Arrays of byte strings.
ghost use Rattle.std.specs.Prelude.{◌≡◌, ◌↔◌, ◌+◌, ◌-◌, ◌≤◌, ◌<◌, ◌⊎◌, IsTrue, true, false, IfOk, IfErr, IsErrOf, option_map, take, drop, length as list_length};
ghost use Rattle.columns_core.specs.View.{type_view};
ghost use Rattle.columns_core.specs.Shapes.{base};
ghost use Rattle.columns_slots.specs.Slots.{IsPlaces, cut_mask, nulls_in};
ghost use Rattle.shredding.specs.Parts.{MaskFits};
ghost use Rattle.columns_slots.specs.Types.{is_binary};

use crate::validity::{copy_validity, count_unset, cut_validity, mask_fits};
use columns_core::bitmap::Bitmap;
use columns_core::offsets::{Offset, OffsetsBuffer};
use columns_core::types::DataType;
use columns_core::{A, Error, Result, V};
use std::alloc::Global;
use std::marker::Model;
use std::rc::Rc;

/// Byte strings, one behind the other (Arrow columnar format, "Variable-size Binary Layout").
#[derive(Debug, Drop)]
pub struct BinaryArray<O: Offset> {
    data_type: DataType,
    offsets: OffsetsBuffer<O>,
    values: Rc<Vec<u8>>,
    validity: Option<Bitmap>,
}

impl<O: Offset> Model for BinaryArray<O> {
    ghost use Rattle.std.specs.Prelude.{◌≡◌, ℕ, List, true, ◌-◌, length as list_length};
    ghost use Rattle.std.specs.Coded.{coded×, coded_list, coded_ℕ};
    ghost use Rattle.columns_core.specs.Tree.{TypeTree};
    ghost use Rattle.columns_core.specs.TypeCode.{type_code};
    ghost use Rattle.columns_core.specs.View.{type_view};
    ghost use Rattle.columns_core.specs.Shapes.{base};
    ghost use Rattle.columns_slots.specs.Tree.{Mask, mask_code};
    ghost use Rattle.columns_slots.specs.Slots.{IsPlaces};
    ghost use Rattle.shredding.specs.Parts.{MaskFits};
    ghost use Rattle.columns_slots.specs.Types.{is_binary};

    ghost Value = { TypeTree × (List ℕ × (List ℕ × Mask)) };

    ghost coded = { coded× type_code (coded× (coded_list coded_ℕ) (coded× (coded_list coded_ℕ) mask_code)) };

    ghost view = { λ a. (type_view a.data_type, (a.offsets, (a.values.value.items, a.validity))) };

    ghost invariant = { λ a. IsPlaces a.offsets (list_length a.values.value.items)
        × MaskFits a.validity (list_length a.offsets - 1) × (is_binary O.large (base (type_view a.data_type)) ≡ true) };
}

impl<O: Offset> BinaryArray<O> {
    /// The byte strings between each offset and the next, null where the mask is false.
    ///
    /// # Errors
    ///
    /// V1 exactly where there are more bytes than the offset type counts. A8 exactly where there are not, and the type is not that of
    /// byte strings under such offsets, an offset lies past the bytes, or a mask has another length. `Memory`.
    pub fn try_new(
        alloc: Global,
        data_type: DataType,
        offsets: OffsetsBuffer<O>,
        values: Vec<u8>,
        validity: Option<Bitmap>,
    ) -> Result<BinaryArray<O>>
        ensures ok { IfOk result (λ a. a ≡ (type_view data_type, (offsets, (values.items, validity)))) }
        ensures overflow { IsErrOf result (Error.Overflow V.V1) ↔ O.limit ≤ list_length values.items }
        ensures refused { IsErrOf result (Error.InvalidArgumentError A.A8) ↔ (list_length values.items < O.limit)
            × ¬ (IsPlaces offsets (list_length values.items) × MaskFits validity (list_length offsets - 1)
            × (is_binary O.large (base (type_view data_type)) ≡ true)) }
        ensures err { IfErr result (λ e. (e ≡ Error.Memory) ⊎ (e ≡ Error.Overflow V.V1)
            ⊎ (e ≡ Error.InvalidArgumentError A.A8)) }
    {
        if !is_counted::<O>(values.len()) {
            return Err(Error::Overflow(V::V1));
        }
        if !fits::<O>(&data_type, &offsets, values.len(), &validity) {
            return Err(Error::InvalidArgumentError(A::A8));
        }
        Ok(BinaryArray {
            data_type,
            offsets,
            values: Rc::new(alloc, values)?,
            validity,
        })
    }

    /// Callers learn what holds of every such array.
    pub fn know(&self)
        ensures places { IsPlaces self.now.1.0 (list_length self.now.1.1.0) }
        ensures mask { MaskFits self.now.1.1.1 (list_length self.now.1.0 - 1) }
        ensures typed { is_binary O.large (base self.now.0) ≡ true }
    {
        let _ = &self.data_type;
    }

    /// How many positions there are.
    pub fn len(&self) -> usize
        ensures { result ≡ list_length self.now.1.0 - 1 }
    {
        self.offsets.len_proxy()
    }

    /// The type of the array.
    pub fn data_type(&self) -> &DataType
        ensures { type_view result.now ≡ self.now.0 }
    {
        &self.data_type
    }

    /// The offsets of the strings.
    pub fn offsets(&self) -> &OffsetsBuffer<O>
        ensures { result.now ≡ self.now.1.0 }
    {
        &self.offsets
    }

    /// The bytes of all strings, which may be more than the offsets say.
    pub fn values(&self) -> &[u8]
        ensures { result.now ≡ self.now.1.1.0 }
    {
        &self.values
    }

    /// Which positions are not null; with no mask, all.
    pub fn validity(&self) -> Option<&Bitmap>
        ensures { option_map (λ m. m.now) result ≡ self.now.1.1.1 }
    {
        self.validity.as_ref()
    }

    /// Keeps `length` positions from the position `offset` on. Nothing is copied.
    #[tactic(auto, using(columns_slots::proofs::Sound::mask_over, columns_slots::proofs::Sound::mask_cut))]
    pub fn slice(&mut self, offset: usize, length: usize)
        requires { offset + length ≤ list_length self.old.1.0 - 1 }
        ensures { self.new
            ≡ (
              self.old.0,
              (
                take (length + 1) (drop offset self.old.1.0),
                (self.old.1.1.0, cut_mask self.old.1.1.1 offset length),
              ),
            ) }
    {
        self.offsets.slice_ranges(offset, length);
        cut_validity(&mut self.validity, offset, length);
    }

    /// How many positions are null.
    pub fn null_count(&self) -> usize
        ensures { result ≡ nulls_in self.now.1.1.1 }
    {
        count_unset(&self.validity)
    }

    /// An equal array, which shares its values.
    ///
    /// # Errors
    ///
    /// `Memory`.
    pub fn clone(&self, alloc: Global) -> Result<BinaryArray<O>>
        ensures ok { IfOk result (λ a. a ≡ self.now) }
        ensures err { IfErr result (λ e. e ≡ Error.Memory) }
    {
        Ok(BinaryArray {
            data_type: self.data_type.clone(alloc)?,
            offsets: self.offsets.clone()?,
            values: self.values.clone()?,
            validity: copy_validity(&self.validity)?,
        })
    }
}

fn is_bytes<O: Offset>(data_type: &DataType) -> bool
    ensures { result ≡ is_binary O.large (base (type_view data_type.now)) }
{
    match data_type.base() {
        DataType::Binary => !O::is_large(),
        DataType::LargeBinary => O::is_large(),
        _ => false,
    }
}

fn fits<O: Offset>(
    data_type: &DataType,
    offsets: &OffsetsBuffer<O>,
    count: usize,
    validity: &Option<Bitmap>,
) -> bool
    ensures { IsTrue result ↔ IsPlaces offsets.now count × MaskFits validity.now (list_length offsets.now - 1)
        × (is_binary O.large (base (type_view data_type.now)) ≡ true) }
{
    is_bytes::<O>(data_type) && is_laid(offsets, count, validity)
}

// Whether the offsets lie within so many bytes, and the mask fits them.
#[tactic(auto, using(columns_slots::proofs::Made::places_made, columns_slots::proofs::Made::places_last))]
pub(crate) fn is_laid<O: Offset>(
    offsets: &OffsetsBuffer<O>,
    count: usize,
    validity: &Option<Bitmap>,
) -> bool
    ensures { IsTrue result ↔ IsPlaces offsets.now count × MaskFits validity.now (list_length offsets.now - 1) }
{
    offsets.know();
    let last = offsets.len_proxy();
    offsets.place(last) <= count && mask_fits(validity, last)
}

// Whether the offset type counts so many bytes.
pub(crate) fn is_counted<O: Offset>(count: usize) -> bool
    ensures { IsTrue result ↔ count < O.limit }
{
    match O::from_usize(count) {
        Some(_) => true,
        None => false,
    }
}
