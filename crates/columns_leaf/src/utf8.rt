//! Arrays of texts.
ghost use Rattle.std.specs.Prelude.{◌≡◌, ◌↔◌, ◌+◌, ◌-◌, ◌≤◌, ◌<◌, ◌^◌, ◌⊎◌, IsTrue, true, false, IfOk, IfErr, IsErrOf, option_map, take, drop, slice_index_or, All, IsUtf8, [], length as list_length};
ghost use Rattle.columns_core.specs.View.{type_view};
ghost use Rattle.columns_core.specs.Shapes.{base};
ghost use Rattle.columns_slots.specs.Slots.{IsPlaces, cut_mask, nulls_in};
ghost use Rattle.shredding.specs.Parts.{MaskFits};
ghost use Rattle.columns_slots.specs.Types.{is_text};
ghost use Rattle.columns_slots.specs.Bytes.{pieces};
ghost use Rattle.columns_leaf.specs.Texts.{IsText, AreTexts};

use crate::binary::{is_counted, is_laid};
use crate::validity::{copy_validity, count_unset, cut_validity};
use columns_core::bitmap::Bitmap;
use columns_core::offsets::{Offset, OffsetsBuffer};
use columns_core::types::DataType;
use columns_core::{A, Error, Result, V};
use std::alloc::Global;
use std::marker::Model;
use std::rc::Rc;

/// Texts in UTF-8, one behind the other (Arrow columnar format, "Variable-size Binary Layout").
#[derive(Debug, Drop)]
pub struct Utf8Array<O: Offset> {
    data_type: DataType,
    offsets: OffsetsBuffer<O>,
    values: Rc<Vec<u8>>,
    validity: Option<Bitmap>,
}

impl<O: Offset> Model for Utf8Array<O> {
    ghost use Rattle.std.specs.Prelude.{◌≡◌, ℕ, List, true, ◌-◌, length as list_length};
    ghost use Rattle.std.specs.Coded.{coded×, coded_list, coded_ℕ};
    ghost use Rattle.columns_core.specs.Tree.{TypeTree};
    ghost use Rattle.columns_core.specs.TypeCode.{type_code};
    ghost use Rattle.columns_core.specs.View.{type_view};
    ghost use Rattle.columns_core.specs.Shapes.{base};
    ghost use Rattle.columns_slots.specs.Tree.{Mask, mask_code};
    ghost use Rattle.columns_slots.specs.Slots.{IsPlaces};
    ghost use Rattle.shredding.specs.Parts.{MaskFits};
    ghost use Rattle.columns_slots.specs.Types.{is_text};
    ghost use Rattle.columns_slots.specs.Bytes.{pieces};
    ghost use Rattle.columns_leaf.specs.Texts.{AreTexts};

    ghost Value = { TypeTree × (List ℕ × (List ℕ × Mask)) };

    ghost coded = { coded× type_code (coded× (coded_list coded_ℕ) (coded× (coded_list coded_ℕ) mask_code)) };

    ghost view = { λ a. (type_view a.data_type, (a.offsets, (a.values.value.items, a.validity))) };

    ghost invariant = { λ a. IsPlaces a.offsets (list_length a.values.value.items)
        × MaskFits a.validity (list_length a.offsets - 1) × (is_text O.large (base (type_view a.data_type)) ≡ true)
        × AreTexts (pieces a.offsets a.values.value.items) };
}

impl<O: Offset> Utf8Array<O> {
    /// The texts between each offset and the next, null where the mask is false.
    ///
    /// # Errors
    ///
    /// V1 exactly where there are more bytes than the offset type counts. A8 exactly where there are not, and the type is not that of
    /// texts under such offsets, an offset lies past the bytes, a mask has another length, or what stands between two offsets, that of a
    /// null position too, is not UTF-8. `Memory`.
    pub fn try_new(
        alloc: Global,
        data_type: DataType,
        offsets: OffsetsBuffer<O>,
        values: Vec<u8>,
        validity: Option<Bitmap>,
    ) -> Result<Utf8Array<O>>
        ensures ok { IfOk result (λ a. a ≡ (type_view data_type, (offsets, (values.items, validity)))) }
        ensures overflow { IsErrOf result (Error.Overflow V.V1) ↔ O.limit ≤ list_length values.items }
        ensures refused { IsErrOf result (Error.InvalidArgumentError A.A8) ↔ (list_length values.items < O.limit)
            × ¬ (IsPlaces offsets (list_length values.items) × MaskFits validity (list_length offsets - 1)
            × (is_text O.large (base (type_view data_type)) ≡ true) × AreTexts (pieces offsets values.items)) }
        ensures err { IfErr result (λ e. (e ≡ Error.Memory) ⊎ (e ≡ Error.Overflow V.V1)
            ⊎ (e ≡ Error.InvalidArgumentError A.A8)) }
    {
        if !is_counted::<O>(values.len()) {
            return Err(Error::Overflow(V::V1));
        }
        if !fits::<O>(&data_type, &offsets, &values, &validity) {
            return Err(Error::InvalidArgumentError(A::A8));
        }
        Ok(Utf8Array {
            data_type,
            offsets,
            values: Rc::new(alloc, values)?,
            validity,
        })
    }

    /// The same, of parts that are known to make an array. Nothing is looked at.
    ///
    /// # Errors
    ///
    /// `Memory`.
    pub fn from_parts(
        alloc: Global,
        data_type: DataType,
        offsets: OffsetsBuffer<O>,
        values: Vec<u8>,
        validity: Option<Bitmap>,
    ) -> Result<Utf8Array<O>>
        requires places { IsPlaces offsets (list_length values.items) }
        requires mask { MaskFits validity (list_length offsets - 1) }
        requires typed { is_text O.large (base (type_view data_type)) ≡ true }
        requires texts { AreTexts (pieces offsets values.items) }
        ensures ok { IfOk result (λ a. a ≡ (type_view data_type, (offsets, (values.items, validity)))) }
        ensures err { IfErr result (λ e. e ≡ Error.Memory) }
    {
        Ok(Utf8Array {
            data_type,
            offsets,
            values: Rc::new(alloc, values)?,
            validity,
        })
    }

    /// Callers learn what holds of every such array.
    pub fn know(&self)
        ensures places { IsPlaces self.now.1.0 (list_length self.now.1.1.0) }
        ensures mask { MaskFits self.now.1.1.1 (list_length self.now.1.0 - 1) }
        ensures typed { is_text O.large (base self.now.0) ≡ true }
        ensures texts { All IsUtf8 (pieces self.now.1.0 self.now.1.1.0) }
    {
        let _ = &self.data_type;
    }

    /// How many positions there are.
    pub fn len(&self) -> usize
        ensures { result ≡ list_length self.now.1.0 - 1 }
    {
        self.offsets.len_proxy()
    }

    /// The type of the array.
    pub fn data_type(&self) -> &DataType
        ensures { type_view result.now ≡ self.now.0 }
    {
        &self.data_type
    }

    /// The offsets of the texts.
    pub fn offsets(&self) -> &OffsetsBuffer<O>
        ensures { result.now ≡ self.now.1.0 }
    {
        &self.offsets
    }

    /// The bytes of all texts, which may be more than the offsets say.
    pub fn values(&self) -> &[u8]
        ensures { result.now ≡ self.now.1.1.0 }
    {
        &self.values
    }

    /// Which positions are not null; with no mask, all.
    pub fn validity(&self) -> Option<&Bitmap>
        ensures { option_map (λ m. m.now) result ≡ self.now.1.1.1 }
    {
        self.validity.as_ref()
    }

    /// Keeps `length` positions from the position `offset` on. Nothing is copied.
    #[tactic(auto, using(columns_slots::proofs::Sound::mask_over, columns_slots::proofs::Sound::mask_cut))]
    pub fn slice(&mut self, offset: usize, length: usize)
        requires { offset + length ≤ list_length self.old.1.0 - 1 }
        ensures { self.new
            ≡ (
              self.old.0,
              (
                take (length + 1) (drop offset self.old.1.0),
                (self.old.1.1.0, cut_mask self.old.1.1.1 offset length),
              ),
            ) }
    {
        self.offsets.slice_ranges(offset, length);
        cut_validity(&mut self.validity, offset, length);
    }

    /// How many positions are null.
    pub fn null_count(&self) -> usize
        ensures { result ≡ nulls_in self.now.1.1.1 }
    {
        count_unset(&self.validity)
    }

    /// An equal array, which shares its values.
    ///
    /// # Errors
    ///
    /// `Memory`.
    pub fn clone(&self, alloc: Global) -> Result<Utf8Array<O>>
        ensures ok { IfOk result (λ a. a ≡ self.now) }
        ensures err { IfErr result (λ e. e ≡ Error.Memory) }
    {
        Ok(Utf8Array {
            data_type: self.data_type.clone(alloc)?,
            offsets: self.offsets.clone()?,
            values: self.values.clone()?,
            validity: copy_validity(&self.validity)?,
        })
    }
}

fn is_text_type<O: Offset>(data_type: &DataType) -> bool
    ensures { result ≡ is_text O.large (base (type_view data_type.now)) }
{
    match data_type.base() {
        DataType::Utf8 => !O::is_large(),
        DataType::LargeUtf8 => O::is_large(),
        _ => false,
    }
}

fn fits<O: Offset>(
    data_type: &DataType,
    offsets: &OffsetsBuffer<O>,
    values: &[u8],
    validity: &Option<Bitmap>,
) -> bool
    ensures { IsTrue result ↔ IsPlaces offsets.now (list_length values.now)
        × MaskFits validity.now (list_length offsets.now - 1)
        × (is_text O.large (base (type_view data_type.now)) ≡ true) × AreTexts (pieces offsets.now values.now) }
{
    if !is_text_type::<O>(data_type) {
        return false;
    }
    if !is_laid(offsets, values.len(), validity) {
        return false;
    }
    are_texts(offsets, values)
}

fn are_texts<O: Offset>(offsets: &OffsetsBuffer<O>, values: &[u8]) -> bool
    requires { IsPlaces offsets.now (list_length values.now) }
    ensures { IsTrue result ↔ AreTexts (pieces offsets.now values.now) }
{
    for i in 0..offsets.len_proxy() {
        if !is_text_at(offsets, values, i) {
            return false;
        }
    }
    true
}

fn is_text_at<O: Offset>(offsets: &OffsetsBuffer<O>, values: &[u8], i: usize) -> bool
    requires places { IsPlaces offsets.now (list_length values.now) }
    requires within { i + 1 < list_length offsets.now }
    requires counted { i + 1 < 2 ^ 64 }
    ensures { IsTrue result ↔ IsText (slice_index_or (pieces offsets.now values.now) i []) }
{
    let start = offsets.place(i);
    let end = offsets.place(i + 1);
    is_text_bytes(&values[start..end])
}

#[tactic(auto, unfolding(crate::specs::Texts::IsText))]
fn is_text_bytes(bytes: &[u8]) -> bool
    ensures { IsTrue result ↔ IsText bytes.now }
{
    match std::str::from_utf8(bytes) {
        Ok(_) => true,
        Err(_) => false,
    }
}
