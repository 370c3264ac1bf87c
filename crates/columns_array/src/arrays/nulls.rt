//! Which slots are null, and how many.
ghost use Rattle.std.specs.Prelude.{◌≡◌, ◌<◌, true};
ghost use Rattle.shredding.specs.Parts.{keeps};
ghost use Rattle.columns_slots.specs.Slots.{slot_at, tree_len, mask_of, is_null, is_masked, null_slots, nulls_in};
ghost use Rattle.columns_array.specs.Boxed.{boxed};

use super::cells::is_null_cell;
use super::keys::{entry, is_key};
use super::{ArrayBox, DictionaryArray};

impl ArrayBox {
    /// Whether the array's own mask, if any, keeps a position.
    #[tactic(auto, using(crate::proofs::Nulls::mask_bit, crate::proofs::Keys::kept_bit))]
    pub(crate) fn keeps_at(&self, i: usize) -> bool
        requires { i < tree_len (boxed self.now) }
        ensures { result ≡ keeps (mask_of (boxed self.now)) i }
    {
        self.know();
        match self.validity() {
            Some(mask) => mask.get_bit(i),
            None => true,
        }
    }

    /// Whether the slot at a position is null. A key of a null entry is a null slot.
    pub fn is_null_at(&self, i: usize) -> bool
        requires { i < tree_len (boxed self.now) }
        ensures { result ≡ is_null (slot_at (boxed self.now) i) }
    {
        is_null_cell(&self.cell(i))
    }

    /// The number of null slots, where nulls are those of the mask.
    #[tactic(auto, using(columns_slots::proofs::Nulls::nulls_masked))]
    fn unset_bits(&self) -> usize
        requires { is_masked (boxed self.now) ≡ true }
        ensures { result ≡ null_slots (boxed self.now) }
    {
        self.know();
        match self.validity() {
            Some(mask) => mask.unset_bits(),
            None => 0,
        }
    }

    /// The number of null slots.
    pub fn null_count(&self) -> usize
        ensures { result ≡ null_slots (boxed self.now) }
    {
        match self {
            ArrayBox::Null(a) => a.len(),
            ArrayBox::Dictionary(a) => a.null_count(),
            ArrayBox::List(a) => a.null_count(),
            ArrayBox::LargeList(a) => a.null_count(),
            ArrayBox::FixedSizeList(a) => a.null_count(),
            ArrayBox::Struct(a) => a.null_count(),
            ArrayBox::Map(a) => a.null_count(),
            _ => self.unset_bits(),
        }
    }
}

impl DictionaryArray {
    /// Whether the slot at a position is null: its key is, or the entry that it numbers.
    pub fn is_null_at(&self, i: usize) -> bool
        requires { i < tree_len self.now }
        ensures { result ≡ is_null (slot_at self.now i) }
    {
        if !is_key(&self.keys, i) {
            return true;
        }
        self.values.is_null_at(entry(&self.keys, i))
    }

    /// The number of null slots.
    #[tactic(auto, using(crate::proofs::Nulls::count_more, crate::proofs::Nulls::count_same))]
    pub fn null_count(&self) -> usize
        ensures { result ≡ null_slots self.now }
    {
        let mut count = 0;
        for i in 0..self.len() {
            if self.is_null_at(i) {
                count += 1;
            }
        }
        count
    }
}
