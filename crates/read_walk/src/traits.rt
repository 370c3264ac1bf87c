//! What the walk decodes values with.
ghost use Rattle.std.specs.Prelude.{◌≡◌, ◌≤◌, List, ◌++◌, ℕ, replicate, OnOk, IfErr};
ghost use Rattle.columns_base.specs.declared.error.Error.{Error};
ghost use Rattle.columns_core.specs.Bits.{word_bits};
ghost use Rattle.shredding.specs.Slot.{Slot, null};
ghost use Rattle.read_walk.specs.Values.{Stored, Decodes, DecodesMixed, ones, CannotDecode};

use columns_base::{Error, Result};

/// Decodes the values of a leaf.
pub trait NestedDecoder<'a> {
    /// The stored values that a page still gives.
    type State;

    /// What was decoded: slots of the leaf.
    type DecodedState;

    // the stored values that are left, as values of the leaf that the decoder reads
    ghost left: { Self → Self.State → List Stored };

    // the slots that were decoded
    ghost slots: { Self.DecodedState → List Slot };

    // one above the greatest number of bytes that the offsets of texts and byte strings count; 0 where no offsets count bytes, and 1 for a leaf
    // without bytes
    ghost byte_limit: { ℕ };

    // the decoder may go on behind what was decoded
    ghost suits: { Self → Self.DecodedState → Type 0 } = { λ d s. Unit {0} };

    /// The next `count` stored values, each as a slot.
    ///
    /// # Errors
    ///
    /// S6 where fewer are stored, S7 where one is no value of the leaf's type, V1 where their bytes are more than offsets count, and `Memory`.
    /// Nothing is said of the state and the slots then.
    fn push_valid(
        &self,
        state: &mut Self::State,
        decoded: &mut Self::DecodedState,
        count: usize,
    ) -> Result<()>
        requires suits { suits self.now decoded.old }
        ensures ok { OnOk result (Decodes count (left self.now state.old) (left self.now state.new) (slots decoded.old)
            (slots decoded.new)) }
        ensures err { IfErr result (CannotDecode byte_limit count (left self.now state.old) (slots decoded.old)) }
        ensures suits { suits self.now decoded.new };

    /// `count` null slots.
    ///
    /// # Errors
    ///
    /// `Memory`.
    fn push_null(&self, decoded: &mut Self::DecodedState, count: usize) -> Result<()>
        requires suits { suits self.now decoded.old }
        ensures ok { OnOk result (slots decoded.new ≡ slots decoded.old ++ replicate count null) }
        ensures err { IfErr result (λ e. e ≡ Error.Memory) }
        ensures suits { suits self.now decoded.new };

    /// The next `count` slots, at most 64: the next stored value where the slot's bit of `valid` is set, the lowest bit first, and null elsewhere.
    ///
    /// # Errors
    ///
    /// Those of `push_valid` for as many values as bits are set. Nothing is said of the state and the slots then.
    fn push_mixed(
        &self,
        state: &mut Self::State,
        decoded: &mut Self::DecodedState,
        valid: u64,
        count: usize,
    ) -> Result<()>
        requires few { count ≤ 64 }
        requires suits { suits self.now decoded.old }
        ensures ok { OnOk result (DecodesMixed (word_bits valid count) (left self.now state.old)
            (left self.now state.new) (slots decoded.old) (slots decoded.new)) }
        ensures err { IfErr result (CannotDecode byte_limit (ones (word_bits valid count)) (left self.now state.old)
            (slots decoded.old)) }
        ensures suits { suits self.now decoded.new };
}
