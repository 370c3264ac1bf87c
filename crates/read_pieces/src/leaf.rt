//! How the values of a leaf are read.
ghost use Rattle.std.specs.Prelude.{◌≡◌, ◌⊎◌, ◌*◌, ◌<◌, ℕ, List, [], ◌∷◌, None, Ok, true, false, length, OnOk, IfOk, IfErr};
ghost use Rattle.columns_base.specs.declared.error.Error.TheVariants.{Memory, OutOfSpec};
ghost use Rattle.columns_base.specs.declared.error.S.TheVariants.{S6, S7};
ghost use Rattle.read_laws.specs.State.{leaf_count, StateFits};
ghost use Rattle.read_state.specs.Ticks.{TicksAtMost};
ghost use Rattle.read_walk.specs.Ticks.{TicksEach};
ghost use Rattle.read_walk.specs.Values.{Stored};
ghost use Rattle.read_pieces.specs.Leaves.{AreEights, BeginsOutside, BeginsWithValue, in_bytes};
ghost use Rattle.read_walk.specs.Walk.{Extends, Refuses};
ghost use Rattle.shredding.specs.Slot.{Slot};

use columns_base::Result;
use read_state::{NestedState, Steps};
use read_walk::NestedPage;
use std::alloc::Global;
use std::marker::Brand;
use std::sync::ledger::{Blank, Ledger};

/// The bytes of a page's values that are left.
#[derive(Debug, Drop)]
pub struct PlainBytes<'a> {
    pub values: &'a [u8],
    /// How many bits of the first byte were taken; 0 but for truth values.
    pub bit: usize,
}

/// Reads the plain values of a leaf, for pages of any life. The reader itself keeps what the type of the leaf does not say: a length of fixed bytes.
pub trait LeafReader {
    /// What was decoded.
    type Values: Drop;

    // the stored values of plain bytes from a bit of the first byte on, as values of the leaf that the reader reads
    ghost stored: { Self → List ℕ → ℕ → List Stored };

    // the slots that were decoded
    ghost slots: { Self.Values → List Slot };

    // one above the greatest number of bytes that the offsets of texts and byte strings count; 0 where no offsets count bytes, and 1 for a leaf
    // without bytes
    ghost byte_limit: { ℕ };

    // how many bytes each decoded value has, where all have as many
    ghost width: { Self.Values → ℕ } = { λ v. 0 };

    // the reader may go on behind values of this width
    ghost suits: { Self → ℕ → Type 0 } = { λ r n. Unit {0} };

    /// No value.
    ///
    /// # Errors
    ///
    /// `Memory`.
    fn begin(&self, alloc: Global) -> Result<Self::Values>
        ensures ok { IfOk result (λ v. slots v ≡ []) }
        ensures suits { (v : Self.Values) → result ≡ Ok v → suits self.now (width v) }
        ensures err { IfErr result (λ e. e ≡ Memory) };

    /// No value, of the width that these have.
    ///
    /// # Errors
    ///
    /// `Memory`.
    fn begin_like(values: &Self::Values, alloc: Global) -> Result<Self::Values>
        ensures ok { IfOk result (λ v. slots v ≡ []) }
        ensures width { (v : Self.Values) → result ≡ Ok v → width v ≡ width values.now }
        ensures err { IfErr result (λ e. e ≡ Memory) };

    /// Whether each value stands in bytes of its own. Truth values do not: a byte holds eight of them.
    fn stands_in_bytes(&self) -> bool
        ensures value { result ≡ in_bytes (λ text. stored self.now text 0) }
        ensures bits { result ≡ false → (text : List ℕ) → AreEights (λ text. stored self.now text 0) text };

    /// How many bytes the first value has. Where values do not stand in bytes of their own, nothing is said of the number.
    ///
    /// # Errors
    ///
    /// S6 where the bytes are cut, S7 where no value of the leaf's type is stored so (Parquet format, Encodings, "Plain").
    fn value_size(&self, bytes: &[u8]) -> Result<usize>
        ensures ok { in_bytes (λ text. stored self.now text 0) ≡ true
            → IfOk result (λ n. BeginsWithValue (λ text. stored self.now text 0) n bytes.now) }
        ensures err { IfErr result (λ e. ((e ≡ OutOfSpec S6) × (stored self.now bytes.now 0 ≡ []))
            ⊎ ((e ≡ OutOfSpec S7) × BeginsOutside (λ text. stored self.now text 0) bytes.now)) };

    /// Takes pairs of the page, and the values that they call for, until `additional` rows are whole or the page ends. Of each pair at most one step
    /// for each part of the state.
    ///
    /// # Errors
    ///
    /// Those of `extend_levels` of `read_walk`. Nothing is said then of what was handed in but `steps`.
    fn extend<'a, 'b, L: Ledger>(
        &self,
        page: &mut NestedPage<'a>,
        bytes: &mut PlainBytes<'b>,
        nested: &mut NestedState,
        values: &mut Self::Values,
        additional: usize,
        steps: &mut Steps<L>,
    ) -> Result<()>
        requires fits { StateFits nested.old }
        requires decoded { length (slots values.old) ≡ leaf_count nested.old }
        requires suits { suits self.now (width values.old) }
        ensures ok { OnOk result (Extends additional page.old page.new
            (stored self.now bytes.old.values.now bytes.old.bit)
            (stored self.now bytes.new.values.now bytes.new.bit) nested.old nested.new (slots values.old)
            (slots values.new)) }
        ensures err { IfErr result (Refuses byte_limit additional page.old
            (stored self.now bytes.old.values.now bytes.old.bit) nested.old (slots values.old)) }
        ensures ticked { OnOk result (TicksEach (length nested.old) page.old page.new steps.old steps.new) }
        ensures bounded { TicksAtMost (length nested.old * length page.old) steps.old steps.new }
        ensures width { width values.new ≡ width values.old };
}

// Takes pairs with steps that are counted in a ledger of their own.
fn extend_in<'a, 'b, R: LeafReader, L: Ledger>(
    leaf: &R,
    page: &mut NestedPage<'a>,
    bytes: &mut PlainBytes<'b>,
    nested: &mut NestedState,
    values: &mut R::Values,
    additional: usize,
    blank: Blank,
) -> Result<()>
    requires fits { StateFits nested.old }
    requires decoded { length (R.slots values.old) ≡ leaf_count nested.old }
    requires suits { R.suits leaf.now (R.width values.old) }
    requires name { blank.name ≡ L.name }
    requires parts { blank.parts ≡ L.parts }
    requires some { 0 < blank.parts }
    ensures ok { OnOk result (Extends additional page.old page.new
        (R.stored leaf.now bytes.old.values.now bytes.old.bit)
        (R.stored leaf.now bytes.new.values.now bytes.new.bit) nested.old nested.new (R.slots values.old)
        (R.slots values.new)) }
    ensures err { IfErr result (Refuses R.byte_limit additional page.old
        (R.stored leaf.now bytes.old.values.now bytes.old.bit) nested.old (R.slots values.old)) }
    ensures width { R.width values.new ≡ R.width values.old }
{
    let mut steps: Steps<L> = Steps::new(blank);
    leaf.extend(page, bytes, nested, values, additional, &mut steps)
}

/// `extend` of a leaf for a caller that does not look at the steps.
///
/// # Errors
///
/// As `extend`.
pub fn extend_leaf<'a, 'b, R: LeafReader>(
    leaf: &R,
    page: &mut NestedPage<'a>,
    bytes: &mut PlainBytes<'b>,
    nested: &mut NestedState,
    values: &mut R::Values,
    additional: usize,
) -> Result<()>
    requires fits { StateFits nested.old }
    requires decoded { length (R.slots values.old) ≡ leaf_count nested.old }
    requires suits { R.suits leaf.now (R.width values.old) }
    ensures ok { OnOk result (Extends additional page.old page.new
        (R.stored leaf.now bytes.old.values.now bytes.old.bit)
        (R.stored leaf.now bytes.new.values.now bytes.new.bit) nested.old nested.new (R.slots values.old)
        (R.slots values.new)) }
    ensures err { IfErr result (Refuses R.byte_limit additional page.old
        (R.stored leaf.now bytes.old.values.now bytes.old.bit) nested.old (R.slots values.old)) }
    ensures width { R.width values.new ≡ R.width values.old }
{
    extend_in::<R, Brand>(leaf, page, bytes, nested, values, additional, Blank::new(1))
}
