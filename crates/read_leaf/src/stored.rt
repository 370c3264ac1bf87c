//! Stored numbers, and numbers of a leaf.
ghost use Rattle.std.specs.Prelude.{◌≡◌, length, option_map, Option, ℤ};

use columns_core::NativeType;
use columns_native::PlainNumber;

/// A number that a column stores, read from its plain bytes.
pub trait StoredNumber: PlainNumber {
    ghost use Rattle.std.specs.Prelude.{ℤ, List, ℕ};

    // the number that as many bytes spell
    ghost spelled: { List ℕ → ℤ };

    /// The number that these bytes spell, the lowest first.
    fn read(bytes: &[u8]) -> Self
        requires { length bytes.now ≡ Self.byte_count }
        ensures { Self.plain_number result ≡ spelled bytes.now };

    ghost use Rattle.std.specs.Prelude.{◌<◌, ◌≡◌, length};
    ghost use Rattle.shredding.specs.Slot.{number};
    ghost use Rattle.pq_tree.specs.Views.{physical_view};
    ghost use Rattle.pq_files.specs.Plain.{IsOne};

    ghost some_bytes: { 0 < Self.byte_count };

    ghost as_plain: { (bs : List ℕ) → length bs ≡ Self.byte_count
        → IsOne (physical_view Self.physical) bs (number (spelled bs)) };
}

impl StoredNumber for i32 {
    ghost use Rattle.std.specs.Prelude.{refl};
    ghost use Rattle.std.specs.Int.{w32, cast_signed};
    ghost use Rattle.std.proofs.Common.{lit≤};
    ghost use Rattle.pq_numbers.specs.Texts.{number_of};

    ghost spelled = { λ bs. cast_signed w32 (number_of bs) };

    ghost some_bytes = { lit≤ tt };

    ghost as_plain = { λ bs e. (e, refl) };

    fn read(bytes: &[u8]) -> i32 {
        i32::from_plain(bytes)
    }
}

impl StoredNumber for i64 {
    ghost use Rattle.std.specs.Prelude.{refl};
    ghost use Rattle.std.specs.Int.{w64, cast_signed};
    ghost use Rattle.std.proofs.Common.{lit≤};
    ghost use Rattle.pq_numbers.specs.Texts.{number_of};

    ghost spelled = { λ bs. cast_signed w64 (number_of bs) };

    ghost some_bytes = { lit≤ tt };

    ghost as_plain = { λ bs e. (e, refl) };

    fn read(bytes: &[u8]) -> i64 {
        i64::from_plain(bytes)
    }
}

/// A number of a leaf, which a column stores as one of `P`.
pub trait FromStored<P: StoredNumber>: NativeType {
    // the number of the leaf for a stored one; none where that is outside the leaf's type
    ghost loaded: { ℤ → Option ℤ };

    // the number
    ghost loaded_number: { Self → ℤ };

    /// The number of the leaf that is stored so, or none.
    fn from_stored(stored: P) -> Option<Self>
        ensures { option_map loaded_number result ≡ loaded (P.plain_number stored) };

    /// What stands in the place of a null.
    fn zero() -> Self;

    ghost use Rattle.std.specs.Prelude.{◌≡◌, ◌*◌, true};
    ghost use Rattle.shredding.specs.Slot.{number};
    ghost use Rattle.columns_core.specs.Shapes.{leaf_type};
    ghost use Rattle.columns_core.specs.Tree.{TypeTree};
    ghost use Rattle.pq_tree.specs.Views.{physical_view};
    ghost use Rattle.pq_files.specs.Statistics.{has_order};
    ghost use Rattle.read_leaf.specs.Ranges.{LoadsStored};

    // in each type of arrays of such numbers, the value that the number stands for
    ghost valued: { (t : TypeTree) (x : Self) → Self.stores t ≡ true → has_order (leaf_type t) ≡ true
        → Self.value t x ≡ number (loaded_number x) };

    // in each of them, the page table's value for the stored number
    ghost loads: { (t : TypeTree) → Self.stores t ≡ true → has_order (leaf_type t) ≡ true
        → LoadsStored loaded (leaf_type t) (physical_view P.physical) (8 * P.byte_count) };
}
