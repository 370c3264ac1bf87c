//! The dictionary page of an array's entries.
ghost use Rattle.std.specs.Prelude.{◌≡◌, ◌⊎◌, ◌≤◌, true, false, Some, IsTrue, IfOk, IfErr};
ghost use Rattle.columns_base.specs.declared.error.Error.TheVariants.{Memory, NotYetImplemented, Overflow};
ghost use Rattle.columns_base.specs.declared.error.N.TheVariants.{N5};
ghost use Rattle.columns_base.specs.declared.error.V.TheVariants.{V3};
ghost use Rattle.columns_array.specs.Boxed.{boxed};
ghost use Rattle.columns_core.specs.Shapes.{base, leaf_type};
ghost use Rattle.columns_entries.specs.Entries.{entries_of};
ghost use Rattle.columns_slots.specs.Slots.{tree_len, type_of};
ghost use Rattle.pq_tree.specs.Reads.{ComesWhere};
ghost use Rattle.pq_tree.specs.Views.{physical_view};
ghost use Rattle.pq_files.specs.Layout.{AreStoredEntries, plain_length};
ghost use Rattle.pq_files.specs.Room.{room, max_size};
ghost use Rattle.pq_pages.specs.Denotes.{IsDictFor};
ghost use Rattle.dictionary_pages.specs.Entries.{AreTooLarge, is_entry, stored_entries};
ghost use Rattle.dictionary_pages.specs.Leaves.{IsEntryLeaf};

use crate::entries::entries_leaf;
use crate::entry_bytes::{entries_size, push_entries};
use columns_array::ArrayBox;
use columns_base::PhysicalType;
use columns_core::{Error, N, Result, V};
use pq_pages::DictPage;
use std::alloc::Global;
use write_values::{Leaf, has_room};

/// The dictionary page of an array's entries, in order (Parquet format, "Dictionary Page"; Encodings, "Plain"): for each that is not null the value
/// that the physical type stores for it, and zero or no bytes in the place of a null one.
///
/// # Errors
///
/// - `NotYetImplemented(N5)` exactly where entries of the type are not written under the physical type (`is_entry`).
/// - `Overflow(V3)` exactly where they are and the room of the page passes 2^31 - 1.
/// - `Memory`.
pub fn dictionary_page(
    alloc: Global,
    entries: &ArrayBox,
    physical_type: PhysicalType,
) -> Result<DictPage>
    ensures ok { IfOk result (IsDictFor (physical_view physical_type)
        (stored_entries (boxed entries.now) (physical_view physical_type))) }
    ensures stored { is_entry (base (type_of (boxed entries.now))) (physical_view physical_type) ≡ true
        → AreStoredEntries (leaf_type (type_of (boxed entries.now))) (physical_view physical_type)
        (Some (entries_of (boxed entries.now)))
        (Some (stored_entries (boxed entries.now) (physical_view physical_type))) }
    ensures unserved { ComesWhere (NotYetImplemented N5) (is_entry (base (type_of (boxed entries.now)))
        (physical_view physical_type) ≡ false) result }
    ensures too_large { ComesWhere (Overflow V3)
        ((is_entry (base (type_of (boxed entries.now))) (physical_view physical_type) ≡ true)
        × AreTooLarge (physical_view physical_type) (stored_entries (boxed entries.now)
        (physical_view physical_type))) result }
    ensures err { IfErr result (λ e. (e ≡ Memory) ⊎ (e ≡ NotYetImplemented N5) ⊎ (e ≡ Overflow V3)) }
{
    entries.know();
    let Some(leaf) = entries_leaf(entries, physical_type) else {
        return Err(Error::NotYetImplemented(N::N5));
    };
    if !entries_fit(entries, leaf, physical_type) {
        return Err(Error::Overflow(V::V3));
    }
    let buffer = push_entries(entries, leaf, physical_type, Vec::new(alloc))?;
    Ok(DictPage::new(buffer, entries.len(), false))
}

// Whether there is room for a dictionary page of the entries.
pub fn entries_fit(entries: &ArrayBox, leaf: Leaf<'_>, physical_type: PhysicalType) -> bool
    requires leaf { IsEntryLeaf (boxed entries.now) (physical_view physical_type) leaf }
    ensures within { IsTrue result → room (tree_len (boxed entries.now))
        (plain_length (physical_view physical_type)
        (stored_entries (boxed entries.now) (physical_view physical_type))) ≤ max_size }
    ensures past { result ≡ false → AreTooLarge (physical_view physical_type)
        (stored_entries (boxed entries.now) (physical_view physical_type)) }
{
    has_room(entries.len(), entries_size(entries, leaf, physical_type))
}
