//! The level section of a flat column.
ghost use Rattle.std.specs.Prelude.{◌≡◌, ◌⊎◌, ◌↔◌, ℕ, ◌+◌, ◌-◌, ◌*◌, ◌^◌, ◌<◌, ◌≤◌, length, map, IfOk, OnOk, IfErr, Err};
ghost use Rattle.shredding.specs.Slot.{Value};
ghost use Rattle.shredding.specs.Shape.{at_leaf};
ghost use Rattle.shredding.specs.Shred.{max_definition};
ghost use Rattle.shredding.specs.Parts.{MaskFits};
ghost use Rattle.pq_files.specs.Room.{level_room, max_size};
ghost use Rattle.level_sections.specs.Sections.{AppendsLevels, flat_column, mask_of};

use crate::section::push_section;
use crate::sections::MOST_PAIRS;
use columns_core::{Bitmap, Error, Result, V};
use levels::{Level, Nested};
use pq_tree::Version;

// A mask that shares what is lent.
fn shared(validity: Option<&Bitmap>) -> Result<Option<Bitmap>>
    ensures ok { IfOk result (λ mask. mask ≡ mask_of validity.entry) }
    ensures err { IfErr result (λ e. e ≡ Error.Memory) }
{
    match validity {
        None => Ok(None),
        Some(mask) => Ok(Some(mask.clone()?)),
    }
}

/// Appends the section of a flat column's definition levels, as a data page of the version has it, and nothing for a required one.
///
/// The levels are 1 for a value and 0 for a null, where an optional column's mask is false (Parquet format, "Data Pages", "Nulls").
/// The mask has `len` bits; a required column's is not looked at. Long repetitions are repeated runs, as `write_rep_and_def` has them.
///
/// # Errors
///
/// V3 exactly where 2,048 and twice `len` pass 2^31 - 1. Want of memory. The writer's bytes are then as before.
pub fn write_def_levels(
    writer: &mut Vec<u8>,
    is_optional: bool,
    validity: Option<&Bitmap>,
    len: usize,
    version: Version,
) -> Result<()>
    requires { MaskFits (mask_of validity) len }
    ensures ok { (values : ℕ → Value) → OnOk result
        (AppendsLevels version (max_definition (at_leaf is_optional)) writer.old.items writer.new.items
        (map (λ t. t.definition) (flat_column values is_optional (mask_of validity.entry) len))) }
    ensures too_large { (result ≡ Err (Error.Overflow V.V3)) ↔ (max_size < level_room len) }
    ensures err { IfErr result (λ e. ((e ≡ Error.Memory) ⊎ (e ≡ Error.Overflow V.V3))
        × (writer.new.items ≡ writer.old.items)) }
{
    if len > MOST_PAIRS {
        return Err(Error::Overflow(V::V3));
    }
    let mask = shared(validity)?;
    let path = [Nested::Primitive(mask, is_optional, len)];
    let before = writer.len();
    match push_section(writer, &path, Level::Definition, version) {
        Ok(_) => Ok(()),
        Err(_) => {
            writer.truncate(before);
            Err(Error::Memory)
        }
    }
}
