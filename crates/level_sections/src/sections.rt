//! The level sections of a page.
ghost use Rattle.std.specs.Prelude.{◌≡◌, ◌⊎◌, ◌↔◌, ℕ, ◌+◌, ◌-◌, ◌*◌, ◌^◌, ◌<◌, ◌≤◌, ◌∷◌, [], length, map, IfOk, OnOk, IfErr, Err, IsTrue, false};
ghost use Rattle.shredding.specs.Slot.{Value};
ghost use Rattle.shredding.specs.Parts.{IsPath, path_way};
ghost use Rattle.levels.specs.Nested.{parts_of, nested_column};
ghost use Rattle.levels.specs.Levels.{path_pairs};
ghost use Rattle.pq_files.specs.Room.{level_room, max_size};
ghost use Rattle.pq_runs.specs.Writing.{Extends};
ghost use Rattle.level_sections.specs.Sections.{AppendsSections, AppendsLevels, AppendsBoth};
ghost use Rattle.levels.specs.Stretch.{level_of};
ghost use Rattle.level_sections.specs.Walk.{greatest};

use crate::section::push_section;
use columns_core::{Error, Result, V};
use levels::{Level, Nested, most_values, num_values};
use pq_tree::Version;
use std::alloc::AllocError;

// With more pairs the level sections could pass the 32-bit sizes of a page's header: 2,048 bytes and two a pair.
pub const MOST_PAIRS: usize = 1_073_740_799;

// Whether a path has more level pairs than that. They are counted only where what its lists span does not show that they are fewer.
fn are_too_many(nested: &[Nested]) -> bool
    requires { IsPath (parts_of nested.now) }
    ensures many { (values : ℕ → Value) → IsTrue result → 1073740799 < length (nested_column values nested.now) }
    ensures few { (values : ℕ → Value) → result ≡ false → length (nested_column values nested.now) ≤ 1073740799 }
{
    if most_values(nested) <= MOST_PAIRS {
        return false;
    }
    num_values(nested) > MOST_PAIRS
}

// Appends both sections, and gives their lengths.
fn push_both(
    version: Version,
    nested: &[Nested],
    buffer: &mut Vec<u8>,
) -> std::result::Result<(usize, usize), AllocError>
    requires well { IsPath (parts_of nested.now) }
    requires parts { length nested.now ≤ 128 }
    requires few { length (path_pairs (parts_of nested.now)) < 2 ^ 30 }
    ensures ok { IfOk result (λ sizes. AppendsBoth version
        (parts_of nested.now) buffer.old.items buffer.new.items sizes.0 sizes.1) }
    ensures kept { Extends buffer.old.items buffer.new.items }
{
    let repetition = push_section(buffer, nested, Level::Repetition, version)?;
    let definition = push_section(buffer, nested, Level::Definition, version)?;
    Ok((repetition, definition))
}

/// Appends the section of a path's repetition levels and that of its definition levels, as a data page of the version has them, and
/// gives their lengths, the four bytes in front of each in version 1 included. A level whose maximum is 0 has no section.
///
/// The levels are those of the column of the slots that the path stands for (Dremel paper, "Nested columnar storage"; Parquet format,
/// "Data Pages", "Nested Encoding"). The path is well formed and has at most 128 parts. The runs of levels
/// of `w` bits are whole groups, the last filled up with zeros, in at most `2 * w + 19` bytes for each stretch of up to `2^40` equal levels and one
/// byte, so long repetitions are repeated runs (Encodings, "Run Length Encoding / Bit-Packing Hybrid").
///
/// # Errors
///
/// V3 exactly where 2,048 and twice the level pairs pass 2^31 - 1. Want of memory. The buffer is then as before.
pub fn write_rep_and_def(
    page_version: Version,
    nested: &[Nested],
    buffer: &mut Vec<u8>,
) -> Result<(usize, usize)>
    requires well { IsPath (parts_of nested.now) }
    requires parts { length nested.now ≤ 128 }
    ensures ok { (values : ℕ → Value) → IfOk result
        (λ sizes. AppendsSections page_version (path_way (parts_of nested.now))
        (nested_column values nested.now) buffer.old.items buffer.new.items sizes) }
    ensures too_large { (values : ℕ → Value) → (result ≡ Err (Error.Overflow V.V3))
        ↔ (max_size < level_room (length (nested_column values nested.now))) }
    ensures err { IfErr result (λ e. ((e ≡ Error.Memory) ⊎ (e ≡ Error.Overflow V.V3))
        × (buffer.new.items ≡ buffer.old.items)) }
{
    if are_too_many(nested) {
        return Err(Error::Overflow(V::V3));
    }
    let before = buffer.len();
    match push_both(page_version, nested, buffer) {
        Ok(sizes) => Ok(sizes),
        Err(_) => {
            buffer.truncate(before);
            Err(Error::Memory)
        }
    }
}
