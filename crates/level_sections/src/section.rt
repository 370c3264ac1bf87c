//! One level section.
ghost use Rattle.std.specs.Prelude.{◌≡◌, ℕ, ◌+◌, ◌-◌, ◌*◌, ◌^◌, ◌<◌, ◌≤◌, ◌++◌, List, length, map, OnOk, IfOk};
ghost use Rattle.shredding.specs.Parts.{IsPath};
ghost use Rattle.levels.specs.Nested.{parts_of};
ghost use Rattle.levels.specs.Levels.{path_pairs};
ghost use Rattle.pq_numbers.specs.Bits.{IsWidth};
ghost use Rattle.pq_runs.specs.Writing.{Extends, AppendsRuns};
ghost use Rattle.levels.specs.Stretch.{level_of};
ghost use Rattle.level_sections.specs.Walk.{greatest};
ghost use Rattle.level_sections.specs.Sections.{AppendsOne};
ghost use Rattle.pq_tree.specs.declared.version.Version.TheVariants.{V1, V2};

use crate::prefix::put_number;
use crate::walk::{Above, walk};
use levels::{Level, Nested, max_def_level, max_rep_level, slot_count};
use pq_runs::{RunWriter, get_bit_width};
use pq_tree::Version;
use std::alloc::AllocError;

// The greatest level of a path.
fn greatest(nested: &[Nested], level: Level) -> usize
    ensures { result ≡ greatest level (parts_of nested.now) }
{
    match level {
        Level::Repetition => max_rep_level(nested),
        Level::Definition => max_def_level(nested),
    }
}

// Appends the runs of a path's levels.
fn push_runs(
    buffer: &mut Vec<u8>,
    nested: &[Nested],
    level: Level,
    max: usize,
) -> Result<(), AllocError>
    requires well { IsPath (parts_of nested.now) }
    requires parts { length nested.now ≤ 128 }
    requires max { max ≡ greatest level (parts_of nested.now) }
    requires some { 0 < max }
    ensures ok { OnOk result ((width : ℕ) × IsWidth max width × AppendsRuns width buffer.old.items buffer.new.items
        (map (level_of level) (path_pairs (parts_of nested.now)))) }
    ensures kept { Extends buffer.old.items buffer.new.items }
{
    let mut writer = RunWriter::new(get_bit_width(max as u64));
    let above = Above {
        rep: 0,
        def: 0,
        depth: 0,
    };
    walk(
        buffer,
        &mut writer,
        level,
        nested,
        above,
        0,
        slot_count(nested),
    )?;
    writer.finish(buffer)
}

// Appends the section of a version 1 page behind its length, and gives the length of both.
fn push_behind_length(
    buffer: &mut Vec<u8>,
    nested: &[Nested],
    level: Level,
    max: usize,
) -> Result<usize, AllocError>
    requires well { IsPath (parts_of nested.now) }
    requires parts { length nested.now ≤ 128 }
    requires max { max ≡ greatest level (parts_of nested.now) }
    requires some { 0 < max }
    requires few { length (path_pairs (parts_of nested.now)) < 2 ^ 30 }
    ensures ok { IfOk result (λ size. AppendsOne V1 max buffer.old.items buffer.new.items
        (map (level_of level) (path_pairs (parts_of nested.now))) size) }
    ensures kept { Extends buffer.old.items buffer.new.items }
{
    let at = buffer.len();
    buffer.extend_from_slice(&[0; 4])?;
    push_runs(buffer, nested, level, max)?;
    let size = buffer.len() - at;
    put_number(buffer, at, (size - 4) as u32);
    Ok(size)
}

// Appends the section of a version 2 page, and gives its length.
fn push_alone(
    buffer: &mut Vec<u8>,
    nested: &[Nested],
    level: Level,
    max: usize,
) -> Result<usize, AllocError>
    requires well { IsPath (parts_of nested.now) }
    requires parts { length nested.now ≤ 128 }
    requires max { max ≡ greatest level (parts_of nested.now) }
    requires some { 0 < max }
    ensures ok { IfOk result (λ size. AppendsOne V2 max buffer.old.items buffer.new.items
        (map (level_of level) (path_pairs (parts_of nested.now))) size) }
    ensures kept { Extends buffer.old.items buffer.new.items }
{
    let at = buffer.len();
    push_runs(buffer, nested, level, max)?;
    Ok(buffer.len() - at)
}

// Appends the section of a path's levels, and gives its length; nothing where the greatest level is 0.
pub fn push_section(
    buffer: &mut Vec<u8>,
    nested: &[Nested],
    level: Level,
    version: Version,
) -> Result<usize, AllocError>
    requires well { IsPath (parts_of nested.now) }
    requires parts { length nested.now ≤ 128 }
    requires few { length (path_pairs (parts_of nested.now)) < 2 ^ 30 }
    ensures ok { IfOk result (λ size. AppendsOne version (greatest level
        (parts_of nested.now)) buffer.old.items buffer.new.items
        (map (level_of level) (path_pairs (parts_of nested.now))) size) }
    ensures kept { Extends buffer.old.items buffer.new.items }
{
    let max = greatest(nested, level);
    if max == 0 {
        return Ok(0);
    }
    match version {
        Version::V1 => push_behind_length(buffer, nested, level, max),
        Version::V2 => push_alone(buffer, nested, level, max),
    }
}
