//! The values that a path reaches, spelled.
ghost use Rattle.std.specs.Prelude.{◌≡◌, ◌≤◌, ◌<◌, ◌^◌, true, List, length, map, IfSome, IfOk, OnOk, IfErr};
ghost use Rattle.columns_base.specs.declared.error.Error.TheVariants.{Memory};
ghost use Rattle.columns_core.specs.Shapes.{base};
ghost use Rattle.columns_slots.specs.Slots.{tree_len, type_of};
ghost use Rattle.levels.specs.Nested.{parts_of};
ghost use Rattle.levels.specs.Ranges.{leaf_count_or};
ghost use Rattle.shredding.specs.Parts.{IsPath};
ghost use Rattle.shredding.specs.Slot.{Value};
ghost use Rattle.pq_tree.specs.Physical.{Physical};
ghost use Rattle.pq_files.specs.Layout.{plain_length};
ghost use Rattle.pq_files.specs.Plain.{IsPlain};
ghost use Rattle.pq_files.specs.Room.{max_size};
ghost use Rattle.write_places.specs.Places.{path_places};
ghost use Rattle.write_values.specs.Deltas.{AppendsSpelled, AreDeltasOf, delta_in, encoding_in};
ghost use Rattle.write_values.specs.Leaf.{leaf_tree, leaf_physical};
ghost use Rattle.write_values.specs.Nulls.{TellsNulls};
ghost use Rattle.write_values.specs.Rows.{AppendsPlain};
ghost use Rattle.write_values.specs.Served.{is_served};
ghost use Rattle.write_values.specs.Stored.{stored_at};

use crate::deltas::push_deltas;
use crate::leaf::Leaf;
use crate::measured::Measured;
use crate::spelling::Deltas;
use crate::values::push_values;
use columns_core::Result;
use levels::Nested;
use std::alloc::Global;

// Appends the plain spelling of the values that a path reaches, which has so many bytes.
fn push_plain(
    alloc: Global,
    leaf: Leaf<'_>,
    nested: &[Nested],
    size: usize,
    out: Vec<u8>,
) -> Result<Vec<u8>>
    requires well { IsPath (parts_of nested.now) }
    requires leaf { leaf_count_or 0 (parts_of nested.now) ≤ tree_len (leaf_tree leaf) }
    requires served { is_served (base (type_of (leaf_tree leaf))) (leaf_physical leaf) ≡ true }
    requires nulls { TellsNulls (leaf_tree leaf) (parts_of nested.now) }
    requires small { plain_length (leaf_physical leaf) (map (stored_at (leaf_tree leaf) (leaf_physical leaf))
        (path_places (parts_of nested.now))) ≤ max_size }
    ensures ok { IfOk result (λ body. AppendsPlain (leaf_physical leaf.entry) out.items body.items
        (map (stored_at (leaf_tree leaf.entry) (leaf_physical leaf.entry)) (path_places (parts_of nested.now)))) }
    ensures err { IfErr result (λ e. e ≡ Memory) }
{
    let mut out = out;
    out.reserve(size)?;
    push_values(alloc, leaf, nested, out)
}

// Appends the values that a path reaches, whose plain spelling has at most 2^31 - 1 bytes. Deltas are taken of the values in the leaf array, and
// take no memory beside that of the section.
pub fn push_spelled(
    alloc: Global,
    leaf: Leaf<'_>,
    nested: &[Nested],
    measured: Measured,
    deltas: Option<Deltas>,
    out: Vec<u8>,
) -> Result<Vec<u8>>
    requires well { IsPath (parts_of nested.now) }
    requires leaf { leaf_count_or 0 (parts_of nested.now) ≤ tree_len (leaf_tree leaf) }
    requires served { is_served (base (type_of (leaf_tree leaf))) (leaf_physical leaf) ≡ true }
    requires nulls { TellsNulls (leaf_tree leaf) (parts_of nested.now) }
    requires deltas { IfSome deltas (AreDeltasOf (leaf_physical leaf)) }
    requires count { measured.values ≡ length (path_places (parts_of nested.now)) }
    requires size { measured.plain ≤ max_size }
    requires small { plain_length (leaf_physical leaf) (map (stored_at (leaf_tree leaf) (leaf_physical leaf))
        (path_places (parts_of nested.now))) ≤ max_size }
    ensures ok { IfOk result (λ body. AppendsSpelled (encoding_in deltas)
        (leaf_physical leaf.entry) out.items body.items (map
        (stored_at (leaf_tree leaf.entry) (leaf_physical leaf.entry)) (path_places (parts_of nested.now)))) }
    ensures err { IfErr result (λ e. e ≡ Memory) }
{
    match deltas {
        None => {
            let out = push_plain(alloc, leaf, nested, measured.plain as usize, out)?;
            Ok(out)
        }
        Some(_) => push_deltas(leaf, nested, measured.values, out),
    }
}
