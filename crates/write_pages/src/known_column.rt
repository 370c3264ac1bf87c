//! A column with all its rows, and what is known of its values.
ghost use Rattle.std.specs.Prelude.{◌≡◌, ◌⊎◌, ◌+◌, ◌≤◌, true, None, length, take, drop, option_map, All, IfOk, IfErr};
ghost use Rattle.shredding.specs.Along.{IsAlong};
ghost use Rattle.shredding.specs.Parts.{IsPath, path_way, path_slots, slot_count};
ghost use Rattle.shredding.specs.Shred.{column};
ghost use Rattle.columns_base.specs.declared.error.Error.TheVariants.{Memory, InvalidArgumentError, Overflow};
ghost use Rattle.columns_base.specs.declared.error.A.TheVariants.{A7};
ghost use Rattle.columns_base.specs.declared.error.V.TheVariants.{V3};
ghost use Rattle.columns_array.specs.Boxed.{boxed};
ghost use Rattle.columns_core.specs.Shapes.{base, leaf_type};
ghost use Rattle.columns_slots.specs.Slots.{tree_len, type_of};
ghost use Rattle.levels.specs.InBounds.{IsInBounds};
ghost use Rattle.levels.specs.Nested.{parts_of};
ghost use Rattle.levels.specs.Ranges.{leaf_count_or};
ghost use Rattle.nested_paths.specs.Seen.{leaf_slot};
ghost use Rattle.page_statistics.specs.Stated.{AreStated};
ghost use Rattle.pq_tree.specs.TreeViews.{leaf_view};
ghost use Rattle.pq_tree.specs.Views.{physical_view, statistics_view};
ghost use Rattle.write_places.specs.Places.{path_places};
ghost use Rattle.write_values.specs.Deltas.{page_encoding};
ghost use Rattle.write_values.specs.Known.{AreKnown};
ghost use Rattle.write_values.specs.Nulls.{TellsNulls};
ghost use Rattle.write_values.specs.Rows.{Measures};
ghost use Rattle.write_values.specs.Served.{is_served};
ghost use Rattle.write_values.specs.Stored.{stored_at};
ghost use Rattle.write_pages.specs.CutColumns.{IsCutColumn};
ghost use Rattle.write_pages.specs.Holds.{HoldsRows, rows_of};
ghost use Rattle.write_pages.specs.KnownColumns.{IsKnown, IsKnownRows, all_triples};
ghost use Rattle.write_pages.specs.Refused.{HasWide, IsPastRoom};
ghost use Rattle.write_pages.specs.Sized.{AreMeasured};

use crate::cut_column::{CutColumn, cut_column, seen_column};
use crate::known_pages::{KnownPage, found_statistics};
use crate::options::WriteOptions;
use crate::page::check_held;
use crate::rule::page_rows;
use columns_array::ArrayBox;
use columns_core::Result;
use levels::{Nested, slot_count};
use pq_pages::DataPage;
use pq_tree::{PhysicalType, PrimitiveType};
use std::alloc::Global;
use write_values::{Known, Measured, PageForm, data_page_with, known_values};

// A path and its leaf array with all their rows, and what is known of the values that the path reaches, of pages of it too where there are several.
#[derive(Drop)]
pub struct KnownColumn {
    pub rows: CutColumn,
    pub known: Known,
    pub pages: Vec<KnownPage>,
}

// All rows of a path in bounds, of whose values none is a decimal past what its physical type holds.
fn held_rows(
    alloc: Global,
    array: &ArrayBox,
    physical_type: PhysicalType,
    nested: &[Nested],
) -> Result<CutColumn>
    requires in_bounds { IsInBounds (parts_of nested.now) }
    requires leaf { tree_len (boxed array.now) ≡ leaf_count_or 0 (parts_of nested.now) }
    requires reached { All (IsAlong (path_way (parts_of nested.now)))
        (rows_of (parts_of nested.now) (boxed array.now)) }
    requires served { is_served (base (type_of (boxed array.now))) (physical_view physical_type) ≡ true }
    ensures ok { IfOk result (IsCutColumn (boxed array.now) (parts_of nested.now) 0
        (slot_count (parts_of nested.now))) }
    ensures told { IfOk result (λ c. TellsNulls (boxed c.array) (parts_of c.nested.items)) }
    ensures held { IfOk result (λ _. ¬ HasWide (leaf_type (type_of (boxed array.now))) (physical_view physical_type)
        (all_triples (boxed array.now) (parts_of nested.now))) }
    ensures err { IfErr result (λ e. (e ≡ Memory) ⊎ ((e ≡ InvalidArgumentError A7)
        × HasWide (leaf_type (type_of (boxed array.now))) (physical_view physical_type)
        (all_triples (boxed array.now) (parts_of nested.now)))) }
{
    let rows = seen_column(alloc, array, nested, 0, slot_count(nested))?;
    check_held(&rows.array, physical_type, &rows.nested)?;
    Ok(rows)
}

// How many values a well-formed path reaches, and how many bytes they take.
fn measured_rows(
    alloc: Global,
    array: &ArrayBox,
    physical_type: PhysicalType,
    nested: &[Nested],
) -> Result<Measured>
    requires well { IsPath (parts_of nested.now) }
    requires leaf { tree_len (boxed array.now) ≡ leaf_count_or 0 (parts_of nested.now) }
    requires nulls { TellsNulls (boxed array.now) (parts_of nested.now) }
    requires served { is_served (base (type_of (boxed array.now))) (physical_view physical_type) ≡ true }
    requires held { ¬ HasWide (leaf_type (type_of (boxed array.now))) (physical_view physical_type)
        (column (path_way (parts_of nested.now)) (path_slots (leaf_slot (boxed array.now)) (parts_of nested.now))) }
    ensures measures { IfOk result (Measures (physical_view physical_type) (tree_len (boxed array.now))
        (stored_at (boxed array.now) (physical_view physical_type)) (path_places (parts_of nested.now))) }
    ensures measured { IfOk result (λ m. AreMeasured (leaf_type (type_of (boxed array.now)))
        (physical_view physical_type) (path_way (parts_of nested.now))
        (path_slots (leaf_slot (boxed array.now)) (parts_of nested.now)) m.plain) }
    ensures err { IfErr result (λ e. e ≡ Memory) }
{
    array.know();
    let known = known_values(alloc, array, physical_type, nested, false)?;
    Ok(known.measured)
}

// All rows of a path in bounds, and what is known of their values, none of which is a decimal past what its physical type holds.
pub fn known_column(
    alloc: Global,
    array: &ArrayBox,
    physical_type: PhysicalType,
    nested: &[Nested],
    is_wanted: bool,
    limit: Option<usize>,
) -> Result<KnownColumn>
    requires in_bounds { IsInBounds (parts_of nested.now) }
    requires leaf { tree_len (boxed array.now) ≡ leaf_count_or 0 (parts_of nested.now) }
    requires reached { All (IsAlong (path_way (parts_of nested.now)))
        (rows_of (parts_of nested.now) (boxed array.now)) }
    requires served { is_served (base (type_of (boxed array.now))) (physical_view physical_type) ≡ true }
    ensures ok { IfOk result (IsKnown is_wanted (boxed array.now) (parts_of nested.now) (physical_view physical_type)) }
    ensures held { IfOk result (λ _. ¬ HasWide (leaf_type (type_of (boxed array.now))) (physical_view physical_type)
        (column (path_way (parts_of nested.now)) (rows_of (parts_of nested.now) (boxed array.now)))) }
    ensures measured { IfOk result (λ c. AreMeasured (leaf_type (type_of (boxed array.now)))
        (physical_view physical_type) (path_way (parts_of nested.now))
        (rows_of (parts_of nested.now) (boxed array.now)) c.known.measured.plain) }
    ensures stated { IfOk result (λ c. AreStated is_wanted (leaf_type (type_of (boxed array.now)))
        (physical_view physical_type) (column (path_way (parts_of nested.now))
        (rows_of (parts_of nested.now) (boxed array.now))) (option_map statistics_view c.known.statistics)) }
    ensures err { IfErr result (λ e. (e ≡ Memory) ⊎ ((e ≡ InvalidArgumentError A7)
        × HasWide (leaf_type (type_of (boxed array.now))) (physical_view physical_type)
        (column (path_way (parts_of nested.now)) (rows_of (parts_of nested.now) (boxed array.now))))) }
{
    let rows = held_rows(alloc, array, physical_type, nested)?;
    rows.array.know();
    let measured = measured_rows(alloc, &rows.array, physical_type, &rows.nested)?;
    let per_page = page_rows(nested, limit, measured.plain);
    let found = found_statistics(
        alloc,
        array,
        physical_type,
        nested,
        &rows,
        measured.plain,
        per_page,
        is_wanted,
    )?;
    Ok(KnownColumn {
        rows,
        known: Known {
            measured,
            statistics: found.statistics,
        },
        pages: found.pages,
    })
}

// What is known of the same values.
fn copy_known(alloc: Global, known: &Known) -> Result<Known>
    ensures measured { IfOk result (λ k. k.measured ≡ known.now.measured) }
    ensures statistics { IfOk result (λ k. option_map statistics_view k.statistics
        ≡ option_map statistics_view known.now.statistics) }
    ensures err { IfErr result (λ e. e ≡ Memory) }
{
    match &known.statistics {
        None => Ok(Known {
            measured: known.measured,
            statistics: None,
        }),
        Some(statistics) => {
            let statistics = statistics.clone(alloc)?;
            Ok(Known {
                measured: known.measured,
                statistics: Some(statistics),
            })
        }
    }
}

// A page of a well-formed path over an array of whose values this is known.
fn known_page(
    alloc: Global,
    array: &ArrayBox,
    type_: PrimitiveType,
    nested: &[Nested],
    options: WriteOptions,
    with_deltas: bool,
    known: Known,
) -> Result<DataPage>
    requires well { IsPath (parts_of nested.now) }
    requires parts { length nested.now ≤ 128 }
    requires leaf { tree_len (boxed array.now) ≡ leaf_count_or 0 (parts_of nested.now) }
    requires nulls { TellsNulls (boxed array.now) (parts_of nested.now) }
    requires served { is_served (base (type_of (boxed array.now))) (physical_view type_.physical_type) ≡ true }
    requires held { ¬ HasWide (leaf_type (type_of (boxed array.now))) (physical_view type_.physical_type)
        (column (path_way (parts_of nested.now)) (path_slots (leaf_slot (boxed array.now)) (parts_of nested.now))) }
    requires known { AreKnown options.write_statistics (boxed array.now)
        (physical_view type_.physical_type) nested.now known }
    ensures ok { IfOk result (HoldsRows options
        (page_encoding with_deltas (leaf_type (type_of (boxed array.now))) (physical_view type_.physical_type))
        (leaf_type (type_of (boxed array.now))) (leaf_view type_) (physical_view type_.physical_type)
        (path_way (parts_of nested.now)) None (path_slots (leaf_slot (boxed array.now)) (parts_of nested.now))) }
    ensures err { IfErr result (λ e. (e ≡ Memory) ⊎ ((e ≡ Overflow V3)
        × IsPastRoom (leaf_type (type_of (boxed array.now))) (physical_view type_.physical_type)
        (column (path_way (parts_of nested.now)) (path_slots (leaf_slot (boxed array.now)) (parts_of nested.now))))) }
{
    array.know();
    let form = PageForm {
        version: options.version,
        with_statistics: options.write_statistics,
        with_deltas,
    };
    data_page_with(alloc, array, type_, nested, form, known)
}

// The page of all rows of a column, of whose values nothing is looked for again.
pub fn whole_page(
    alloc: Global,
    whole: &KnownColumn,
    type_: &PrimitiveType,
    options: WriteOptions,
    with_deltas: bool,
) -> Result<DataPage>
    requires well { IsPath (parts_of whole.now.rows.nested.items) }
    requires parts { length whole.now.rows.nested.items ≤ 128 }
    requires leaf { tree_len (boxed whole.now.rows.array) ≡ leaf_count_or 0 (parts_of whole.now.rows.nested.items) }
    requires nulls { TellsNulls (boxed whole.now.rows.array) (parts_of whole.now.rows.nested.items) }
    requires served { is_served (base (type_of (boxed whole.now.rows.array))) (physical_view type_.now.physical_type)
        ≡ true }
    requires held { ¬ HasWide (leaf_type (type_of (boxed whole.now.rows.array))) (physical_view type_.now.physical_type)
        (column (path_way (parts_of whole.now.rows.nested.items))
        (path_slots (leaf_slot (boxed whole.now.rows.array)) (parts_of whole.now.rows.nested.items))) }
    requires known { AreKnown options.write_statistics (boxed whole.now.rows.array)
        (physical_view type_.now.physical_type) whole.now.rows.nested.items whole.now.known }
    ensures ok { IfOk result (HoldsRows options
        (page_encoding with_deltas (leaf_type (type_of (boxed whole.now.rows.array)))
        (physical_view type_.now.physical_type)) (leaf_type (type_of (boxed whole.now.rows.array)))
        (leaf_view type_.now) (physical_view type_.now.physical_type)
        (path_way (parts_of whole.now.rows.nested.items)) None
        (path_slots (leaf_slot (boxed whole.now.rows.array)) (parts_of whole.now.rows.nested.items))) }
    ensures err { IfErr result (λ e. (e ≡ Memory) ⊎ ((e ≡ Overflow V3)
        × IsPastRoom (leaf_type (type_of (boxed whole.now.rows.array))) (physical_view type_.now.physical_type)
        (column (path_way (parts_of whole.now.rows.nested.items))
        (path_slots (leaf_slot (boxed whole.now.rows.array)) (parts_of whole.now.rows.nested.items))))) }
{
    let known = copy_known(alloc, &whole.known)?;
    let type_ = type_.clone(alloc)?;
    match known_page(
        alloc,
        &whole.rows.array,
        type_,
        &whole.rows.nested,
        options,
        with_deltas,
        known,
    ) {
        Ok(page) => Ok(page),
        Err(error) => Err(error),
    }
}

// The page of some rows of a path in bounds, of whose values this is known.
pub fn known_page_at(
    alloc: Global,
    array: &ArrayBox,
    type_: &PrimitiveType,
    nested: &[Nested],
    options: WriteOptions,
    with_deltas: bool,
    first: usize,
    count: usize,
    known: &Known,
) -> Result<DataPage>
    requires in_bounds { IsInBounds (parts_of nested.now) }
    requires parts { length nested.now ≤ 128 }
    requires leaf { tree_len (boxed array.now) ≡ leaf_count_or 0 (parts_of nested.now) }
    requires served { is_served (base (type_of (boxed array.now))) (physical_view type_.now.physical_type) ≡ true }
    requires held { ¬ HasWide (leaf_type (type_of (boxed array.now))) (physical_view type_.now.physical_type)
        (column (path_way (parts_of nested.now)) (rows_of (parts_of nested.now) (boxed array.now))) }
    requires rows { first + count ≤ slot_count (parts_of nested.now) }
    requires known { IsKnownRows options.write_statistics (boxed array.now) (parts_of nested.now)
        (physical_view type_.now.physical_type) first count known.now }
    ensures ok { IfOk result (HoldsRows options
        (page_encoding with_deltas (leaf_type (type_of (boxed array.now))) (physical_view type_.now.physical_type))
        (leaf_type (type_of (boxed array.now))) (leaf_view type_.now) (physical_view type_.now.physical_type)
        (path_way (parts_of nested.now)) None
        (take count (drop first (rows_of (parts_of nested.now) (boxed array.now))))) }
    ensures err { IfErr result (λ e. (e ≡ Memory) ⊎ ((e ≡ Overflow V3)
        × IsPastRoom (leaf_type (type_of (boxed array.now))) (physical_view type_.now.physical_type)
        (column (path_way (parts_of nested.now)) (take count
        (drop first (rows_of (parts_of nested.now) (boxed array.now))))))) }
{
    let rows = cut_column(alloc, array, nested, first, count)?;
    rows.array.know();
    let known = copy_known(alloc, known)?;
    let type_ = type_.clone(alloc)?;
    match known_page(
        alloc,
        &rows.array,
        type_,
        &rows.nested,
        options,
        with_deltas,
        known,
    ) {
        Ok(page) => Ok(page),
        Err(error) => Err(error),
    }
}
