//! A page whose values a caller spells.
ghost use Rattle.std.specs.Prelude.{◌≡◌, ◌⊎◌, ◌*◌, ◌≤◌, ℕ, true, false, length, IfOk, IfErr, [], option_map};
ghost use Rattle.columns_base.specs.declared.error.Error.TheVariants.{Memory, NotYetImplemented, Overflow};
ghost use Rattle.columns_base.specs.declared.error.N.TheVariants.{N5};
ghost use Rattle.columns_base.specs.declared.error.V.TheVariants.{V3};
ghost use Rattle.columns_array.specs.Boxed.{boxed};
ghost use Rattle.columns_core.specs.Shapes.{base, leaf_type};
ghost use Rattle.columns_slots.specs.Slots.{tree_len, type_of};
ghost use Rattle.leaf_pages.specs.Columns.{FitsArray, IsValueArray, IsTooWide, IsTooLarge, column_along, column_pairs, is_in_pages};
ghost use Rattle.leaf_pages.specs.Encoded.{HoldsValues, stored_pairs};
ghost use Rattle.leaf_pages.specs.Forms.{IsPageNamed};
ghost use Rattle.level_sections.specs.Sections.{AppendsSections};
ghost use Rattle.levels.specs.Nested.{nested_column, parts_of};
ghost use Rattle.levels.specs.Ranges.{leaf_count_or};
ghost use Rattle.pq_files.specs.Page.{Encoding as PageEncoding};
ghost use Rattle.pq_files.specs.Room.{level_room, max_size};
ghost use Rattle.pq_files.specs.Stored.{AreStored};
ghost use Rattle.pq_tree.specs.Reads.{ComesWhere};
ghost use Rattle.pq_tree.specs.Views.{physical_view};
ghost use Rattle.shredding.specs.Parts.{IsPath, path_way};
ghost use Rattle.shredding.specs.Slot.{Value};
ghost use Rattle.write_places.specs.Places.{path_places};
ghost use Rattle.write_values.specs.Deltas.{encoding_name};
ghost use Rattle.write_values.specs.Nulls.{TellsNulls};
ghost use Rattle.write_values.specs.Pages.{column_room};
ghost use Rattle.write_values.specs.Rows.{Measures};
ghost use Rattle.write_values.specs.Served.{is_served};
ghost use Rattle.write_values.specs.Stored.{stored_at};

use crate::checked::is_in_pages;
use columns_array::ArrayBox;
use columns_base::{Error, N, PhysicalType, Result, V};
use level_sections::write_rep_and_def;
use levels::{Nested, num_values, slot_count};
use pq_pages::DataPage;
use pq_tree::{Encoding, PrimitiveType, Version};
use std::alloc::Global;
use write_pages::WriteOptions;
use write_values::{
    Body, Counts, Measured, column_statistics, descriptor_of, has_room, measure_values, page_header,
};

/// The body of a page, and how many values stand in it.
#[derive(Drop)]
pub struct Encoded {
    pub body: Body,
    pub values: usize,
}

// The values that a path reaches, which are written under the physical type.
fn measured(array: &ArrayBox, physical_type: PhysicalType, nested: &[Nested]) -> Measured
    requires well { IsPath (parts_of nested.now) }
    requires leaf { tree_len (boxed array.now) ≡ leaf_count_or 0 (parts_of nested.now) }
    requires nulls { TellsNulls (boxed array.now) (parts_of nested.now) }
    requires served { is_served (base (type_of (boxed array.now))) (physical_view physical_type) ≡ true }
    ensures { Measures (physical_view physical_type) (tree_len (boxed array.now))
        (stored_at (boxed array.now) (physical_view physical_type)) (path_places (parts_of nested.now)) result }
{
    match measure_values(array, physical_type, nested) {
        Some(measured) => measured,
        None => unreachable!(),
    }
}

// The number of the values that a page along a path is to have.
pub fn count_values(array: &ArrayBox, type_: &PrimitiveType, nested: &[Nested]) -> Result<usize>
    requires well { IsPath (parts_of nested.now) }
    requires values { IsValueArray (boxed array.now) }
    requires fits { FitsArray (column_along type_.now nested.now (boxed array.now)) }
    requires held { ¬ IsTooWide (column_along type_.now nested.now (boxed array.now)) }
    ensures ok { IfOk result (λ n. n ≡ length (path_places (parts_of nested.now))) }
    ensures written { IfOk result (λ n. is_in_pages (boxed array.now) ≡ true) }
    ensures stored { IfOk result (λ n. AreStored (leaf_type (type_of (boxed array.now)))
        (physical_view type_.now.physical_type) (column_pairs (column_along type_.now nested.now (boxed array.now)))
        (stored_pairs (column_along type_.now nested.now (boxed array.now)))) }
    ensures room { IfOk result (λ n. column_room (physical_view type_.now.physical_type)
        (stored_pairs (column_along type_.now nested.now (boxed array.now))) ≤ max_size) }
    ensures few { (values : ℕ → Value) → IfOk result (λ n. level_room (length (nested_column values nested.now))
        ≤ max_size) }
    ensures unserved { ComesWhere (NotYetImplemented N5) (is_in_pages (boxed array.now) ≡ false) result }
    ensures too_large { ComesWhere (Overflow V3) ((is_in_pages (boxed array.now) ≡ true)
        × IsTooLarge (column_along type_.now nested.now (boxed array.now))) result }
    ensures err { IfErr result (λ e. (e ≡ NotYetImplemented N5) ⊎ (e ≡ Overflow V3)) }
{
    array.know();
    if !is_in_pages(array) {
        return Err(Error::NotYetImplemented(N::N5));
    }
    let measured = measured(array, type_.physical_type, nested);
    if !has_room(num_values(nested), measured.plain) {
        return Err(Error::Overflow(V::V3));
    }
    Ok(measured.values)
}

// The level sections of a page along a path.
pub fn level_body(alloc: Global, version: Version, nested: &[Nested]) -> Result<Body>
    requires well { IsPath (parts_of nested.now) }
    requires parts { length nested.now ≤ 128 }
    requires few { (values : ℕ → Value) → level_room (length (nested_column values nested.now)) ≤ max_size }
    ensures ok { (values : ℕ → Value) → IfOk result
        (λ body. AppendsSections version (path_way (parts_of nested.now))
        (nested_column values nested.now) [] body.buffer.items (body.repetition, body.definition)) }
    ensures err { IfErr result (λ e. e ≡ Memory) }
{
    let mut buffer = Vec::new(alloc);
    match write_rep_and_def(version, nested, &mut buffer) {
        Ok((repetition, definition)) => Ok(Body {
            buffer,
            repetition,
            definition,
        }),
        Err(error) => Err(error),
    }
}

// The page along a path whose body is made.
pub fn encoded_page(
    alloc: Global,
    array: &ArrayBox,
    type_: PrimitiveType,
    nested: &[Nested],
    options: WriteOptions,
    encoding: Encoding,
    encoded: Encoded,
) -> Result<DataPage>
    requires well { IsPath (parts_of nested.now) }
    requires parts { length nested.now ≤ 128 }
    requires values { IsValueArray (boxed array.now) }
    requires fits { FitsArray (column_along type_ nested.now (boxed array.now)) }
    requires held { ¬ IsTooWide (column_along type_ nested.now (boxed array.now)) }
    requires written { is_in_pages (boxed array.now) ≡ true }
    requires stored { AreStored (leaf_type (type_of (boxed array.now))) (physical_view type_.physical_type)
        (column_pairs (column_along type_ nested.now (boxed array.now)))
        (stored_pairs (column_along type_ nested.now (boxed array.now))) }
    requires room { column_room (physical_view type_.physical_type)
        (stored_pairs (column_along type_ nested.now (boxed array.now))) ≤ max_size }
    requires count { encoded.values ≡ length (path_places (parts_of nested.now)) }
    requires holds { (e : PageEncoding) × (encoding ≡ encoding_name e)
        × HoldsValues options.version e (column_along type_ nested.now (boxed array.now)) encoded.body.buffer.items
        (encoded.body.repetition, encoded.body.definition) }
    ensures ok { IfOk result (IsPageNamed options encoding (column_along type_ nested.now (boxed array.now))) }
    ensures err { IfErr result (λ e. e ≡ Memory) }
{
    array.know();
    let wanted = options.write_statistics;
    let statistics = column_statistics(alloc, array, type_.physical_type, nested, wanted)?;
    let pairs = num_values(nested);
    let rows = slot_count(nested);
    let counts = Counts {
        pairs: pairs as u32,
        nulls: (pairs - encoded.values) as u32,
        rows: rows as u32,
    };
    let header = page_header(options.version, encoding, counts, statistics, &encoded.body);
    let descriptor = descriptor_of(type_, nested);
    Ok(DataPage::new(header, encoded.body.buffer, descriptor, Some(rows)))
}
