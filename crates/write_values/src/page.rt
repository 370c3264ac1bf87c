//! Data pages.
ghost use Rattle.std.specs.Prelude.{option_map, ◌≡◌, ◌⊎◌, ◌↔◌, ◌<◌, ◌≤◌, ◌^◌, pos, true, false, All, length, map, IfSome, IfOk, IfErr, IsTrue};
ghost use Rattle.shredding.specs.Parts.{IsPath, path_way};
ghost use Rattle.shredding.specs.Shred.{max_repetition, max_definition};
ghost use Rattle.columns_base.specs.declared.error.Error.TheVariants.{Memory, Overflow, NotYetImplemented};
ghost use Rattle.columns_base.specs.declared.error.N.TheVariants.{N5};
ghost use Rattle.columns_base.specs.declared.error.V.TheVariants.{V3};
ghost use Rattle.columns_array.specs.Boxed.{boxed};
ghost use Rattle.columns_core.specs.Shapes.{base, leaf_type};
ghost use Rattle.columns_slots.specs.Slots.{tree_len, type_of};
ghost use Rattle.levels.specs.Nested.{parts_of};
ghost use Rattle.levels.specs.Ranges.{leaf_count_or};
ghost use Rattle.pq_tree.specs.Reads.{ComesWhere};
ghost use Rattle.pq_tree.specs.Views.{physical_view, statistics_view};
ghost use Rattle.pq_files.specs.Layout.{OutPage, plain_length};
ghost use Rattle.pq_files.specs.Page.{Encoding as PageEncoding};
ghost use Rattle.pq_files.specs.Room.{room, max_size};
ghost use Rattle.pq_files.specs.Stored.{AreStored};
ghost use Rattle.pq_pages.specs.DataPages.{number_in, stated_values, stated_encoding};
ghost use Rattle.write_places.specs.Places.{path_places};
ghost use Rattle.write_values.specs.Decimals.{HasWide};
ghost use Rattle.write_values.specs.Known.{AreKnown};
ghost use Rattle.write_values.specs.Leaf.{leaf_tree, leaf_physical};
ghost use Rattle.write_values.specs.Deltas.{AreDeltasOf, IsSpelling, encoding_in, encoding_name};
ghost use Rattle.write_values.specs.Nulls.{TellsNulls};
ghost use Rattle.write_values.specs.Pages.{column_room, stored_column, value_column, IsBody, IsColumnPage, IsHeader, IsOut};
ghost use Rattle.write_values.specs.Served.{is_served};
ghost use Rattle.write_values.specs.Stored.{stored_at};

use crate::known::Known;
use crate::leaf::{Leaf, leaf_of};
use crate::measured::Measured;
use crate::spelled::push_spelled;
use crate::spelling::{Deltas, encoding_in, encoding_number, spelling_of};
use crate::statistics::leaf_statistics;
use crate::values::measure;
use columns_array::ArrayBox;
use columns_core::{Error, N, Result, V};
use level_sections::write_rep_and_def;
use levels::{Nested, max_def_level, max_rep_level, num_values, slot_count};
use pq_pages::DataPage;
use pq_tree::{
    DataPageHeader, DataPageHeaderV1, DataPageHeaderV2, Descriptor, Encoding, PrimitiveType,
    Statistics, Version,
};
use std::alloc::Global;

// The largest size that a header tells.
const MAX_SIZE: usize = 2_147_483_647;

/// The form of a page.
#[derive(Clone, Copy, Debug, PartialEq, Eq, Drop)]
pub struct PageForm {
    pub version: Version,
    /// Whether statistics stand in its header.
    pub with_statistics: bool,
    /// Whether its values are spelled by deltas where their type allows them.
    pub with_deltas: bool,
}

/// The body of a data page.
#[derive(Drop)]
pub struct Body {
    pub buffer: Vec<u8>,
    /// The lengths of its level sections.
    pub repetition: usize,
    pub definition: usize,
}

/// What the header of a data page counts.
#[derive(Clone, Copy, Drop)]
pub struct Counts {
    /// The pairs of levels.
    pub pairs: u32,
    /// Those without a value.
    pub nulls: u32,
    pub rows: u32,
}

/// Whether a page of so many pairs or entries, whose values have so many plain bytes, is within the sizes that its header tells.
pub fn has_room(pairs: usize, plain: u128) -> bool
    ensures { IsTrue result ↔ (room pairs plain ≤ max_size) }
{
    if pairs > MAX_SIZE {
        return false;
    }
    if plain > MAX_SIZE as u128 {
        return false;
    }
    2048 + 14 * pairs + plain as usize <= MAX_SIZE
}

// The bytes of values that a body has room for from the start: all that are plain.
fn plain_room(plain: u128, deltas: Option<Deltas>) -> usize
    requires { plain ≤ max_size }
    ensures { result ≤ max_size }
{
    match deltas {
        None => plain as usize,
        Some(_) => 0,
    }
}

// The body of a page of so many pairs, whose values are so many and have so many plain bytes.
fn page_body(
    alloc: Global,
    leaf: Leaf<'_>,
    nested: &[Nested],
    version: Version,
    pairs: usize,
    measured: Measured,
    deltas: Option<Deltas>,
) -> Result<Body>
    requires well { IsPath (parts_of nested.now) }
    requires parts { length nested.now ≤ 128 }
    requires leaf { leaf_count_or 0 (parts_of nested.now) ≤ tree_len (leaf_tree leaf) }
    requires served { is_served (base (type_of (leaf_tree leaf))) (leaf_physical leaf) ≡ true }
    requires nulls { TellsNulls (leaf_tree leaf) (parts_of nested.now) }
    requires deltas { IfSome deltas (AreDeltasOf (leaf_physical leaf)) }
    requires count { measured.values ≡ length (path_places (parts_of nested.now)) }
    requires pairs { pairs ≤ max_size }
    requires size { measured.plain ≤ max_size }
    requires small { plain_length (leaf_physical leaf) (map (stored_at (leaf_tree leaf) (leaf_physical leaf))
        (path_places (parts_of nested.now))) ≤ max_size }
    requires room { column_room (leaf_physical leaf) (stored_column (leaf_tree leaf) (leaf_physical leaf) nested.now)
        ≤ max_size }
    ensures ok { IfOk result (IsBody version (encoding_in deltas) (leaf_physical leaf.entry) nested.now
        (stored_at (leaf_tree leaf.entry) (leaf_physical leaf.entry))) }
    ensures err { IfErr result (λ e. e ≡ Memory) }
{
    let room = plain_room(measured.plain, deltas);
    let mut buffer = Vec::with_capacity(alloc, room + pairs / 4 + 64)?;
    let (repetition, definition) = write_rep_and_def(version, nested, &mut buffer)?;
    let buffer = push_spelled(alloc, leaf, nested, measured, deltas, buffer)?;
    Ok(Body {
        buffer,
        repetition,
        definition,
    })
}

/// The header of a data page with these statistics, whose values are in this encoding (Parquet format, parquet.thrift: `DataPageHeader`,
/// `DataPageHeaderV2`).
#[tactic(auto, using(crate::proofs::ServedDeltas::named_number))]
pub fn page_header(
    version: Version,
    encoding: Encoding,
    counts: Counts,
    statistics: Option<Statistics>,
    body: &Body,
) -> DataPageHeader
    requires pairs { counts.pairs < 2 ^ 31 }
    requires nulls { counts.nulls < 2 ^ 31 }
    requires rows { counts.rows < 2 ^ 31 }
    requires repetition { body.now.repetition < 2 ^ 31 }
    requires definition { body.now.definition < 2 ^ 31 }
    ensures values { stated_values result ≡ pos counts.pairs }
    ensures encoding { stated_encoding result ≡ number_in encoding }
    ensures is { (e : PageEncoding) (out : OutPage) → encoding ≡ encoding_name e
        → IsOut e out (option_map statistics_view statistics) counts.pairs counts.nulls counts.rows
        → IsHeader version out body.now.repetition body.now.definition result }
{
    match version {
        Version::V1 => DataPageHeader::V1(DataPageHeaderV1 {
            num_values: counts.pairs as i32,
            encoding: encoding_number(encoding),
            definition_level_encoding: Some(3),
            repetition_level_encoding: Some(3),
            statistics,
        }),
        Version::V2 => DataPageHeader::V2(DataPageHeaderV2 {
            num_values: counts.pairs as i32,
            num_nulls: Some(counts.nulls as i32),
            num_rows: counts.rows as i32,
            encoding: encoding_number(encoding),
            definition_levels_byte_length: body.definition as i32,
            repetition_levels_byte_length: body.repetition as i32,
            is_compressed: Some(false),
            statistics,
        }),
    }
}

fn level_number(level: usize) -> i16
    requires { level ≤ 256 }
    ensures { result ≡ pos level }
{
    level as i16
}

/// The leaf with the greatest levels of its well-formed path.
pub fn descriptor_of(type_: PrimitiveType, nested: &[Nested]) -> Descriptor
    requires well { IsPath (parts_of nested.now) }
    requires parts { length nested.now ≤ 128 }
    ensures about { result.primitive_type ≡ type_ }
    ensures repeats { result.max_rep_level ≡ pos (max_repetition (path_way (parts_of nested.now))) }
    ensures defines { result.max_def_level ≡ pos (max_definition (path_way (parts_of nested.now))) }
{
    Descriptor {
        primitive_type: type_,
        max_def_level: level_number(max_def_level(nested)),
        max_rep_level: level_number(max_rep_level(nested)),
    }
}

// A page of a leaf array whose values are written, spelled so, of which this is known.
fn page_with(
    alloc: Global,
    leaf: Leaf<'_>,
    type_: PrimitiveType,
    nested: &[Nested],
    form: PageForm,
    deltas: Option<Deltas>,
    known: Known,
) -> Result<DataPage>
    requires well { IsPath (parts_of nested.now) }
    requires parts { length nested.now ≤ 128 }
    requires leaf { leaf_count_or 0 (parts_of nested.now) ≤ tree_len (leaf_tree leaf) }
    requires served { is_served (base (type_of (leaf_tree leaf))) (leaf_physical leaf) ≡ true }
    requires nulls { TellsNulls (leaf_tree leaf) (parts_of nested.now) }
    requires known { AreKnown form.with_statistics (leaf_tree leaf) (leaf_physical leaf) nested.now known }
    requires spelling { IsSpelling form.with_deltas (leaf_type (type_of (leaf_tree leaf))) (leaf_physical leaf) deltas }
    ensures ok { IfOk result (IsColumnPage form (leaf_tree leaf.entry) (leaf_physical leaf.entry) type_ nested.now) }
    ensures err { IfErr result (λ e. (e ≡ Memory) ⊎ ((e ≡ Overflow V3)
        × (max_size < column_room (leaf_physical leaf.entry)
        (stored_column (leaf_tree leaf.entry) (leaf_physical leaf.entry) nested.now)))) }
{
    let measured = known.measured;
    let pairs = num_values(nested);
    if !has_room(pairs, measured.plain) {
        return Err(Error::Overflow(V::V3));
    }
    let body = page_body(alloc, leaf, nested, form.version, pairs, measured, deltas)?;
    let rows = slot_count(nested);
    let counts = Counts {
        pairs: pairs as u32,
        nulls: (pairs - measured.values) as u32,
        rows: rows as u32,
    };
    let encoding = encoding_in(deltas);
    let header = page_header(form.version, encoding, counts, known.statistics, &body);
    let descriptor = descriptor_of(type_, nested);
    Ok(DataPage::new(header, body.buffer, descriptor, Some(rows)))
}

// A page of a leaf array whose values are written, spelled so.
fn leaf_page(
    alloc: Global,
    leaf: Leaf<'_>,
    type_: PrimitiveType,
    nested: &[Nested],
    form: PageForm,
    deltas: Option<Deltas>,
) -> Result<DataPage>
    requires well { IsPath (parts_of nested.now) }
    requires parts { length nested.now ≤ 128 }
    requires leaf { leaf_count_or 0 (parts_of nested.now) ≤ tree_len (leaf_tree leaf) }
    requires served { is_served (base (type_of (leaf_tree leaf))) (leaf_physical leaf) ≡ true }
    requires nulls { TellsNulls (leaf_tree leaf) (parts_of nested.now) }
    requires held { ¬ HasWide (leaf_type (type_of (leaf_tree leaf))) (leaf_physical leaf)
        (value_column (leaf_tree leaf) nested.now) }
    requires spelling { IsSpelling form.with_deltas (leaf_type (type_of (leaf_tree leaf))) (leaf_physical leaf) deltas }
    ensures ok { IfOk result (IsColumnPage form (leaf_tree leaf.entry) (leaf_physical leaf.entry) type_ nested.now) }
    ensures places { All (λ i. i < tree_len (leaf_tree leaf.entry)) (path_places (parts_of nested.now)) }
    ensures err { IfErr result (λ e. (e ≡ Memory) ⊎ ((e ≡ Overflow V3)
        × (max_size < column_room (leaf_physical leaf.entry)
        (stored_column (leaf_tree leaf.entry) (leaf_physical leaf.entry) nested.now)))) }
{
    let measured = measure(leaf, nested);
    let statistics = leaf_statistics(alloc, leaf, nested, form.with_statistics)?;
    let known = Known {
        measured,
        statistics,
    };
    page_with(alloc, leaf, type_, nested, form, deltas, known)
}

/// One data page of the values that a path reaches in its leaf array, in the form that is asked for (Parquet format, "Data Pages",
/// "Nested Encoding"; Encodings, "Plain", "Delta Encoding" and "Delta-length byte array"). The page stands for the column of the slots of the
/// path: its levels, and at each present value the one that the physical type stores for it, by the page table. Where deltas are wanted INT32
/// and INT64 numbers are spelled in DELTA_BINARY_PACKED and BYTE_ARRAY strings in DELTA_LENGTH_BYTE_ARRAY, everything else in PLAIN. Its header
/// has the statistics of these values exactly where they are wanted (parquet.thrift: `Statistics`). What lies beneath nulls is not looked at.
/// The path is well formed, and its nulls are those of its masks: over an array of nulls alone it reaches no place, and nothing is spelled. The
/// physical type holds each decimal (`has_wide`).
///
/// # Errors
///
/// - `NotYetImplemented(N5)` exactly where values of the array's type are not written under the physical type (`is_served`).
/// - `Overflow(V3)` exactly where they are and the room of the page passes 2^31 - 1, whatever its encoding.
/// - `Memory`.
pub fn data_page(
    alloc: Global,
    array: &ArrayBox,
    type_: PrimitiveType,
    nested: &[Nested],
    form: PageForm,
) -> Result<DataPage>
    requires well { IsPath (parts_of nested.now) }
    requires parts { length nested.now ≤ 128 }
    requires leaf { tree_len (boxed array.now) ≡ leaf_count_or 0 (parts_of nested.now) }
    requires nulls { TellsNulls (boxed array.now) (parts_of nested.now) }
    requires held { ¬ HasWide (leaf_type (type_of (boxed array.now))) (physical_view type_.physical_type)
        (value_column (boxed array.now) nested.now) }
    ensures ok { IfOk result (IsColumnPage form (boxed array.now)
        (physical_view type_.physical_type) type_ nested.now) }
    ensures stored { is_served (base (type_of (boxed array.now))) (physical_view type_.physical_type) ≡ true
        → AreStored (leaf_type (type_of (boxed array.now))) (physical_view type_.physical_type)
        (value_column (boxed array.now) nested.now) (stored_column (boxed array.now)
        (physical_view type_.physical_type) nested.now) }
    ensures unserved { ComesWhere (NotYetImplemented N5) (is_served (base (type_of (boxed array.now)))
        (physical_view type_.physical_type) ≡ false) result }
    ensures too_large { ComesWhere (Overflow V3)
        ((is_served (base (type_of (boxed array.now))) (physical_view type_.physical_type) ≡ true)
        × (max_size < column_room (physical_view type_.physical_type)
        (stored_column (boxed array.now) (physical_view type_.physical_type) nested.now))) result }
    ensures err { IfErr result (λ e. (e ≡ Memory) ⊎ (e ≡ NotYetImplemented N5) ⊎ (e ≡ Overflow V3)) }
{
    array.know();
    let deltas = spelling_of(array.data_type(), type_.physical_type, form.with_deltas);
    match leaf_of(array, type_.physical_type) {
        Some(leaf) => leaf_page(alloc, leaf, type_, nested, form, deltas),
        None => Err(Error::NotYetImplemented(N::N5)),
    }
}

/// One data page, as `data_page` makes it, of values of which it is known how many there are, how many bytes they take and what their
/// statistics are (`known_values`): none of this is looked for again. Values of the array's type are written under the physical type.
///
/// # Errors
///
/// - `Overflow(V3)` exactly where the room of the page passes 2^31 - 1, whatever its encoding.
/// - `Memory`.
pub fn data_page_with(
    alloc: Global,
    array: &ArrayBox,
    type_: PrimitiveType,
    nested: &[Nested],
    form: PageForm,
    known: Known,
) -> Result<DataPage>
    requires well { IsPath (parts_of nested.now) }
    requires parts { length nested.now ≤ 128 }
    requires leaf { tree_len (boxed array.now) ≡ leaf_count_or 0 (parts_of nested.now) }
    requires nulls { TellsNulls (boxed array.now) (parts_of nested.now) }
    requires served { is_served (base (type_of (boxed array.now))) (physical_view type_.physical_type) ≡ true }
    requires held { ¬ HasWide (leaf_type (type_of (boxed array.now))) (physical_view type_.physical_type)
        (value_column (boxed array.now) nested.now) }
    requires known { AreKnown form.with_statistics (boxed array.now)
        (physical_view type_.physical_type) nested.now known }
    ensures ok { IfOk result (IsColumnPage form (boxed array.now)
        (physical_view type_.physical_type) type_ nested.now) }
    ensures stored { AreStored (leaf_type (type_of (boxed array.now))) (physical_view type_.physical_type)
        (value_column (boxed array.now) nested.now) (stored_column (boxed array.now)
        (physical_view type_.physical_type) nested.now) }
    ensures too_large { ComesWhere (Overflow V3) (max_size < column_room (physical_view type_.physical_type)
        (stored_column (boxed array.now) (physical_view type_.physical_type) nested.now)) result }
    ensures err { IfErr result (λ e. (e ≡ Memory) ⊎ (e ≡ Overflow V3)) }
{
    array.know();
    let deltas = spelling_of(array.data_type(), type_.physical_type, form.with_deltas);
    match leaf_of(array, type_.physical_type) {
        Some(leaf) => page_with(alloc, leaf, type_, nested, form, deltas, known),
        None => unreachable!(),
    }
}
