//! The pages of a column of values, one at a time.
ghost use Rattle.std.specs.Prelude.{◌≡◌, ◌⊎◌, ◌+◌, ◌<◌, ◌≤◌, take, drop, true, false, length, option_map, All, IfOk, IfErr};
ghost use Rattle.shredding.specs.Along.{IsAlong};
ghost use Rattle.shredding.specs.Parts.{path_way, slot_count};
ghost use Rattle.shredding.specs.Shred.{column};
ghost use Rattle.columns_base.specs.declared.error.Error.TheVariants.{Memory, Overflow};
ghost use Rattle.columns_base.specs.declared.error.V.TheVariants.{V3};
ghost use Rattle.columns_array.specs.Boxed.{boxed};
ghost use Rattle.columns_core.specs.Shapes.{base, leaf_type};
ghost use Rattle.columns_slots.specs.Slots.{tree_len, type_of};
ghost use Rattle.levels.specs.InBounds.{IsInBounds};
ghost use Rattle.levels.specs.Nested.{parts_of};
ghost use Rattle.levels.specs.Ranges.{leaf_count_or};
ghost use Rattle.pq_tree.specs.TreeViews.{leaf_view};
ghost use Rattle.schema_to_tree.specs.Encodes.{is_dictionary};
ghost use Rattle.pq_tree.specs.Views.{physical_view, statistics_view};
ghost use Rattle.write_values.specs.Deltas.{encoding_name, page_encoding};
ghost use Rattle.write_values.specs.Served.{is_served};
ghost use Rattle.write_pages.specs.Holds.{HoldsRows, IsPagesOf, rows_of, leaf_to_give};
ghost use Rattle.write_pages.specs.KnownColumns.{IsKnown, IsKnownPage};
ghost use Rattle.write_pages.specs.Refused.{AreWritten, Gives, HasWide, IsPastRoom, RefusesPages};

use crate::cut_column::{copy_path, seen_column};
use crate::fit::{check_fit, check_written, wants_deltas};
use crate::known_column::{KnownColumn, known_column, known_page_at, whole_page};
use crate::known_pages::{KnownPage, page_of};
use crate::options::WriteOptions;
use crate::page::page_of_rows;
use crate::rule::page_rows;
use columns_array::ArrayBox;
use columns_core::Result;
use levels::{Nested, slot_count};
use pq_pages::{DataPage, Page};
use pq_tree::{Encoding, PrimitiveType, Statistics};
use std::alloc::Global;
use std::marker::Model;
use write_values::page_encoding;

/// Gives the pages of a column of values in order, each when it is asked for. It shares the array and its path, and keeps no page. After an
/// error it gives nothing.
#[derive(Drop)]
pub struct LeafPages {
    alloc: Global,
    array: ArrayBox,
    nested: Vec<Nested>,
    type_: PrimitiveType,
    options: WriteOptions,
    with_deltas: bool,
    next: usize,
    per_page: usize,
    has_failed: bool,
    whole: KnownColumn,
}

impl Model for LeafPages {
    ghost use Rattle.std.specs.Coded.{codes};
    ghost use Rattle.columns_array.specs.Boxed.{boxed};
    ghost use Rattle.columns_slots.specs.Tree.{tree_code};
    ghost use Rattle.levels.specs.Nested.{parts_of};
    ghost use Rattle.std.specs.Prelude.{option_map};
    ghost use Rattle.pq_tree.specs.Views.{physical_view, statistics_view};
    ghost use Rattle.write_pages.specs.Holds.{LeafState};
    ghost use Rattle.write_pages.specs.KnownColumns.{IsKnown};
    ghost use Rattle.write_pages.specs.Sized.{IsReady};

    ghost Value = { LeafState };

    ghost coded = { Prim.hlevel (codes, tree_code) };

    ghost view = { λ s. record {
      options = s.options;
      with_deltas = s.with_deltas;
      type_ = s.type_;
      array = boxed s.array;
      parts = parts_of s.nested.items;
      next = s.next;
      per_page = s.per_page;
      has_failed = s.has_failed;
      statistics = option_map statistics_view s.whole.known.statistics;
    } };

    ghost invariant = { λ s. IsReady (boxed s.array) (parts_of s.nested.items)
        (physical_view s.type_.physical_type) s.per_page × IsKnown s.options.write_statistics (boxed s.array)
        (parts_of s.nested.items) (physical_view s.type_.physical_type) s.whole };
}

// The page of some rows of a path in bounds.
fn page_at(
    alloc: Global,
    array: &ArrayBox,
    type_: &PrimitiveType,
    nested: &[Nested],
    options: WriteOptions,
    with_deltas: bool,
    first: usize,
    count: usize,
) -> Result<DataPage>
    requires in_bounds { IsInBounds (parts_of nested.now) }
    requires parts { length nested.now ≤ 128 }
    requires reached { All (IsAlong (path_way (parts_of nested.now)))
        (rows_of (parts_of nested.now) (boxed array.now)) }
    requires leaf { tree_len (boxed array.now) ≡ leaf_count_or 0 (parts_of nested.now) }
    requires served { is_served (base (type_of (boxed array.now))) (physical_view type_.now.physical_type) ≡ true }
    requires held { ¬ HasWide (leaf_type (type_of (boxed array.now))) (physical_view type_.now.physical_type)
        (column (path_way (parts_of nested.now)) (rows_of (parts_of nested.now) (boxed array.now))) }
    requires rows { first + count ≤ slot_count (parts_of nested.now) }
    ensures ok { IfOk result (HoldsRows options
        (page_encoding with_deltas (leaf_type (type_of (boxed array.now))) (physical_view type_.now.physical_type))
        (leaf_type (type_of (boxed array.now))) (leaf_view type_.now) (physical_view type_.now.physical_type)
        (path_way (parts_of nested.now)) None
        (take count (drop first (rows_of (parts_of nested.now) (boxed array.now))))) }
    ensures err { IfErr result (λ e. (e ≡ Memory) ⊎ ((e ≡ Overflow V3)
        × IsPastRoom (leaf_type (type_of (boxed array.now))) (physical_view type_.now.physical_type)
        (column (path_way (parts_of nested.now)) (take count
        (drop first (rows_of (parts_of nested.now) (boxed array.now))))))) }
{
    let rows = seen_column(alloc, array, nested, first, count)?;
    let type_ = type_.clone(alloc)?;
    let page = page_of_rows(
        alloc,
        &rows.array,
        type_,
        &rows.nested,
        options,
        with_deltas,
    )?;
    Ok(page)
}

// The same, of a column of which some pages are known: of the values of these nothing is looked for again.
fn some_page(
    alloc: Global,
    array: &ArrayBox,
    type_: &PrimitiveType,
    nested: &[Nested],
    options: WriteOptions,
    with_deltas: bool,
    pages: &[KnownPage],
    first: usize,
    count: usize,
) -> Result<DataPage>
    requires in_bounds { IsInBounds (parts_of nested.now) }
    requires parts { length nested.now ≤ 128 }
    requires reached { All (IsAlong (path_way (parts_of nested.now)))
        (rows_of (parts_of nested.now) (boxed array.now)) }
    requires leaf { tree_len (boxed array.now) ≡ leaf_count_or 0 (parts_of nested.now) }
    requires served { is_served (base (type_of (boxed array.now))) (physical_view type_.now.physical_type) ≡ true }
    requires held { ¬ HasWide (leaf_type (type_of (boxed array.now))) (physical_view type_.now.physical_type)
        (column (path_way (parts_of nested.now)) (rows_of (parts_of nested.now) (boxed array.now))) }
    requires rows { first + count ≤ slot_count (parts_of nested.now) }
    requires known { All (IsKnownPage options.write_statistics (boxed array.now) (parts_of nested.now)
        (physical_view type_.now.physical_type)) pages.now }
    ensures ok { IfOk result (HoldsRows options
        (page_encoding with_deltas (leaf_type (type_of (boxed array.now))) (physical_view type_.now.physical_type))
        (leaf_type (type_of (boxed array.now))) (leaf_view type_.now) (physical_view type_.now.physical_type)
        (path_way (parts_of nested.now)) None
        (take count (drop first (rows_of (parts_of nested.now) (boxed array.now))))) }
    ensures err { IfErr result (λ e. (e ≡ Memory) ⊎ ((e ≡ Overflow V3)
        × IsPastRoom (leaf_type (type_of (boxed array.now))) (physical_view type_.now.physical_type)
        (column (path_way (parts_of nested.now)) (take count
        (drop first (rows_of (parts_of nested.now) (boxed array.now))))))) }
{
    match page_of(pages, first, count) {
        Some(known) => known_page_at(
            alloc,
            array,
            type_,
            nested,
            options,
            with_deltas,
            first,
            count,
            known,
        ),
        None => page_at(
            alloc,
            array,
            type_,
            nested,
            options,
            with_deltas,
            first,
            count,
        ),
    }
}

// The same, of a column all of whose rows are known: where the page has them all, nothing is looked for again.
fn piece_page(
    alloc: Global,
    array: &ArrayBox,
    type_: &PrimitiveType,
    nested: &[Nested],
    options: WriteOptions,
    with_deltas: bool,
    whole: &KnownColumn,
    first: usize,
    count: usize,
) -> Result<DataPage>
    requires in_bounds { IsInBounds (parts_of nested.now) }
    requires parts { length nested.now ≤ 128 }
    requires reached { All (IsAlong (path_way (parts_of nested.now)))
        (rows_of (parts_of nested.now) (boxed array.now)) }
    requires leaf { tree_len (boxed array.now) ≡ leaf_count_or 0 (parts_of nested.now) }
    requires served { is_served (base (type_of (boxed array.now))) (physical_view type_.now.physical_type) ≡ true }
    requires held { ¬ HasWide (leaf_type (type_of (boxed array.now))) (physical_view type_.now.physical_type)
        (column (path_way (parts_of nested.now)) (rows_of (parts_of nested.now) (boxed array.now))) }
    requires rows { first + count ≤ slot_count (parts_of nested.now) }
    requires known { IsKnown options.write_statistics (boxed array.now) (parts_of nested.now)
        (physical_view type_.now.physical_type) whole.now }
    ensures ok { IfOk result (HoldsRows options
        (page_encoding with_deltas (leaf_type (type_of (boxed array.now))) (physical_view type_.now.physical_type))
        (leaf_type (type_of (boxed array.now))) (leaf_view type_.now) (physical_view type_.now.physical_type)
        (path_way (parts_of nested.now)) None
        (take count (drop first (rows_of (parts_of nested.now) (boxed array.now))))) }
    ensures err { IfErr result (λ e. (e ≡ Memory) ⊎ ((e ≡ Overflow V3)
        × IsPastRoom (leaf_type (type_of (boxed array.now))) (physical_view type_.now.physical_type)
        (column (path_way (parts_of nested.now)) (take count
        (drop first (rows_of (parts_of nested.now) (boxed array.now))))))) }
{
    if count < slot_count(nested) {
        return some_page(
            alloc,
            array,
            type_,
            nested,
            options,
            with_deltas,
            &whole.pages,
            first,
            count,
        );
    }
    whole_page(alloc, whole, type_, options, with_deltas)
}

impl LeafPages {
    /// The page of the next rows, and none at the end or after an error.
    ///
    /// # Errors
    ///
    /// - `Overflow(V3)` exactly where the room of the page passes 2^31 - 1.
    /// - `Memory`.
    pub fn next_page(&mut self) -> Option<Result<Page>>
        ensures { Gives (leaf_to_give self.old) (leaf_to_give self.new) result }
    {
        let rows = slot_count(&self.nested);
        if self.has_failed || self.next >= rows {
            return None;
        }
        let count = self.per_page.min(rows - self.next);
        match piece_page(
            self.alloc,
            &self.array,
            &self.type_,
            &self.nested,
            self.options,
            self.with_deltas,
            &self.whole,
            self.next,
            count,
        ) {
            Ok(page) => {
                self.next += count;
                Some(Ok(Page::Data(page)))
            }
            Err(error) => {
                self.has_failed = true;
                Some(Err(error))
            }
        }
    }

    /// The encoding of the values in all its pages.
    pub fn encoding(&self) -> Encoding
        ensures { result ≡ encoding_name (leaf_to_give self.now).encoding }
    {
        page_encoding(
            self.array.data_type(),
            self.type_.physical_type,
            self.with_deltas,
        )
    }

    /// The statistics of the whole column, where they are asked for (Parquet format, parquet.thrift: `ColumnMetaData`). Of a column with
    /// more pairs than a file counts nothing is known.
    pub fn statistics(&self) -> &Option<Statistics>
        ensures { option_map statistics_view result.now ≡ self.now.statistics }
    {
        &self.whole.known.statistics
    }
}

// The pages of a column of values. The first condition that holds is told.
pub fn leaf_pages(
    alloc: Global,
    primitive_array: &ArrayBox,
    type_: PrimitiveType,
    nested: &[Nested],
    options: WriteOptions,
    encoding: Encoding,
) -> Result<LeafPages>
    requires parts { length nested.now ≤ 128 }
    requires plain { is_dictionary (base (type_of (boxed primitive_array.now))) ≡ false }
    ensures ok { IfOk result (λ it. IsPagesOf options type_ (parts_of nested.now) (boxed primitive_array.now) encoding
        (leaf_to_give it)) }
    ensures fits { IfOk result (λ _. AreWritten options type_ (parts_of nested.now)
        (boxed primitive_array.now) encoding) }
    ensures err { IfErr result (λ e. (e ≡ Memory) ⊎ RefusesPages options type_ (parts_of nested.now)
        (boxed primitive_array.now) encoding e) }
{
    primitive_array.know();
    check_written(primitive_array, type_.physical_type, nested, encoding)?;
    check_fit(alloc, primitive_array, &type_, nested)?;
    let whole = known_column(
        alloc,
        primitive_array,
        type_.physical_type,
        nested,
        options.write_statistics,
        options.data_pagesize_limit,
    )?;
    let per_page = page_rows(
        nested,
        options.data_pagesize_limit,
        whole.known.measured.plain,
    );
    Ok(LeafPages {
        alloc,
        array: primitive_array.clone(alloc)?,
        nested: copy_path(alloc, nested)?,
        type_,
        options,
        with_deltas: wants_deltas(nested, encoding),
        next: 0,
        per_page,
        has_failed: false,
        whole,
    })
}
