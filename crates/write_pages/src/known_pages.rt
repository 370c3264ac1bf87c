//! What is known of the pages of a column, and the statistics of all of it.
ghost use Rattle.std.specs.Prelude.{◌≡◌, ◌+◌, ◌++◌, ◌<◌, ◌≤◌, ℕ, Bool, true, false, [], List, length, option_map, take, drop, All, IfOk, IfErr, IfSome};
ghost use Rattle.shredding.specs.Parts.{Part, IsPath, path_way, path_slots, slot_count};
ghost use Rattle.shredding.specs.Shape.{LeafType};
ghost use Rattle.shredding.specs.Shred.{Triple, column};
ghost use Rattle.columns_array.specs.Boxed.{boxed};
ghost use Rattle.columns_base.specs.declared.error.Error.TheVariants.{Memory};
ghost use Rattle.columns_core.specs.Shapes.{base, leaf_type};
ghost use Rattle.columns_slots.specs.Slots.{tree_len, type_of};
ghost use Rattle.columns_slots.specs.Tree.{ArrayTree};
ghost use Rattle.columns_slots.specs.Types.{is_null_type};
ghost use Rattle.joined_statistics.specs.Orders.{IsOrderOf};
ghost use Rattle.joined_statistics.specs.Told.{AreTold};
ghost use Rattle.levels.specs.InBounds.{IsInBounds};
ghost use Rattle.levels.specs.Nested.{parts_of};
ghost use Rattle.levels.specs.Ranges.{leaf_count_or};
ghost use Rattle.nested_paths.specs.Seen.{leaf_slot};
ghost use Rattle.page_statistics.specs.Stated.{AreStated};
ghost use Rattle.pq_files.specs.Room.{max_count};
ghost use Rattle.pq_tree.specs.Physical.{Physical};
ghost use Rattle.pq_tree.specs.Views.{physical_view, statistics_view};
ghost use Rattle.write_values.specs.Nulls.{TellsNulls};
ghost use Rattle.write_values.specs.Served.{is_served};
ghost use Rattle.write_pages.specs.CutColumns.{IsCutColumn};
ghost use Rattle.write_pages.specs.Holds.{rows_of};
ghost use Rattle.write_pages.specs.KnownColumns.{AreFound, AreJoined, IsKnownPage, IsKnownRows, all_triples};
ghost use Rattle.write_pages.specs.Refused.{HasWide};
ghost use Rattle.write_pages.specs.Sized.{AreMeasured};

use crate::cut_column::{CutColumn, cut_column};
use columns_array::ArrayBox;
use columns_core::Result;
use joined_statistics::{TextOrder, join_statistics, no_statistics, text_order};
use levels::{Nested, slot_count};
use pq_tree::{PhysicalType, Statistics};
use std::alloc::Global;
use write_values::{Known, column_statistics, known_values};

// What is known of the values of some rows of a column.
#[derive(Drop)]
pub struct KnownPage {
    pub first: usize,
    pub count: usize,
    pub known: Option<Known>,
}

// What is known of pages, and the statistics of all their rows.
#[derive(Drop)]
pub struct JoinedPages {
    pub pages: Vec<KnownPage>,
    pub statistics: Statistics,
}

// The statistics of a column, where they are wanted, and what is known of pages of it.
#[derive(Drop)]
pub struct FoundStatistics {
    pub statistics: Option<Statistics>,
    pub pages: Vec<KnownPage>,
}

// The bytes that the texts of a page's bounds have at most, where they are kept until the page is made.
const MAX_TEXTS: usize = 128;

// The bytes of values for each page that is kept.
const PAGE_BYTES: u128 = 4096;

fn text_size(text: &Option<Vec<u8>>) -> usize {
    match text {
        Some(text) => text.len(),
        None => 0,
    }
}

// Whether the texts of the bounds are short, so that what is known of a page takes little memory.
fn are_short(statistics: &Option<Statistics>) -> bool {
    match statistics {
        Some(s) => text_size(&s.min_value) <= MAX_TEXTS && text_size(&s.max_value) <= MAX_TEXTS,
        None => true,
    }
}

// What is known of the values of some rows of a column.
fn known_page(
    alloc: Global,
    array: &ArrayBox,
    physical_type: PhysicalType,
    nested: &[Nested],
    first: usize,
    count: usize,
) -> Result<Known>
    requires in_bounds { IsInBounds (parts_of nested.now) }
    requires leaf { tree_len (boxed array.now) ≡ leaf_count_or 0 (parts_of nested.now) }
    requires served { is_served (base (type_of (boxed array.now))) (physical_view physical_type) ≡ true }
    requires held { ¬ HasWide (leaf_type (type_of (boxed array.now))) (physical_view physical_type)
        (all_triples (boxed array.now) (parts_of nested.now)) }
    requires has_values { is_null_type (base (type_of (boxed array.now))) ≡ false }
    requires rows { first + count ≤ slot_count (parts_of nested.now) }
    ensures ok { IfOk result (IsKnownRows true (boxed array.now) (parts_of nested.now)
        (physical_view physical_type) first count) }
    ensures stated { IfOk result (λ k. AreStated true (leaf_type (type_of (boxed array.now)))
        (physical_view physical_type) (column (path_way (parts_of nested.now))
        (take count (drop first (rows_of (parts_of nested.now) (boxed array.now)))))
        (option_map statistics_view k.statistics)) }
    ensures err { IfErr result (λ e. e ≡ Memory) }
{
    let rows = cut_column(alloc, array, nested, first, count)?;
    rows.array.know();
    known_values(alloc, &rows.array, physical_type, &rows.nested, true)
}

// The statistics of the rows of some pages and of another one behind them.
fn with_statistics(
    alloc: Global,
    order: TextOrder,
    first: Statistics,
    second: &Option<Statistics>,
) -> Result<Statistics>
    ensures ok { IfOk result (λ s. (t : LeafType) (p : Physical) (xs ys : List Triple) → IsOrderOf order t
        → length (xs ++ ys) ≤ max_count → AreTold t p xs (statistics_view first)
        → AreStated true t p ys (option_map statistics_view second.now) → AreTold t p (xs ++ ys) (statistics_view s)) }
    ensures err { IfErr result (λ e. e ≡ Memory) }
{
    match second {
        Some(second) => join_statistics(alloc, order, first, second),
        None => Ok(first),
    }
}

// What is known of a page, where it is kept.
fn kept(known: Known) -> Option<Known>
    ensures { (wanted : Bool) (a : ArrayTree) (parts : List Part) (p : Physical) (o n : ℕ)
        → IsKnownRows wanted a parts p o n known → IfSome result (IsKnownRows wanted a parts p o n) }
{
    if are_short(&known.statistics) {
        return Some(known);
    }
    None
}

// The pages with one more.
fn with_page(
    pages: Vec<KnownPage>,
    first: usize,
    count: usize,
    known: Known,
) -> Result<Vec<KnownPage>>
    ensures ok { IfOk result (λ ps. (a : ArrayTree) (parts : List Part) (p : Physical)
        → All (IsKnownPage true a parts p) pages.items → IsKnownRows true a parts p first count known
        → All (IsKnownPage true a parts p) ps.items) }
    ensures err { IfErr result (λ e. e ≡ Memory) }
{
    let mut pages = pages;
    pages.push(KnownPage {
        first,
        count,
        known: kept(known),
    })?;
    Ok(pages)
}

// Some pages and the one of the next rows.
fn with_rows(
    alloc: Global,
    array: &ArrayBox,
    physical_type: PhysicalType,
    nested: &[Nested],
    order: TextOrder,
    joined: JoinedPages,
    first: usize,
    count: usize,
) -> Result<JoinedPages>
    requires in_bounds { IsInBounds (parts_of nested.now) }
    requires leaf { tree_len (boxed array.now) ≡ leaf_count_or 0 (parts_of nested.now) }
    requires served { is_served (base (type_of (boxed array.now))) (physical_view physical_type) ≡ true }
    requires held { ¬ HasWide (leaf_type (type_of (boxed array.now))) (physical_view physical_type)
        (all_triples (boxed array.now) (parts_of nested.now)) }
    requires order { IsOrderOf order (leaf_type (type_of (boxed array.now))) }
    requires rows { first + count ≤ slot_count (parts_of nested.now) }
    requires joined { AreJoined (boxed array.now) (parts_of nested.now) (physical_view physical_type) first joined }
    ensures ok { IfOk result (AreJoined (boxed array.now) (parts_of nested.now) (physical_view physical_type)
        (first + count)) }
    ensures err { IfErr result (λ e. e ≡ Memory) }
{
    let known = known_page(alloc, array, physical_type, nested, first, count)?;
    let statistics = with_statistics(alloc, order, joined.statistics, &known.statistics)?;
    let pages = with_page(joined.pages, first, count, known)?;
    Ok(JoinedPages { pages, statistics })
}

// The pages of all rows of a column.
fn joined_pages(
    alloc: Global,
    array: &ArrayBox,
    physical_type: PhysicalType,
    nested: &[Nested],
    order: TextOrder,
    per_page: usize,
) -> Result<JoinedPages>
    requires in_bounds { IsInBounds (parts_of nested.now) }
    requires leaf { tree_len (boxed array.now) ≡ leaf_count_or 0 (parts_of nested.now) }
    requires served { is_served (base (type_of (boxed array.now))) (physical_view physical_type) ≡ true }
    requires held { ¬ HasWide (leaf_type (type_of (boxed array.now))) (physical_view physical_type)
        (all_triples (boxed array.now) (parts_of nested.now)) }
    requires order { IsOrderOf order (leaf_type (type_of (boxed array.now))) }
    requires some { 0 < per_page }
    ensures ok { IfOk result (AreJoined (boxed array.now) (parts_of nested.now) (physical_view physical_type)
        (slot_count (parts_of nested.now))) }
    ensures err { IfErr result (λ e. e ≡ Memory) }
{
    let rows = slot_count(nested);
    let mut joined = JoinedPages {
        pages: Vec::new(alloc),
        statistics: no_statistics(),
    };
    let mut first = 0;
    while first < rows {
        let count = per_page.min(rows - first);
        joined = with_rows(
            alloc,
            array,
            physical_type,
            nested,
            order,
            joined,
            first,
            count,
        )?;
        first += count;
    }
    Ok(joined)
}

// The order of the values of a column that is looked at page by page: of which statistics are wanted, and that has several pages which are not short.
fn order_of_pages(
    array: &ArrayBox,
    nested: &[Nested],
    plain: u128,
    per_page: usize,
    is_wanted: bool,
) -> Option<TextOrder>
    requires some { 0 < per_page }
    ensures order { IfSome result (λ o. IsOrderOf o (leaf_type (type_of (boxed array.now)))) }
    ensures wanted { IfSome result (λ _. is_wanted ≡ true) }
{
    let rows = slot_count(nested);
    if !is_wanted {
        return None;
    }
    if rows <= per_page {
        return None;
    }
    if plain / PAGE_BYTES < (rows / per_page) as u128 {
        return None;
    }
    text_order(array.data_type())
}

// The statistics of all rows of a column at once.
fn statistics_at_once(
    alloc: Global,
    rows: &CutColumn,
    physical_type: PhysicalType,
    is_wanted: bool,
) -> Result<FoundStatistics>
    requires well { IsPath (parts_of rows.now.nested.items) }
    requires leaf { tree_len (boxed rows.now.array) ≡ leaf_count_or 0 (parts_of rows.now.nested.items) }
    requires nulls { TellsNulls (boxed rows.now.array) (parts_of rows.now.nested.items) }
    requires served { is_served (base (type_of (boxed rows.now.array))) (physical_view physical_type) ≡ true }
    requires held { ¬ HasWide (leaf_type (type_of (boxed rows.now.array))) (physical_view physical_type)
        (column (path_way (parts_of rows.now.nested.items))
        (path_slots (leaf_slot (boxed rows.now.array)) (parts_of rows.now.nested.items))) }
    ensures stated { IfOk result (λ f. AreStated is_wanted (leaf_type (type_of (boxed rows.now.array)))
        (physical_view physical_type) (column (path_way (parts_of rows.now.nested.items))
        (path_slots (leaf_slot (boxed rows.now.array)) (parts_of rows.now.nested.items)))
        (option_map statistics_view f.statistics)) }
    ensures none { IfOk result (λ f. f.pages.items ≡ []) }
    ensures err { IfErr result (λ e. e ≡ Memory) }
{
    rows.array.know();
    let statistics = column_statistics(alloc, &rows.array, physical_type, &rows.nested, is_wanted)?;
    Ok(FoundStatistics {
        statistics,
        pages: Vec::new(alloc),
    })
}

// Those of its pages, and what is known of these.
fn statistics_by_pages(
    alloc: Global,
    array: &ArrayBox,
    physical_type: PhysicalType,
    nested: &[Nested],
    order: TextOrder,
    plain: u128,
    per_page: usize,
) -> Result<FoundStatistics>
    requires in_bounds { IsInBounds (parts_of nested.now) }
    requires leaf { tree_len (boxed array.now) ≡ leaf_count_or 0 (parts_of nested.now) }
    requires served { is_served (base (type_of (boxed array.now))) (physical_view physical_type) ≡ true }
    requires held { ¬ HasWide (leaf_type (type_of (boxed array.now))) (physical_view physical_type)
        (all_triples (boxed array.now) (parts_of nested.now)) }
    requires order { IsOrderOf order (leaf_type (type_of (boxed array.now))) }
    requires some { 0 < per_page }
    requires measured { AreMeasured (leaf_type (type_of (boxed array.now))) (physical_view physical_type)
        (path_way (parts_of nested.now)) (rows_of (parts_of nested.now) (boxed array.now)) plain }
    ensures ok { IfOk result (AreFound true (boxed array.now) (parts_of nested.now) (physical_view physical_type)) }
    ensures err { IfErr result (λ e. e ≡ Memory) }
{
    let joined = joined_pages(alloc, array, physical_type, nested, order, per_page)?;
    Ok(FoundStatistics {
        statistics: Some(joined.statistics),
        pages: joined.pages,
    })
}

// The statistics of a column, where they are wanted: of several pages by these.
pub fn found_statistics(
    alloc: Global,
    array: &ArrayBox,
    physical_type: PhysicalType,
    nested: &[Nested],
    rows: &CutColumn,
    plain: u128,
    per_page: usize,
    is_wanted: bool,
) -> Result<FoundStatistics>
    requires in_bounds { IsInBounds (parts_of nested.now) }
    requires leaf { tree_len (boxed array.now) ≡ leaf_count_or 0 (parts_of nested.now) }
    requires served { is_served (base (type_of (boxed array.now))) (physical_view physical_type) ≡ true }
    requires held { ¬ HasWide (leaf_type (type_of (boxed array.now))) (physical_view physical_type)
        (all_triples (boxed array.now) (parts_of nested.now)) }
    requires all { IsCutColumn (boxed array.now) (parts_of nested.now) 0 (slot_count (parts_of nested.now)) rows.now }
    requires told { TellsNulls (boxed rows.now.array) (parts_of rows.now.nested.items) }
    requires measured { AreMeasured (leaf_type (type_of (boxed array.now))) (physical_view physical_type)
        (path_way (parts_of nested.now)) (rows_of (parts_of nested.now) (boxed array.now)) plain }
    requires some { 0 < per_page }
    ensures ok { IfOk result (AreFound is_wanted (boxed array.now) (parts_of nested.now)
        (physical_view physical_type)) }
    ensures err { IfErr result (λ e. e ≡ Memory) }
{
    match order_of_pages(array, nested, plain, per_page, is_wanted) {
        Some(order) => statistics_by_pages(
            alloc,
            array,
            physical_type,
            nested,
            order,
            plain,
            per_page,
        ),
        None => statistics_at_once(alloc, rows, physical_type, is_wanted),
    }
}

// What is known of the page of these rows, if it is kept.
pub fn page_of(pages: &[KnownPage], first: usize, count: usize) -> Option<&Known>
    ensures { (wanted : Bool) (a : ArrayTree) (parts : List Part) (p : Physical)
        → All (IsKnownPage wanted a parts p) pages.now → IfSome result
        (λ k. IsKnownRows wanted a parts p first count k.now) }
{
    let Some((start, _)) = pages.split_first() else {
        return None;
    };
    let Some(page) = pages.get(first / start.count.max(1)) else {
        return None;
    };
    if page.first != first {
        return None;
    }
    if page.count != count {
        return None;
    }
    match &page.known {
        Some(known) => Some(known),
        None => None,
    }
}
