//! A data page as it is read.
ghost use Rattle.std.specs.Prelude.{◌≡◌, ◌⊎◌, ◌↔◌, ◌++◌, ◌<◌, ◌≤◌, ◌^◌, ℕ, ℤ, List, Option, Some, None, IfErr, IfOk, IsTrue, MatchOption, MatchResult, length};
ghost use Rattle.columns_base.specs.declared.error.Error.TheVariants.{OutOfSpec};
ghost use Rattle.columns_base.specs.declared.error.S.TheVariants.{S4};
ghost use Rattle.pq_tree.specs.declared.types.DataPageHeader.TheVariants.{V1, V2};
ghost use Rattle.pq_tree.specs.declared.types.TypedPageHeader.TheVariants as T;
ghost use Rattle.pq_tree.specs.Tree.{Leaf, max_definition as leaf_definition, max_repetition as leaf_repetition};
ghost use Rattle.pq_tree.specs.Views.{natural_part, typed_view};
ghost use Rattle.pq_files.specs.Page.{Sections, IsSplit, IsSplit2, SaysRuns};
ghost use Rattle.pq_pages.specs.Outcomes.{levels_in, raw_page};
ghost use Rattle.pq_pages.specs.Split.{sections};
ghost use Rattle.read_walk.specs.Pairs.{Item};
ghost use Rattle.read_column.specs.Deltas.{HasFault, present_in};
ghost use Rattle.read_column.specs.Opened.{ArePairsIn, CannotOpen, IsCutInto, IsOpenPage, IsSized, SayRuns, StatesRows, first_goes_on};

use crate::deltas::{Deltas, count_present};
use crate::encoding::{ValueEncoding, served_encoding};
use columns_base::{Error, N, Result, S};
use pq_pages::{DataPageRef, split_shown, splits_are_of_pages};
use pq_tree::{DataPageHeader, DataPageHeaderV1, DataPageHeaderV2, Descriptor};
use read_walk::NestedPage;

/// The encoding of a data page that is served, its sections, the greatest levels of its column, and how many pairs it has.
#[derive(Debug, Drop)]
pub struct OpenPage<'a> {
    pub encoding: ValueEncoding,
    pub repetitions: &'a [u8],
    pub definitions: &'a [u8],
    pub values: &'a [u8],
    pub max_repetition: usize,
    pub max_definition: usize,
    pub count: usize,
}

// A number that a header states. A negative one, which no page of a file has, counts as none.
fn natural(number: i32) -> usize
    ensures { result ≡ natural_part number }
{
    if number < 0 {
        return 0;
    }
    number as usize
}

/// Whether these are as many rows as the header states, if it is of version 2.
pub fn states_rows(header: &DataPageHeader, rows: usize) -> bool
    ensures { IsTrue result ↔ StatesRows (typed_view (T.Data header.now)) rows }
{
    match header {
        DataPageHeader::V1(_) => true,
        DataPageHeader::V2(header) => natural(header.num_rows) == rows,
    }
}

// Levels up to this maximum are runs.
fn says_runs(maximum: usize, encoding: Option<i32>) -> bool
    ensures { IsTrue result ↔ SaysRuns maximum encoding }
{
    if maximum == 0 {
        return true;
    }
    encoding == Some(3)
}

// Both levels are: version 2 knows no other form.
fn say_runs(max_repetition: usize, max_definition: usize, header: &DataPageHeader) -> bool
    ensures { IsTrue result ↔ SayRuns (record { repetition = max_repetition; definition = max_definition })
        (typed_view (T.Data header.now)) }
{
    match header {
        DataPageHeader::V1(header) => both_say_runs(max_repetition, max_definition, header),
        DataPageHeader::V2(_) => true,
    }
}

// Of version 1.
fn both_say_runs(max_repetition: usize, max_definition: usize, header: &DataPageHeaderV1) -> bool
    ensures { IsTrue result ↔ (SaysRuns max_repetition header.now.repetition_level_encoding
        × SaysRuns max_definition header.now.definition_level_encoding) }
{
    says_runs(max_repetition, header.repetition_level_encoding)
        && says_runs(max_definition, header.definition_level_encoding)
}

// The greatest repetition and definition level of a page's column.
fn greatest_levels(page: &DataPageRef<'_>) -> (usize, usize)
    ensures repetition { result.0 ≡ natural_part page.now.descriptor.max_rep_level }
    ensures definition { result.1 ≡ natural_part page.now.descriptor.max_def_level }
    ensures few { result.0 < 2 ^ 32 }
    ensures low { result.1 < 2 ^ 32 }
{
    let descriptor = page.descriptor();
    (
        descriptor.max_rep_level as usize,
        descriptor.max_def_level as usize,
    )
}

// So many bytes, and those behind them.
fn front(bytes: &[u8], size: usize) -> Option<(&[u8], &[u8])>
    ensures { MatchOption result (length bytes.now < size) (λ x. (length x.0.now ≡ size)
        × (bytes.now ≡ x.0.now ++ x.1.now)) }
{
    if bytes.len() < size {
        return None;
    }
    Some((&bytes[..size], &bytes[size..]))
}

// The three sections, the first two of which have these lengths.
fn split_at<'a>(
    body: &'a [u8],
    repetition_length: usize,
    definition_length: usize,
) -> Option<(&'a [u8], &'a [u8], &'a [u8])>
    ensures { MatchOption result ((s : Sections) → IsSplit2 repetition_length definition_length body.now s
        → ⊥) (λ x. IsSplit2 repetition_length definition_length body.now (sections x.0.now x.1.now x.2.now)) }
{
    let Some((repetition, behind)) = front(body, repetition_length) else {
        return None;
    };
    let Some((definition, values)) = front(behind, definition_length) else {
        return None;
    };
    Some((repetition, definition, values))
}

// The sections of a page of version 2. `split_shown` refuses lengths below 0, which count as none in what contracts see of a page.
fn cut_v2<'a>(
    page: &DataPageRef<'a>,
    header: &DataPageHeaderV2,
) -> Result<(&'a [u8], &'a [u8], &'a [u8])>
    requires { page.now.header ≡ V2 header.now }
    ensures ok { IfOk result (λ x. IsCutInto (raw_page page.now) (levels_in page.now.descriptor)
        (sections x.0.now x.1.now x.2.now)) }
    ensures err { IfErr result (λ e. (e ≡ OutOfSpec S4) × ((l : Leaf)
        → leaf_repetition l ≡ natural_part page.now.descriptor.max_rep_level
        → leaf_definition l ≡ natural_part page.now.descriptor.max_def_level → (s : Sections)
        → IsSplit l (raw_page page.now).header page.now.buffer s → ⊥)) }
{
    let repetition_length = natural(header.repetition_levels_byte_length);
    let definition_length = natural(header.definition_levels_byte_length);
    match split_at(page.buffer(), repetition_length, definition_length) {
        Some(parts) => Ok(parts),
        None => Err(Error::OutOfSpec(S::S4)),
    }
}

// The sections of a page of version 1.
fn cut_v1<'a>(
    page: &DataPageRef<'a>,
    _header: &DataPageHeaderV1,
) -> Result<(&'a [u8], &'a [u8], &'a [u8])>
    requires { page.now.header ≡ V1 _header.now }
    ensures ok { IfOk result (λ x. IsCutInto (raw_page page.now) (levels_in page.now.descriptor)
        (sections x.0.now x.1.now x.2.now)) }
    ensures err { IfErr result (λ e. (e ≡ OutOfSpec S4) × ((l : Leaf)
        → leaf_repetition l ≡ natural_part page.now.descriptor.max_rep_level
        → leaf_definition l ≡ natural_part page.now.descriptor.max_def_level → (s : Sections)
        → IsSplit l (raw_page page.now).header page.now.buffer s → ⊥)) }
{
    splits_are_of_pages();
    let _counted = page.header();
    split_shown(page)
}

// The sections of a page.
fn cut<'a>(page: &DataPageRef<'a>) -> Result<(&'a [u8], &'a [u8], &'a [u8])>
    ensures ok { IfOk result (λ x. IsCutInto (raw_page page.now) (levels_in page.now.descriptor)
        (sections x.0.now x.1.now x.2.now)) }
    ensures err { IfErr result (λ e. (e ≡ OutOfSpec S4) × ((l : Leaf)
        → leaf_repetition l ≡ natural_part page.now.descriptor.max_rep_level
        → leaf_definition l ≡ natural_part page.now.descriptor.max_def_level → (s : Sections)
        → IsSplit l (raw_page page.now).header page.now.buffer s → ⊥)) }
{
    match page.header() {
        DataPageHeader::V1(header) => cut_v1(page, header),
        DataPageHeader::V2(header) => cut_v2(page, header),
    }
}

/// Opens a data page, of a column where each value stands in bytes of its own or not, and whose deltas are read so.
///
/// # Errors
///
/// N4 for another encoding than PLAIN, where values stand in bytes of their own those of a dictionary, and that of the deltas, or levels that are
/// no runs; S4 where a section of levels lies outside of the body.
pub fn open_page<'a>(page: &DataPageRef<'a>, own: bool, deltas: Deltas) -> Result<OpenPage<'a>>
    ensures ok { IfOk result (IsOpenPage own deltas (raw_page page.now) (levels_in page.now.descriptor)) }
    ensures err { IfErr result (CannotOpen own deltas (raw_page page.now) (levels_in page.now.descriptor)) }
{
    let header = page.header();
    let Some(encoding) = served_encoding(header, own, deltas) else {
        return Err(Error::NotYetImplemented(N::N4));
    };
    let (max_repetition, max_definition) = greatest_levels(page);
    if !say_runs(max_repetition, max_definition, header) {
        return Err(Error::NotYetImplemented(N::N4));
    }
    let count = page.num_values();
    match cut(page) {
        Ok((repetitions, definitions, values)) => Ok(OpenPage {
            encoding,
            repetitions,
            definitions,
            values,
            max_repetition,
            max_definition,
            count,
        }),
        Err(error) => Err(error),
    }
}

impl<'a> OpenPage<'a> {
    /// Its pairs.
    ///
    /// # Errors
    ///
    /// S4 where a greatest level has more than 32 bits.
    pub fn pairs(&self) -> Result<NestedPage<'a>>
        ensures { MatchResult result (ArePairsIn self.now) (λ e. (e ≡ OutOfSpec S4)
            × ((2 ^ 32 ≤ self.now.max_repetition) ⊎ (2 ^ 32 ≤ self.now.max_definition))) }
    {
        NestedPage::try_new(
            self.repetitions,
            self.max_repetition,
            self.definitions,
            self.max_definition,
            self.count,
        )
    }

    /// Its pairs, and whether the first goes on with a row.
    ///
    /// # Errors
    ///
    /// S4 where a greatest level has more than 32 bits.
    pub fn pairs_and_first(&self) -> Result<(NestedPage<'a>, bool)>
        ensures { MatchResult result (λ x. ArePairsIn self.now x.0 × (x.1 ≡ first_goes_on x.0)) (λ e. (e ≡ OutOfSpec S4)
            × ((2 ^ 32 ≤ self.now.max_repetition) ⊎ (2 ^ 32 ≤ self.now.max_definition))) }
    {
        let mut first = match self.pairs() {
            Ok(first) => first,
            Err(error) => return Err(error),
        };
        let goes_on = goes_on(&mut first);
        match self.pairs() {
            Ok(pairs) => Ok((pairs, goes_on)),
            Err(error) => Err(error),
        }
    }

    /// How many of its pairs are at the greatest definition level, so that they have a value.
    ///
    /// # Errors
    ///
    /// S4 where a pair cannot be read.
    pub fn present(&self) -> Result<usize>
        requires { IsSized self.now }
        ensures ok { (items : List Item) → ArePairsIn self.now items
            → IfOk result (λ n. n ≡ present_in self.now.max_definition items) }
        ensures err { (items : List Item) → ArePairsIn self.now items
            → IfErr result (λ e. (e ≡ OutOfSpec S4) × HasFault items) }
    {
        match self.pairs() {
            Ok(pairs) => count_present(pairs, self.max_definition),
            Err(error) => Err(error),
        }
    }
}

/// Whether the first pair goes on with a row.
pub fn goes_on(pairs: &mut NestedPage<'_>) -> bool
    ensures { result ≡ first_goes_on pairs.old }
{
    match pairs.next_run(1) {
        Some(Ok((repetition, _, _))) => 0 < repetition,
        _ => false,
    }
}

/// A data page that is served, its pairs, and whether the first goes on with a row.
#[derive(Drop)]
pub struct PagePairs<'a> {
    pub open: OpenPage<'a>,
    pub pairs: NestedPage<'a>,
    pub goes_on: bool,
}

/// Opens a data page for its pairs, of a column where each value stands in bytes of its own or not, and whose deltas are read so.
///
/// # Errors
///
/// Those of `open_page`.
pub fn open_pairs<'a>(page: &DataPageRef<'a>, own: bool, deltas: Deltas) -> Result<PagePairs<'a>>
    ensures ok { IfOk result (λ x. IsOpenPage own deltas (raw_page page.now) (levels_in page.now.descriptor) x.open
        × ArePairsIn x.open x.pairs × (x.goes_on ≡ first_goes_on x.pairs)) }
    ensures err { IfErr result (CannotOpen own deltas (raw_page page.now) (levels_in page.now.descriptor)) }
{
    let open = match open_page(page, own, deltas) {
        Ok(open) => open,
        Err(error) => return Err(error),
    };
    match open.pairs_and_first() {
        Ok((pairs, goes_on)) => Ok(PagePairs {
            open,
            pairs,
            goes_on,
        }),
        Err(error) => Err(error),
    }
}
