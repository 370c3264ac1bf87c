//! The pages of a column, one at a time.
ghost use Rattle.std.specs.Prelude.{◌≡◌, ◌⊎◌, ◌≤◌, length, option_map, IfOk, IfErr};
ghost use Rattle.std.specs.Iterator.{at_most};
ghost use Rattle.columns_base.specs.declared.error.Error.TheVariants.{Memory};
ghost use Rattle.columns_array.specs.Boxed.{boxed};
ghost use Rattle.levels.specs.Nested.{parts_of};
ghost use Rattle.pq_tree.specs.Views.{statistics_view};
ghost use Rattle.write_values.specs.Deltas.{encoding_name};
ghost use Rattle.write_pages.specs.Given.{to_give};
ghost use Rattle.write_pages.specs.Holds.{IsPagesOf};
ghost use Rattle.write_pages.specs.Refused.{AreWritten, Gives, RefusesPages, pages_due};

use crate::keyed_pages::{DictionaryPages, keyed_pages};
use crate::keys::as_dictionary;
use crate::leaf_pages::{LeafPages, leaf_pages};
use crate::options::WriteOptions;
use columns_array::ArrayBox;
use columns_core::Result;
use levels::Nested;
use pq_pages::Page;
use pq_tree::{Encoding, PrimitiveType, Statistics};
use std::alloc::Global;

/// Gives the pages of a column in order, each when it is asked for. It shares the array and its path, and keeps no page. After an error
/// it gives nothing.
#[derive(Drop)]
pub enum PageIter {
    /// Of a column of values.
    Leaf(LeafPages),
    /// Of a dictionary: first the page of its entries.
    Dictionary(DictionaryPages),
}

impl PageIter {
    /// The dictionary page, where there is one and it was not given yet, or the page of the next rows, and none at the end or after an error.
    ///
    /// # Errors
    ///
    /// - `Overflow(V3)` exactly where the room of the page, or that of its column's dictionary page, passes 2^31 - 1.
    /// - `Memory`.
    pub fn next_page(&mut self) -> Option<Result<Page>>
        ensures { Gives (to_give self.old) (to_give self.new) result }
    {
        match self {
            PageIter::Leaf(pages) => pages.next_page(),
            PageIter::Dictionary(pages) => pages.next_page(),
        }
    }

    /// Whether the dictionary page is still to come.
    pub fn owes_dictionary(&self) -> bool
        ensures { result ≡ (to_give self.now).owes_dictionary }
    {
        match self {
            PageIter::Leaf(_) => false,
            PageIter::Dictionary(pages) => pages.owes_dictionary(),
        }
    }

    /// The encoding of the values in all its data pages.
    pub fn encoding(&self) -> Encoding
        ensures { result ≡ encoding_name (to_give self.now).encoding }
    {
        match self {
            PageIter::Leaf(pages) => pages.encoding(),
            PageIter::Dictionary(_) => Encoding::RleDictionary,
        }
    }

    /// The statistics of the whole column, where they are asked for (Parquet format, parquet.thrift: `ColumnMetaData`). Of a column with
    /// more pairs than a file counts nothing is known.
    pub fn statistics(&self) -> &Option<Statistics>
        ensures { option_map statistics_view result.now ≡ (to_give self.now).statistics }
    {
        match self {
            PageIter::Leaf(pages) => pages.statistics(),
            PageIter::Dictionary(pages) => pages.statistics(),
        }
    }
}

impl Iterator for PageIter {
    type Item = Result<Page>;

    ghost next_gives = { λ old page new. Gives (to_give old) (to_give new) page };

    ghost remaining = { λ pages. at_most (pages_due (to_give pages)) };

    fn next(&mut self) -> Option<Result<Page>> {
        self.next_page()
    }
}

/// The pages of a column in order, each to be made when it is asked for: those of the rows that are read along the path over its leaf array,
/// whatever lies beneath nulls; none of no rows (Parquet format, "Data Pages", "Nested Encoding"). Values are in pieces by the row rule, those of a flat path
/// in the encoding that is asked for, all others in PLAIN. A dictionary has one dictionary page, with an entry for each of its own, and one
/// data page, whose encoding is RLE_DICTIONARY ("Dictionary Page"; Encodings, "Dictionary Encoding"). Statistics of each data page and of the
/// whole column stand exactly where they are asked for (parquet.thrift: `Statistics`).
///
/// # Errors
///
/// The first condition that holds is told.
///
/// - `NotYetImplemented(N4)`: a dictionary in another encoding than the two of dictionaries, or other values along a flat path in another encoding than PLAIN
///   and the deltas that the type may have (`is_written_as`).
/// - `NotYetImplemented(N5)`: values of the array's type are not written in such a column (`is_written_in`, `is_keyed_in`): fixed byte strings, decimals and
///   intervals, and dictionaries of UInt64 and Timestamp, are in flat ones alone.
/// - `InvalidArgumentError(A8)`: the path is not in bounds, or the path and the type do not fit the array (`FitsColumn`), or a key that the path
///   reaches numbers no entry, or a null one where the leaf is required (`AreColumnKeyed`).
/// - `InvalidArgumentError(A7)`: a decimal is past what its physical type holds.
/// - `Memory`.
pub fn array_to_pages(
    alloc: Global,
    primitive_array: &ArrayBox,
    type_: PrimitiveType,
    nested: &[Nested],
    options: WriteOptions,
    encoding: Encoding,
) -> Result<PageIter>
    requires parts { length nested.now ≤ 128 }
    ensures ok { IfOk result (λ it. IsPagesOf options type_ (parts_of nested.now) (boxed primitive_array.now) encoding
        (to_give it)) }
    ensures fits { IfOk result (λ _. AreWritten options type_ (parts_of nested.now)
        (boxed primitive_array.now) encoding) }
    ensures err { IfErr result (λ e. (e ≡ Memory) ⊎ RefusesPages options type_ (parts_of nested.now)
        (boxed primitive_array.now) encoding e) }
{
    if let Some(keyed) = as_dictionary(primitive_array) {
        return match keyed_pages(
            alloc,
            primitive_array,
            keyed,
            type_,
            nested,
            options,
            encoding,
        ) {
            Ok(pages) => Ok(PageIter::Dictionary(pages)),
            Err(error) => Err(error),
        };
    }
    match leaf_pages(alloc, primitive_array, type_, nested, options, encoding) {
        Ok(pages) => Ok(PageIter::Leaf(pages)),
        Err(error) => Err(error),
    }
}
