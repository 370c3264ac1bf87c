//! The pages of a dictionary's column.
ghost use Rattle.std.specs.Prelude.{◌≡◌, ◌⊎◌, ◌≤◌, length, IfOk, IfErr};
ghost use Rattle.columns_base.specs.declared.error.Error.TheVariants.{Memory};
ghost use Rattle.levels.specs.Nested.{parts_of};
ghost use Rattle.write_pages.specs.Given.{to_give};
ghost use Rattle.write_pages.specs.Holds.{IsPagesOf};
ghost use Rattle.write_pages.specs.Refused.{AreWritten, RefusesPages};

use crate::keyed_pages::keyed_pages;
use crate::options::WriteOptions;
use crate::pages::PageIter;
use columns_array::{ArrayBox, DictionaryArray};
use columns_core::Result;
use levels::Nested;
use pq_tree::{Encoding, PrimitiveType};
use std::alloc::Global;

/// The pages of a dictionary's column: of no rows none, and else one dictionary page with an entry for each of the array's, and one data page of the
/// rows that are read along the path (Parquet format, "Dictionary Page", "Data Pages", "Nested Encoding"; Encodings, "Dictionary Encoding"). For a null entry
/// zero or no bytes stand in the dictionary page, and its keys are nulls. The statistics of the data page and of the whole column stand exactly
/// where they are asked for, with the bounds of all entries that are not null (parquet.thrift: `Statistics`).
///
/// # Errors
///
/// The first condition that holds is told.
///
/// - `NotYetImplemented(N4)`: another encoding than PLAIN_DICTIONARY and RLE_DICTIONARY.
/// - `NotYetImplemented(N5)`: entries of the type are not written in such a column (`is_keyed_in`): those of UInt64 and Timestamp are in flat ones alone.
/// - `InvalidArgumentError(A8)`: the path is not in bounds, or the path and the type do not fit the array (`FitsColumn`), or a key that the path
///   reaches numbers no entry, or a null one where the leaf is required (`AreColumnKeyed`).
/// - `Memory`.
pub fn array_to_pages(
    alloc: Global,
    array: &DictionaryArray,
    type_: PrimitiveType,
    nested: &[Nested],
    options: WriteOptions,
    encoding: Encoding,
) -> Result<PageIter>
    requires parts { length nested.now ≤ 128 }
    ensures ok { IfOk result (λ it. IsPagesOf options type_ (parts_of nested.now) array.now encoding (to_give it)) }
    ensures fits { IfOk result (λ _. AreWritten options type_ (parts_of nested.now) array.now encoding) }
    ensures err { IfErr result (λ e. (e ≡ Memory) ⊎ RefusesPages options type_
        (parts_of nested.now) array.now encoding e) }
{
    let shared = ArrayBox::Dictionary(array.clone(alloc)?);
    match keyed_pages(alloc, &shared, array, type_, nested, options, encoding) {
        Ok(pages) => Ok(PageIter::Dictionary(pages)),
        Err(error) => Err(error),
    }
}
