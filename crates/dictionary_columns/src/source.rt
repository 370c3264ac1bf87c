//! The pages of a dictionary's column, with its keys in the place of the entries.
ghost use Rattle.std.specs.Prelude.{◌≡◌, option_map, map, IsTrue};
ghost use Rattle.pq_pages.specs.Outcomes.{page_shown, Advances};
ghost use Rattle.pq_tree.specs.Views.{typed_view};
ghost use Rattle.pq_tree.specs.declared.types.TypedPageHeader.TheVariants as T;
ghost use Rattle.dictionary_columns.specs.Sources.{has_indices, is_indices};

use columns_base::{Error, N, Result};
use pq_pages::{Page, PageRef, Pages};
use pq_tree::DataPageHeader;

/// What a source of keys lends.
#[derive(Clone, Copy, Debug, PartialEq, Eq)]
pub enum Lent {
    /// Nothing yet: the page of the keys comes first.
    Ahead,
    /// The page of the keys.
    Keys,
    /// The page that the column's source lends.
    Page,
    Nothing,
}

/// The pages of a dictionary's column: first a dictionary page whose entries are the numbers from 0 on, and then the data pages of the column's source,
/// the entries of which it has given already. So the column is one of numbers, each of which is the key of an entry. A data page in an encoding that
/// is no dictionary's is N4.
#[derive(Drop)]
pub struct KeyPages<I: Pages> {
    pub pages: I,
    pub keys: Page,
    pub lent: Lent,
}

// Whether an encoding is a dictionary's (Parquet format, Encodings: PLAIN_DICTIONARY and RLE_DICTIONARY).
fn is_dictionary(encoding: i32) -> bool
    ensures { result ≡ is_indices encoding }
{
    encoding == 2 || encoding == 8
}

/// Whether the values of a data page are indices of a dictionary's entries.
pub fn gives_indices(header: &DataPageHeader) -> bool
    ensures { result ≡ has_indices (typed_view (T.Data header.now)) }
{
    match header {
        DataPageHeader::V1(header) => is_dictionary(header.encoding),
        DataPageHeader::V2(header) => is_dictionary(header.encoding),
    }
}

impl<I: Pages> Pages for KeyPages<I> {
    ghost use Rattle.dictionary_columns.specs.Lending.{keyed_from, keyed_lent};

    ghost outcomes = { λ p. keyed_from p.lent (page_shown p.keys) (I.outcomes p.pages) };

    ghost lent = { λ p. keyed_lent p.lent (page_shown p.keys) (I.lent p.pages) };

    ghost shown = { λ p. keyed_lent p.lent (page_shown p.keys) (I.lent p.pages) };

    fn advance(&mut self) -> Result<()> {
        if self.lent == Lent::Ahead {
            self.lent = Lent::Keys;
            return Ok(());
        }
        self.lent = Lent::Nothing;
        match self.pages.advance() {
            Ok(()) => {}
            Err(error) => return Err(error),
        }
        if let Some(Page::Data(page)) = self.pages.get() {
            if !gives_indices(page.header()) {
                return Err(Error::NotYetImplemented(N::N4));
            }
        }
        self.lent = Lent::Page;
        Ok(())
    }

    fn get(&self) -> Option<&Page> {
        match self.lent {
            Lent::Keys => Some(&self.keys),
            Lent::Page => self.pages.get(),
            Lent::Ahead | Lent::Nothing => None,
        }
    }

    fn advance_shown(&mut self) -> Result<()> {
        self.advance()
    }

    fn show(&self) -> Option<PageRef<'_>> {
        match self.get() {
            Some(page) => Some(page.as_page_ref()),
            None => None,
        }
    }
}
