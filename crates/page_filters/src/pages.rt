//! A source of pages behind a filter.
ghost use Rattle.std.specs.Prelude.{◌≡◌, not};
ghost use Rattle.pq_tree.specs.Described.{column_view};
ghost use Rattle.pq_pages.specs.Outcomes.{Advances};
ghost use Rattle.page_filters.specs.Filters.{header_view, is_refused, keeping, kept};

use crate::filter::PageFilter;
use columns_base::Result;
use pq_pages::{Page, PageRef, Pages};
use pq_tree::{DataPageHeader, Descriptor};
use std::marker::Model;

/// The pages of a column that a source gives, without the data pages that a filter refuses; without a filter all of them.
///
/// Dictionary pages and errors are passed on.
#[derive(Drop)]
pub struct FilteredPages<P: Pages, F: PageFilter> {
    pages: P,
    column: Descriptor,
    filter: Option<F>,
}

impl<P: Pages, F: PageFilter> Model for FilteredPages<P, F> {
    ghost use Rattle.pq_tree.specs.Described.{column_view};
    ghost use Rattle.pq_pages.specs.Sources.{Source};
    ghost use Rattle.page_filters.specs.Filters.{keeping, kept};

    ghost Value = { Source };

    ghost view = { λ s. record {
      outcomes = kept (keeping F.keeps s.filter (column_view s.column)) (P.outcomes s.pages);
      lent = P.lent s.pages;
      shown = P.lent s.pages;
    } };
}

impl<P: Pages, F: PageFilter> FilteredPages<P, F> {
    /// The pages of this column that the filter keeps, of those that the source gives. It lends what the source lends.
    pub fn new(pages: P, column: Descriptor, filter: Option<F>) -> Self
        ensures { result ≡ record {
          outcomes = kept (keeping F.keeps filter (column_view column)) (P.outcomes pages);
          lent = P.lent pages;
          shown = P.lent pages;
        } }
    {
        FilteredPages {
            pages,
            column,
            filter,
        }
    }
}

/// Whether the filter refuses a page of the column with this header.
fn refuses<F: PageFilter>(filter: &Option<F>, column: &Descriptor, header: &DataPageHeader) -> bool
    ensures { result ≡ not (keeping F.keeps filter.now (column_view column.now) (header_view header.now)) }
{
    match filter {
        Some(filter) => !filter.keeps(column, header),
        None => false,
    }
}

/// Whether the page that is lent is a data page that the filter refuses.
#[tactic(auto, using(crate::proofs::Kept::shown_refused))]
fn lends_refused<P: Pages, F: PageFilter>(
    pages: &P,
    column: &Descriptor,
    filter: &Option<F>,
) -> bool
    ensures { result ≡ is_refused (keeping F.keeps filter.now (column_view column.now)) (P.lent pages.now) }
{
    match pages.get() {
        Some(Page::Data(page)) => refuses(filter, column, page.header()),
        Some(Page::Dict(_)) => false,
        None => false,
    }
}

/// Takes outcomes up to the first one that is no data page which the filter refuses.
fn take_kept<P: Pages, F: PageFilter>(
    pages: &mut P,
    column: &Descriptor,
    filter: &Option<F>,
) -> Result<()>
    ensures { Advances result (kept (keeping F.keeps filter.now (column_view column.now)) (P.outcomes pages.old))
        (kept (keeping F.keeps filter.now (column_view column.now)) (P.outcomes pages.new)) (P.lent pages.new) }
{
    match pages.advance() {
        Ok(()) => {}
        Err(error) => return Err(error),
    }
    'pages: while lends_refused(pages, column, filter) {
        match pages.advance() {
            Ok(()) => {}
            Err(error) => return Err(error),
        }
    }
    Ok(())
}

impl<P: Pages, F: PageFilter> Pages for FilteredPages<P, F> {
    ghost outcomes = { λ s. s.outcomes };

    ghost lent = { λ s. s.lent };

    ghost shown = { λ s. s.lent };

    fn advance(&mut self) -> Result<()> {
        take_kept(&mut self.pages, &self.column, &self.filter)
    }

    fn get(&self) -> Option<&Page> {
        self.pages.get()
    }

    fn advance_shown(&mut self) -> Result<()> {
        self.advance()
    }

    fn show(&self) -> Option<PageRef<'_>> {
        match self.pages.get() {
            Some(page) => Some(page.as_page_ref()),
            None => None,
        }
    }
}
