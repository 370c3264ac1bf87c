//! Sources of pages.
use crate::page::Page;
use crate::shown::PageRef;
use columns_base::Result;

/// A source of pages: those of a column chunk, or any others, one after another (Parquet format, "Column chunks").
pub trait Pages: Drop {
    ghost use Rattle.std.specs.Prelude.{◌≡◌, List, Option, option_map};
    ghost use Rattle.pq_pages.specs.Outcomes.{page_shown, Advances, Outcome};
    ghost use Rattle.pq_pages.specs.Shown.{ref_shown};

    /// The pages and errors that it still gives.
    ghost outcomes: { Self → List Outcome };

    /// The page that it lends.
    ghost lent: { Self → Option Outcome };

    /// The page that it shows.
    ghost shown: { Self → Option Outcome };

    /// Takes the first outcome, and lends its page from then on. At the end there is nothing to take or to lend.
    ///
    /// # Errors
    ///
    /// The outcome's error, or `Memory`. Nothing is lent then. After want of memory no outcome is taken.
    fn advance(&mut self) -> Result<()>
        ensures { Advances result (outcomes self.old) (outcomes self.new) (lent self.new) };

    /// The page taken last; none before the first `advance`, at the end, and after an error.
    fn get(&self) -> Option<&Page>
        ensures { option_map (λ page. page_shown page.now) result ≡ lent self.now };

    /// Takes the first outcome as `advance` does, and shows its page from then on, the body of which may stay where it lies. What it lends is not told.
    ///
    /// # Errors
    ///
    /// Those of `advance`. Nothing is shown then.
    fn advance_shown(&mut self) -> Result<()>
        ensures { Advances result (outcomes self.old) (outcomes self.new) (shown self.new) };

    /// The page taken last by `advance_shown`; none at the end, and after an error.
    fn show(&self) -> Option<PageRef<'_>>
        ensures { option_map ref_shown result ≡ shown self.now };
}
