//! A source of pages that lie in memory.
ghost use Rattle.std.specs.Prelude.{◌≡◌, map, None, option_map};
ghost use Rattle.pq_pages.specs.Outcomes.{outcome_of, page_shown, Advances};

use crate::page::Page;
use crate::pages::Pages;
use crate::shown::PageRef;
use columns_base::{Error, Result as Outcome};
use std::marker::Model;
use std::vec::IntoIter;

/// The pages and errors of a list, in order.
#[derive(Drop)]
pub struct VecPages {
    left: IntoIter<Result<Page, Error>>,
    page: Option<Page>,
}

impl Model for VecPages {
    ghost use Rattle.std.specs.Prelude.{map, option_map};
    ghost use Rattle.std.specs.Vec.Iter.{into_iter_items};
    ghost use Rattle.pq_pages.specs.Outcomes.{outcome_of, page_shown};
    ghost use Rattle.pq_pages.specs.Sources.{Source};

    ghost Value = { Source };

    ghost view = { λ s. record {
      outcomes = map outcome_of (into_iter_items s.left);
      lent = option_map page_shown s.page;
      shown = option_map page_shown s.page;
    } };
}

impl VecPages {
    /// A source that gives these, and lends none before.
    pub fn new(outcomes: Vec<Result<Page, Error>>) -> Self
        ensures { result ≡ record { outcomes = map outcome_of outcomes.items; lent = None; shown = None } }
    {
        VecPages {
            left: outcomes.into_iter(),
            page: None,
        }
    }
}

impl Pages for VecPages {
    ghost outcomes = { λ s. s.outcomes };

    ghost lent = { λ s. s.lent };

    ghost shown = { λ s. s.lent };

    fn advance(&mut self) -> Outcome<()> {
        self.page = None;
        match self.left.next() {
            Some(Ok(page)) => {
                self.page = Some(page);
                Ok(())
            }
            Some(Err(error)) => Err(error),
            None => Ok(()),
        }
    }

    fn get(&self) -> Option<&Page> {
        self.page.as_ref()
    }

    fn advance_shown(&mut self) -> Outcome<()> {
        self.advance()
    }

    fn show(&self) -> Option<PageRef<'_>> {
        match &self.page {
            Some(page) => Some(page.as_page_ref()),
            None => None,
        }
    }
}
