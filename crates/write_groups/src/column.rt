//! A column of a group: its pages, one at a time.
ghost use Rattle.std.specs.Prelude.{◌≡◌};
ghost use Rattle.write_groups.specs.Given.{column_of};

use columns_base::Result;
use pq_pages::{DataPage, DictPage, Page};
use pq_tree::{Encoding, Statistics};
use write_file::ChunkPages;
use write_pages::PageIter;

/// The pages of a column: the dictionary page first, where it has one. After an error it gives nothing.
#[derive(Drop)]
pub struct ChunkColumn {
    pub pages: PageIter,
    pub has_failed: bool,
}

impl ChunkColumn {
    /// A column of these pages.
    pub fn new(pages: PageIter) -> Self
        ensures { result ≡ column_of pages }
    {
        ChunkColumn {
            pages,
            has_failed: false,
        }
    }
}

impl ChunkPages for ChunkColumn {
    ghost use Rattle.std.specs.Prelude.{ℕ};
    ghost use Rattle.columns_base.specs.declared.error.Error.{Error as Fault};
    ghost use Rattle.pq_tree.specs.Tree.{Leaf};
    ghost use Rattle.pq_tree.specs.declared.version.Version.{Version};
    ghost use Rattle.pq_files.specs.Layout.{OutChunk};
    ghost use Rattle.write_groups.specs.Given.{BeginsColumn, GivesColumn, RefusesColumn, left_of};

    ghost gives = { GivesColumn };

    ghost begins = { BeginsColumn };

    ghost left = { left_of };

    ghost refuses = { RefusesColumn };

    fn dictionary_page(&mut self) -> Result<Option<DictPage>> {
        if !self.pages.owes_dictionary() {
            return Ok(None);
        }
        match self.pages.next_page() {
            Some(Ok(Page::Dict(page))) => Ok(Some(page)),
            Some(Ok(Page::Data(_))) => unreachable!(),
            None => unreachable!(),
            Some(Err(error)) => {
                self.has_failed = true;
                Err(error)
            }
        }
    }

    fn next_page(&mut self) -> Option<Result<DataPage>> {
        if self.has_failed {
            return None;
        }
        if self.pages.owes_dictionary() {
            return None;
        }
        match self.pages.next_page() {
            None => None,
            Some(Ok(Page::Data(page))) => Some(Ok(page)),
            Some(Ok(Page::Dict(_))) => unreachable!(),
            Some(Err(error)) => {
                self.has_failed = true;
                Some(Err(error))
            }
        }
    }

    fn encoding(&self) -> Encoding {
        self.pages.encoding()
    }

    fn statistics(&self) -> &Option<Statistics> {
        self.pages.statistics()
    }
}
