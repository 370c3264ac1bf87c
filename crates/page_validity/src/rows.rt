//! What is asked of a page, and what is not read.
ghost use Rattle.std.specs.Prelude.{◌≡◌, ℕ, pos, IfErr, IfOk};
ghost use Rattle.columns_base.specs.declared.error.Error.TheVariants.{Memory, NotYetImplemented};
ghost use Rattle.columns_base.specs.declared.error.N.TheVariants.{N4};
ghost use Rattle.pq_pages.specs.DataPages.{stated_values};
ghost use Rattle.pq_bitmaps.specs.Selected.{AreAscending};
ghost use Rattle.page_validity.specs.Validity.{rows_among};

use columns_base::{Error, N, Result};
use pq_bitmaps::Interval;
use pq_pages::DataPage;
use std::alloc::Global;
use std::collections::VecDeque;

/// The rows of the page that are selected: without any the one interval of all its values.
///
/// # Errors
///
/// `Memory`: memory ran out.
pub fn get_selected_rows(alloc: Global, page: &DataPage) -> Result<VecDeque<Interval>>
    ensures ok { IfOk result (λ rows. (n : ℕ) × (pos n ≡ stated_values page.now.header)
        × (rows.items ≡ rows_among n page.now.selected_rows) × AreAscending 0 n rows.items) }
    ensures err { IfErr result (λ e. e ≡ Memory) }
{
    let all = [Interval {
        start: 0,
        length: page.num_values(),
    }];
    let rows = page.selected_rows().unwrap_or(&all);
    Ok(VecDeque::from_vec(Vec::from_slice(alloc, rows)?))
}

/// The error of a page in an encoding that is not read.
pub fn not_implemented(_page: &DataPage) -> Error
    ensures { result ≡ NotYetImplemented N4 }
{
    Error::NotYetImplemented(N::N4)
}
