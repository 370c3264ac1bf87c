//! Filters of data pages.
ghost use Rattle.std.specs.Prelude.{◌≡◌};
ghost use Rattle.pq_tree.specs.Described.{column_view};
ghost use Rattle.page_filters.specs.Filters.{header_view};

use pq_tree::{DataPageHeader, Descriptor};

/// Says which data pages are given, by their column and their headers (Parquet format, "Data Pages").
///
/// Its answers are those of a function of the column and of what a reader takes from a header: not of the header's statistics.
pub trait PageFilter: Drop {
    ghost use Rattle.std.specs.Prelude.{Bool};
    ghost use Rattle.pq_tree.specs.Columns.{Column};
    ghost use Rattle.pq_tree.specs.Headers.{Header};

    /// Whether it keeps the pages of a column with this header.
    ghost keeps: { Self → Column → Header → Bool };

    /// Whether it keeps the pages of the column with this header.
    fn keeps(&self, column: &Descriptor, header: &DataPageHeader) -> bool
        ensures { result ≡ keeps self.now (column_view column.now) (header_view header.now) };
}

/// Keeps all pages: the filter that a caller names where it hands on none (`None::<AllPages>`).
#[derive(Clone, Copy, Debug, Drop)]
pub struct AllPages;

impl PageFilter for AllPages {
    ghost use Rattle.std.specs.Prelude.{true};

    ghost keeps = { λ _ _ _. true };

    fn keeps(&self, _column: &Descriptor, _header: &DataPageHeader) -> bool {
        true
    }
}
