//! How many rows stand in a page.
ghost use Rattle.std.specs.Prelude.{◌≡◌, ◌-◌, ◌^◌, ◌<◌, ℕ, min};
ghost use Rattle.shredding.specs.Parts.{path_way};
ghost use Rattle.shredding.specs.Shape.{LeafType};
ghost use Rattle.columns_slots.specs.Tree.{ArrayTree};
ghost use Rattle.levels.specs.Nested.{parts_of};
ghost use Rattle.pq_files.specs.Layout.{rows_per_page};
ghost use Rattle.pq_tree.specs.Physical.{Physical};
ghost use Rattle.write_pages.specs.Holds.{rows_of};
ghost use Rattle.write_pages.specs.Rule.{page_limit};
ghost use Rattle.write_pages.specs.Sized.{AreMeasured, IsByRule};

use levels::{Nested, slot_count};

// The page limit where none is given.
const DEFAULT_LIMIT: usize = 1_048_576;

// The greatest page limit.
const MAX_LIMIT: usize = 2_113_929_216;

// The number of rows of a page: as many as have about so many bytes as the limit says, and one at least. The bytes are those of the plain
// spelling of the values of all rows, up to the largest number, at which the rule is the same as for more.
pub fn rows_per_page(limit: Option<usize>, plain: u128, rows: usize) -> usize
    requires { 0 < rows }
    ensures { (size : ℕ) → plain ≡ min size (2 ^ 128 - 1) → result ≡ rows_per_page (page_limit limit) size rows }
{
    let limit = limit.unwrap_or(DEFAULT_LIMIT).min(MAX_LIMIT) as u128;
    let each = (plain / rows as u128).saturating_add(1);
    (limit / each).max(1) as usize
}

// How many rows of a path in bounds, whose values have so many plain bytes, stand in a page by the row rule, and one where there is no row.
pub fn page_rows(nested: &[Nested], limit: Option<usize>, plain: u128) -> usize
    ensures some { 0 < result }
    ensures rule { (t : LeafType) (p : Physical) (a : ArrayTree) → AreMeasured t p (path_way (parts_of nested.now))
        (rows_of (parts_of nested.now) a) plain → IsByRule limit t p (path_way (parts_of nested.now))
        (rows_of (parts_of nested.now) a) result }
{
    let rows = slot_count(nested);
    if rows == 0 {
        return 1;
    }
    rows_per_page(limit, plain, rows)
}
