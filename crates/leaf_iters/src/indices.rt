//! The indices of a page's dictionary entries.
ghost use Rattle.std.specs.Prelude.{◌≡◌, ◌⊎◌, ℕ, pos, false, true, IfErr, IfOk, MatchResult};
ghost use Rattle.columns_base.specs.declared.error.Error.TheVariants.{OutOfSpec};
ghost use Rattle.columns_base.specs.declared.error.S.TheVariants.{S4, S6};
ghost use Rattle.pq_files.specs.Page.{Sections};
ghost use Rattle.pq_pages.specs.DataPages.{stated_values};
ghost use Rattle.pq_pages.specs.Outcomes.{levels_in};
ghost use Rattle.pq_pages.specs.Split.{Splits};
ghost use Rattle.read_column.specs.Dictionary.{indices_in};
ghost use Rattle.leaf_iters.specs.Indices.{is_too_wide};

use columns_base::Result;
use pq_pages::{DataPage, split_buffer};
use pq_runs::HybridRleDecoder;

// So many indices of a section.
fn indices_of(section: &[u8], count: usize) -> Result<HybridRleDecoder<'_>>
    ensures { MatchResult result (λ indices. (is_too_wide section.now ≡ false)
        × (indices ≡ indices_in count section.now)) (λ e. (e ≡ OutOfSpec S6) × (is_too_wide section.now ≡ true)) }
{
    match section.split_first() {
        None => HybridRleDecoder::try_new(section, 0, 0),
        Some((width, runs)) => HybridRleDecoder::try_new(runs, u32::from(*width), count),
    }
}

/// The indices of a page whose values are those of a dictionary's entries, at most as many as the page has values: the first byte of their section is
/// their width in bits, and runs follow (Parquet format, Encodings, "Dictionary Encoding"). An empty section holds no indices. No level is looked at, and
/// behind the last index that stands there the decoder gives S6.
///
/// # Errors
///
/// - `OutOfSpec(S4)`: exactly where a section of levels does not lie in the page's body.
/// - `OutOfSpec(S6)`: otherwise exactly for a width above 32.
pub fn dict_indices_decoder(page: &DataPage) -> Result<HybridRleDecoder<'_>>
    ensures ok { IfOk result (λ indices. (n : ℕ) × (s : Sections) × (pos n ≡ stated_values page.now.header)
        × Splits page.now.header (levels_in page.now.descriptor) page.now.buffer s × (is_too_wide s.values ≡ false)
        × (indices ≡ indices_in n s.values)) }
    ensures refused { IfErr result (λ e. ((e ≡ OutOfSpec S4)
        × ((s : Sections) → Splits page.now.header (levels_in page.now.descriptor) page.now.buffer s → ⊥))
        ⊎ ((e ≡ OutOfSpec S6) × (s : Sections) × Splits page.now.header
        (levels_in page.now.descriptor) page.now.buffer s × (is_too_wide s.values ≡ true))) }
{
    match split_buffer(page) {
        Ok((_, _, section)) => indices_of(section, page.num_values()),
        Err(error) => Err(error),
    }
}
