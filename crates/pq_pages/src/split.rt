//! The sections of a data page's body.
ghost use Rattle.std.specs.Prelude.{◌≡◌, ◌<◌, ◌≤◌, ℕ, pos, List, length, take, drop, IfErr, IfOk, MatchOption};
ghost use Rattle.columns_base.specs.declared.error.Error.TheVariants.{OutOfSpec};
ghost use Rattle.columns_base.specs.declared.error.S.TheVariants.{S4};
ghost use Rattle.pq_tree.specs.Views.{natural_part};
ghost use Rattle.pq_files.specs.Levels.{IsBehindLength};
ghost use Rattle.pq_files.specs.Page.{Sections};
ghost use Rattle.pq_pages.specs.Outcomes.{levels_in, HasLevels};
ghost use Rattle.pq_pages.specs.Split.{sections, Splits, Splits1, Splits2};

use crate::page::DataPage;
use crate::shown::DataPageRef;
use columns_base::{Error, Result, S};
use pq_numbers::read_u32_le;
use pq_tree::{DataPageHeader, DataPageHeaderV2, Descriptor};

/// So many bytes, and those behind them.
fn front(bytes: &[u8], size: usize) -> Option<(&[u8], &[u8])>
    ensures { MatchOption result (length bytes.now < size) (λ x. (size ≤ length bytes.now)
        × (x.0.now ≡ take size bytes.now) × (x.1.now ≡ drop size bytes.now)) }
{
    if bytes.len() < size {
        return None;
    }
    Some((&bytes[..size], &bytes[size..]))
}

/// The section of levels up to this maximum in front of the bytes, and what lies behind it. It stands behind its length in
/// four bytes, and is not there where the maximum is 0.
fn behind_length(maximum: usize, bytes: &[u8]) -> Option<(&[u8], &[u8])>
    ensures { MatchOption result ((section rest : List ℕ) → IsBehindLength maximum bytes.now section rest
        → ⊥) (λ x. IsBehindLength maximum bytes.now x.0.now x.1.now) }
{
    if maximum == 0 {
        return Some((&bytes[..0], bytes));
    }
    if bytes.len() < 4 {
        return None;
    }
    let Some(size) = read_u32_le(bytes) else {
        return None;
    };
    front(&bytes[4..], size as usize)
}

/// The greatest repetition and definition level of the column.
fn greatest_levels(descriptor: &Descriptor) -> (usize, usize)
    requires { HasLevels descriptor.now }
    ensures repetition { result.0 ≡ natural_part descriptor.now.max_rep_level }
    ensures definition { result.1 ≡ natural_part descriptor.now.max_def_level }
{
    (
        descriptor.max_rep_level as usize,
        descriptor.max_def_level as usize,
    )
}

/// The lengths that the header states of the repetition and the definition levels, if neither is negative.
fn stated_lengths(header: &DataPageHeaderV2) -> Option<(usize, usize)>
    ensures { MatchOption result ((r d : ℕ) → pos r ≡ header.now.repetition_levels_byte_length
        → pos d ≡ header.now.definition_levels_byte_length
        → ⊥) (λ x. (pos x.0 ≡ header.now.repetition_levels_byte_length)
        × (pos x.1 ≡ header.now.definition_levels_byte_length)) }
{
    if header.repetition_levels_byte_length < 0 {
        return None;
    }
    if header.definition_levels_byte_length < 0 {
        return None;
    }
    Some((
        header.repetition_levels_byte_length as usize,
        header.definition_levels_byte_length as usize,
    ))
}

/// The three sections: repetition levels, definition levels and values.
type Parts<'a> = (&'a [u8], &'a [u8], &'a [u8]);

fn split_v1<'a>(descriptor: &Descriptor, body: &'a [u8]) -> Option<Parts<'a>>
    requires { HasLevels descriptor.now }
    ensures { MatchOption result ((s : Sections) → Splits1 (levels_in descriptor.now) body.entry.now s
        → ⊥) (λ x. Splits1 (levels_in descriptor.now) body.entry.now (sections x.0.now x.1.now x.2.now)) }
{
    let (max_repetition, max_definition) = greatest_levels(descriptor);
    let Some((repetition, behind)) = behind_length(max_repetition, body) else {
        return None;
    };
    let Some((definition, values)) = behind_length(max_definition, behind) else {
        return None;
    };
    Some((repetition, definition, values))
}

fn split_v2<'a>(header: &DataPageHeaderV2, body: &'a [u8]) -> Option<Parts<'a>>
    ensures { MatchOption result ((s : Sections) → Splits2 header.now body.entry.now s
        → ⊥) (λ x. Splits2 header.now body.entry.now (sections x.0.now x.1.now x.2.now)) }
{
    let Some((repetition_length, definition_length)) = stated_lengths(header) else {
        return None;
    };
    let Some((repetition, behind)) = front(body, repetition_length) else {
        return None;
    };
    let Some((definition, values)) = front(behind, definition_length) else {
        return None;
    };
    Some((repetition, definition, values))
}

fn split_by<'a>(
    header: &DataPageHeader,
    descriptor: &Descriptor,
    body: &'a [u8],
) -> Option<Parts<'a>>
    requires { HasLevels descriptor.now }
    ensures { MatchOption result ((s : Sections) → Splits header.now (levels_in descriptor.now) body.entry.now s
        → ⊥) (λ x. Splits header.now (levels_in descriptor.now) body.entry.now (sections x.0.now x.1.now x.2.now)) }
{
    match header {
        DataPageHeader::V1(_) => split_v1(descriptor, body),
        DataPageHeader::V2(header) => split_v2(header, body),
    }
}

/// The sections of a data page's body: repetition levels, definition levels and values (Parquet format, "Data Pages").
/// They are lent, and no level is looked at.
///
/// # Errors
///
/// `OutOfSpec(S4)`: exactly where a section of levels does not lie in the body.
pub fn split_buffer(page: &DataPage) -> Result<(&[u8], &[u8], &[u8])>
    ensures ok { IfOk result (λ x. Splits page.now.header (levels_in page.now.descriptor) page.now.buffer
        (sections x.0.now x.1.now x.2.now)) }
    ensures refused { IfErr result (λ e. (e ≡ OutOfSpec S4) × ((s : Sections)
        → Splits page.now.header (levels_in page.now.descriptor) page.now.buffer s → ⊥)) }
{
    match split_by(page.header(), page.descriptor(), page.buffer()) {
        Some(parts) => Ok(parts),
        None => Err(Error::OutOfSpec(S::S4)),
    }
}

/// The sections of the body of a data page that is shown, as `split_buffer` has them.
///
/// # Errors
///
/// `OutOfSpec(S4)`: exactly where a section of levels does not lie in the body.
pub fn split_shown<'a>(page: &DataPageRef<'a>) -> Result<(&'a [u8], &'a [u8], &'a [u8])>
    ensures ok { IfOk result (λ x. Splits page.now.header (levels_in page.now.descriptor) page.now.buffer
        (sections x.0.now x.1.now x.2.now)) }
    ensures refused { IfErr result (λ e. (e ≡ OutOfSpec S4) × ((s : Sections)
        → Splits page.now.header (levels_in page.now.descriptor) page.now.buffer s → ⊥)) }
{
    match split_by(page.header(), page.descriptor(), page.buffer()) {
        Some(parts) => Ok(parts),
        None => Err(Error::OutOfSpec(S::S4)),
    }
}
