//! A page's header, from its Thrift struct.
ghost use Rattle.std.specs.Prelude.{◌≡◌, ◌⊎◌, ℕ, pos, ◌≤◌, ◌≤ℤ◌, IfOk, IfErr, OnErr, Some, length, take};
ghost use Rattle.pq_thrift.specs.Value.{int32, view, fields_view};
ghost use Rattle.pq_metadata.specs.Header.{HasDataHeader, HasDataHeader2, HasDictionaryHeader, HasHeader, SpellsHeader};
ghost use Rattle.columns_base.specs.declared.error.Error.TheVariants.{Memory, NotYetImplemented, OutOfSpec};
ghost use Rattle.columns_base.specs.declared.error.N.TheVariants.{N4};
ghost use Rattle.columns_base.specs.declared.error.S.TheVariants.{S3};
ghost use Rattle.pq_metadata.specs.HeaderText.{IsHeaderText, IsOfOtherType, TellsType, header_reason_of};
ghost use Rattle.pq_metadata.specs.Ids.{get};
ghost use Rattle.pq_numbers.specs.Texts.{Begins};
ghost use Rattle.pq_tree.specs.Reads.{ComesWhere, HasNone};
ghost use Rattle.pq_tree.specs.Views.{natural_part, v1_view, v2_view, dictionary_view, typed_view, page_header_view};
ghost use Rattle.pq_tree.specs.Counted.{IsCountedV1, IsCountedV2, IsCounted};

use crate::fields::{needed_i32, needed_struct, optional_i32};
use crate::kinds::as_struct;
use crate::misfit::Misfit;
use crate::straight::data_page_header;
use columns_base::{Error, N, S};
use pq_thrift::{Thrift, read_thrift};
use pq_tree::{
    DataPageHeader, DataPageHeaderV1, DataPageHeaderV2, DictionaryPageHeader, PageHeader,
    TypedPageHeader,
};
use std::alloc::Global;

/// A needed number that is not negative.
fn needed_count(fields: &[(i16, Thrift)], id: u8) -> Result<i32, Misfit>
    ensures found { IfOk result (λ z. get id (fields_view fields.now) ≡ Some (int32 (pos (natural_part z)))) }
    ensures counted { IfOk result (λ z. pos 0 ≤ℤ z) }
    ensures refused { OnErr result (HasNone (λ n. get id (fields_view fields.now) ≡ Some (int32 (pos n)))) }
{
    let number = needed_i32(fields, id)?;
    if number < 0 {
        return Err(Misfit);
    }
    Ok(number)
}

fn data_from(fields: &[(i16, Thrift)]) -> Result<DataPageHeaderV1, Misfit>
    ensures found { IfOk result (λ h. HasDataHeader (fields_view fields.now) (v1_view h)) }
    ensures counted { IfOk result IsCountedV1 }
    ensures refused { OnErr result (HasNone (HasDataHeader (fields_view fields.now))) }
{
    Ok(DataPageHeaderV1 {
        num_values: needed_count(fields, 1)?,
        encoding: needed_i32(fields, 2)?,
        definition_level_encoding: optional_i32(fields, 3)?,
        repetition_level_encoding: optional_i32(fields, 4)?,
        statistics: None,
    })
}

fn data_v2_from(fields: &[(i16, Thrift)]) -> Result<DataPageHeaderV2, Misfit>
    ensures found { IfOk result (λ h. HasDataHeader2 (fields_view fields.now) (v2_view h)) }
    ensures counted { IfOk result IsCountedV2 }
    ensures refused { OnErr result (HasNone (HasDataHeader2 (fields_view fields.now))) }
{
    Ok(DataPageHeaderV2 {
        num_values: needed_count(fields, 1)?,
        num_nulls: optional_i32(fields, 2)?,
        num_rows: needed_count(fields, 3)?,
        encoding: needed_i32(fields, 4)?,
        definition_levels_byte_length: needed_count(fields, 5)?,
        repetition_levels_byte_length: needed_count(fields, 6)?,
        is_compressed: None,
        statistics: None,
    })
}

fn dictionary_from(fields: &[(i16, Thrift)]) -> Result<DictionaryPageHeader, Misfit>
    ensures found { IfOk result (λ h. HasDictionaryHeader (fields_view fields.now) (dictionary_view h)) }
    ensures counted { IfOk result (λ h. pos 0 ≤ℤ h.num_values) }
    ensures refused { OnErr result (HasNone (HasDictionaryHeader (fields_view fields.now))) }
{
    Ok(DictionaryPageHeader {
        num_values: needed_count(fields, 1)?,
        encoding: needed_i32(fields, 2)?,
    })
}

/// The struct of the page's type.
fn typed_from(fields: &[(i16, Thrift)]) -> Result<TypedPageHeader, Misfit>
    ensures found { IfOk result (λ h. HasHeader (fields_view fields.now) (typed_view h)) }
    ensures counted { IfOk result IsCounted }
    ensures refused { OnErr result (HasNone (HasHeader (fields_view fields.now))) }
{
    match needed_i32(fields, 1)? {
        0 => {
            let header = data_from(needed_struct(fields, 5)?)?;
            Ok(TypedPageHeader::Data(DataPageHeader::V1(header)))
        }
        2 => {
            let header = dictionary_from(needed_struct(fields, 7)?)?;
            Ok(TypedPageHeader::Dictionary(header))
        }
        3 => {
            let header = data_v2_from(needed_struct(fields, 8)?)?;
            Ok(TypedPageHeader::Data(DataPageHeader::V2(header)))
        }
        _ => Err(Misfit),
    }
}

/// The header that the struct spells. `Misfit` where it spells none.
pub fn page_header_from(value: &Thrift) -> Result<PageHeader, Misfit>
    ensures found { IfOk result (λ h. SpellsHeader (view value.now) (page_header_view h)) }
    ensures counted { IfOk result (λ h. IsCounted h.header) }
    ensures refused { OnErr result (HasNone (SpellsHeader (view value.now))) }
{
    let Some(fields) = as_struct(value) else {
        return Err(Misfit);
    };
    let header = typed_from(fields)?;
    let _uncompressed_page_size = optional_i32(fields, 2)?;
    let compressed_page_size = needed_count(fields, 3)? as usize;
    Ok(PageHeader {
        header,
        compressed_page_size,
    })
}

fn header_reason(error: Error) -> Error
    ensures { result ≡ header_reason_of error }
{
    match error {
        Error::Memory => Error::Memory,
        _ => Error::OutOfSpec(S::S3),
    }
}

/// Why a struct that spells no header is refused.
fn struct_reason(value: &Thrift) -> Error
    ensures { TellsType (view value.now) result }
{
    let Some(fields) = as_struct(value) else {
        return Error::OutOfSpec(S::S3);
    };
    match needed_i32(fields, 1) {
        Ok(0 | 2 | 3) | Err(_) => Error::OutOfSpec(S::S3),
        Ok(_) => Error::NotYetImplemented(N::N4),
    }
}

/// The header that stands in front, read as a Thrift value first.
fn header_by_value(alloc: Global, bytes: &[u8]) -> Result<(PageHeader, usize), Error>
    ensures within { IfOk result (λ x. x.1 ≤ length bytes.now) }
    ensures found { IfOk result (λ x. IsHeaderText (take x.1 bytes.now) (page_header_view x.0)) }
    ensures counted { IfOk result (λ x. IsCounted x.0.header) }
    ensures none { IfErr result (λ e. (e ≡ Memory) ⊎ HasNone (Begins IsHeaderText bytes.now)) }
    ensures other_type { ComesWhere (NotYetImplemented N4) (IsOfOtherType bytes.now) result }
    ensures refused { ComesWhere (OutOfSpec S3) (HasNone (Begins IsHeaderText bytes.now)
        × (¬ (IsOfOtherType bytes.now))) result }
{
    let (value, size) = match read_thrift(alloc, bytes) {
        Ok(read) => read,
        Err(error) => return Err(header_reason(error)),
    };
    match page_header_from(&value) {
        Ok(header) => Ok((header, size)),
        Err(_) => Err(struct_reason(&value)),
    }
}

/// Reads the page header that stands in front (Parquet format, `PageHeader`), and gives it with
/// the number of its bytes. What follows it is not looked at.
///
/// # Errors
///
/// - `NotYetImplemented(N4)`: a struct stands there that nests at most 128 and whose page type is
///   that of an index page or is not known, whatever else it has.
/// - `OutOfSpec(S3)`: no such struct and no page header stands there.
/// - `Memory`: memory ran out.
pub fn read_page_header(alloc: Global, bytes: &[u8]) -> Result<(PageHeader, usize), Error>
    ensures within { IfOk result (λ x. x.1 ≤ length bytes.now) }
    ensures found { IfOk result (λ x. IsHeaderText (take x.1 bytes.now) (page_header_view x.0)) }
    ensures counted { IfOk result (λ x. IsCounted x.0.header) }
    ensures none { IfErr result (λ e. (e ≡ Memory) ⊎ HasNone (Begins IsHeaderText bytes.now)) }
    ensures other_type { ComesWhere (NotYetImplemented N4) (IsOfOtherType bytes.now) result }
    ensures refused { ComesWhere (OutOfSpec S3) (HasNone (Begins IsHeaderText bytes.now)
        × (¬ (IsOfOtherType bytes.now))) result }
{
    match data_page_header(bytes) {
        Some(read) => Ok(read),
        None => header_by_value(alloc, bytes),
    }
}
