//! Page headers as they are written.
ghost use Rattle.std.specs.Prelude.{◌≡◌, ◌⊎◌, ◌↔◌, IsTrue, ◌<◌, ◌^◌, ◌++◌, IfErr, OnErr, OnOk, IsErrOf, pos};
ghost use Rattle.columns_base.specs.declared.error.Error.TheVariants.{Memory, Overflow};
ghost use Rattle.columns_base.specs.declared.error.V.TheVariants.{V3};
ghost use Rattle.pq_thrift.specs.Spelling.{spell};
ghost use Rattle.pq_thrift.specs.Value.{int32, no_fields, struct, truth};
ghost use Rattle.pq_tree.specs.declared.types.DataPageHeader.TheVariants.{V1, V2};
ghost use Rattle.pq_files.specs.Written.{at, i32};
ghost use Rattle.pq_pages.specs.HeaderValue.{data_value, dict_value, page_value, v1_value, v2_value, AppendsHeader, IsTooLong};
ghost use Rattle.thrift_fields.specs.Appended.{AppendsField, AppendsValue};

use crate::page::Page;
use columns_base::{Error, Result as Outcome, V};
use pq_tree::{DataPageHeader, DataPageHeaderV1, DataPageHeaderV2};
use std::alloc::AllocError;
use thrift_fields::{
    push_bool, push_i32, push_some_bool, push_some_i32, push_some_statistics, push_struct_head,
};

/// The most bytes of a body, and the most entries of a dictionary page.
const MAX_SIZE: usize = 2_147_483_647;

/// How many bytes most headers take.
const MOST_BYTES: usize = 64;

// The header of a data page of version 1 as a struct.
fn push_v1(out: &mut Vec<u8>, header: &DataPageHeaderV1) -> Result<(), AllocError>
    ensures { OnOk result (AppendsValue (v1_value header.now) out.old.items out.new.items) }
{
    push_i32(out, 0, 1, &header.num_values)?;
    push_i32(out, 1, 2, &header.encoding)?;
    let last = push_some_i32(out, 2, 3, header.definition_level_encoding)?;
    let last = push_some_i32(out, last, 4, header.repetition_level_encoding)?;
    push_some_statistics(out, last, 5, &header.statistics)?;
    out.push(0)?;
    Ok(())
}

// The header of a data page of version 2 as a struct.
fn push_v2(out: &mut Vec<u8>, header: &DataPageHeaderV2) -> Result<(), AllocError>
    ensures { OnOk result (AppendsValue (v2_value header.now) out.old.items out.new.items) }
{
    push_i32(out, 0, 1, &header.num_values)?;
    let last = push_some_i32(out, 1, 2, header.num_nulls)?;
    push_i32(out, last, 3, &header.num_rows)?;
    push_i32(out, 3, 4, &header.encoding)?;
    push_i32(out, 4, 5, &header.definition_levels_byte_length)?;
    push_i32(out, 5, 6, &header.repetition_levels_byte_length)?;
    let last = push_some_bool(out, 6, 7, header.is_compressed)?;
    push_some_statistics(out, last, 8, &header.statistics)?;
    out.push(0)?;
    Ok(())
}

// A number that is not negative with the id, behind a field with the id `last`.
fn push_natural(out: &mut Vec<u8>, last: u8, id: u8, number: u32) -> Result<(), AllocError>
    requires small { number < 2 ^ 31 }
    ensures { OnOk result (AppendsField last id (int32 (pos number)) out.old.items out.new.items) }
{
    let number = number as i32;
    push_i32(out, last, id, &number)
}

fn push_data_1(out: &mut Vec<u8>, header: &DataPageHeaderV1, size: u32) -> Result<(), AllocError>
    requires small { size < 2 ^ 31 }
    ensures { OnOk result (AppendsValue (data_value (V1 header.now) size) out.old.items out.new.items) }
{
    push_natural(out, 0, 1, 0)?;
    push_natural(out, 1, 2, size)?;
    push_natural(out, 2, 3, size)?;
    push_struct_head(out, 3, 5)?;
    push_v1(out, header)?;
    out.push(0)?;
    Ok(())
}

fn push_data_2(out: &mut Vec<u8>, header: &DataPageHeaderV2, size: u32) -> Result<(), AllocError>
    requires small { size < 2 ^ 31 }
    ensures { OnOk result (AppendsValue (data_value (V2 header.now) size) out.old.items out.new.items) }
{
    push_natural(out, 0, 1, 3)?;
    push_natural(out, 1, 2, size)?;
    push_natural(out, 2, 3, size)?;
    push_struct_head(out, 3, 8)?;
    push_v2(out, header)?;
    out.push(0)?;
    Ok(())
}

// The number of entries, their encoding and their order as a struct.
fn push_entries(out: &mut Vec<u8>, entries: u32, is_sorted: bool) -> Result<(), AllocError>
    requires few { entries < 2 ^ 31 }
    ensures { OnOk result
        (AppendsValue
        (struct (at 1 (i32 entries) (at 2 (i32 0) (at 3 (truth is_sorted) no_fields)))) out.old.items out.new.items) }
{
    push_natural(out, 0, 1, entries)?;
    push_natural(out, 1, 2, 0)?;
    push_bool(out, 2, 3, is_sorted)?;
    out.push(0)?;
    Ok(())
}

fn push_dict(out: &mut Vec<u8>, entries: u32, is_sorted: bool, size: u32) -> Result<(), AllocError>
    requires few { entries < 2 ^ 31 }
    requires small { size < 2 ^ 31 }
    ensures { OnOk result (AppendsValue (dict_value entries is_sorted size) out.old.items out.new.items) }
{
    push_natural(out, 0, 1, 2)?;
    push_natural(out, 1, 2, size)?;
    push_natural(out, 2, 3, size)?;
    push_struct_head(out, 3, 7)?;
    push_entries(out, entries, is_sorted)?;
    out.push(0)?;
    Ok(())
}

fn push_data(out: &mut Vec<u8>, header: &DataPageHeader, size: u32) -> Result<(), AllocError>
    requires small { size < 2 ^ 31 }
    ensures { OnOk result (AppendsValue (data_value header.now size) out.old.items out.new.items) }
{
    match header {
        DataPageHeader::V1(header) => push_data_1(out, header, size),
        DataPageHeader::V2(header) => push_data_2(out, header, size),
    }
}

fn push_page(out: &mut Vec<u8>, page: &Page) -> Result<(), AllocError>
    requires fits { ¬ IsTooLong page.now }
    ensures { OnOk result (AppendsValue (page_value page.now) out.old.items out.new.items) }
{
    match page {
        Page::Data(page) => push_data(out, page.header(), page.buffer().len() as u32),
        Page::Dict(page) => push_dict(
            out,
            page.num_values as u32,
            page.is_sorted,
            page.buffer.len() as u32,
        ),
    }
}

/// Whether a number passes the fields of the header.
fn is_too_long(page: &Page) -> bool
    ensures { IsTrue result ↔ IsTooLong page.now }
{
    match page {
        Page::Data(page) => page.buffer().len() > MAX_SIZE,
        Page::Dict(page) => page.num_values > MAX_SIZE || page.buffer.len() > MAX_SIZE,
    }
}

/// Appends the page's header (Parquet format, `PageHeader`): the ids that the header in memory has a value for, each
/// once and ascending. Both sizes are those of the body, and a dictionary page is in encoding `Plain`.
///
/// # Errors
///
/// - `Overflow(V3)`: exactly where the body's length or a dictionary page's number of entries passes 2^31 - 1.
/// - `Memory`: memory ran out.
///
/// After either `out` is as before.
pub fn write_page_header(page: &Page, out: &mut Vec<u8>) -> Outcome<()>
    ensures ok { OnOk result (AppendsHeader page.now out.old.items out.new.items) }
    // The same as an equation.
    ensures exact { OnOk result (out.new.items ≡ out.old.items ++ spell (page_value page.now)) }
    ensures too_long { IsTooLong page.now → IsErrOf result (Overflow V3) }
    ensures refused { IfErr result (λ e. (e ≡ Memory) ⊎ ((e ≡ Overflow V3) × IsTooLong page.now)) }
    ensures err { OnErr result (out.new.items ≡ out.old.items) }
{
    if is_too_long(page) {
        return Err(Error::Overflow(V::V3));
    }
    let mut text = Vec::with_capacity(*out.allocator(), MOST_BYTES)?;
    push_page(&mut text, page)?;
    out.extend_from_slice(&text)?;
    Ok(())
}
