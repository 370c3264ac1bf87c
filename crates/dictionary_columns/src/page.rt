//! The page of a dictionary's keys.
ghost use Rattle.std.specs.Prelude.{◌≡◌, ◌<◌, ◌≤◌, ◌^◌, ℕ, List, IfErr, IfOk};
ghost use Rattle.columns_base.specs.declared.error.Error.TheVariants.{Memory};
ghost use Rattle.columns_core.specs.declared.types.IntegerType.TheVariants as K;
ghost use Rattle.pq_files.specs.Plain.{InARow};
ghost use Rattle.pq_headline.specs.FieldReasons.{key_room};
ghost use Rattle.pq_pages.specs.Outcomes.{gives_dictionary, page_shown};
ghost use Rattle.pq_tree.specs.Physical.{int32, int64};
ghost use Rattle.dictionary_columns.specs.Keys.{key_physical, stored_keys};

use columns_base::Result;
use columns_core::IntegerType;
use pq_numbers::push_u32_le;
use pq_pages::{DictPage, Page};
use std::alloc::Global;

// The numbers from 0 on, so many, as plain numbers of 32 bits.
fn small_keys(alloc: Global, count: usize) -> Result<Vec<u8>>
    requires { count ≤ 2 ^ 32 }
    ensures ok { IfOk result (λ body. InARow int32 body.items (stored_keys K.UInt32 0 count)) }
    ensures err { IfErr result (λ e. e ≡ Memory) }
{
    let mut body = Vec::new(alloc);
    for i in 0..count {
        push_u32_le(&mut body, i as u32)?;
    }
    Ok(body)
}

// The same as plain numbers of 64 bits.
fn wide_keys(alloc: Global, count: usize) -> Result<Vec<u8>>
    ensures ok { IfOk result (λ body. InARow int64 body.items (stored_keys K.UInt64 0 count)) }
    ensures err { IfErr result (λ e. e ≡ Memory) }
{
    let mut body = Vec::new(alloc);
    for i in 0..count {
        body.extend_from_slice(&(i as u64).to_le_bytes())?;
    }
    Ok(body)
}

// The same as plain numbers that keys of a type are stored as.
fn plain_keys(alloc: Global, key: IntegerType, count: usize) -> Result<Vec<u8>>
    requires { count ≤ key_room key }
    ensures ok { IfOk result (λ body. InARow (key_physical key) body.items (stored_keys key 0 count)) }
    ensures err { IfErr result (λ e. e ≡ Memory) }
{
    match key {
        IntegerType::Int8 => small_keys(alloc, count),
        IntegerType::Int16 => small_keys(alloc, count),
        IntegerType::Int32 => small_keys(alloc, count),
        IntegerType::UInt8 => small_keys(alloc, count),
        IntegerType::UInt16 => small_keys(alloc, count),
        IntegerType::UInt32 => small_keys(alloc, count),
        IntegerType::Int64 => wide_keys(alloc, count),
        IntegerType::UInt64 => wide_keys(alloc, count),
    }
}

/// The dictionary page of so many keys of a type: the numbers from 0 on (Parquet format, "Dictionary Page").
///
/// # Errors
///
/// `Memory`.
pub fn key_page(alloc: Global, key: IntegerType, count: usize) -> Result<Page>
    requires { count ≤ key_room key }
    ensures ok { IfOk result (λ page. (body : List ℕ) × (page_shown page ≡ gives_dictionary count body)
        × InARow (key_physical key) body (stored_keys key 0 count)) }
    ensures err { IfErr result (λ e. e ≡ Memory) }
{
    match plain_keys(alloc, key, count) {
        Ok(body) => Ok(Page::Dict(DictPage::new(body, count, true))),
        Err(error) => Err(error),
    }
}
