//! The columns of the sample as arrays.
ghost use Rattle.std.specs.Prelude.{◌≡◌, ◌≤◌, IfOk, IfErr};
ghost use Rattle.columns_array.specs.Boxed.{boxed};
ghost use Rattle.columns_core.specs.Tree.{t_int64, t_utf8};
ghost use Rattle.sample_rows.specs.Columns.{AreColumns, IsColumn};
ghost use Rattle.sample_rows.specs.Fields.{items_type};
ghost use Rattle.sample_rows.specs.Rows.{id_slot, items_slot, tag_slot};

use crate::ids::ids;
use crate::items::lists;
use crate::schema::list_type;
use crate::tags::tags;
use columns_array::{ArrayBox, Chunk};
use columns_base::{Error, Result};
use std::alloc::Global;

/// The numbers of so many rows.
///
/// # Errors
///
/// `Memory`.
#[tactic(auto, using(crate::proofs::Slots::ids_are))]
pub fn id_array(alloc: Global, count: u32) -> Result<ArrayBox>
    requires { count ≤ 1000000 }
    ensures ok { IfOk result (λ a. IsColumn t_int64 id_slot count (boxed a)) }
    ensures err { IfErr result (λ e. e ≡ Error.Memory) }
{
    ids(alloc, count).map(ArrayBox::Int64)
}

/// The tags of so many rows: the row's number in decimal, and null in each third row.
///
/// # Errors
///
/// `Memory`.
#[tactic(auto, using(crate::proofs::Slots::tags_are))]
pub fn tag_array(alloc: Global, count: u32) -> Result<ArrayBox>
    requires { count ≤ 1000000 }
    ensures ok { IfOk result (λ a. IsColumn t_utf8 tag_slot count (boxed a)) }
    ensures err { IfErr result (λ e. e ≡ Error.Memory) }
{
    tags(alloc, count).map(ArrayBox::Utf8)
}

/// The lists of so many rows: in row i the i mod 4 numbers from i on, each seventh of them null, and null in each fifth row.
///
/// # Errors
///
/// `Memory`.
pub fn items_array(alloc: Global, count: u32) -> Result<ArrayBox>
    requires { count ≤ 1000000 }
    ensures ok { IfOk result (λ a. IsColumn items_type items_slot count (boxed a)) }
    ensures err { IfErr result (λ e. e ≡ Error.Memory) }
{
    let data_type = list_type(alloc)?;
    lists(alloc, data_type, count).map(ArrayBox::List)
}

/// So many rows of the sample, from the first on, under the fields of `sample_schema`.
///
/// # Errors
///
/// `Memory`.
#[tactic(auto, using(crate::proofs::Chunks::columns_even))]
pub fn sample_chunk(alloc: Global, count: u32) -> Result<Chunk>
    requires { count ≤ 1000000 }
    ensures ok { IfOk result (λ c. AreColumns count c) }
    ensures err { IfErr result (λ e. e ≡ Error.Memory) }
{
    let ids = id_array(alloc, count)?;
    let tags = tag_array(alloc, count)?;
    let items = items_array(alloc, count)?;
    Chunk::try_new(Vec::from_array(alloc, [ids, tags, items])?)
}
