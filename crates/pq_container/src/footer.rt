//! The footer as a flat record.
ghost use Rattle.std.specs.Prelude.{◌≡◌, ℕ, List, [], IfOk, IfErr, string_bytes, map};
ghost use Rattle.columns_base.specs.declared.error.Error.TheVariants.{OutOfSpec};
ghost use Rattle.columns_base.specs.declared.error.S.TheVariants.{S1};
ghost use Rattle.pq_thrift.specs.Value.{view, values_view};
ghost use Rattle.pq_tree.specs.Described.{GroupsAreDescribed};
ghost use Rattle.pq_metadata.specs.FlatFooter.{SpellsElements, SpellsSchema, SpellsFlatFooter, SpellsFlatRecord};
ghost use Rattle.pq_metadata.specs.FooterReads.{RefusesFooter};
ghost use Rattle.pq_tree.specs.Reads.{Refuses};
ghost use Rattle.pq_numbers.specs.Texts.{Begins};
ghost use Rattle.pq_tree.specs.Views.{element_view, flat_view};

use crate::chunks::groups_from;
use crate::elements::{elements_from, root_from};
use crate::fields::{check_absent, last_with, needed_list, optional_i32, optional_i64};
use crate::keys::keys_from;
use crate::kinds::as_struct;
use columns_base::{Error, S};
use pq_thrift::{Thrift, read_thrift};
use pq_tree::{FlatFooter, SchemaElement};
use std::alloc::Global;

/// The root's name, the number of its children, and the nodes behind it.
fn schema_from(
    alloc: Global,
    values: &[Thrift],
) -> Result<(String, usize, Vec<SchemaElement>), Error>
    ensures found { IfOk result (λ s. SpellsElements (values_view values.now) (string_bytes s.0) s.1
        (map element_view s.2.items)) }
    ensures refused { IfErr result (Refuses (OutOfSpec S1) (SpellsSchema (values_view values.now))) }
{
    let [first, others @ ..] = values else {
        return Err(Error::OutOfSpec(S::S1));
    };
    let (name, num_children) = root_from(alloc, first)?;
    let elements = elements_from(alloc, others)?;
    Ok((name, num_children, elements))
}

/// The footer that the struct spells, with the nodes of its schema as a list, so that no chunk has
/// a descriptor. `OutOfSpec(S1)` where it spells none.
pub fn footer_from(alloc: Global, value: &Thrift) -> Result<FlatFooter, Error>
    ensures found { IfOk result (λ f. SpellsFlatFooter (view value.now) (flat_view f)) }
    ensures described { IfOk result (λ f. GroupsAreDescribed [] f.row_groups.items) }
    ensures refused { IfErr result (Refuses (OutOfSpec S1) (SpellsFlatFooter (view value.now))) }
{
    let Some(fields) = as_struct(value) else {
        return Err(Error::OutOfSpec(S::S1));
    };
    let _version = optional_i32(fields, 1)?;
    let elements = needed_list(fields, 2)?;
    let _num_rows = optional_i64(fields, 3)?;
    let groups = needed_list(fields, 4)?;
    check_absent(fields, 8)?;
    let (name, num_children, elements) = schema_from(alloc, elements)?;
    let row_groups = groups_from(alloc, groups)?;
    let key_value_metadata = keys_from(alloc, last_with(fields, 5))?;
    Ok(FlatFooter {
        name,
        num_children,
        elements,
        row_groups,
        key_value_metadata,
    })
}

/// Reads the footer that stands in front (Parquet format, `FileMetaData`), with the nodes of its
/// schema as a list, so that no chunk has a descriptor. What follows it is not looked at.
///
/// # Errors
///
/// - `OutOfSpec(S1)`: no footer stands there.
/// - `NotYetImplemented(N7)`: a struct stands there that nests past 128, wherever it leaves the
///   grammar after that.
/// - `Memory`: memory ran out.
pub fn read_footer(alloc: Global, bytes: &[u8]) -> Result<FlatFooter, Error>
    ensures found { IfOk result (λ f. Begins SpellsFlatRecord bytes.now (flat_view f)) }
    ensures described { IfOk result (λ f. GroupsAreDescribed [] f.row_groups.items) }
    ensures refused { IfErr result (RefusesFooter bytes.now) }
{
    let (value, _) = read_thrift(alloc, bytes)?;
    footer_from(alloc, &value)
}
