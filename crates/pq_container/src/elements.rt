//! The nodes of a schema, each from its Thrift struct.
ghost use Rattle.std.specs.Prelude.{◌≡◌, ℕ, List, IfOk, IfErr, OnErr, string_bytes, map};
ghost use Rattle.columns_base.specs.declared.error.Error.TheVariants.{OutOfSpec};
ghost use Rattle.columns_base.specs.declared.error.S.TheVariants.{S1};
ghost use Rattle.pq_thrift.specs.Value.{view, values_view, fields_view};
ghost use Rattle.pq_metadata.specs.Elements.{HasElement, IsNode, IsRoot, SpellsNode, SpellsRoot};
ghost use Rattle.pq_metadata.specs.Ids.{Each};
ghost use Rattle.pq_container.specs.Raw.{raw_view, SpellsRootAs};
ghost use Rattle.pq_tree.specs.Reads.{HasNone, Refuses};
ghost use Rattle.pq_tree.specs.Views.{element_view};

use crate::annotations::{
    converted_from, logical_from, natural_from, physical_from, repetition_from,
};
use crate::fields::{needed_text, optional_i32, optional_struct};
use crate::kinds::as_struct;
use crate::misfit::Misfit;
use columns_base::{Error, S};
use pq_thrift::Thrift;
use pq_tree::{FieldInfo, SchemaElement};
use std::alloc::Global;

/// The fields of a `SchemaElement`, each of the kind that the standard states.
#[derive(Clone, Copy)]
pub struct RawElement<'a> {
    pub physical_type: Option<i32>,
    pub type_length: Option<i32>,
    pub repetition_type: Option<i32>,
    pub name: &'a str,
    pub num_children: Option<i32>,
    pub converted_type: Option<i32>,
    pub scale: Option<i32>,
    pub precision: Option<i32>,
    pub field_id: Option<i32>,
    pub logical_type: Option<&'a [(i16, Thrift)]>,
}

fn raw_element(fields: &[(i16, Thrift)]) -> Result<RawElement<'_>, Misfit>
    ensures found { IfOk result (λ raw. HasElement (fields_view fields.now) (raw_view raw)) }
    ensures refused { OnErr result (HasNone (HasElement (fields_view fields.now))) }
{
    Ok(RawElement {
        physical_type: optional_i32(fields, 1)?,
        type_length: optional_i32(fields, 2)?,
        repetition_type: optional_i32(fields, 3)?,
        name: needed_text(fields, 4)?,
        num_children: optional_i32(fields, 5)?,
        converted_type: optional_i32(fields, 6)?,
        scale: optional_i32(fields, 7)?,
        precision: optional_i32(fields, 8)?,
        field_id: optional_i32(fields, 9)?,
        logical_type: optional_struct(fields, 10)?,
    })
}

fn node_from(alloc: Global, raw: &RawElement) -> Result<SchemaElement, Error>
    ensures found { IfOk result (λ e. IsNode (raw_view raw.now) (element_view e)) }
    ensures refused { IfErr result (Refuses (OutOfSpec S1) (IsNode (raw_view raw.now))) }
{
    let physical_type = physical_from(raw.physical_type, raw.type_length)?;
    let num_children = natural_from(raw.num_children)?;
    let repetition = repetition_from(raw.repetition_type)?;
    let precision = natural_from(raw.precision)?;
    let scale = natural_from(raw.scale)?;
    let converted_type = converted_from(raw.converted_type, precision, scale);
    let logical_type = logical_from(raw.logical_type)?;
    let name = String::from_str(alloc, raw.name)?;
    Ok(SchemaElement {
        field_info: FieldInfo {
            name,
            repetition,
            id: raw.field_id,
        },
        physical_type,
        num_children,
        converted_type,
        logical_type,
    })
}

/// The node that the struct spells. `OutOfSpec(S1)` where it spells none.
pub fn element_from(alloc: Global, value: &Thrift) -> Result<SchemaElement, Error>
    ensures found { IfOk result (λ e. SpellsNode (view value.now) (element_view e)) }
    ensures refused { IfErr result (Refuses (OutOfSpec S1) (SpellsNode (view value.now))) }
{
    let Some(fields) = as_struct(value) else {
        return Err(Error::OutOfSpec(S::S1));
    };
    let raw = raw_element(fields)?;
    node_from(alloc, &raw)
}

fn root_parts(raw: &RawElement) -> Result<usize, Misfit>
    ensures found { IfOk result (λ n. IsRoot (raw_view raw.now) raw.now.name.now n) }
    ensures refused { OnErr result ((name : List ℕ) → HasNone (IsRoot (raw_view raw.now) name)) }
{
    if raw.physical_type.is_some() {
        return Err(Misfit);
    }
    let num_children = natural_from(raw.num_children)?;
    let _precision = natural_from(raw.precision)?;
    let _scale = natural_from(raw.scale)?;
    let _annotation = logical_from(raw.logical_type)?;
    Ok(num_children)
}

/// The root's name, and the number of its children. `OutOfSpec(S1)` where the struct is no root:
/// a root has no type. Its repetition is not looked at.
pub fn root_from(alloc: Global, value: &Thrift) -> Result<(String, usize), Error>
    ensures found { IfOk result (λ r. SpellsRoot (view value.now) (string_bytes r.0) r.1) }
    ensures refused { IfErr result (Refuses (OutOfSpec S1) (SpellsRootAs (view value.now))) }
{
    let Some(fields) = as_struct(value) else {
        return Err(Error::OutOfSpec(S::S1));
    };
    let raw = raw_element(fields)?;
    let num_children = root_parts(&raw)?;
    Ok((String::from_str(alloc, raw.name)?, num_children))
}

/// The nodes that the structs spell, one by one.
#[tactic(auto, using(crate::proofs::Eachs::each_next, crate::proofs::Eachs::each_refused))]
pub fn elements_from(alloc: Global, values: &[Thrift]) -> Result<Vec<SchemaElement>, Error>
    ensures found { IfOk result (λ es. Each SpellsNode (values_view values.now) (map element_view es.items)) }
    ensures refused { IfErr result (Refuses (OutOfSpec S1) (Each SpellsNode (values_view values.now))) }
{
    let mut elements = Vec::new(alloc);
    for value in values {
        elements.push(element_from(alloc, value)?)?;
    }
    Ok(elements)
}
