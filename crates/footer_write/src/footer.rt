//! The footer, appended as it is spelled.
ghost use Rattle.std.specs.Prelude.{◌≡◌, ◌<◌, ◌^◌, IfErr, IfOk, OnOk, map, option_map, string_bytes};
ghost use Rattle.columns_base.specs.declared.error.Error.TheVariants.{Memory};
ghost use Rattle.pq_thrift.specs.Spelling.{AreWritable, IsStruct, IsWritable};
ghost use Rattle.pq_thrift.specs.Value.{binary, list, values_of, values_view, view};
ghost use Rattle.pq_tree.specs.TreeViews.{schema_view, pairs_view};
ghost use Rattle.pq_tree.specs.Views.{key_view};
ghost use Rattle.pq_files.specs.Written.{empty, key_value, keys_value, footer_value, one, orders_value, structs};
ghost use Rattle.footer_write.specs.Fits.{TreesFit};
ghost use Rattle.footer_write.specs.FooterView.{footer_view};
ghost use Rattle.footer_write.specs.Room.{trees_room};
ghost use Rattle.thrift_fields.specs.Appended.{AppendsField, AppendsSome, AppendsValue, AppendsValues};

use crate::elements::elements_from;
use crate::groups::push_groups;
use crate::types::ThriftFileMetaData;
use columns_base::Result as Outcome;
use pq_thrift::{Thrift, write_thrift};
use pq_tree::{Descriptor, KeyValue, SchemaDescriptor};
use std::alloc::AllocError;
use thrift_fields::{push_i32, push_i64, push_list_head, push_struct_head, push_text};

// A struct.
fn push_struct(out: &mut Vec<u8>, value: &Thrift) -> Outcome<()>
    requires is_struct { IsStruct (view value.now) }
    requires writable { IsWritable (view value.now) }
    ensures ok { OnOk result (AppendsValue (view value.now) out.old.items out.new.items) }
    ensures err { IfErr result (λ e. e ≡ Memory) }
{
    write_thrift(value, out)
}

// Structs, one behind the other.
fn push_each_struct(out: &mut Vec<u8>, values: &[Thrift]) -> Outcome<()>
    requires { AreWritable (values_view values.now) 12 }
    ensures ok { OnOk result (AppendsValues (values_view values.now) out.old.items out.new.items) }
    ensures err { IfErr result (λ e. e ≡ Memory) }
{
    'values: for value in values {
        push_struct(out, value)?;
    }
    Ok(())
}

// A list of structs with the id, behind a field with the id `last`.
fn push_structs(out: &mut Vec<u8>, last: u8, id: u8, values: &Vec<Thrift>) -> Outcome<()>
    requires { AreWritable (values_view values.now.items) 12 }
    ensures ok { OnOk result (AppendsField last id
        (list 12 (values_view values.now.items)) out.old.items out.new.items) }
    ensures err { IfErr result (λ e. e ≡ Memory) }
{
    push_list_head(out, last, id, 12, values.len())?;
    push_each_struct(out, values)?;
    Ok(())
}

// A text with the id, if there is one, behind a field with the id `last`. Gives the id of the last field then.
fn push_some_text(
    out: &mut Vec<u8>,
    last: u8,
    id: u8,
    text: &Option<String>,
) -> Result<u8, AllocError>
    ensures { IfOk result (λ next. AppendsSome last id (option_map binary
        (option_map string_bytes text.now)) next out.old.items out.new.items) }
{
    let Some(text) = text else {
        return Ok(last);
    };
    push_text(out, last, id, text)?;
    Ok(id)
}

// A pair as a struct.
fn push_key(out: &mut Vec<u8>, pair: &KeyValue) -> Result<(), AllocError>
    ensures { OnOk result (AppendsValue (key_value (key_view pair.now)) out.old.items out.new.items) }
{
    push_text(out, 0, 1, &pair.key)?;
    push_some_text(out, 1, 2, &pair.value)?;
    out.push(0)?;
    Ok(())
}

// Pairs, one behind the other.
fn push_keys(out: &mut Vec<u8>, pairs: &[KeyValue]) -> Result<(), AllocError>
    ensures { OnOk result
        (AppendsValues (values_of (map key_value (map key_view pairs.now))) out.old.items out.new.items) }
{
    'pairs: for pair in pairs {
        push_key(out, pair)?;
    }
    Ok(())
}

// A list of pairs with the id, behind a field with the id `last`.
fn push_key_list(
    out: &mut Vec<u8>,
    last: u8,
    id: u8,
    pairs: &Vec<KeyValue>,
) -> Result<(), AllocError>
    ensures { OnOk result (AppendsField last id
        (structs (map key_value (map key_view pairs.now.items))) out.old.items out.new.items) }
{
    push_list_head(out, last, id, 12, pairs.len())?;
    push_keys(out, pairs)?;
    Ok(())
}

// The list of the pairs with the id, where there is one, behind a field with the id `last`. Gives the id of the last field then.
#[tactic(auto, using(crate::proofs::Pairs::some_keys))]
fn push_pairs(
    out: &mut Vec<u8>,
    last: u8,
    id: u8,
    pairs: &Option<Vec<KeyValue>>,
) -> Result<u8, AllocError>
    ensures { IfOk result (λ next. AppendsSome last id (keys_value
        (pairs_view pairs.now)) next out.old.items out.new.items) }
{
    let Some(pairs) = pairs else {
        return Ok(last);
    };
    if pairs.is_empty() {
        return Ok(last);
    }
    push_key_list(out, last, id, pairs)?;
    Ok(id)
}

// The order of a column's type as a struct.
fn push_order(out: &mut Vec<u8>) -> Result<(), AllocError>
    ensures { OnOk result (AppendsValue (one 1 empty) out.old.items out.new.items) }
{
    push_struct_head(out, 0, 1)?;
    out.push(0)?;
    out.push(0)?;
    Ok(())
}

// As many orders as columns, one behind the other.
fn push_each_order(out: &mut Vec<u8>, columns: &[Descriptor]) -> Result<(), AllocError>
    ensures { OnOk result (AppendsValues (values_of (map (λ d. one 1 empty) columns.now)) out.old.items out.new.items) }
{
    'columns: for _column in columns {
        push_order(out)?;
    }
    Ok(())
}

// The orders of the columns with the id, behind a field with the id `last`: each leaf has the order of its type.
fn push_orders(
    out: &mut Vec<u8>,
    last: u8,
    id: u8,
    schema: &SchemaDescriptor,
) -> Result<(), AllocError>
    ensures { OnOk result (AppendsField last id (orders_value (schema_view schema.now)) out.old.items out.new.items) }
{
    let columns = schema.columns();
    push_list_head(out, last, id, 12, columns.len())?;
    push_each_order(out, columns)?;
    Ok(())
}

/// Appends the footer as a struct.
pub fn push_footer(out: &mut Vec<u8>, metadata: &ThriftFileMetaData) -> Outcome<()>
    requires fits { TreesFit (schema_view metadata.now.schema).fields }
    requires small { trees_room (schema_view metadata.now.schema).fields < 2 ^ 31 }
    ensures ok { OnOk result (AppendsValue (footer_value (footer_view metadata.now)) out.old.items out.new.items) }
    ensures err { IfErr result (λ e. e ≡ Memory) }
{
    let elements = elements_from(*out.allocator(), &metadata.schema)?;
    push_i32(out, 0, 1, &metadata.version)?;
    push_structs(out, 1, 2, &elements)?;
    push_i64(out, 2, 3, &metadata.num_rows)?;
    push_groups(out, 3, 4, &metadata.row_groups)?;
    let last = push_pairs(out, 4, 5, &metadata.key_value_metadata)?;
    push_text(out, last, 6, &metadata.created_by)?;
    push_orders(out, 6, 7, &metadata.schema)?;
    out.push(0)?;
    Ok(())
}
