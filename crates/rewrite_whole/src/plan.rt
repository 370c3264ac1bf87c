//! What is settled before a page is read: the schema, and how it is written.
ghost use Rattle.std.specs.Prelude.{◌≡◌, ◌≤◌, ◌⊎◌, ◌++◌, List, IfOk, OnOk, IfErr, cond, ◌&&◌, true};
ghost use Rattle.columns_base.specs.declared.error.Error.TheVariants.{Memory};
ghost use Rattle.columns_core.specs.Measures.{fields_nesting};
ghost use Rattle.columns_core.specs.View.{schema_view, fields_view, type_view};
ghost use Rattle.pq_tree.specs.Tree.{leaves, leaves_of, nesting, nesting_of, schema_nesting};
ghost use Rattle.pq_tree.specs.TreeViews.{metadata_view, tree_view, trees_view, schema_view as tree_schema};
ghost use Rattle.pq_tree.specs.Views.{physical_view};
ghost use Rattle.pq_files.specs.Layout.{delta_of};
ghost use Rattle.pq_files.specs.Page.{plain};
ghost use Rattle.columns_core.specs.Shapes.{base, leaf_type};
ghost use Rattle.columns_slots.specs.Types.{is_leaf};
ghost use Rattle.write_values.specs.Deltas.{encoding_name};
ghost use Rattle.write_groups.specs.Laid.{AreChosen};
ghost use Rattle.schema_to_tree.specs.Conditions.{AreWritten};
ghost use Rattle.schema_to_tree.specs.Table.{schema_of, trees_of};
ghost use Rattle.pq_headline.specs.Served.{are_served_fields};
ghost use Rattle.pq_headline.specs.Stages.{HaveRows, RefusesSchema6};
ghost use Rattle.rewrite_whole.specs.Asks.{codec_of};
ghost use Rattle.rewrite_whole.specs.Plans.{IsPlan, MisfitReason, RefusesTree, TellsRows, lists_of, names_of};

use crate::keys::has_key;
use crate::misfit::is_misfit;
use crate::served::are_fields_served;
use columns_base::{A, Error, N, Result, S};
use columns_core::{DataType, Field, IntervalUnit, Schema};
use pq_headline::settled_schemas_fit;
use pq_tree::{Encoding, FileMetaData, ParquetType, PhysicalType, SchemaDescriptor};
use schema_codec::SchemaCodec;
use schema_fit::fits;
use schema_key::{KeyRule, infer_schema};
use schema_map::rows_decide;
use schema_to_tree::to_parquet_schema;
use std::alloc::Global;
use write_values::page_encoding;

/// The schema of a file, its tree as it is written, and the encodings of the leaves of each field.
#[derive(Drop)]
pub struct Plan {
    pub schema: Schema,
    pub tree: SchemaDescriptor,
    pub encodings: Vec<Vec<Encoding>>,
}

/// Whether a type is one of values, beneath its extensions.
fn is_leaf(data_type: &DataType) -> bool
    ensures { result ≡ is_leaf (base (type_view data_type.now)) }
{
    match data_type.base() {
        DataType::Boolean => true,
        DataType::Int8 | DataType::Int16 | DataType::Int32 | DataType::Int64 => true,
        DataType::UInt8 | DataType::UInt16 | DataType::UInt32 | DataType::UInt64 => true,
        DataType::Timestamp(_, _) | DataType::Duration(_) => true,
        DataType::Date32 | DataType::Date64 | DataType::Time32(_) | DataType::Time64(_) => true,
        DataType::Interval(IntervalUnit::YearMonth | IntervalUnit::DayTime) => true,
        DataType::Binary | DataType::FixedSizeBinary(_) | DataType::LargeBinary => true,
        DataType::Utf8 | DataType::LargeUtf8 | DataType::Decimal(_, _) => true,
        _ => false,
    }
}

/// The encoding of a leaf of a field of the type: where deltas are wanted and the leaf is the field's own the one that its type allows, else PLAIN.
fn encoding_of(data_type: &DataType, physical_type: PhysicalType, wants_deltas: bool) -> Encoding
    ensures { result ≡ encoding_name (cond (wants_deltas && is_leaf (base (type_view data_type.now)))
        (delta_of (leaf_type (type_view data_type.now)) (physical_view physical_type)) plain) }
{
    if !wants_deltas {
        return Encoding::Plain;
    }
    if !is_leaf(data_type) {
        return Encoding::Plain;
    }
    page_encoding(data_type, physical_type, true)
}

/// Appends the encoding of each leaf of a tree, which is of a field of the type. The tree nests to at most 128.
#[cycle(leaves)]
#[tactic(auto, using(crate::proofs::Plains::named_under))]
fn push_encodings(
    encodings: &mut Vec<Encoding>,
    node: &ParquetType,
    data_type: &DataType,
    wants_deltas: bool,
) -> Result<()>
    requires { nesting (tree_view node.now) ≤ 128 }
    ensures ok { OnOk result (encodings.new.items ≡ encodings.old.items
        ++ names_of wants_deltas (type_view data_type.now) (leaves (tree_view node.now))) }
    ensures err { IfErr result (λ e. e ≡ Memory) }
{
    match node {
        ParquetType::PrimitiveType(leaf) => {
            encodings.push(encoding_of(data_type, leaf.physical_type, wants_deltas))?;
            Ok(())
        }
        ParquetType::GroupType { fields, .. } => {
            push_all_encodings(encodings, fields, data_type, wants_deltas)
        }
    }
}

/// Appends the encoding of each leaf of some trees, which are of a field of the type. They nest to at most 128.
#[cycle(leaves)]
fn push_all_encodings(
    encodings: &mut Vec<Encoding>,
    nodes: &Vec<ParquetType>,
    data_type: &DataType,
    wants_deltas: bool,
) -> Result<()>
    requires { nesting_of (trees_view nodes.now.items) ≤ 128 }
    ensures ok { OnOk result (encodings.new.items ≡ encodings.old.items
        ++ names_of wants_deltas (type_view data_type.now) (leaves_of (trees_view nodes.now.items))) }
    ensures err { IfErr result (λ e. e ≡ Memory) }
{
    for node in nodes {
        push_encodings(encodings, node, data_type, wants_deltas)?;
    }
    Ok(())
}

/// The encodings of the leaves of a field of the type.
fn encodings_in(
    alloc: Global,
    node: &ParquetType,
    data_type: &DataType,
    wants_deltas: bool,
) -> Result<Vec<Encoding>>
    requires { nesting (tree_view node.now) ≤ 128 }
    ensures ok { IfOk result (λ v. v.items ≡ names_of wants_deltas (type_view data_type.now)
        (leaves (tree_view node.now))) }
    ensures err { IfErr result (λ e. e ≡ Memory) }
{
    let mut encodings = Vec::new(alloc);
    push_encodings(&mut encodings, node, data_type, wants_deltas)?;
    Ok(encodings)
}

/// The encodings of the leaves of each field. The trees are those that the fields are written as.
fn choose_encodings(
    alloc: Global,
    fields: &[Field],
    trees: &[ParquetType],
    wants_deltas: bool,
) -> Result<Vec<Vec<Encoding>>>
    requires nesting { nesting_of (trees_view trees.now) ≤ 128 }
    requires trees { trees_view trees.now ≡ trees_of (fields_view fields.now) }
    ensures ok { IfOk result (λ v. AreChosen wants_deltas (fields_view fields.now) (trees_view trees.now)
        (lists_of v)) }
    ensures err { IfErr result (λ e. e ≡ Memory) }
{
    let mut encodings = Vec::new(alloc);
    for (i, field) in fields.iter().enumerate() {
        encodings.push(encodings_in(alloc, &trees[i], &field.data_type, wants_deltas)?)?;
    }
    Ok(encodings)
}

/// Whether each leaf of each field is of a type whose values pages have at its nesting. The trees are those that the fields are written as.
fn have_rows(fields: &Vec<Field>, trees: &[ParquetType]) -> bool
    requires fields { fields_nesting (fields_view fields.now.items) ≤ 128 }
    requires nesting { nesting_of (trees_view trees.now) ≤ 128 }
    requires trees { trees_view trees.now ≡ trees_of (fields_view fields.now.items) }
    ensures { TellsRows (fields_view fields.now.items) result }
{
    rows_decide();
    for (i, field) in fields.iter().enumerate() {
        if !fits(field, &trees[i]) {
            return false;
        }
    }
    true
}

/// The tree that a schema is written as, where all of it is served.
fn tree_to_write(alloc: Global, schema: &Schema) -> Result<SchemaDescriptor>
    requires { fields_nesting (schema_view schema.now).fields ≤ 128 }
    ensures ok { IfOk result (λ s. (tree_schema s ≡ schema_of (schema_view schema.now).fields)
        × AreWritten (schema_view schema.now).fields) }
    ensures held { OnOk result (HaveRows (schema_view schema.now).fields
        × (are_served_fields (schema_view schema.now).fields ≡ true)) }
    ensures err { IfErr result (λ e. (e ≡ Memory) ⊎ RefusesTree (schema_view schema.now).fields e) }
{
    let tree = match to_parquet_schema(alloc, schema) {
        Ok(tree) => tree,
        Err(error) => return Err(error),
    };
    if !have_rows(&schema.fields, tree.fields()) {
        return Err(Error::NotYetImplemented(N::N5));
    }
    if !are_fields_served(&schema.fields) {
        return Err(Error::NotYetImplemented(N::N5));
    }
    Ok(tree)
}

/// Why fields misfit a tree: they are those of the key, or they were inferred.
fn misfit_of(rule: KeyRule, metadata: &FileMetaData) -> Error
    ensures { MisfitReason rule (metadata_view metadata.now) result }
{
    if has_key(rule, &metadata.key_value_metadata) {
        Error::OutOfSpec(S::S8)
    } else {
        Error::NotYetImplemented(N::N6)
    }
}

/// Settles the schema and the encodings of its leaves. Of a schema that is settled no condition of the sixth stage holds.
///
/// # Errors
///
/// - `InvalidArgumentError(A2)`: the key of the schema counts, and stands for none. `InvalidArgumentError(A3)`: the schema has no fields.
/// - `OutOfSpec(S8)`, `NotYetImplemented(N6)`: a field misfits its tree; with a key that counts it is S8.
/// - Those of `to_parquet_schema`.
/// - `NotYetImplemented(N5)`: pages have no values of a leaf's type, or it is not served.
/// - `Memory`: memory ran out.
pub fn plan_schema<C: SchemaCodec>(
    alloc: Global,
    metadata: &FileMetaData,
    rule: KeyRule,
    wants_deltas: bool,
    codec: &C,
) -> Result<Plan>
    ensures ok { IfOk result (IsPlan (codec_of (C.bytes_of codec.now) (C.reads codec.now)) rule wants_deltas
        (metadata_view metadata.now)) }
    ensures refused { IfErr result (λ e. (e ≡ Memory) ⊎ RefusesSchema6
        (codec_of (C.bytes_of codec.now) (C.reads codec.now)) rule (metadata_view metadata.now) e) }
{
    settled_schemas_fit();
    let schema = match infer_schema(alloc, metadata, rule, codec) {
        Ok(schema) => schema,
        Err(error) => return Err(error),
    };
    if schema.fields.is_empty() {
        return Err(Error::InvalidArgumentError(A::A3));
    }
    if is_misfit(&schema.fields, metadata.schema_descr.fields()) {
        return Err(misfit_of(rule, metadata));
    }
    let tree = match tree_to_write(alloc, &schema) {
        Ok(tree) => tree,
        Err(error) => return Err(error),
    };
    let encodings = choose_encodings(alloc, &schema.fields, tree.fields(), wants_deltas)?;
    Ok(Plan {
        schema,
        tree,
        encodings,
    })
}
