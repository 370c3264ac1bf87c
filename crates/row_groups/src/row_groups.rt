//! Chunks of arrays as row groups.
ghost use Rattle.std.specs.Prelude.{◌≡◌, ◌⊎◌, ◌≤◌, ◌≢◌, Err, false, true, length, map, IfErr, IfOk};
ghost use Rattle.std.specs.Iterator.{count_unless};
ghost use Rattle.columns_base.specs.declared.error.A.TheVariants.{A8};
ghost use Rattle.columns_base.specs.declared.error.Error.TheVariants.{InvalidArgumentError, Memory};
ghost use Rattle.columns_core.specs.Measures.{fields_nesting};
ghost use Rattle.columns_core.specs.View.{fields_view, schema_view};
ghost use Rattle.pq_tree.specs.TreeViews.{trees_view};
ghost use Rattle.schema_to_tree.specs.Conditions.{RefusesSchema};
ghost use Rattle.schema_to_tree.specs.Table.{schema_of};
ghost use Rattle.row_groups.specs.Groups.{AreNumbered, GivesGroup, IsGroupFor, RefusesGroup};

use crate::copies::{copy_encodings, copy_fields, copy_trees};
use crate::numbers::are_numbered;
use columns_array::Chunk;
use columns_base::{A, Error, Result};
use columns_core::{Field, MAX_NESTING, Schema, all_nest_within};
use pq_tree::{Encoding, ParquetType, SchemaDescriptor};
use schema_to_tree::to_parquet_schema;
use std::alloc::Global;
use typed_rows::are_rows_of;
use write_groups::{RowGroupIter, row_group_iter};
use write_pages::WriteOptions;

/// The row groups of chunks of arrays that an iterator gives, as a `FileWriter` of the schema takes them.
///
/// `next` takes exactly one outcome of that iterator. It gives nothing where that one gave nothing, or where it gave an error before.
#[derive(Drop)]
pub struct RowGroupIterator<I> {
    pub alloc: Global,
    pub iter: I,
    pub options: WriteOptions,
    pub schema: SchemaDescriptor,
    /// The fields of the arrays.
    pub fields: Vec<Field>,
    /// For each field the encodings of its leaves.
    pub encodings: Vec<Vec<Encoding>>,
    pub has_failed: bool,
}

// The group of a chunk, by its own copies of what all groups share.
#[tactic(auto, using(crate::proofs::Counted::refuses_group))]
fn group_of(
    alloc: Global,
    fields: &[Field],
    trees: &[ParquetType],
    encodings: &[Vec<Encoding>],
    options: WriteOptions,
    chunk: Chunk,
) -> Result<RowGroupIter>
    ensures ok { IfOk result (λ g. IsGroupFor (fields_view fields.now) (trees_view trees.now)
        (map (λ es. es.items) encodings.now) options chunk g) }
    ensures refused { IfErr result (λ e. RefusesGroup (fields_view fields.now) (trees_view trees.now)
        (map (λ es. es.items) encodings.now) options chunk e) }
{
    if !are_rows_of(fields, &chunk) {
        return Err(Error::InvalidArgumentError(A::A8));
    }
    let trees = copy_trees(alloc, trees)?;
    let encodings = copy_encodings(alloc, encodings)?;
    row_group_iter(alloc, chunk, encodings, trees, options)
}

impl<I: Iterator<Item = Result<Chunk>> + Drop> RowGroupIterator<I> {
    /// The groups of the chunks that `iter` gives, whose arrays are to be of the schema's fields. For each field there are the encodings of its
    /// leaves, in order.
    ///
    /// # Errors
    ///
    /// - `InvalidArgumentError(A8)`: there are not as many lists of encodings as fields, or not as many encodings in one as the field has leaves.
    /// - Those of `to_parquet_schema`.
    pub fn try_new(
        alloc: Global,
        iter: I,
        schema: &Schema,
        options: WriteOptions,
        encodings: Vec<Vec<Encoding>>,
    ) -> Result<Self>
        ensures ok { IfOk result (λ g. (g.iter ≡ iter) × (g.options ≡ options) × (g.encodings ≡ encodings)
            × (g.has_failed ≡ false)) }
        ensures fields { IfOk result (λ g. fields_view g.fields.items ≡ (schema_view schema.now).fields) }
        ensures trees { IfOk result (λ g. trees_view g.schema.fields
            ≡ (schema_of (schema_view schema.now).fields).fields) }
        ensures numbered { IfOk result (λ g. AreNumbered (schema_view schema.now).fields
            (map (λ es. es.items) encodings.items)) }
        ensures differ { fields_nesting (schema_view schema.now).fields ≤ 128
            → (¬ AreNumbered (schema_view schema.now).fields (map (λ es. es.items) encodings.items))
            → result ≡ Err (InvalidArgumentError A8) }
        ensures refused { IfErr result (λ e. ((e ≡ InvalidArgumentError A8)
            × (¬ AreNumbered (schema_view schema.now).fields (map (λ es. es.items) encodings.items)))
            ⊎ RefusesSchema (schema_view schema.now).fields e) }
    {
        if all_nest_within(&schema.fields, MAX_NESTING)
            && !are_numbered(&schema.fields, &encodings)
        {
            return Err(Error::InvalidArgumentError(A::A8));
        }
        let tree = to_parquet_schema(alloc, schema)?;
        let fields = copy_fields(alloc, &schema.fields)?;
        Ok(RowGroupIterator {
            alloc,
            iter,
            options,
            schema: tree,
            fields,
            encodings,
            has_failed: false,
        })
    }

    /// The tree of the schema (Parquet format, "Metadata").
    pub fn parquet_schema(&self) -> &SchemaDescriptor
        ensures { result.now ≡ self.now.schema }
    {
        &self.schema
    }
}

impl<I: Iterator<Item = Result<Chunk>> + Drop> Iterator for RowGroupIterator<I> {
    type Item = Result<RowGroupIter>;

    ghost can_next = { λ s. I.can_next s.iter };

    ghost next_gives = { GivesGroup I.next_gives };

    ghost remaining = { λ s. count_unless s.has_failed (I.remaining s.iter) };

    fn next(&mut self) -> Option<Result<RowGroupIter>> {
        if self.has_failed {
            return None;
        }
        match self.iter.next() {
            None => None,
            Some(Ok(chunk)) => {
                let group = group_of(
                    self.alloc,
                    &self.fields,
                    self.schema.fields(),
                    &self.encodings,
                    self.options,
                    chunk,
                );
                self.has_failed = group.is_err();
                Some(group)
            }
            Some(Err(error)) => {
                self.has_failed = true;
                Some(Err(error))
            }
        }
    }
}
