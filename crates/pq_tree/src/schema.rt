//! A schema with its nodes as trees, and its columns.
ghost use Rattle.std.specs.Prelude.{◌≡◌, ◌≤◌, ◌<◌, ◌⊎◌, IfOk, IfErr, map, string_bytes};
ghost use Rattle.columns_base.specs.declared.error.Error.TheVariants.{Memory, NotYetImplemented};
ghost use Rattle.columns_base.specs.declared.error.N.TheVariants.{N7};
ghost use Rattle.pq_tree.specs.Columns.{columns_in};
ghost use Rattle.pq_tree.specs.Described.{column_view};
ghost use Rattle.pq_tree.specs.Forest.{max_nesting};
ghost use Rattle.pq_tree.specs.Paths.{path_view, paths_in};
ghost use Rattle.pq_tree.specs.Tree.{nesting_of};
ghost use Rattle.pq_tree.specs.TreeViews.{trees_view};

use crate::columns::{MAX_NESTING, all_nest_within, push_all_columns};
use crate::paths::push_all_paths;
use crate::types::{Descriptor, ParquetType};
use columns_base::{Error, N};
use std::alloc::Global;
use std::marker::Model;

/// A schema with its nodes as trees, and its columns, which are the leaves with their greatest
/// levels (Parquet format, "Metadata" and "Nested Encoding"). It nests to at most 128, counted from
/// its root.
#[derive(Debug, Drop)]
pub struct SchemaDescriptor {
    name: String,
    fields: Vec<ParquetType>,
    columns: Vec<Descriptor>,
}

impl Model for SchemaDescriptor {
    ghost use Rattle.std.specs.Prelude.{◌≡◌, map, string_bytes};
    ghost use Rattle.std.specs.Coded.{codes};
    ghost use Rattle.pq_tree.specs.SchemaValue.{SchemaValue};
    ghost use Rattle.pq_tree.specs.contracts.types.ParquetType as nodes;

    ghost Value = { SchemaValue };

    ghost coded = { Prim.hlevel (codes, nodes.the_row.coded) };

    ghost use Rattle.std.specs.Prelude.{◌≤◌};
    ghost use Rattle.pq_tree.specs.Columns.{columns_in};
    ghost use Rattle.pq_tree.specs.Described.{column_view};
    ghost use Rattle.pq_tree.specs.Forest.{max_nesting};
    ghost use Rattle.pq_tree.specs.Tree.{nesting_of};
    ghost use Rattle.pq_tree.specs.TreeViews.{trees_view};

    ghost view = { λ s. record { name = string_bytes s.name; fields = s.fields.items } };

    ghost invariant = { λ s. (map column_view s.columns.items ≡ columns_in (trees_view s.fields.items))
        × (nesting_of (trees_view s.fields.items) ≤ max_nesting) };
}

impl SchemaDescriptor {
    /// The schema of a root with this name and these nodes beneath it.
    ///
    /// # Errors
    ///
    /// - `NotYetImplemented(N7)`: the schema nests past 128, counted from its root.
    /// - `Memory`: memory ran out.
    pub fn new(alloc: Global, name: String, fields: Vec<ParquetType>) -> Result<Self, Error>
        ensures name { IfOk result (λ s. s.name ≡ string_bytes name) }
        ensures fields { IfOk result (λ s. s.fields ≡ fields.items) }
        ensures shallow { IfOk result (λ s. nesting_of (trees_view fields.items) ≤ max_nesting) }
        ensures refused { IfErr result (λ e. (e ≡ Memory) ⊎ ((e ≡ NotYetImplemented N7)
            × (max_nesting < nesting_of (trees_view fields.items)))) }
    {
        if !all_nest_within(&fields, MAX_NESTING) {
            return Err(Error::NotYetImplemented(N::N7));
        }
        let mut columns = Vec::new(alloc);
        push_all_columns(alloc, &fields, 0, 0, &mut columns)?;
        Ok(SchemaDescriptor {
            name,
            fields,
            columns,
        })
    }

    /// The root's name.
    pub fn name(&self) -> &str
        ensures { result.now ≡ self.now.name }
    {
        &self.name
    }

    /// The nodes beneath the root, in order.
    pub fn fields(&self) -> &[ParquetType]
        ensures are { result.now ≡ self.now.fields }
        ensures shallow { nesting_of (trees_view self.now.fields) ≤ max_nesting }
    {
        &self.fields
    }

    /// The leaves in order, each with its greatest levels.
    pub fn columns(&self) -> &[Descriptor]
        ensures { map column_view result.now ≡ columns_in (trees_view self.now.fields) }
    {
        &self.columns
    }

    /// For each leaf in order the names of the nodes on its path, from the node beneath the root to the leaf
    /// (Parquet format, `ColumnMetaData.path_in_schema`).
    ///
    /// # Errors
    ///
    /// Out of memory.
    #[tactic(auto, using(crate::proofs::PathsWalked::paths_walked))]
    pub fn leaf_paths(&self, alloc: Global) -> Result<Vec<Vec<String>>, Error>
        ensures ok { IfOk result (λ paths. map path_view paths.items ≡ paths_in (trees_view self.now.fields)) }
        ensures err { IfErr result (λ e. e ≡ Memory) }
    {
        let mut paths = Vec::new(alloc);
        push_all_paths(alloc, &self.fields, &[], &mut paths)?;
        Ok(paths)
    }
}
