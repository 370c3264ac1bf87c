//! The tree of a schema.
ghost use Rattle.std.specs.Prelude.{◌≡◌, IfOk, IfErr, codes};
ghost use Rattle.columns_core.specs.View.{schema_view};
ghost use Rattle.pq_tree.specs.TreeViews as trees;
ghost use Rattle.schema_to_tree.specs.Table.{schema_of};
ghost use Rattle.schema_to_tree.specs.Conditions.{AreWritten, RefusesSchema};
ghost use Rattle.schema_to_tree.specs.Order.{IsFirst, schema_refusal};

use crate::depth::{fields_nesting_to, fields_tree_depth_to};
use crate::times::have_bad_time64;
use crate::trees::{MAX_NESTING, field_trees};
use columns_base::{A, Error, N, Result};
use columns_core::Schema;
use pq_tree::SchemaDescriptor;
use std::alloc::Global;

/// The trees of a schema's fields, in order, under the root `root` (Parquet format, "Metadata"). Each field is refused as by
/// `to_parquet_type`, but A6 goes before N5 over all fields, and N7 counts the tree from its root.
pub fn to_parquet_schema(alloc: Global, schema: &Schema) -> Result<SchemaDescriptor>
    ensures ok { IfOk result (λ s. (trees.schema_view s ≡ schema_of (schema_view schema.now).fields)
        × AreWritten (schema_view schema.now).fields) }
    ensures err { IfErr result (RefusesSchema (schema_view schema.now).fields) }
    ensures first { IfErr result (IsFirst (schema_refusal (schema_view schema.now).fields)) }
{
    if fields_nesting_to(&schema.fields, MAX_NESTING + 1) > MAX_NESTING {
        return Err(Error::NotYetImplemented(N::N7));
    }
    if fields_tree_depth_to(&schema.fields, MAX_NESTING) >= MAX_NESTING {
        return Err(Error::NotYetImplemented(N::N7));
    }
    if have_bad_time64(&schema.fields) {
        return Err(Error::InvalidArgumentError(A::A6));
    }
    let fields = field_trees(alloc, &schema.fields)?;
    let name = String::from_str(alloc, "root")?;
    SchemaDescriptor::new(alloc, name, fields)
}
