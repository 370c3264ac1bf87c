//! What the metadata of columns states of their leaves.
ghost use Rattle.std.specs.Prelude.{◌≡◌, map, IfOk, IfErr};
ghost use Rattle.columns_base.specs.declared.error.Error.TheVariants.{Memory};
ghost use Rattle.pq_tree.specs.Tree.{columns_of};
ghost use Rattle.pq_tree.specs.TreeViews.{schema_view};
ghost use Rattle.pq_tree.specs.Views.{physical_view};
ghost use Rattle.write_file.specs.Leaves.{AreMetasOf};

use columns_base::Result;
use pq_tree::{Descriptor, PhysicalType, SchemaDescriptor};
use std::alloc::Global;

/// Of each leaf of a schema, in order, what the metadata of its columns states (Parquet format, `ColumnMetaData`).
#[derive(Debug, Drop)]
pub struct LeafMetas {
    pub physicals: Vec<PhysicalType>,
    /// The names of the nodes on the path to each, the outermost first.
    pub paths: Vec<Vec<String>>,
}

fn physicals_of(alloc: Global, columns: &[Descriptor]) -> Result<Vec<PhysicalType>>
    ensures ok { IfOk result (λ v. map physical_view v.items ≡ map
        (λ d. physical_view d.primitive_type.physical_type) columns.now) }
    ensures err { IfErr result (λ e. e ≡ Memory) }
{
    let mut physicals = Vec::new(alloc);
    for column in columns {
        physicals.push(column.primitive_type.physical_type)?;
    }
    Ok(physicals)
}

/// What the metadata of a schema's columns states of its leaves.
///
/// # Errors
///
/// `Memory`: memory ran out.
pub(crate) fn leaves_of(alloc: Global, schema: &SchemaDescriptor) -> Result<LeafMetas>
    ensures ok { IfOk result (AreMetasOf (columns_of (schema_view schema.now))) }
    ensures err { IfErr result (λ e. e ≡ Memory) }
{
    let physicals = physicals_of(alloc, schema.columns())?;
    let paths = schema.leaf_paths(alloc)?;
    Ok(LeafMetas { physicals, paths })
}
