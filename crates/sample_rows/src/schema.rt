//! The schema of the sample.
ghost use Rattle.std.specs.Prelude.{◌≡◌, IfOk, IfErr, []};
ghost use Rattle.columns_core.specs.Tree.{field};
ghost use Rattle.columns_core.specs.View.{field_view, schema_view, type_view};
ghost use Rattle.sample_rows.specs.Fields.{items_type, sample_tree};

use columns_base::{Error, Result};
use columns_core::{DataType, Field, Metadata, Schema};
use std::alloc::Global;

fn named(alloc: Global, name: &str, data_type: DataType, is_nullable: bool) -> Result<Field>
    ensures ok { IfOk result (λ f. field_view f ≡ field name.now (type_view data_type) is_nullable []) }
    ensures err { IfErr result (λ e. e ≡ Error.Memory) }
{
    Ok(Field {
        name: String::from_str(alloc, name)?,
        data_type,
        is_nullable,
        metadata: Metadata::new(alloc),
    })
}

/// The type of the field `items`.
pub(crate) fn list_type(alloc: Global) -> Result<DataType>
    ensures ok { IfOk result (λ t. type_view t ≡ items_type) }
    ensures err { IfErr result (λ e. e ≡ Error.Memory) }
{
    let item = named(alloc, "item", DataType::Int32, true)?;
    Ok(DataType::List(Box::new(alloc, item)?))
}

/// The schema of the sample: `id`, whole numbers, required; `tag`, texts, optional; `items`, optional lists of optional whole numbers under `item`.
///
/// # Errors
///
/// `Memory`.
pub fn sample_schema(alloc: Global) -> Result<Schema>
    ensures ok { IfOk result (λ s. schema_view s ≡ sample_tree) }
    ensures err { IfErr result (λ e. e ≡ Error.Memory) }
{
    let id = named(alloc, "id", DataType::Int64, false)?;
    let tag = named(alloc, "tag", DataType::Utf8, true)?;
    let items = named(alloc, "items", list_type(alloc)?, true)?;
    Ok(Schema {
        fields: Vec::from_array(alloc, [id, tag, items])?,
        metadata: Metadata::new(alloc),
    })
}
