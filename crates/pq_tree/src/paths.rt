//! The names on the path to each leaf (Parquet format, `ColumnMetaData.path_in_schema`).
ghost use Rattle.std.specs.Prelude.{◌≡◌, ◌++◌, [], ◌∷◌, OnOk, IfOk, IfErr, map, string_bytes};
ghost use Rattle.columns_base.specs.declared.error.Error.TheVariants.{Memory};
ghost use Rattle.pq_tree.specs.Paths.{path_view, paths_under, paths_beneath};
ghost use Rattle.pq_tree.specs.TreeViews.{tree_view, trees_view};

use crate::types::ParquetType;
use columns_base::Error;
use std::alloc::Global;

// One more name.
fn push_name(path: &mut Vec<String>, name: &str) -> Result<(), Error>
    ensures ok { OnOk result (path_view path.new ≡ path_view path.old ++ name.now ∷ []) }
    ensures err { IfErr result (λ e. e ≡ Memory) }
{
    path.push(String::from_str(*path.allocator(), name)?)?;
    Ok(())
}

// The names, and one more.
fn extended(alloc: Global, names: &[String], name: &str) -> Result<Vec<String>, Error>
    ensures ok { IfOk result (λ path. path_view path ≡ map string_bytes names.now ++ name.now ∷ []) }
    ensures err { IfErr result (λ e. e ≡ Memory) }
{
    let mut path = Vec::new(alloc);
    for above in names {
        push_name(&mut path, above)?;
    }
    push_name(&mut path, name)?;
    Ok(path)
}

// Appends the path of each leaf of the tree, beneath nodes of these names.
#[cycle(paths)]
fn push_paths(
    alloc: Global,
    tree: &ParquetType,
    names: &[String],
    paths: &mut Vec<Vec<String>>,
) -> Result<(), Error>
    ensures ok { OnOk result (map path_view paths.new.items ≡ map path_view paths.old.items
        ++ paths_under (map string_bytes names.now) (tree_view tree.now)) }
    ensures err { IfErr result (λ e. e ≡ Memory) }
{
    match tree {
        ParquetType::PrimitiveType(leaf) => {
            paths.push(extended(alloc, names, &leaf.field_info.name)?)?;
            Ok(())
        }
        ParquetType::GroupType {
            field_info,
            fields,
            ..
        } => {
            let path = extended(alloc, names, &field_info.name)?;
            push_all_paths(alloc, fields, &path, paths)
        }
    }
}

/// Appends the path of each leaf of the trees, beneath nodes of these names.
#[cycle(paths)]
pub fn push_all_paths(
    alloc: Global,
    trees: &Vec<ParquetType>,
    names: &[String],
    paths: &mut Vec<Vec<String>>,
) -> Result<(), Error>
    ensures ok { OnOk result (map path_view paths.new.items ≡ map path_view paths.old.items
        ++ paths_beneath (map string_bytes names.now) (trees_view trees.now.items)) }
    ensures err { IfErr result (λ e. e ≡ Memory) }
{
    for tree in trees {
        push_paths(alloc, tree, names, paths)?;
    }
    Ok(())
}
