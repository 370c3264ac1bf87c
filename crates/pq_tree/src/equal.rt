//! `==` is true exactly where all parts are the same.
ghost use Rattle.std.specs.Prelude.{◌≡◌, None, IsTrue, ◌↔◌};
ghost use Rattle.pq_tree.specs.TreeViews.{info_view, leaf_view, tree_view};
ghost use Rattle.pq_tree.specs.Views.{key_view};

use crate::types::{FieldInfo, KeyValue, ParquetType, PrimitiveType};

/// Whether two nodes have the same name, repetition and id, as `==` says.
pub fn is_same_info(a: &FieldInfo, b: &FieldInfo) -> bool
    ensures { IsTrue result ↔ info_view a.now None None ≡ info_view b.now None None }
{
    a == b
}

/// Whether two leaves are the same in all parts, as `==` says.
pub fn is_same_leaf(a: &PrimitiveType, b: &PrimitiveType) -> bool
    ensures { IsTrue result ↔ leaf_view a.now ≡ leaf_view b.now }
{
    a == b
}

/// Whether two trees are the same in all parts, as `==` says.
pub fn is_same_tree(a: &ParquetType, b: &ParquetType) -> bool
    ensures { IsTrue result ↔ tree_view a.now ≡ tree_view b.now }
{
    a == b
}

/// Whether two pairs have the same key and the same value, as `==` says.
pub fn is_same_pair(a: &KeyValue, b: &KeyValue) -> bool
    ensures { IsTrue result ↔ key_view a.now ≡ key_view b.now }
{
    a == b
}
