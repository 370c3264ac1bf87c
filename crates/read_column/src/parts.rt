//! The parts of the way to a leaf.
ghost use Rattle.std.specs.Prelude.{◌≡◌};
ghost use Rattle.read_column.specs.Queues.{ends_in_leaf, is_leaf_alone};

use read_state::InitNested;

/// Whether the parts are lists and structs above one leaf.
pub fn is_way(parts: &[InitNested]) -> bool
    ensures { result ≡ ends_in_leaf parts.now }
{
    match parts {
        [] => false,
        [InitNested::Primitive(_)] => true,
        [InitNested::Primitive(_), ..] => false,
        [InitNested::List(_), rest @ ..] => is_way(rest),
        [InitNested::Struct(_), rest @ ..] => is_way(rest),
    }
}

/// Whether they are no more than the leaf.
pub fn is_flat(parts: &[InitNested]) -> bool
    ensures { result ≡ is_leaf_alone parts.now }
{
    match parts {
        [InitNested::Primitive(_)] => true,
        _ => false,
    }
}
