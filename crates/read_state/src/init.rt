//! States before the first pair.
ghost use Rattle.std.specs.Prelude.{◌≡◌, IfErr, IfOk, map};
ghost use Rattle.columns_base.specs.declared.error.Error.{Error};
ghost use Rattle.read_state.specs.Initial.{initial};
ghost use Rattle.read_state.specs.Kinds.{kept_box};

use crate::boxes::NestedBox;
use crate::kinds::{NestedOptional, NestedPrimitive, NestedStruct, NestedStructValid, NestedValid};
use crate::nested::NestedState;
use columns_base::{Error, Result};
use std::alloc::Global;

/// A part of the way to a leaf, and whether it is nullable.
#[derive(Clone, Copy, Debug, PartialEq, Eq)]
pub enum InitNested {
    /// The leaf.
    Primitive(bool),
    /// A list.
    List(bool),
    /// A struct.
    Struct(bool),
}

// A part without pushes. A list has room for a block more, since that is asked for before its last block too.
fn box_of(alloc: Global, part: InitNested, capacity: usize) -> Result<NestedBox>
    ensures ok { IfOk result (λ b. kept_box b ≡ initial part) }
    ensures err { IfErr result (λ e. e ≡ Error.Memory) }
{
    let room = capacity.saturating_add(64);
    Ok(match part {
        InitNested::Primitive(nullable) => {
            NestedBox::Primitive(NestedPrimitive::new(alloc, nullable))
        }
        InitNested::List(true) => {
            NestedBox::Optional(NestedOptional::with_capacity(alloc, room)?)
        }
        InitNested::List(false) => NestedBox::Valid(NestedValid::with_capacity(alloc, room)?),
        InitNested::Struct(true) => {
            NestedBox::Struct(NestedStruct::with_capacity(alloc, capacity)?)
        }
        InitNested::Struct(false) => NestedBox::StructValid(NestedStructValid::new(alloc)),
    })
}

/// The state of these parts before the first pair, with room for as many pushes in each.
///
/// # Errors
///
/// `Memory`.
pub fn init_nested(alloc: Global, init: &[InitNested], capacity: usize) -> Result<NestedState>
    ensures ok { IfOk result (λ s. s ≡ map initial init.now) }
    ensures err { IfErr result (λ e. e ≡ Error.Memory) }
{
    let mut nested = Vec::new(alloc);
    for part in init {
        nested.push(box_of(alloc, *part, capacity)?)?;
    }
    Ok(NestedState::new(nested))
}
