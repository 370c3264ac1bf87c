//! A part of any kind.
ghost use Rattle.std.specs.Prelude.{◌≡◌, ℕ};

use crate::kinds::{
    Nested, NestedOptional, NestedPrimitive, NestedStruct, NestedStructValid, NestedValid,
};
use columns_base::Result;
use columns_core::MutableBitmap;

/// A part of one of the five kinds.
#[derive(Debug, Drop)]
pub enum NestedBox {
    /// A leaf.
    Primitive(NestedPrimitive),
    /// An optional list.
    Optional(NestedOptional),
    /// A required list.
    Valid(NestedValid),
    /// An optional struct.
    Struct(NestedStruct),
    /// A required struct.
    StructValid(NestedStructValid),
}

impl Nested for NestedBox {
    ghost use Rattle.read_state.specs.Kinds.{kept_box};

    ghost kept = { kept_box };

    fn inner(&mut self) -> (Vec<i64>, Option<MutableBitmap>) {
        match self {
            NestedBox::Primitive(part) => part.inner(),
            NestedBox::Optional(part) => part.inner(),
            NestedBox::Valid(part) => part.inner(),
            NestedBox::Struct(part) => part.inner(),
            NestedBox::StructValid(part) => part.inner(),
        }
    }

    fn push_run(&mut self, first: usize, grows: bool, is_valid: bool, count: usize) -> Result<()> {
        match self {
            NestedBox::Primitive(part) => part.push_run(first, grows, is_valid, count),
            NestedBox::Optional(part) => part.push_run(first, grows, is_valid, count),
            NestedBox::Valid(part) => part.push_run(first, grows, is_valid, count),
            NestedBox::Struct(part) => part.push_run(first, grows, is_valid, count),
            NestedBox::StructValid(part) => part.push_run(first, grows, is_valid, count),
        }
    }

    fn is_nullable(&self) -> bool {
        match self {
            NestedBox::Primitive(part) => part.is_nullable(),
            NestedBox::Optional(_) => true,
            NestedBox::Valid(_) => false,
            NestedBox::Struct(_) => true,
            NestedBox::StructValid(_) => false,
        }
    }

    fn is_repeated(&self) -> bool {
        match self {
            NestedBox::Optional(_) => true,
            NestedBox::Valid(_) => true,
            _ => false,
        }
    }

    fn is_required(&self) -> bool {
        match self {
            NestedBox::Struct(_) => true,
            NestedBox::StructValid(_) => true,
            _ => false,
        }
    }

    fn len(&self) -> usize {
        match self {
            NestedBox::Primitive(part) => part.len(),
            NestedBox::Optional(part) => part.len(),
            NestedBox::Valid(part) => part.len(),
            NestedBox::Struct(part) => part.len(),
            NestedBox::StructValid(part) => part.len(),
        }
    }

    fn num_values(&self) -> usize {
        match self {
            NestedBox::Primitive(part) => part.num_values(),
            NestedBox::Optional(part) => part.num_values(),
            NestedBox::Valid(part) => part.num_values(),
            NestedBox::Struct(part) => part.num_values(),
            NestedBox::StructValid(part) => part.num_values(),
        }
    }
}
