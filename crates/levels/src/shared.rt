//! Copies of paths that share their masks and offsets.
ghost use Rattle.std.specs.Prelude.{◌≡◌, IfOk, IfErr};
ghost use Rattle.columns_base.specs.declared.error.Error.TheVariants.{Memory};

use crate::nested::{ListNested, Nested};
use columns_core::{Bitmap, Offset, Result};

fn shared(mask: &Option<Bitmap>) -> Result<Option<Bitmap>>
    ensures ok { IfOk result (λ copy. copy ≡ mask.now) }
    ensures err { IfErr result (λ e. e ≡ Memory) }
{
    match mask {
        None => Ok(None),
        Some(mask) => Ok(Some(mask.clone()?)),
    }
}

impl<O: Offset> ListNested<O> {
    /// The same list. It shares the offsets and the mask, and takes no memory.
    ///
    /// # Errors
    ///
    /// `Memory` where as many share one of them as `usize` counts.
    pub fn clone(&self) -> Result<Self>
        ensures ok { IfOk result (λ list. list ≡ self.now) }
        ensures err { IfErr result (λ e. e ≡ Memory) }
    {
        Ok(ListNested {
            is_optional: self.is_optional,
            offsets: self.offsets.clone()?,
            validity: shared(&self.validity)?,
        })
    }
}

impl Nested {
    /// The same part. It shares its offsets and its mask, and takes no memory.
    ///
    /// # Errors
    ///
    /// `Memory` where as many share one of them as `usize` counts.
    pub fn clone(&self) -> Result<Self>
        ensures ok { IfOk result (λ part. part ≡ self.now) }
        ensures err { IfErr result (λ e. e ≡ Memory) }
    {
        match self {
            Nested::Primitive(mask, is_optional, count) => {
                Ok(Nested::Primitive(shared(mask)?, *is_optional, *count))
            }
            Nested::List(list) => Ok(Nested::List(list.clone()?)),
            Nested::LargeList(list) => Ok(Nested::LargeList(list.clone()?)),
            Nested::Struct(mask, is_optional, count) => {
                Ok(Nested::Struct(shared(mask)?, *is_optional, *count))
            }
        }
    }
}
