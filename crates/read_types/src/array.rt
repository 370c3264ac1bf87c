//! Arrays of what is decoded.
ghost use Rattle.std.specs.Prelude.{◌≡◌, true, IfOk, IfErr};
ghost use Rattle.columns_base.specs.declared.error.Error.TheVariants.{Memory};
ghost use Rattle.columns_core.specs.Shapes.{base};
ghost use Rattle.columns_core.specs.View.{type_view};
ghost use Rattle.columns_array.specs.Boxed.{boxed};
ghost use Rattle.read_types.specs.Arrays.{IsLeafArray};

use columns_array::ArrayBox;
use columns_base::Result;
use columns_core::DataType;
use read_pieces::LeafReader;
use std::alloc::Global;

/// Makes arrays of the values that a reader of leaves decoded.
pub trait LeafArray: LeafReader {
    ghost use Rattle.std.specs.Prelude.{Bool};
    ghost use Rattle.columns_core.specs.Tree.{TypeTree};

    // the types of its arrays, without extensions
    ghost makes: { Self → TypeTree → Bool };

    /// The array of these values, of the width of the reader. They are moved and not copied.
    ///
    /// # Errors
    ///
    /// `Memory`.
    fn into_array(
        &self,
        alloc: Global,
        values: Self::Values,
        data_type: DataType,
    ) -> Result<ArrayBox>
        requires makes { makes self.now (base (type_view data_type)) ≡ true }
        requires suits { Self.suits self.now (Self.width values) }
        ensures ok { IfOk result (λ a. IsLeafArray (type_view data_type) (Self.slots values) (boxed a)) }
        ensures err { IfErr result (λ e. e ≡ Memory) };
}
