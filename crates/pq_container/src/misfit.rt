//! That a Thrift value says nothing by the table at hand.
ghost use Rattle.std.specs.Prelude.{◌≡◌};

use columns_base::{Error, S};

/// A needed field is absent, or a field is of another kind, or has a value that the table does not
/// have.
#[derive(Clone, Copy, Debug, PartialEq, Eq)]
pub struct Misfit;

impl From<Misfit> for Error {
    ghost use Rattle.std.specs.Prelude.{◌≡◌};
    ghost use Rattle.columns_base.specs.declared.error.Error.TheVariants.{OutOfSpec};
    ghost use Rattle.columns_base.specs.declared.error.S.TheVariants.{S1};

    ghost from_gives = { λ _ e. e ≡ OutOfSpec S1 };

    fn from(_misfit: Misfit) -> Error {
        Error::OutOfSpec(S::S1)
    }
}
