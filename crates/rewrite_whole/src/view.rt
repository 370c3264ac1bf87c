//! Who looks on.
ghost use Rattle.std.specs.Prelude.{◌≡◌, ◌∷◌, [], List, OnOk, IfErr, IsErr};
ghost use Rattle.std.specs.declared.option.Option.{Option};
ghost use Rattle.columns_base.specs.declared.error.Error.TheVariants.{Memory};
ghost use Rattle.pq_headline.specs.Rows.{Seen};
ghost use Rattle.pq_headline.specs.Arrays.{seen_in};
ghost use Rattle.rewrite_whole.specs.Views.{Sees};

use columns_array::Chunk;
use columns_base::Result;

/// Is shown each piece of an output as it goes by.
pub trait View {
    /// What it has seen, where it tells: for each chunk the types and slots of its arrays.
    ghost seen: { Self → Option (List (List Seen)) };

    /// Looks at the next piece. Only want of memory is refused, and then the list is as before.
    fn see(&mut self, piece: &Chunk) -> Result<()>
        ensures ok { OnOk result (Sees (seen self.old) (seen self.new) (seen_in piece.now ∷ [])) }
        ensures err { IfErr result (λ e. (e ≡ Memory) × (seen self.new ≡ seen self.old)) };
}

/// Looks at nothing, and tells nothing.
#[derive(Clone, Copy, Debug, PartialEq, Eq, Drop)]
pub struct NoView;

impl View for NoView {
    ghost use Rattle.std.specs.Prelude.{None};

    ghost seen = { λ _. None };

    fn see(&mut self, _piece: &Chunk) -> Result<()> {
        Ok(())
    }
}
