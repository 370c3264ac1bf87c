//! A view that keeps what it is shown.
ghost use Rattle.std.specs.Prelude.{◌≡◌, []};

use crate::view::View;
use columns_array::Chunk;
use columns_base::Result;
use std::alloc::Global;

/// Keeps a copy of each piece, as a chunk of arrays: with it a rewrite reads a whole file to arrays.
#[derive(Drop)]
pub struct RowsView {
    alloc: Global,
    pub chunks: Vec<Chunk>,
}

impl RowsView {
    /// A view that has seen nothing.
    pub fn new(alloc: Global) -> Self
        ensures { result.chunks.items ≡ [] }
    {
        RowsView {
            alloc,
            chunks: Vec::new(alloc),
        }
    }

    /// The pieces that it was shown, in order.
    pub fn pieces(&self) -> &[Chunk]
        ensures { result.now ≡ self.now.chunks.items }
    {
        &self.chunks
    }
}

impl View for RowsView {
    ghost use Rattle.std.specs.Prelude.{Some, map};
    ghost use Rattle.pq_headline.specs.Arrays.{seen_in};

    ghost seen = { λ v. Some (map seen_in v.chunks.items) };

    fn see(&mut self, piece: &Chunk) -> Result<()> {
        self.chunks.push(piece.clone(self.alloc)?)?;
        Ok(())
    }
}
