//! What holds of each array of a chunk.
ghost use Rattle.columns_array.specs.Boxed.{all_boxed};
ghost use Rattle.typed_groups.specs.Suiting.{AreAllSound};

use columns_array::{ArrayBox, Chunk};

fn know_each(arrays: &[ArrayBox])
    ensures { AreAllSound (all_boxed arrays.now) }
{
    for array in arrays {
        array.know();
    }
}

/// Callers learn that each array of the chunk is sound.
pub fn know_sound(chunk: &Chunk)
    ensures { AreAllSound chunk.now }
{
    know_each(chunk.arrays());
}
