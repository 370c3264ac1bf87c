//! What a walk over a path counts.

/// The values that a path reaches.
#[derive(Clone, Copy, Debug, PartialEq, Eq, Drop)]
pub struct Measured {
    /// How many there are.
    pub values: usize,
    /// How many bytes their plain spelling has.
    pub plain: u128,
}
