//! The laws, each the contract of a function that does nothing.
ghost use Rattle.read_laws.specs.Block.{BlocksAreWalks};
ghost use Rattle.read_laws.specs.Blocks.{BlocksExtendColumns, PairsFit, StretchesAreBlocks};
ghost use Rattle.read_laws.specs.Threshold.{LeafThreshold};
ghost use Rattle.read_laws.specs.Column.{LeavesGrow, PairsExtendColumns, StretchesExtendColumns};

/// A level pair that may come next is appended to the column that a state stands for.
pub fn pairs_extend_columns()
    ensures { PairsExtendColumns }
{}

/// A stretch of equal pairs that may come next is appended to the column.
pub fn stretches_extend_columns()
    ensures { StretchesExtendColumns }
{}

/// The leaf has as many slots more as pairs push to it.
pub fn leaves_grow()
    ensures { LeavesGrow }
{}

/// A block of pairs makes the same of a state part by part as pair by pair.
pub fn blocks_are_walks()
    ensures { BlocksAreWalks }
{}

/// A block of pairs that may come next, taken part by part, is appended to the column.
pub fn blocks_extend_columns()
    ensures { BlocksExtendColumns }
{}

/// A pair pushes to the leaf where its definition level reaches an item of the innermost list.
pub fn leaf_threshold()
    ensures { LeafThreshold }
{}

/// Each state on the way fits where the pairs may come.
pub fn pairs_fit()
    ensures { PairsFit }
{}

/// A block of equal pairs makes the same of a state as one step with all of them.
pub fn stretches_are_blocks()
    ensures { StretchesAreBlocks }
{}
