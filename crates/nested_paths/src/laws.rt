//! What is known of the paths of an array.
ghost use Rattle.nested_paths.specs.Examples.{AreWorked};
ghost use Rattle.nested_paths.specs.LeafNulls.{MergedPathsHaveColumns};
ghost use Rattle.nested_paths.specs.Laws.{CutLeavesAreSeen, PathsAreSeen, PathsHaveLevels};

/// The paths that `to_nested` gives, each with the leaf array that `to_leaves` gives at its place, stand for the slots of the array
/// along the way to each leaf. Masks of required nodes are not looked at.
pub fn paths_are_seen()
    ensures { PathsAreSeen }
{}

/// There is a path for each leaf of the tree, in order, and its greatest levels are those of the leaf.
pub fn paths_have_levels()
    ensures { PathsHaveLevels }
{}

/// A cut of a leaf array has the slots that the array had there, masks not looked at. So a path and its leaf that are cut together to some
/// rows stand for these rows, also where the leaf is required and its array has a mask.
pub fn cut_leaves_are_seen()
    ensures { CutLeavesAreSeen }
{}

/// Once the nulls of its leaf array are merged, and it is cut to some rows, a path stands for these rows: the levels that `RepLevelsIter` and
/// `DefLevelsIter` give of it are those of the rows' column, and the leaf array has the column's values. The rows are those that
/// `to_nested` says the path and its leaf array stand for, and a required leaf reaches no null.
pub fn merged_paths_have_columns()
    ensures { MergedPathsHaveColumns }
{}

/// The definitions say of some arrays and trees what they should.
pub fn as_worked()
    ensures { AreWorked }
{}
