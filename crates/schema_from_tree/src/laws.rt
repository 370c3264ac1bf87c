//! Facts about the definitions.
ghost use Rattle.schema_from_tree.specs.Depth.{NestAsTrees};
ghost use Rattle.schema_from_tree.specs.Examples.{AreWorked};

/// Worked trees and leaves with their types, by the rules of the Parquet format's LogicalTypes.
pub fn as_worked()
    ensures { AreWorked }
{}

/// The type of a node nests no deeper than the node, where repeated nodes count twice: a repeated node stands for a list, and a repeated
/// group also for the struct in it. So the fields of a tree nest at most twice as deep as the tree.
pub fn types_nest_as_trees()
    ensures { NestAsTrees }
{}
