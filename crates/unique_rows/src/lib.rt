//! Which rows a file holds that was written as rows are laid out, and what a rewrite makes of it. Definitions and laws alone.
#![tactic(auto)]

ghost use Rattle.unique_rows.specs.Held.{RowsAreUnique};
ghost use Rattle.unique_rows.specs.Rewritten.{FilesAreRewritten};
ghost use Rattle.unique_rows.specs.Valid.{FilesAreRefusedForSizeAlone, FilesAreValid};
ghost use Rattle.unique_rows.specs.Worked.{AreWorked};

use pq_headline::passed_is_not_refused;
use schema_map::{fitting_fields_agree, rows_decide};

/// A file that was written for some groups of rows, without dictionaries, has the tree and the keys that it was written for, and holds these
/// rows, group by group, and no others.
pub fn rows_are_unique()
    ensures { RowsAreUnique }
{}

/// A file that was written for a schema and some groups of rows is rewritten as a file of the same schema and of the same rows, each group cut
/// as is asked, and as no other: the counts are that file's, and its pieces are shown.
pub fn files_are_rewritten()
    ensures { FilesAreRewritten }
{}

/// A file that was written for a schema that is settled and told by its key, and for some groups of rows, is refused for sizes alone: for the limit
/// on its pairs, for a decimal that the output does not hold, for the offsets of an array or for a size or count of the output. So no reason of damage
/// (S1 to S10), none of what is not served (N1 to N8), none of the schema (A1 to A6) and no dictionary's keys (V2) can be told of it.
pub fn files_are_refused_for_size_alone()
    ensures { FilesAreRefusedForSizeAlone }
{
    rows_decide();
    fitting_fields_agree();
    passed_is_not_refused();
}

/// Where no size stands in the way, it is a valid input.
pub fn files_are_valid()
    ensures { FilesAreValid }
{
    files_are_refused_for_size_alone();
}

/// Worked schemas that are settled or not, and rows with their pairs.
pub fn as_worked()
    ensures { AreWorked }
{}
