//! What is known of a rewrite.
ghost use Rattle.pq_headline.specs.Laws.{FittingFieldsAreAlike, FittingSchemasAreAlike, GroupsAreRead, GroupsFollow, LeavesAreAsMany, OutputsAreRefused, PassedIsNotRefused, PiecesAreCut, RefusedIsNotValid, ServedIsPlain, SettledSchemasFit, WithoutGroups, WrittenIsConverted};
ghost use Rattle.pq_headline.specs.Worked.{AreWorked};

use schema_map::rows_decide;

/// Pieces, each as long as the next one is to be until none is left, are the cut of their rows.
pub fn pieces_are_cut()
    ensures { PiecesAreCut }
{}

/// Arrays side by side, chunk after chunk until each field is whole, are the rows of the group.
pub fn groups_are_read()
    ensures { GroupsAreRead }
{}

/// No groups, and groups behind others, are read.
pub fn groups_follow()
    ensures { GroupsFollow }
{}

/// What was read and is laid out chunk by chunk is converted.
pub fn written_is_converted()
    ensures { WrittenIsConverted }
{}

/// What refuses a chunk of what was read, or the footer behind all chunks, refuses the input.
pub fn outputs_are_refused()
    ensures { OutputsAreRefused }
{}

/// A file without groups is rewritten as the packed file of its schema without groups, and as no other.
pub fn without_groups()
    ensures { WithoutGroups }
{}

/// What passed the stage of the footer, or that of the chunks' places, is not refused there.
pub fn passed_is_not_refused()
    ensures { PassedIsNotRefused }
{}

/// What is refused is not valid.
pub fn refused_is_not_valid()
    ensures { RefusedIsNotValid }
{}

/// Columns, encodings, pieces, claims and limits of worked schemas and groups.
pub fn as_worked()
    ensures { AreWorked }
{}

/// A field that fits a tree goes with its leaves.
pub fn fitting_fields_are_alike()
    ensures { FittingFieldsAreAlike }
{}

/// Fields that fit the trees with columns of a file, one by one, go with the leaves of the file.
pub fn fitting_schemas_are_alike()
    ensures { FittingSchemasAreAlike }
{}

/// Fields that agree with the trees of a file, and of which each can be written, fit the file.
pub fn settled_schemas_fit()
    ensures { SettledSchemasFit }
{}

/// As many leaves of a file go with a field as its own tree has.
pub fn leaves_are_as_many()
    ensures { LeavesAreAsMany }
{
    rows_decide();
}

/// Without deltas all columns of fields that are served are written plain.
pub fn served_is_plain()
    ensures { ServedIsPlain }
{
    rows_decide();
}
