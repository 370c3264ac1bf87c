//! What is known of the columns of a group.
ghost use Rattle.write_groups.specs.Laid.{ChosenAreUsed, ColumnsAreLaid, FieldsAreLaid, GroupsAreLaid, RowsAreRead, ServedGroupsAreLaid};

use typed_arrays::{typed_columns_are_own, typed_slots_are_read};

/// The chunk that a column gives is laid out as the rows of the schema are to be, by the row rule, and in the encoding that is used where the column is asked for in
/// another.
pub fn columns_are_laid()
    ensures { ColumnsAreLaid }
{}

/// The chunks that the columns of a field give are laid out as the rows of the schema are to be.
pub fn fields_are_laid()
    ensures { FieldsAreLaid }
{}

/// The group that the columns of a chunk give is laid out as the rows are to be that the trees of the schema read of the chunk, each column with the
/// entries of its array, where the arrays are those of the fields. This holds of every group that `row_group_iter` makes, dictionaries among its
/// columns, in whatever encodings it was asked for.
pub fn groups_are_laid()
    ensures { GroupsAreLaid }
{
    typed_columns_are_own();
}

/// Rows of the schema are read as they are.
pub fn rows_are_read()
    ensures { RowsAreRead }
{
    typed_slots_are_read();
}

/// Where the encodings that are chosen are asked for, they are used.
pub fn chosen_are_used()
    ensures { ChosenAreUsed }
{}

/// The group of a chunk of rows of the schema is laid out as its rows are to be, in the encodings that are chosen, where all fields are of types that the program serves.
pub fn served_groups_are_laid()
    ensures { ServedGroupsAreLaid }
{
    typed_columns_are_own();
    typed_slots_are_read();
}
