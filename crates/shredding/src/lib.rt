//! The laws of shredding: each is the contract of a function that does nothing, so that a caller may use it by a call.
//!
//! Rows are slots (null, a value, items, fields), a column is what the Dremel paper's shredding makes of them along the way to one
//! leaf: triples of a repetition level, a definition level and a value or none. The definitions stand in `specs/`.
#![tactic(auto)]

ghost use Rattle.shredding.specs.Laws.{ColumnsAreLocal, ColumnsAreSeenAlong, ColumnsJoin, ColumnsSplit, FieldsHaveTheirColumns, FirstRowsAreColumns, LevelsAreWithin, PiecesAreRows, PrefixesAreColumns, RowsAreCounted, RowsAreUnique, RowsExist, SchemaRowsAreUnique, SeenAlongIsUnique, SlotsGoAlong, WaysAreListed};
ghost use Rattle.shredding.specs.Worked.{AsWorked};

/// The column of rows followed by further rows is the column of the first followed by the column of the others.
pub fn columns_join()
    ensures { ColumnsJoin }
{}

/// As many triples of a column have repetition level 0 as there are rows.
pub fn rows_are_counted()
    ensures { RowsAreCounted }
{}

/// All the columns of a field together belong to at most one list of rows, where no struct of the field is without fields.
pub fn rows_are_unique()
    ensures { RowsAreUnique }
{}

/// All the columns of a schema together belong to at most one list of rows, where no struct of it is without fields.
pub fn schema_rows_are_unique()
    ensures { SchemaRowsAreUnique }
{}

/// Lists of triples, one for each way of a field without empty structs, are the columns of some rows exactly where each is a column
/// by itself, its values are of the leaf's type, and each two agree on what their ways share.
pub fn rows_exist()
    ensures { RowsExist }
{}

/// A list of triples is a column along a way exactly where no level passes its maximum, a value stands at the greatest definition
/// level and nowhere else, and each triple may follow the one before it.
pub fn columns_are_local()
    ensures { ColumnsAreLocal }
{}

/// No level of a column passes its maximum, and a value stands at the greatest definition level and nowhere else.
pub fn levels_are_within()
    ensures { LevelsAreWithin }
{}

/// A column in two parts, the second of which begins a row, is two parts of the rows.
pub fn columns_split()
    ensures { ColumnsSplit }
{}

/// The first triples of a column are a column, wherever they end.
pub fn prefixes_are_columns()
    ensures { PrefixesAreColumns }
{}

/// The first rows of a column are told from a front of it in which more rows begin, whatever follows.
pub fn first_rows_are_columns()
    ensures { FirstRowsAreColumns }
{}

/// A slot of a field goes along each of the field's ways.
pub fn slots_go_along()
    ensures { SlotsGoAlong }
{}

/// What is seen of rows along a way has the column that the rows have.
pub fn columns_are_seen_along()
    ensures { ColumnsAreSeenAlong }
{}

/// One column determines what is seen of its rows along its way.
pub fn seen_along_is_unique()
    ensures { SeenAlongIsUnique }
{}

/// The ways of a field are those in its list.
pub fn ways_are_listed()
    ensures { WaysAreListed }
{}

/// The column of a schema's field is that of the field's own slots.
pub fn fields_have_their_columns()
    ensures { FieldsHaveTheirColumns }
{}

/// The pieces into which rows are cut are the rows, in order.
pub fn pieces_are_rows()
    ensures { PiecesAreRows }
{}

/// The definitions say of some rows, paths and values what they should.
pub fn as_worked()
    ensures { AsWorked }
{}
