//! What is known of whole rewrites, one and several in a row. Laws alone.
#![tactic(auto)]

ghost use Rattle.rewrite_laws.specs.Laws.{FileRowsAreUnique, OutputsHoldTheirRows, RewritesKeepRows};

/// A file has one footer, and each of its groups holds at most one list of rows of the fields.
pub fn file_rows_are_unique()
    ensures { FileRowsAreUnique }
{}

/// The output of a rewrite is a file of the schema's own tree, each of whose groups holds the rows of the piece that it was made of.
pub fn outputs_hold_their_rows()
    ensures { OutputsHoldTheirRows }
{}

/// Two rewrites in a row keep schema and rows, however each cuts and lays them out.
pub fn rewrites_keep_rows()
    ensures { RewritesKeepRows }
{}
