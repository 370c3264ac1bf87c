//! How large files of the sample are: nothing of one passes a size of the format. Definitions and laws alone.
#![tactic(auto)]

ghost use Rattle.sample_sizes.specs.Laws.{ArraysHaveNoEntries, CountsHold, FewPairsAreClaimed, FilesAreSmall, FootersHaveRoom, NoDecimalIsWide, NoPageIsLarge, NoPieceIsPast, OffsetsHold, PairsAreFew, PartsAreRows, SamplesAreGroups, SamplesPassNoSize, SchemaIsSmall};

/// Rows of the sample that follow one another, at most a million of them, are such rows.
pub fn parts_are_rows()
    ensures { PartsAreRows }
{}

/// A column of rows of the sample has at most three pairs a row.
pub fn pairs_are_few()
    ensures { PairsAreFew }
{}

/// Arrays of the sample's rows, of all of them or of some in a row, stay within the offsets of their lists and texts.
pub fn offsets_hold()
    ensures { OffsetsHold }
{}

/// No page of a group of the sample's rows is too large, whatever the page limit is.
pub fn no_page_is_large()
    ensures { NoPageIsLarge }
{}

/// Sound arrays of the sample's fields have no dictionaries.
pub fn arrays_have_no_entries()
    ensures { ArraysHaveNoEntries }
{}

/// The sample has no decimals.
pub fn no_decimal_is_wide()
    ensures { NoDecimalIsWide }
{}

/// The bytes of the sample's schema are few.
pub fn schema_is_small()
    ensures { SchemaIsSmall }
{}

/// The footer of groups of the sample's rows is not too large.
pub fn footers_have_room()
    ensures { FootersHaveRoom }
{}

/// Behind other groups a group of the sample's rows passes no count of a footer: neither by the rows of all, nor by the pairs of a column, nor by
/// the bytes of the pages.
pub fn counts_hold()
    ensures { CountsHold }
{}

/// A file of groups of the sample's rows has at most 268,435,456 bytes.
pub fn files_are_small()
    ensures { FilesAreSmall }
{}

/// The sample is at most a thousand groups of at most a million of its rows, as it is written at first and anew.
pub fn samples_are_groups()
    ensures { SamplesAreGroups }
{}

/// The footer of a file of the sample claims at most nine pairs a row.
pub fn few_pairs_are_claimed()
    ensures { FewPairsAreClaimed }
{}

/// Pieces of the sample's rows pass no size of the format, however they are asked to be laid out.
pub fn no_piece_is_past()
    ensures { NoPieceIsPast }
{}

/// A file of the sample has at most 268,435,456 bytes, and is refused neither for a size of the format, nor for the offsets or keys of an array, nor for
/// the pairs that its footer claims, nor for a decimal.
pub fn samples_pass_no_size()
    ensures { SamplesPassNoSize }
{}
