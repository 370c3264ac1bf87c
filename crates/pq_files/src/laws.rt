//! What the definitions promise of themselves.

ghost use Rattle.pq_files.specs.Excluded.{ReasonsExclude};
ghost use Rattle.pq_files.specs.FooterRoom.{RoomsArePlanned};
ghost use Rattle.pq_files.specs.Once.{FilesAreUnique, PagesAreUnique, StoredValuesAreUnique};
ghost use Rattle.pq_files.specs.Packed.{WrittenFilesArePacked};

/// A page has at most one list of triples.
pub fn pages_are_unique()
    ensures { PagesAreUnique }
{}

/// A file is carried with at most one tree, list of keys and list of groups.
pub fn files_are_unique()
    ensures { FilesAreUnique }
{}

/// A file that is written as it should be is carried with what it was written for.
pub fn written_files_are_packed()
    ensures { WrittenFilesArePacked }
{}

/// A value of a leaf type has at most one stored value, and no two values share one.
pub fn stored_values_are_unique()
    ensures { StoredValuesAreUnique }
{}

/// Where a reason of the footer stands, the bytes carry nothing; where one of a page stands, it holds no triples.
pub fn reasons_exclude()
    ensures { ReasonsExclude }
{}

/// The room of a packed file's footer is the one that was counted before its places were known; it has a short name of its writer, and few encodings a chunk.
pub fn rooms_are_planned()
    ensures { RoomsArePlanned }
{}
