//! Examples that the definitions are tried on.

ghost use Rattle.pq_files.specs.FirstFile.{IsCarried};
ghost use Rattle.pq_files.specs.NearMiss.{AreNoPages, AreNotCarried, AreNotPacked};
ghost use Rattle.pq_files.specs.Worked.{AreNotSpelled, AreWorked};
ghost use Rattle.pq_files.specs.WorkedLayout.{AreLaid};
ghost use Rattle.pq_files.specs.WorkedReasons.{AreReasons};
ghost use Rattle.pq_files.specs.WrittenExample.{IsPacked};

/// The first file carries its rows.
pub fn first_file_is_carried()
    ensures { IsCarried }
{}

/// The file that is written for it is packed, with the same rows.
pub fn written_file_is_packed()
    ensures { IsPacked }
{}

/// Its page isn't one without a byte of its levels, nor with more values than they tell of.
pub fn near_misses_are_no_pages()
    ensures { AreNoPages }
{}

/// Files that differ from the first one in one place carry nothing: with a byte of its levels cut, a pair or a row too many, or the footer's last byte gone.
pub fn near_misses_are_not_carried()
    ensures { AreNotCarried }
{}

/// Nor is it packed itself, nor is the written one with a byte too many, or with a list's size or a header's number in a longer spelling.
pub fn near_misses_are_not_packed()
    ensures { AreNotPacked }
{}

/// Worked examples of encodings, of a page of version 2, of the row rule and of room.
pub fn encodings_are_worked()
    ensures { AreWorked }
{}

/// Texts that spell no such values, values that are not stored, and pairs that no rows have.
pub fn near_misses_are_not_spelled()
    ensures { AreNotSpelled }
{}

/// How the first file's rows are laid out, statistics of two texts and what they may not be, and the numbers that a cut section holds.
pub fn layouts_are_worked()
    ensures { AreLaid }
{}

/// Why pages and columns that differ from the first file's in one place are refused, and that the first file's are not refused so.
pub fn reasons_are_worked()
    ensures { AreReasons }
{}
