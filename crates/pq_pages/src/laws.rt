//! Laws of pages.
ghost use Rattle.pq_pages.specs.DataPages.{EncodingsAreNumbered};
ghost use Rattle.pq_pages.specs.Denotes.{PagesAreWritten};
ghost use Rattle.pq_pages.specs.Held.{PagesHoldChunks};
ghost use Rattle.pq_pages.specs.ReadsChunk.{NoHeaderIsLonger};
ghost use Rattle.pq_pages.specs.Split.{SplitsAreOfPages};
ghost use Rattle.pq_pages.specs.Worked.{AreWorked};

/// A page in memory that stands for a page of a file stands in the file as it should, behind its header.
pub fn pages_are_written()
    ensures { PagesAreWritten }
{}

/// The sections of a page in memory are those of a page in a file, for each leaf with its greatest levels.
pub fn splits_are_of_pages()
    ensures { SplitsAreOfPages }
{}

/// Chunks as they are read, and chunks that differ from them in one place.
pub fn as_worked()
    ensures { AreWorked }
{}

/// The chunk that the pages of a reader hold is the chunk in the file.
pub fn pages_hold_chunks()
    ensures { PagesHoldChunks }
{}

/// Where headers may take as many bytes as the chunk has, none is refused for its length.
pub fn no_header_is_longer()
    ensures { NoHeaderIsLonger }
{}

/// A number is that of an encoding exactly where some encoding has it.
pub fn encodings_are_numbered()
    ensures { EncodingsAreNumbered }
{}
