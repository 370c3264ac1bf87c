//! Laws of chunks that suit the fields of a schema.
ghost use Rattle.typed_groups.specs.Suiting.{LargePagesAreLarge, GroupsAreWritten, SuitingChunksAreTaken};
ghost use Rattle.typed_groups.specs.Worked.{AreWorked};

use nested_paths::paths_are_seen;
use typed_arrays::{typed_columns_are_own, typed_slots_are_read};
use write_groups::served_groups_are_laid;

/// The columns of a chunk that suits are refused for want of memory, or for a decimal that its column does not hold.
pub fn suiting_chunks_are_taken()
    ensures { SuitingChunksAreTaken }
{
    paths_are_seen();
    typed_columns_are_own();
    typed_slots_are_read();
}

/// Where the room of a page passes the sizes of a header, the rows of the chunk have a page that is too large.
pub fn large_pages_are_large()
    ensures { LargePagesAreLarge }
{
    typed_columns_are_own();
    typed_slots_are_read();
}

/// The group that the columns of a chunk give is laid out in the encodings and with the dictionaries that are asked for.
pub fn groups_are_written()
    ensures { GroupsAreWritten }
{
    served_groups_are_laid();
}

/// A worked chunk suits, and near misses do not.
pub fn as_worked()
    ensures { AreWorked }
{}
