//! Laws of Thrift compact values, and worked examples.

ghost use Rattle.pq_thrift.specs.Examples.{AreWorked};
ghost use Rattle.pq_thrift.specs.Laws.{HasOneReading, IsReadAgain};

/// A struct has one reading, whatever follows it.
pub fn one_reading()
    ensures { HasOneReading }
{}

/// What `write_thrift` writes is read again by `read_thrift` as the same value.
pub fn written_is_read()
    ensures { IsReadAgain }
{}

/// Worked examples of the Thrift compact protocol.
pub fn as_worked()
    ensures { AreWorked }
{}
