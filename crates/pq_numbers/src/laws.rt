//! Facts about the definitions.

ghost use Rattle.pq_numbers.specs.Examples.{AreWorked};
ghost use Rattle.pq_numbers.specs.LittleEndian.{BytesSpellNumbers};

/// Worked examples: varints and zigzag of the Thrift compact protocol, and packed bits of Parquet's encodings.
pub fn as_worked()
    ensures { AreWorked }
{}

/// The little-endian bytes of a number spell it.
pub fn bytes_spell_numbers()
    ensures { BytesSpellNumbers }
{}
