//! Why a call is refused.
ghost use Rattle.std.specs.Prelude.{◌≡◌};
ghost use Rattle.columns_base.specs.Reasons.{error_text};

use std::alloc::{AllocError, AllocFailed};
use std::fmt;

/// A limit that the caller's options set.
#[derive(Clone, Copy, Debug, PartialEq, Eq, Drop)]
pub enum Limit {
    /// The input has more bytes than the options allow.
    Bytes,
    /// The chunks of the input together claim more level pairs than the options allow.
    Pairs,
}

/// In what the input leaves the Parquet format.
#[derive(Clone, Copy, Debug, PartialEq, Eq, Drop)]
pub enum S {
    /// The container: the magic bytes, the footer's length, its Thrift value, an id that it must have, a text that is not UTF-8, or the schema's elements (Parquet format, "File format" and "Metadata").
    S1,
    /// A column chunk: its number in a group or its type is not the schema's, a count or size is negative, or its bytes lie outside the file's data (Parquet format, "Column chunks").
    S2,
    /// A page's header or place: no Thrift value, an absent id or a negative number, a body past the chunk, a dictionary page that does not come first or is missing, or page counts that do not add up to the chunk's (Parquet format, "Data Pages").
    S3,
    /// Levels: their section lies outside the page, has too few of them, or has one above its maximum (Parquet format, "Nested Encoding").
    S4,
    /// A column's first pair, or that of a version 2 page, goes on with a row that nothing began.
    S5,
    /// The values section does not begin with a spelling of the values that the levels call for: it is cut, a width or a delta header is bad, or an index lies past the dictionary (Parquet format, "Encodings").
    S6,
    /// A stored value is none of its Arrow type.
    S7,
    /// The Arrow schema that the file carries does not fit its tree: another number of fields with columns, or a field of another skeleton, unit or physical type.
    S8,
    /// Row counts: those of a version 2 page's header or of a group are not the number of rows that the pairs begin.
    S9,
    /// Each level is right by itself, and yet no rows have these columns (Dremel paper, "Record assembly").
    S10,
}

/// What the input asks for that is not read, though the format may allow it.
#[derive(Clone, Copy, Debug, PartialEq, Eq, Drop)]
pub enum N {
    /// A compressed column chunk (Parquet format, "Compression").
    N1,
    /// Encryption of the footer or of a column (Parquet format, "Parquet Modular Encryption").
    N2,
    /// A column chunk whose bytes lie in another file.
    N3,
    /// A page of another kind than data and dictionary pages, or an encoding of values or levels that is not read at that place (Parquet format, "Encodings").
    N4,
    /// A leaf of a type that is not read, at all or where it is nested.
    N5,
    /// The schema carries no Arrow schema that counts, and a field that was inferred does not fit its tree.
    N6,
    /// A Thrift value, type or tree nests deeper than 128.
    N7,
    /// A version 1 page after the column's first begins inside a row.
    N8,
}

/// Which argument is refused, and why.
#[derive(Clone, Copy, Debug, PartialEq, Eq, Drop)]
pub enum A {
    /// A chunk size of no rows.
    A1,
    /// The carried Arrow schema cannot be decoded: no base64, a cut prefix, or a message that the codec does not read (Arrow columnar format, "Serialization and Interprocess Communication").
    A2,
    /// A schema without a field.
    A3,
    /// A struct type without fields.
    A4,
    /// A decimal whose precision is not from 1 to 38, or whose scale is above its precision.
    A5,
    /// A 64-bit time of seconds or milliseconds (Arrow columnar format, "Data Types").
    A6,
    /// A decimal that does not fit the width in which it is to be written.
    A7,
    /// Parts that do not belong together: arrays, fields, types, lengths, offsets, keys, texts, encodings or children of a tree differ in number or kind.
    A8,
}

/// What is too large for the field that holds it.
#[derive(Clone, Copy, Debug, PartialEq, Eq, Drop)]
pub enum V {
    /// The items of a list or map, or the bytes of a text, are more than its offset type counts.
    V1,
    /// A dictionary has more entries than its key type counts.
    V2,
    /// A number or size of a header, a footer or a group, or a bound on it, passes what the format's field holds.
    V3,
}

/// Why a call is refused. Each call's contract says which of these it can answer, and when.
#[derive(Clone, Copy, Debug, PartialEq, Drop)]
pub enum Error {
    /// The source failed in this call.
    ReadFault,
    /// The sink failed in this call.
    WriteFault,
    /// The input passes a limit of the options.
    InputLimit(Limit),
    /// The input leaves the format.
    OutOfSpec(S),
    /// The input is not read, though the format may allow it.
    NotYetImplemented(N),
    /// An argument is refused.
    InvalidArgumentError(A),
    /// Something is too large for the field that holds it.
    Overflow(V),
    /// There was not enough memory.
    Memory,
}

/// What a call answers that can be refused.
pub type Result<T> = std::result::Result<T, Error>;

impl Error {
    /// The answer's line without its end: the variant's name, and behind a space that of its reason.
    pub fn text(&self) -> &'static str
        ensures { result.now ≡ error_text self.now }
    {
        match self {
            Error::ReadFault => "ReadFault",
            Error::WriteFault => "WriteFault",
            Error::InputLimit(Limit::Bytes) => "InputLimit Bytes",
            Error::InputLimit(Limit::Pairs) => "InputLimit Pairs",
            Error::OutOfSpec(S::S1) => "OutOfSpec S1",
            Error::OutOfSpec(S::S2) => "OutOfSpec S2",
            Error::OutOfSpec(S::S3) => "OutOfSpec S3",
            Error::OutOfSpec(S::S4) => "OutOfSpec S4",
            Error::OutOfSpec(S::S5) => "OutOfSpec S5",
            Error::OutOfSpec(S::S6) => "OutOfSpec S6",
            Error::OutOfSpec(S::S7) => "OutOfSpec S7",
            Error::OutOfSpec(S::S8) => "OutOfSpec S8",
            Error::OutOfSpec(S::S9) => "OutOfSpec S9",
            Error::OutOfSpec(S::S10) => "OutOfSpec S10",
            Error::NotYetImplemented(N::N1) => "NotYetImplemented N1",
            Error::NotYetImplemented(N::N2) => "NotYetImplemented N2",
            Error::NotYetImplemented(N::N3) => "NotYetImplemented N3",
            Error::NotYetImplemented(N::N4) => "NotYetImplemented N4",
            Error::NotYetImplemented(N::N5) => "NotYetImplemented N5",
            Error::NotYetImplemented(N::N6) => "NotYetImplemented N6",
            Error::NotYetImplemented(N::N7) => "NotYetImplemented N7",
            Error::NotYetImplemented(N::N8) => "NotYetImplemented N8",
            Error::InvalidArgumentError(A::A1) => "InvalidArgumentError A1",
            Error::InvalidArgumentError(A::A2) => "InvalidArgumentError A2",
            Error::InvalidArgumentError(A::A3) => "InvalidArgumentError A3",
            Error::InvalidArgumentError(A::A4) => "InvalidArgumentError A4",
            Error::InvalidArgumentError(A::A5) => "InvalidArgumentError A5",
            Error::InvalidArgumentError(A::A6) => "InvalidArgumentError A6",
            Error::InvalidArgumentError(A::A7) => "InvalidArgumentError A7",
            Error::InvalidArgumentError(A::A8) => "InvalidArgumentError A8",
            Error::Overflow(V::V1) => "Overflow V1",
            Error::Overflow(V::V2) => "Overflow V2",
            Error::Overflow(V::V3) => "Overflow V3",
            Error::Memory => "Memory",
        }
    }
}

impl fmt::Display for Error {
    ghost use Rattle.std.specs.Prelude.{Some};
    ghost use Rattle.columns_base.specs.Reasons.{error_text};

    ghost output = { λ e. Some (error_text e) };

    fn fmt<W: fmt::Write>(&self, f: &mut fmt::Formatter<W>) -> fmt::Result {
        let text = self.text();
        write!(f, "{text}")
    }
}

impl std::error::Error for Error {}

impl From<AllocError> for Error {
    ghost use Rattle.std.specs.Prelude.{◌≡◌};
    ghost use Rattle.columns_base.specs.declared.error.Error.TheVariants.{Memory};

    ghost from_gives = { λ _ e. e ≡ Memory };

    fn from(_error: AllocError) -> Error {
        Error::Memory
    }
}

impl<T: Drop> From<AllocFailed<T>> for Error {
    ghost use Rattle.std.specs.Prelude.{◌≡◌};
    ghost use Rattle.columns_base.specs.declared.error.Error.TheVariants.{Memory};

    ghost from_gives = { λ _ e. e ≡ Memory };

    fn from(_error: AllocFailed<T>) -> Error {
        Error::Memory
    }
}
