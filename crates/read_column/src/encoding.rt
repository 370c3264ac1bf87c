//! The encoding of a data page's values.
ghost use Rattle.std.specs.Prelude.{◌≡◌, ◌↔◌, Some, None, IsTrue, MatchOption};
ghost use Rattle.pq_tree.specs.declared.types.TypedPageHeader.TheVariants as T;
ghost use Rattle.pq_tree.specs.Views.{typed_view};
ghost use Rattle.pq_files.specs.Page.{encoding_numbered};
ghost use Rattle.read_column.specs.Deltas.{IsReadBy};
ghost use Rattle.read_column.specs.Opened.{IsEncodingOf, IsServedAs, encoding_by};

use crate::deltas::Deltas;
use pq_tree::DataPageHeader;

/// The encodings of values that are known (Parquet format, "Encodings").
#[derive(Clone, Copy, Debug, PartialEq, Eq)]
pub enum ValueEncoding {
    Plain,
    Dictionary,
    Delta,
    DeltaLength,
}

// The encoding of this number; none where it is not known.
fn numbered(encoding: i32) -> Option<ValueEncoding>
    ensures { MatchOption result (encoding_numbered encoding ≡ None) (λ known. encoding_numbered encoding
        ≡ Some (encoding_by known)) }
{
    match encoding {
        0 => Some(ValueEncoding::Plain),
        2 | 8 => Some(ValueEncoding::Dictionary),
        5 => Some(ValueEncoding::Delta),
        6 => Some(ValueEncoding::DeltaLength),
        _ => None,
    }
}

// The encoding of a page's values; none where it is not known.
fn encoding_of(header: &DataPageHeader) -> Option<ValueEncoding>
    ensures { IsEncodingOf (typed_view (T.Data header.now)) result }
{
    match header {
        DataPageHeader::V1(header) => numbered(header.encoding),
        DataPageHeader::V2(header) => numbered(header.encoding),
    }
}

// Whether it is read, in a column where values stand in bytes of their own or not, and whose deltas are read so.
fn is_read_by(encoding: ValueEncoding, own: bool, deltas: Deltas) -> bool
    ensures { IsTrue result ↔ IsReadBy own deltas (encoding_by encoding) }
{
    match (encoding, deltas) {
        (ValueEncoding::Plain, _) => true,
        (ValueEncoding::Dictionary, _) => own,
        (ValueEncoding::Delta, Deltas::Int32 | Deltas::Int64) => true,
        (ValueEncoding::DeltaLength, Deltas::Strings) => true,
        _ => false,
    }
}

/// The encoding of a page's values in such a column; none where it is not read.
pub fn served_encoding(header: &DataPageHeader, own: bool, deltas: Deltas) -> Option<ValueEncoding>
    ensures { IsServedAs own deltas (typed_view (T.Data header.now)) result }
{
    match encoding_of(header) {
        Some(encoding) => {
            if is_read_by(encoding, own, deltas) {
                Some(encoding)
            } else {
                None
            }
        }
        None => None,
    }
}
