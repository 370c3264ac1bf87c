//! How the values of a page are spelled.
ghost use Rattle.std.specs.Prelude.{◌≡◌, true, false, MatchOption};
ghost use Rattle.columns_core.specs.Shapes.{base, leaf_type};
ghost use Rattle.columns_core.specs.View.{type_view};
ghost use Rattle.columns_slots.specs.Types.{is_null_type};
ghost use Rattle.pq_tree.specs.Views.{physical_view};
ghost use Rattle.pq_pages.specs.DataPages.{number_in};
ghost use Rattle.write_values.specs.Deltas.{HasDeltas, IsLeafType, IsSpelling, encoding_in, encoding_name, page_encoding};

use columns_base::PhysicalType;
use columns_core::DataType;
use pq_tree::Encoding;

// What is spelled by deltas.
#[derive(Clone, Copy, Drop)]
pub enum Deltas {
    // numbers of 32 bits
    Numbers32,
    // numbers of 64 bits
    Numbers64,
    // the lengths of byte strings, whose bytes stand behind them
    Lengths,
}

// The number of an encoding (Parquet format, `Encoding`).
pub fn encoding_number(encoding: Encoding) -> i32
    ensures { result ≡ number_in encoding }
{
    match encoding {
        Encoding::Plain => 0,
        Encoding::PlainDictionary => 2,
        Encoding::Rle => 3,
        Encoding::BitPacked => 4,
        Encoding::DeltaBinaryPacked => 5,
        Encoding::DeltaLengthByteArray => 6,
        Encoding::DeltaByteArray => 7,
        Encoding::RleDictionary => 8,
    }
}

// The encoding of pages whose values are spelled so.
pub fn encoding_in(deltas: Option<Deltas>) -> Encoding
    ensures { result ≡ encoding_name (encoding_in deltas) }
{
    match deltas {
        None => Encoding::Plain,
        Some(Deltas::Numbers32 | Deltas::Numbers64) => Encoding::DeltaBinaryPacked,
        Some(Deltas::Lengths) => Encoding::DeltaLengthByteArray,
    }
}

fn has_no_values(data_type: &DataType) -> bool
    ensures { result ≡ is_null_type (base (type_view data_type.now)) }
{
    matches!(data_type.base(), DataType::Null)
}

// The deltas of columns of a physical type.
fn deltas_of(physical_type: PhysicalType) -> Option<Deltas>
    ensures { HasDeltas (physical_view physical_type) result }
{
    match physical_type {
        PhysicalType::Int32 => Some(Deltas::Numbers32),
        PhysicalType::Int64 => Some(Deltas::Numbers64),
        PhysicalType::ByteArray => Some(Deltas::Lengths),
        PhysicalType::Boolean | PhysicalType::Int96 => None,
        PhysicalType::Float | PhysicalType::Double => None,
        PhysicalType::FixedLenByteArray(_) => None,
    }
}

// The deltas in which values of the type are spelled under the physical type: none where they are not wanted, or the type has none.
pub fn spelling_of(
    data_type: &DataType,
    physical_type: PhysicalType,
    wants_deltas: bool,
) -> Option<Deltas>
    ensures { IsLeafType (type_view data_type.now) → IsSpelling wants_deltas (leaf_type (type_view data_type.now))
        (physical_view physical_type) result }
{
    if !wants_deltas {
        return None;
    }
    if has_no_values(data_type) {
        return None;
    }
    deltas_of(physical_type)
}

/// The encoding of pages of values of the type under the physical type, by the name under which it is written: where deltas are wanted the one
/// that the type allows, else PLAIN (Parquet format, Encodings).
pub fn page_encoding(
    data_type: &DataType,
    physical_type: PhysicalType,
    wants_deltas: bool,
) -> Encoding
    requires { IsLeafType (type_view data_type.now) }
    ensures { result ≡ encoding_name (page_encoding wants_deltas (leaf_type (type_view data_type.now))
        (physical_view physical_type)) }
{
    encoding_in(spelling_of(data_type, physical_type, wants_deltas))
}
