//! Which encodings a type's values may have.
ghost use Rattle.std.specs.Prelude.{◌≡◌, ◌≤◌};
ghost use Rattle.columns_core.specs.Measures.{nesting};
ghost use Rattle.columns_core.specs.View.{type_view};
ghost use Rattle.schema_to_tree.specs.Encodes as table;

use columns_core::DataType;
use pq_tree::Encoding;

/// Whether values of the type can be written in the encoding (Parquet format, "Encodings"): plain always, the delta encodings
/// and those of dictionaries by the type beneath its extensions. The type nests to at most 128, which `DataType::nests_within`
/// tests.
pub fn can_encode(data_type: &DataType, encoding: Encoding) -> bool
    requires { nesting (type_view data_type.now) ≤ 128 }
    ensures { result ≡ table.encodes encoding (type_view data_type.now) }
{
    let base = data_type.base();
    match encoding {
        Encoding::Plain => true,
        Encoding::PlainDictionary | Encoding::RleDictionary => is_dictionary(base),
        Encoding::DeltaLengthByteArray => is_strings(base),
        Encoding::DeltaBinaryPacked => is_delta(base),
        _ => false,
    }
}

fn is_dictionary(data_type: &DataType) -> bool
    ensures { result ≡ table.is_dictionary (type_view data_type.now) }
{
    matches!(data_type, DataType::Dictionary(_, _, _))
}

fn is_strings(data_type: &DataType) -> bool
    ensures { result ≡ table.is_strings (type_view data_type.now) }
{
    matches!(
        data_type,
        DataType::Binary | DataType::LargeBinary | DataType::Utf8 | DataType::LargeUtf8
    )
}

fn is_delta(data_type: &DataType) -> bool
    ensures { result ≡ table.is_delta (type_view data_type.now) }
{
    match data_type {
        DataType::Null
        | DataType::Int8
        | DataType::Int16
        | DataType::Int32
        | DataType::Int64
        | DataType::UInt8
        | DataType::UInt16
        | DataType::UInt32
        | DataType::UInt64
        | DataType::Date32
        | DataType::Date64
        | DataType::Time32(_)
        | DataType::Time64(_)
        | DataType::Timestamp(_, _)
        | DataType::Duration(_) => true,
        DataType::Decimal(precision, _) => *precision <= 18,
        _ => false,
    }
}
