//! Values by their kinds.
ghost use Rattle.std.specs.Prelude.{◌≡◌, option_map};
ghost use Rattle.std.specs.Option.{option_copied};
ghost use Rattle.pq_thrift.specs.Value.{view, values_view, fields_view};
ghost use Rattle.pq_metadata.specs.Kinds.{truth_in, int8_in, int16_in, int32_in, int64_in, binary_in, list_in, struct_in};

use pq_thrift::Thrift;

pub fn as_truth(value: &Thrift) -> Option<bool>
    ensures { result ≡ truth_in (view value.now) }
{
    match value {
        Thrift::Bool(truth) => Some(*truth),
        _ => None,
    }
}

pub fn as_i8(value: &Thrift) -> Option<i8>
    ensures { result ≡ int8_in (view value.now) }
{
    match value {
        Thrift::I8(number) => Some(*number),
        _ => None,
    }
}

pub fn as_i16(value: &Thrift) -> Option<i16>
    ensures { result ≡ int16_in (view value.now) }
{
    match value {
        Thrift::I16(number) => Some(*number),
        _ => None,
    }
}

pub fn as_i32(value: &Thrift) -> Option<i32>
    ensures { result ≡ int32_in (view value.now) }
{
    match value {
        Thrift::I32(number) => Some(*number),
        _ => None,
    }
}

pub fn as_i64(value: &Thrift) -> Option<i64>
    ensures { result ≡ int64_in (view value.now) }
{
    match value {
        Thrift::I64(number) => Some(*number),
        _ => None,
    }
}

pub fn as_binary(value: &Thrift) -> Option<&[u8]>
    ensures { option_copied result ≡ binary_in (view value.now) }
{
    match value {
        Thrift::Binary(bytes) => Some(bytes.as_slice()),
        _ => None,
    }
}

pub fn as_list(value: &Thrift) -> Option<&[Thrift]>
    ensures { option_map values_view (option_copied result) ≡ list_in (view value.now) }
{
    match value {
        Thrift::List(_, values) => Some(values.as_slice()),
        _ => None,
    }
}

pub fn as_struct(value: &Thrift) -> Option<&[(i16, Thrift)]>
    ensures { option_map fields_view (option_copied result) ≡ struct_in (view value.now) }
{
    match value {
        Thrift::Struct(fields) => Some(fields.as_slice()),
        _ => None,
    }
}
