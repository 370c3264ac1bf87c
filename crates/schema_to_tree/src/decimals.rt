//! How many bytes a decimal takes.
ghost use Rattle.std.specs.Prelude.{◌≡◌, ◌≤◌};
ghost use Rattle.schema_to_tree.specs.Length.{IsDecimalLength, decimal_length};

/// The least number of bytes that holds every decimal of a precision from 1 to 38, of either sign (Parquet format,
/// LogicalTypes, "DECIMAL").
pub fn decimal_length_from_precision(precision: usize) -> usize
    requires from_one { 1 ≤ precision }
    requires to_38 { precision ≤ 38 }
    ensures value { result ≡ decimal_length precision }
    ensures least { IsDecimalLength precision result }
{
    let greatest = 10u128.pow(precision as u32);
    let mut length = 1;
    while 1u128 << (8 * length - 1) <= greatest {
        length += 1;
    }
    length
}
