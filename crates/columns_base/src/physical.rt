//! How values are stored.

/// How a leaf's values are stored (Parquet format, `Type`).
#[derive(Clone, Copy, Debug, PartialEq, Eq)]
pub enum PhysicalType {
    /// One bit a value.
    Boolean,
    Int32,
    Int64,
    /// 12 bytes a value, as old writers stored timestamps.
    Int96,
    Float,
    Double,
    /// A length and as many bytes.
    ByteArray,
    /// Arrays of this many bytes, from 1.
    FixedLenByteArray(usize),
}
