//! Arrow types, schemas and arrays (Arrow columnar format).

pub use columns_array::{
    ArrayBox, Chunk, DictionaryArray, FixedSizeListArray, LargeListArray, ListArray, MapArray,
    StructArray,
};
pub use columns_base::{A, Error, Limit, N, PhysicalType, Result, S, V};
pub use columns_core::{
    Bitmap, BitmapIter, DataType, DaysMs, DictionaryKey, Field, IntegerType, IntervalUnit,
    Metadata, MutableBitmap, NativeType, Offset, Offsets, OffsetsBuffer, ParquetNativeType, Schema,
    TimeUnit,
};
pub use columns_leaf::{
    BinaryArray, BooleanArray, DictionaryKeys, FixedSizeBinaryArray, NullArray, PrimitiveArray,
    Utf8Array,
};
pub use columns_native::{AsPrimitive, KeyArray, NativeArray, OffsetArray};
