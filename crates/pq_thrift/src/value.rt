//! Values.

/// A value of the Thrift compact protocol. The byte of a list or set is the number of its elements' type,
/// those of a map are the numbers of its keys' and its values' types, and a struct has its fields by id.
/// The order of the fields, and fields of one id, are kept.
#[derive(Debug, PartialEq, Drop)]
pub enum Thrift {
    Bool(bool),
    I8(i8),
    I16(i16),
    I32(i32),
    I64(i64),
    Double([u8; 8]),
    Binary(Vec<u8>),
    List(u8, Vec<Thrift>),
    Set(u8, Vec<Thrift>),
    Map(u8, u8, Vec<(Thrift, Thrift)>),
    Struct(Vec<(i16, Thrift)>),
}
