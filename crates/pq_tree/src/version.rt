/// The version of a file and of its data pages (Parquet format, "Data Pages").
#[derive(Clone, Copy, Debug, PartialEq, Eq, Drop)]
pub enum Version {
    /// Each level section of a data page stands behind its length.
    V1,
    /// The header of a data page gives the lengths of the level sections and the number of rows that begin in it.
    V2,
}
