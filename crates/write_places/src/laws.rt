//! The laws of places.
ghost use Rattle.write_places.specs.Laws.{ColumnsAreStored, ValuesAreAtPlaces};

/// The present values of a path's column are those at the places of its leaf that it reaches, in order.
pub fn values_are_at_places()
    ensures { ValuesAreAtPlaces }
{}

/// A column is stored value by value: what is stored for each value of a path's column makes up what is stored for the column (Parquet
/// format, LogicalTypes).
pub fn columns_are_stored()
    ensures { ColumnsAreStored }
{}
