//! The laws of statistics.
ghost use Rattle.page_statistics.specs.Laws.{StatisticsAreUnique, StatisticsExist};

/// Each column whose values are stored, decimals as bytes, has statistics (Parquet format, parquet.thrift: `Statistics`).
pub fn statistics_exist()
    ensures { StatisticsExist }
{}

/// It has no other ones, where no value is stored in two ways.
pub fn statistics_are_unique()
    ensures { StatisticsAreUnique }
{}
