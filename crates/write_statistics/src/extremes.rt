//! The least and the greatest of numbers that come one after another.
ghost use Rattle.std.specs.Prelude.{◌≡◌, ◌++◌, ◌∷◌, [], List};
ghost use Rattle.write_statistics.specs.Extremes.{AreExtremes, IsGreatest, IsLeast};

use columns_native::OrderedNative;

// The least and the greatest number so far. None of either before the first.
#[derive(Clone, Copy, Drop)]
pub struct Extremes<T: OrderedNative> {
    pub least: Option<T>,
    pub greatest: Option<T>,
}

// Those of no number.
pub fn no_extremes<T: OrderedNative>() -> Extremes<T>
    ensures { AreExtremes T.ordinal [] result.least result.greatest }
{
    Extremes {
        least: None,
        greatest: None,
    }
}

// The lesser of two numbers, the first where they are equal.
fn lesser<T: OrderedNative>(least: T, number: T) -> T
    ensures { (xs : List T) → IsLeast T.ordinal xs least → IsLeast T.ordinal (xs ++ number ∷ []) result }
{
    if number.is_less(&least) {
        number
    } else {
        least
    }
}

// The greater of two numbers, the first where they are equal.
fn greater<T: OrderedNative>(greatest: T, number: T) -> T
    ensures { (xs : List T) → IsGreatest T.ordinal xs greatest → IsGreatest T.ordinal (xs ++ number ∷ []) result }
{
    if greatest.is_less(&number) {
        number
    } else {
        greatest
    }
}

// Those of a number more.
pub fn with_number<T: OrderedNative>(extremes: Extremes<T>, number: T) -> Extremes<T>
    ensures { (xs : List T) → AreExtremes T.ordinal xs extremes.least extremes.greatest
        → AreExtremes T.ordinal (xs ++ number ∷ []) result.least result.greatest }
{
    match (extremes.least, extremes.greatest) {
        (Some(least), Some(greatest)) => Extremes {
            least: Some(lesser(least, number)),
            greatest: Some(greater(greatest, number)),
        },
        _ => Extremes {
            least: Some(number),
            greatest: Some(number),
        },
    }
}
