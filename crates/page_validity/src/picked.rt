//! The selected bits of a page that are left.
ghost use Rattle.std.specs.Prelude.{◌≡◌, ◌++◌, ◌+◌, ◌<◌, ◌≤◌, List};
ghost use Rattle.pq_bitmaps.specs.Selected.{Says, Step, given_in};
ghost use Rattle.pq_bitmaps.specs.Stretch.{size_of};
ghost use Rattle.page_validity.specs.Parts.{Finds, IsPicked, picked_left, picked_steps};

use columns_base::{Error, Result, S};
use pq_bitmaps::{FilteredHybridEncoded, FilteredHybridRleDecoderIter, Stretch};

/// The parts behind the one that was begun, and what is left of that one.
#[derive(Debug, Drop)]
pub struct Picked<'a> {
    pub parts: FilteredHybridRleDecoderIter<'a>,
    pub rest: Stretch<'a>,
}

/// Begins the next part, if there is one. Of one that is passed over it answers how many bits are set.
pub fn find_part<'a>(picked: &mut Picked<'a>) -> Option<Result<Option<usize>>>
    requires is { IsPicked picked.old }
    requires none { size_of picked.old.rest ≡ 0 }
    ensures is { IsPicked picked.new }
    ensures found { Finds picked.old result picked.new }
{
    match picked.parts.next() {
        None => None,
        Some(Err(_)) => Some(Err(Error::OutOfSpec(S::S4))),
        Some(Ok(FilteredHybridEncoded::Skipped(set))) => Some(Ok(Some(set))),
        Some(
            Ok(
                FilteredHybridEncoded::Bitmap {
                    values,
                    offset,
                    length,
                },
            ),
        ) => {
            picked.rest = Stretch::Bitmap {
                values,
                offset,
                length,
            };
            Some(Ok(None))
        }
        Some(Ok(FilteredHybridEncoded::Repeated { is_set, length })) => {
            picked.rest = Stretch::Repeated { is_set, length };
            Some(Ok(None))
        }
    }
}

/// The first bits of the part, at most so many.
pub fn give<'a>(picked: &mut Picked<'a>, limit: usize) -> FilteredHybridEncoded<'a>
    requires is { IsPicked picked.old }
    requires some { 0 < limit }
    requires rest { 0 < size_of picked.old.rest }
    ensures is { IsPicked picked.new }
    ensures says { (said : List Step) × Says result said × (picked_steps picked.old ≡ said ++ picked_steps picked.new) }
    ensures size { (given_in result ≤ limit) × (picked_left picked.old ≡ given_in result + picked_left picked.new) }
{
    let count = limit.min(picked.rest.len());
    let (first, others) = picked.rest.cut(count);
    picked.rest = others;
    first.given()
}
