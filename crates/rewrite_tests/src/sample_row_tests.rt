//! The rows 0 to 9.
ghost use Rattle.std.specs.Prelude.{◌≡◌, IfOk};
ghost use Rattle.columns_array.specs.Boxed.{boxed};
ghost use Rattle.columns_slots.specs.Slots.{type_of};
ghost use Rattle.sample_rows.specs.Fields.{items_type};

use columns_array::{ArrayBox, Chunk};
use columns_base::Error;
use sample_rows::{count_items, items_array, sample_chunk};
use std::test::Fail;

type TestResult = Result<(), Fail>;

const OFFSETS: &[i32] = &[0, 0, 1, 3, 6, 6, 6, 8, 11, 11, 12];

const NUMBERS: &[i32] = &[1, 2, 3, 3, 4, 5, 6, 7, 7, 8, 9, 9];

fn has_ten_lists(array: Result<ArrayBox, Error>) -> bool {
    let Ok(ArrayBox::List(lists)) = array else {
        return false;
    };
    let ArrayBox::Int32(items) = lists.values() else {
        return false;
    };
    lists.null_count() == 2
        && items.null_count() == 2
        && lists.offsets().buffer() == OFFSETS
        && items.values() == NUMBERS
}

fn has_items(array: Result<ArrayBox, Error>, count: u64, sum: i128) -> bool
    requires { IfOk array (λ a. type_of (boxed a) ≡ items_type) }
{
    match array {
        Ok(array) => {
            let totals = count_items(&array);
            totals.count == count && totals.sum == sum
        }
        Err(_) => false,
    }
}

fn has_three_columns(chunk: Result<Chunk, Error>) -> bool {
    match chunk {
        Ok(chunk) => {
            let [ids, tags, lists] = chunk.arrays() else {
                return false;
            };
            ids.len() == 10 && tags.len() == 10 && lists.len() == 10
        }
        Err(_) => false,
    }
}

#[test]
fn ten_lists(rt: HostRuntime) -> TestResult {
    assert!(rt; has_ten_lists(items_array(rt.alloc(), 10)));
    Ok(())
}

#[test]
fn ten_rows(rt: HostRuntime) -> TestResult {
    assert!(rt; has_three_columns(sample_chunk(rt.alloc(), 10)));
    Ok(())
}

#[test]
fn items_are_counted(rt: HostRuntime) -> TestResult {
    assert!(rt; has_items(items_array(rt.alloc(), 1), 0, 0));
    assert!(rt; has_items(items_array(rt.alloc(), 10), 10, 50));
    Ok(())
}
