//! A page whose values the caller spells (Parquet format, Encodings, "Plain").
ghost use Rattle.std.specs.Prelude.{◌≡◌, ◌∷◌, [], pos, None, IfOk};
ghost use Rattle.columns_core.specs.Tree.{t_int32};

use crate::shapes::{options, required};
use columns_array::ArrayBox;
use columns_base::{PhysicalType, Result};
use columns_core::DataType;
use columns_leaf::PrimitiveArray;
use leaf_pages::check_flat;
use leaf_pages::primitive::{Encode, array_to_page};
use pq_pages::DataPage;
use pq_tree::{Encoding, Version};
use std::alloc::Global;

// Spells 1 and 2.
#[derive(Drop)]
struct OneAndTwo;

impl Encode<i32> for OneAndTwo {
    ghost use Rattle.std.specs.Prelude.{◌≡◌, ◌∷◌, []};

    ghost spells = { λ it array is_optional text. text ≡ 1 ∷ 0 ∷ 0 ∷ 0 ∷ 2 ∷ 0 ∷ 0 ∷ 0 ∷ [] };

    fn encode(
        &self,
        _array: &PrimitiveArray<i32>,
        _is_optional: bool,
        levels: Vec<u8>,
    ) -> Result<Vec<u8>> {
        let mut body = levels;
        body.extend_from_slice(&[1, 0, 0, 0, 2, 0, 0, 0])?;
        Ok(body)
    }
}

fn one_and_two(alloc: Global) -> Result<PrimitiveArray<i32>>
    ensures { IfOk result (λ a. a ≡ (t_int32, (pos 1 ∷ pos 2 ∷ [], None))) }
{
    let values = [1, 2].as_slice().to_vec(alloc)?;
    PrimitiveArray::try_new(alloc, DataType::Int32, values, None)
}

fn spelled_page(alloc: Global, version: Version) -> Result<DataPage> {
    let array = one_and_two(alloc)?;
    let type_ = required(alloc, PhysicalType::Int32)?;
    check_flat(alloc, &ArrayBox::Int32(array.clone(alloc)?), &type_)?;
    array_to_page::<i32, i32, OneAndTwo>(
        alloc,
        &array,
        options(version),
        type_,
        Encoding::Plain,
        OneAndTwo,
    )
}

#[test]
fn a_page_is_spelled_by_the_caller(rt: HostRuntime) -> Result<()> {
    for version in [Version::V1, Version::V2] {
        let page = spelled_page(rt.alloc(), version)?;
        assert!(rt;
            page.num_values() == 2
                && page.buffer() == b"\x01\x00\x00\x00\x02\x00\x00\x00".as_slice()
        );
    }
    Ok(())
}
