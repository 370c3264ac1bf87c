//! Levels worked out by hand or by other writers.
use crate::parts::{Part, build};
use columns_core::OffsetsBuffer;
use levels::{
    DefLevelsIter, ListNested, Nested, RepLevelsIter, is_same_list, is_same_nested, is_well_formed,
    num_values,
};
use std::alloc::Global;
use std::test::Fail;

struct Case {
    name: &'static str,
    path: &'static [Part],
    rep: &'static [u32],
    def: &'static [u32],
}

const CASES: &[Case] = &[
    Case {
        name: "a required list of required items",
        path: &[
            Part::List(false, &[], &[0, 2, 2, 5, 8, 8, 11, 11, 12]),
            Part::Leaf(false, &[], 12),
        ],
        rep: &[0, 1, 0, 0, 1, 1, 0, 1, 1, 0, 0, 1, 1, 0, 0],
        def: &[1, 1, 0, 1, 1, 1, 1, 1, 1, 0, 1, 1, 1, 0, 1],
    },
    Case {
        name: "a list of lists",
        path: &[
            Part::List(false, &[], &[0, 1, 1, 3, 5, 5, 8, 8, 9]),
            Part::List(false, &[], &[0, 2, 4, 5, 7, 8, 9, 10, 11, 12]),
            Part::Leaf(false, &[], 12),
        ],
        rep: &[0, 2, 0, 0, 2, 1, 0, 2, 1, 0, 0, 1, 1, 0, 0],
        def: &[2, 2, 0, 2, 2, 2, 2, 2, 2, 0, 2, 2, 2, 0, 2],
    },
    Case {
        name: "a list of structs of a list, all with nulls",
        path: &[
            Part::List(
                true,
                &[true, false, true, true, true, true, false, true],
                &[0, 2, 2, 5, 8, 8, 11, 11, 12],
            ),
            Part::Struct(
                true,
                &[
                    true, true, true, false, true, true, true, true, true, true, true, true,
                ],
                12,
            ),
            Part::List(
                true,
                &[
                    true, true, true, false, true, false, false, false, true, true, true, true,
                ],
                &[0, 1, 2, 3, 3, 4, 4, 4, 4, 5, 6, 8, 8],
            ),
            Part::Leaf(true, &[true, true, true, true, true, false, true, true], 8),
        ],
        rep: &[0, 1, 0, 0, 1, 1, 0, 1, 1, 0, 0, 1, 1, 2, 0, 0],
        def: &[6, 6, 0, 6, 2, 6, 3, 3, 3, 1, 6, 5, 6, 6, 0, 4],
    },
    Case {
        name: "large offsets that begin later, a null list over items, and a mask of the required leaf",
        path: &[
            Part::LargeList(true, &[true, false], &[70, 72, 73]),
            Part::Leaf(false, &[false, false, false], 3),
        ],
        rep: &[0, 1, 0],
        def: &[2, 2, 0],
    },
    Case {
        name: "a null struct over a leaf that is there",
        path: &[
            Part::Struct(true, &[true, true, false, true], 4),
            Part::Leaf(true, &[true, true, true, false], 4),
        ],
        rep: &[0, 0, 0, 0],
        def: &[2, 2, 0, 1],
    },
    Case {
        name: "the values of a map, some of them null",
        path: &[
            Part::List(true, &[true, true, false, true], &[0, 2, 3, 4, 6]),
            Part::Struct(false, &[], 6),
            Part::Leaf(true, &[true, false, true, false, true, true], 6),
        ],
        rep: &[0, 1, 0, 0, 0, 1],
        def: &[3, 2, 3, 0, 3, 3],
    },
    Case {
        name: "lists that are all empty or null",
        path: &[
            Part::List(true, &[false, true, true, false], &[3, 3, 3, 3, 3]),
            Part::Leaf(true, &[], 0),
        ],
        rep: &[0, 0, 0, 0],
        def: &[0, 1, 1, 0],
    },
];

fn has_levels(alloc: Global, path: &[Nested], rep: &[u32], def: &[u32]) -> Result<bool, Fail> {
    if !is_well_formed(path) || path.len() > 128 {
        return Ok(false);
    }
    if num_values(path) == usize::MAX {
        return Ok(false);
    }
    let found: Vec<u32> = RepLevelsIter::new(alloc, path)?.collect(alloc)?;
    let other: Vec<u32> = DefLevelsIter::new(alloc, path)?.collect(alloc)?;
    Ok(found.as_slice() == rep && other.as_slice() == def)
}

fn is_as_worked(alloc: Global, case: &Case) -> Result<bool, Fail> {
    let path = build(alloc, case.path)?;
    has_levels(alloc, &path, case.rep, case.def)
}

#[test]
fn paths_have_these_levels(rt: HostRuntime) -> Result<(), Fail> {
    for case in CASES {
        assert!(rt; is_as_worked(rt.alloc(), case)?, "{}", case.name);
    }
    Ok(())
}

fn are_copied(alloc: Global) -> Result<bool, Fail> {
    let offsets = OffsetsBuffer::<i64>::try_from_vec([3, 5, 6].to_vec(alloc)?)?;
    let list = ListNested::new(offsets, None, true);
    let copy = list.clone()?;
    let same = is_same_list(&list, &copy);
    let part = Nested::LargeList(list);
    Ok(same && is_same_nested(&part, &part.clone()?))
}

#[test]
fn parts_are_copied(rt: HostRuntime) -> Result<(), Fail> {
    assert!(rt; are_copied(rt.alloc())?);
    Ok(())
}
