use columns_core::{Bitmap, OffsetsBuffer};
use level_sections::{write_def_levels, write_rep_and_def};
use levels::{ListNested, Nested, is_well_formed, max_def_level, max_rep_level};
use pq_tree::Version;
use std::alloc::Global;
use std::test::Fail;

// A part with its mask as packed bits, none where there are no bytes.
#[derive(Clone, Copy)]
enum Part {
    Leaf(bool, &'static [u8], usize),
    List(bool, &'static [u8], &'static [i32]),
    Struct(bool, &'static [u8], usize),
}

// No mask where there are no bytes.
fn mask(alloc: Global, bits: &[u8], len: usize) -> Result<Option<Bitmap>, Fail> {
    if bits.is_empty() {
        return Ok(None);
    }
    if len / 8 >= bits.len() {
        return Err("too few bits".into());
    }
    Ok(Some(Bitmap::from_bytes(alloc, bits.to_vec(alloc)?, len)?))
}

fn list(alloc: Global, is_optional: bool, bits: &[u8], offsets: &[i32]) -> Result<Nested, Fail> {
    let offsets = OffsetsBuffer::try_from_vec(offsets.to_vec(alloc)?)?;
    let validity = mask(alloc, bits, offsets.len_proxy())?;
    Ok(Nested::List(ListNested::new(offsets, validity, is_optional)))
}

fn nested(alloc: Global, part: &Part) -> Result<Nested, Fail> {
    match part {
        Part::Leaf(is_optional, bits, len) => {
            let validity = mask(alloc, bits, *len)?;
            Ok(Nested::Primitive(validity, *is_optional, *len))
        }
        Part::Struct(is_optional, bits, len) => {
            let validity = mask(alloc, bits, *len)?;
            Ok(Nested::Struct(validity, *is_optional, *len))
        }
        Part::List(is_optional, bits, offsets) => list(alloc, *is_optional, bits, offsets),
    }
}

fn path_of(alloc: Global, parts: &[Part]) -> Result<Vec<Nested>, Fail> {
    let mut path = Vec::new(alloc);
    for part in parts {
        path.push(nested(alloc, part)?)?;
    }
    Ok(path)
}

// The sections of a path are these bytes and have these lengths.
fn are_sections(
    alloc: Global,
    version: Version,
    path: &[Nested],
    bytes: &[u8],
    sizes: (usize, usize),
) -> Result<bool, Fail> {
    if !is_well_formed(path) || path.len() > 128 {
        return Ok(false);
    }
    let mut out = Vec::new(alloc);
    let written = write_rep_and_def(version, path, &mut out)?;
    Ok(written == sizes && out.as_slice() == bytes)
}

// A path, and the runs of its repetition and of its definition levels: a header 2 n before a level that stands n times, 2 g + 1 before g
// groups of eight packed levels, of as many bits as the greatest one has.
#[derive(Clone, Copy)]
struct Case {
    name: &'static str,
    path: &'static [Part],
    repetition: &'static [u8],
    definition: &'static [u8],
}

const CASES: [Case; 12] = [
    // repetition 0, 1, 0, 0, 1, 1, 0, 1, 1, 0, 0, 1, 1, 0, 0 and definition 1, 1, 0, 1, 1, 1, 1, 1, 1, 0, 1, 1, 1, 0, 1
    Case {
        name: "a required list of required items",
        path: &[
            Part::List(false, &[], &[0, 2, 2, 5, 8, 8, 11, 11, 12]),
            Part::Leaf(false, &[], 12),
        ],
        repetition: &[5, 178, 25],
        definition: &[5, 251, 93],
    },
    // repetition 0, 2, 0, 0, 2, 1, 0, 2, 1, 0, 0, 1, 1, 0, 0 and definition 2, 2, 0, 2, 2, 2, 2, 2, 2, 0, 2, 2, 2, 0, 2
    Case {
        name: "a list of lists",
        path: &[
            Part::List(false, &[], &[0, 1, 1, 3, 5, 5, 8, 8, 9]),
            Part::List(false, &[], &[0, 2, 4, 5, 7, 8, 9, 10, 11, 12]),
            Part::Leaf(false, &[], 12),
        ],
        repetition: &[5, 8, 134, 65, 1],
        definition: &[5, 138, 170, 162, 34],
    },
    // repetition 0, 1, 0, 0, 1, 1, 0, 1, 1, 0, 0, 1, 1, 2, 0, 0 and definition 6, 6, 0, 6, 2, 6, 3, 3, 3, 1, 6, 5, 6, 6, 0, 4
    Case {
        name: "a list of structs of a list, all with nulls",
        path: &[
            Part::List(true, &[0b1011_1101, 0], &[0, 2, 2, 5, 8, 8, 11, 11, 12]),
            Part::Struct(true, &[0b1111_0111, 0b1111], 12),
            Part::List(
                true,
                &[0b0001_0111, 0b1111],
                &[0, 1, 2, 3, 3, 4, 4, 4, 4, 5, 6, 8, 8],
            ),
            Part::Leaf(true, &[0b1101_1111, 0], 8),
        ],
        repetition: &[5, 4, 69, 65, 9],
        definition: &[5, 54, 44, 111, 139, 107, 131],
    },
    // 0, 1, 0 and 2, 2, 0
    Case {
        name: "a null list over items that are there",
        path: &[
            Part::List(true, &[0b01], &[0, 2, 4]),
            Part::Leaf(false, &[], 4),
        ],
        repetition: &[3, 0b010],
        definition: &[3, 0b00_1010, 0],
    },
    // 1, 1, 0, 1
    Case {
        name: "either leaf of a struct with a null",
        path: &[Part::Struct(true, &[0b1011], 4), Part::Leaf(false, &[], 4)],
        repetition: &[],
        definition: &[3, 0b1011],
    },
    // 0, 1, 0, 0, 0, 1 and six times 2
    Case {
        name: "the keys of a map with optional entries",
        path: &[
            Part::List(false, &[], &[0, 2, 3, 4, 6]),
            Part::Struct(true, &[], 6),
            Part::Leaf(false, &[], 6),
        ],
        repetition: &[3, 34],
        definition: &[3, 170, 10],
    },
    // 2, 2, 3, 2, 3, 3
    Case {
        name: "the values of that map, three of them null",
        path: &[
            Part::List(false, &[], &[0, 2, 3, 4, 6]),
            Part::Struct(true, &[], 6),
            Part::Leaf(true, &[0b11_0100], 6),
        ],
        repetition: &[3, 34],
        definition: &[3, 186, 15],
    },
    Case {
        name: "a list of no rows",
        path: &[Part::List(true, &[], &[5]), Part::Leaf(true, &[], 0)],
        repetition: &[],
        definition: &[],
    },
    Case {
        name: "a required leaf, whose mask is not looked at",
        path: &[Part::Leaf(false, &[0], 3)],
        repetition: &[],
        definition: &[],
    },
    Case {
        name: "two runs of 64",
        path: &[Part::Leaf(
            true,
            &[
                255, 255, 255, 255, 255, 255, 255, 255, 0, 0, 0, 0, 0, 0, 0, 0, 0,
            ],
            128,
        )],
        repetition: &[],
        definition: &[128, 1, 1, 128, 1, 0],
    },
    Case {
        name: "the list of a null struct, which has items",
        path: &[
            Part::Struct(true, &[0b101], 3),
            Part::List(true, &[0b111], &[7, 8, 10, 11]),
            Part::Leaf(false, &[], 4),
        ],
        repetition: &[3, 0],
        definition: &[3, 0b11_0011, 0],
    },
    Case {
        name: "the same, which has none",
        path: &[
            Part::Struct(true, &[0b101], 3),
            Part::List(true, &[0b101], &[0, 1, 1, 2]),
            Part::Leaf(false, &[], 2),
        ],
        repetition: &[3, 0],
        definition: &[3, 0b11_0011, 0],
    },
];

// A section behind its length, and nothing where the greatest level is 0.
fn push_behind_length(out: &mut Vec<u8>, max: usize, section: &[u8]) -> Result<(), Fail> {
    if max == 0 {
        return Ok(());
    }
    let length = u32::try_from(section.len())?;
    out.extend_from_slice(&length.to_le_bytes())?;
    out.extend_from_slice(section)?;
    Ok(())
}

// The sections alone, and behind their lengths.
fn is_written(alloc: Global, case: &Case) -> Result<bool, Fail> {
    let path = path_of(alloc, case.path)?;
    let mut bytes = case.repetition.to_vec(alloc)?;
    bytes.extend_from_slice(case.definition)?;
    let sizes = (case.repetition.len(), case.definition.len());
    if !are_sections(alloc, Version::V2, &path, &bytes, sizes)? {
        return Ok(false);
    }
    bytes.clear();
    push_behind_length(&mut bytes, max_rep_level(&path), case.repetition)?;
    let repetition = bytes.len();
    push_behind_length(&mut bytes, max_def_level(&path), case.definition)?;
    let sizes = (repetition, bytes.len().saturating_sub(repetition));
    are_sections(alloc, Version::V1, &path, &bytes, sizes)
}

#[test]
fn writes_both_sections(rt: HostRuntime) -> Result<(), Fail> {
    for case in &CASES {
        let same = is_written(rt.alloc(), case)?;
        assert!(rt; same, "{}", case.name);
    }
    Ok(())
}

// 127 optional lists over an optional leaf: definition levels to 255, of eight bits, and repetition levels to 127, of seven.
#[test]
fn the_deepest_path(rt: HostRuntime) -> Result<(), Fail> {
    let alloc = rt.alloc();
    let mut path = Vec::new(alloc);
    for _ in 0..127 {
        path.push(list(alloc, true, &[], &[0, 1])?)?;
    }
    path.push(Nested::Primitive(None, true, 1))?;
    let bytes: [u8; 17] = [3, 0, 0, 0, 0, 0, 0, 0, 3, 255, 0, 0, 0, 0, 0, 0, 0];
    let same = are_sections(alloc, Version::V2, &path, &bytes, (8, 9))?;
    assert!(rt; same);
    Ok(())
}

// The section of a flat column is that of its path.
fn is_flat_section(alloc: Global, count: usize, bytes: &[u8]) -> Result<bool, Fail> {
    let path = [Nested::Primitive(None, true, count)];
    let nested = are_sections(alloc, Version::V2, &path, bytes, (0, bytes.len()))?;
    let mut flat = Vec::new(alloc);
    write_def_levels(&mut flat, true, None, count, Version::V2)?;
    Ok(nested && flat.as_slice() == bytes)
}

// 300 equal levels are one run of copies: 600 is d8 04 as a varint.
#[test]
fn equal_levels_are_one_run(rt: HostRuntime) -> Result<(), Fail> {
    let cases: [(usize, &[u8]); 4] = [(300, &[0xd8, 4, 1]), (2, &[3, 3]), (3, &[3, 7]), (0, &[])];
    for (count, bytes) in &cases {
        let same = is_flat_section(rt.alloc(), *count, bytes)?;
        assert!(rt; same, "{count}");
    }
    Ok(())
}
