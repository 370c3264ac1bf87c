//! Trees from nodes in preorder, and schemas over trees.
use columns_base::{Error, N, PhysicalType, S};
use pq_container::{
    FieldInfo, KeyValue, ParquetType, PrimitiveType, Repetition, SchemaDescriptor, SchemaElement,
    is_same_tree, read_trees,
};
use std::alloc::Global;
use std::test::Fail;

/// A node without a name: a group of so many children, 9 for a leaf, and 8 for a leaf with a child.
fn element(alloc: Global, number: usize) -> SchemaElement {
    SchemaElement {
        field_info: FieldInfo {
            name: String::new(alloc),
            repetition: Repetition::Required,
            id: None,
        },
        physical_type: if number >= 8 {
            Some(PhysicalType::Int32)
        } else {
            None
        },
        num_children: match number {
            9 => 0,
            8 => 1,
            n => n,
        },
        converted_type: None,
        logical_type: None,
    }
}

fn elements(alloc: Global, numbers: &[usize]) -> Result<Vec<SchemaElement>, Fail> {
    let mut elements = Vec::new(alloc);
    for number in numbers {
        elements.push(element(alloc, *number))?;
    }
    Ok(elements)
}

/// How many trees the nodes are, or why they are none.
fn trees_of(alloc: Global, count: usize, numbers: &[usize]) -> Result<Result<usize, Error>, Fail> {
    let elements = elements(alloc, numbers)?;
    match read_trees(alloc, &elements, count) {
        Ok(trees) => Ok(Ok(trees.len())),
        Err(error) => Ok(Err(error)),
    }
}

/// How many children the root has, the nodes behind it, and whether they are its tree.
const TREES: &[(usize, &[usize], bool)] = &[
    (0, &[], true),
    (1, &[9], true),
    (1, &[1, 1, 9], true),
    (2, &[2, 9, 9, 9], true),
    (1, &[0], true),
    // too few, too many, and a leaf with a child
    (1, &[], false),
    (2, &[1, 9], false),
    (1, &[9, 9], false),
    (0, &[9], false),
    (1, &[8, 9], false),
];

#[test]
fn trees_are_read_or_refused(rt: HostRuntime) -> Result<(), Fail> {
    for (count, numbers, is_tree) in TREES {
        let wanted = if *is_tree {
            Ok(*count)
        } else {
            Err(Error::OutOfSpec(S::S1))
        };
        assert!(rt;
            trees_of(rt.alloc(), *count, numbers)? == wanted,
            "{count} {numbers:?}"
        );
    }
    Ok(())
}

/// Groups in one another, and a leaf in the last one.
fn chain(alloc: Global, groups: usize) -> Result<Vec<usize>, Fail> {
    let mut numbers = vec![in alloc; 1usize; groups]?;
    numbers.push(9)?;
    Ok(numbers)
}

// Beneath the root 127 nodes nest in one another, then 128.
#[test]
fn deep_trees_are_reported(rt: HostRuntime) -> Result<(), Fail> {
    let alloc = rt.alloc();
    assert!(rt; trees_of(alloc, 1, &chain(alloc, 126)?)? == Ok(1));
    assert!(rt; trees_of(alloc, 1, &chain(alloc, 127)?)? == Err(Error::NotYetImplemented(N::N7)));
    Ok(())
}

fn info(alloc: Global, name: &str, repetition: Repetition) -> Result<FieldInfo, Fail> {
    Ok(FieldInfo {
        name: String::from_str(alloc, name)?,
        repetition,
        id: Some(7),
    })
}

fn leaf(alloc: Global, name: &str, repetition: Repetition) -> Result<ParquetType, Fail> {
    Ok(ParquetType::PrimitiveType(PrimitiveType {
        field_info: info(alloc, name, repetition)?,
        logical_type: None,
        converted_type: None,
        physical_type: PhysicalType::FixedLenByteArray(3),
    }))
}

fn group(
    alloc: Global,
    name: &str,
    repetition: Repetition,
    fields: Vec<ParquetType>,
) -> Result<ParquetType, Fail> {
    Ok(ParquetType::GroupType {
        field_info: info(alloc, name, repetition)?,
        logical_type: None,
        converted_type: None,
        fields,
    })
}

/// A group of one field.
fn over(
    alloc: Global,
    name: &str,
    repetition: Repetition,
    field: ParquetType,
) -> Result<ParquetType, Fail> {
    group(alloc, name, repetition, vec![in alloc; field]?)
}

/// The fields a, b over list over item and other, and c over d.
fn schema(alloc: Global) -> Result<SchemaDescriptor, Fail> {
    let item = leaf(alloc, "item", Repetition::Optional)?;
    let other = leaf(alloc, "other", Repetition::Required)?;
    let list = group(
        alloc,
        "list",
        Repetition::Repeated,
        vec![in alloc; item, other]?,
    )?;
    let first = leaf(alloc, "a", Repetition::Required)?;
    let second = over(alloc, "b", Repetition::Optional, list)?;
    let third = over(
        alloc,
        "c",
        Repetition::Required,
        leaf(alloc, "d", Repetition::Repeated)?,
    )?;
    let fields = vec![in alloc; first, second, third]?;
    Ok(SchemaDescriptor::new(alloc, String::from_str(alloc, "root")?, fields)?)
}

/// The name, the greatest levels and the path of each leaf.
const LEAVES: &[(&str, i16, i16, &str)] = &[
    ("a", 0, 0, "a"),
    ("item", 3, 1, "b.list.item"),
    ("other", 2, 1, "b.list.other"),
    ("d", 1, 1, "c.d"),
];

#[test]
fn columns_have_the_greatest_levels(rt: HostRuntime) -> Result<(), Fail> {
    let schema = schema(rt.alloc())?;
    assert!(rt;
        schema.name() == "root" && schema.fields().len() == 3 && schema.columns().len() == 4
    );
    for (column, (name, definition, repetition, _)) in schema.columns().iter().zip(LEAVES) {
        assert!(rt; column.primitive_type.field_info.name.as_str() == *name);
        assert!(rt; column.max_def_level == *definition && column.max_rep_level == *repetition);
    }
    Ok(())
}

fn joined(alloc: Global, path: &[String]) -> Result<String, Fail> {
    let mut text = String::new(alloc);
    for name in path {
        if !text.is_empty() {
            text.push('.')?;
        }
        text.push_str(name)?;
    }
    Ok(text)
}

#[test]
fn leaves_have_their_paths(rt: HostRuntime) -> Result<(), Fail> {
    let paths = schema(rt.alloc())?.leaf_paths(rt.alloc())?;
    assert!(rt; paths.len() == LEAVES.len());
    for (path, (_, _, _, names)) in paths.iter().zip(LEAVES) {
        assert!(rt; joined(rt.alloc(), path)?.as_str() == *names);
    }
    Ok(())
}

/// A field whose leaf lies so many nodes beneath it.
fn deep(alloc: Global, groups: usize) -> Result<ParquetType, Fail> {
    let mut field = leaf(alloc, "leaf", Repetition::Repeated)?;
    for _ in 0..groups {
        field = over(alloc, "group", Repetition::Repeated, field)?;
    }
    Ok(field)
}

/// The greatest repetition level of the one leaf of a schema of such a field, or why there is no such schema.
fn deep_levels(alloc: Global, groups: usize) -> Result<Result<i16, Error>, Fail> {
    let fields = vec![in alloc; deep(alloc, groups)?]?;
    match SchemaDescriptor::new(alloc, String::new(alloc), fields) {
        Ok(schema) => match schema.columns() {
            [column] => Ok(Ok(column.max_rep_level)),
            _ => Err("not one column".into()),
        },
        Err(error) => Ok(Err(error)),
    }
}

#[test]
fn schemas_nest_to_128(rt: HostRuntime) -> Result<(), Fail> {
    let alloc = rt.alloc();
    assert!(rt; deep_levels(alloc, 126)? == Ok(127));
    assert!(rt; deep_levels(alloc, 127)? == Err(Error::NotYetImplemented(N::N7)));
    Ok(())
}

#[test]
fn clones_are_equal(rt: HostRuntime) -> Result<(), Fail> {
    let alloc = rt.alloc();
    let tree = over(alloc, "g", Repetition::Optional, deep(alloc, 2)?)?;
    assert!(rt; tree.clone(alloc)? == tree);
    assert!(rt; !is_same_tree(&tree, &leaf(alloc, "g", Repetition::Optional)?));
    let pair = KeyValue {
        key: String::from_str(alloc, "k")?,
        value: Some(String::from_str(alloc, "v")?),
    };
    assert!(rt; pair.clone(alloc)? == pair);
    Ok(())
}
