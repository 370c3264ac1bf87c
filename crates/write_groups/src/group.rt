//! The columns of a chunk of arrays, to be written as a row group.
ghost use Rattle.std.specs.Prelude.{◌≡◌, ◌⊎◌, ◌++◌, ◌↔◌, List, IsTrue, length, map, OnOk, IfOk, IfErr};
ghost use Rattle.columns_array.specs.Boxed.{all_boxed, boxed};
ghost use Rattle.columns_base.specs.declared.error.A.TheVariants.{A8};
ghost use Rattle.columns_base.specs.declared.error.Error.TheVariants.{InvalidArgumentError, Memory};
ghost use Rattle.pq_tree.specs.TreeViews.{tree_view, trees_view};
ghost use Rattle.write_groups.specs.Columns.{AreFieldColumns, AreGroupColumns, AreSoMany, RefusesField, RefusesFields};
ghost use Rattle.write_groups.specs.Given.{column_of};
ghost use Rattle.write_groups.specs.declared.column.ChunkColumn.{ChunkColumn as Column};

use crate::column::ChunkColumn;
use crate::depth::nests_within;
use columns_array::{ArrayBox, Chunk};
use columns_base::{A, Error, N, Result};
use pq_tree::{Encoding, ParquetType};
use std::alloc::Global;
use write_pages::{PageIter, WriteOptions, array_to_columns};

/// The most nodes of a tree that lie beneath one another.
const MAX_NESTING: u8 = 128;

/// A chunk of arrays that is to be written as one group, by the trees of its fields: the pages of its columns, each to be made when it is written.
#[derive(Drop)]
pub struct RowGroupIter {
    pub chunk: Chunk,
    pub encodings: Vec<Vec<Encoding>>,
    pub fields: Vec<ParquetType>,
    pub options: WriteOptions,
    /// Those of one field after another.
    pub columns: Vec<ChunkColumn>,
}

// The pages as columns.
fn push_all(pages: Vec<PageIter>, columns: &mut Vec<ChunkColumn>) -> Result<()>
    ensures ok { OnOk result (columns.new.items ≡ columns.old.items ++ map column_of pages.items) }
    ensures err { IfErr result (λ e. e ≡ Memory) }
{
    for page in pages {
        columns.push(ChunkColumn::new(page))?;
    }
    Ok(())
}

// The columns of one field.
fn push_field(
    alloc: Global,
    array: &ArrayBox,
    tree: &ParquetType,
    options: WriteOptions,
    encodings: &[Encoding],
    columns: &mut Vec<ChunkColumn>,
) -> Result<()>
    ensures ok { OnOk result ((mine : List Column) × (columns.new.items ≡ columns.old.items ++ mine)
        × AreFieldColumns options (boxed array.now) (tree_view tree.now) encodings.now mine) }
    ensures err { IfErr result (λ e. (e ≡ Memory) ⊎ RefusesField options (boxed array.now)
        (tree_view tree.now) encodings.now e) }
{
    if !nests_within(tree, MAX_NESTING) {
        return Err(Error::NotYetImplemented(N::N7));
    }
    array.know();
    match array_to_columns(alloc, array, tree, options, encodings) {
        Ok(pages) => push_all(pages, columns)?,
        Err(error) => return Err(error),
    }
    Ok(())
}

// The columns of as many fields as there are arrays.
fn columns_of(
    alloc: Global,
    arrays: &[ArrayBox],
    trees: &[ParquetType],
    options: WriteOptions,
    encodings: &[Vec<Encoding>],
) -> Result<Vec<ChunkColumn>>
    requires trees { length trees.now ≡ length arrays.now }
    requires encodings { length encodings.now ≡ length arrays.now }
    ensures ok { IfOk result (λ columns. AreGroupColumns options (all_boxed arrays.now) (trees_view trees.now)
        (map (λ es. es.items) encodings.now) columns.items) }
    ensures err { IfErr result (λ e. (e ≡ Memory) ⊎ RefusesFields options (all_boxed arrays.now) (trees_view trees.now)
        (map (λ es. es.items) encodings.now) e) }
{
    let mut columns = Vec::new(alloc);
    'fields: for i in 0..arrays.len() {
        if let Err(error) = push_field(
            alloc,
            &arrays[i],
            &trees[i],
            options,
            &encodings[i],
            &mut columns,
        ) {
            return Err(error);
        }
    }
    Ok(columns)
}

// Whether there is a list of encodings and a tree for each array.
#[tactic(auto, using(crate::proofs::Fields::boxed_count))]
fn are_so_many(chunk: &Chunk, encodings: &Vec<Vec<Encoding>>, fields: &Vec<ParquetType>) -> bool
    ensures { IsTrue result ↔ AreSoMany chunk.now (length encodings.now.items) (length fields.now.items) }
{
    let count = chunk.arrays().len();
    encodings.len() == count && fields.len() == count
}

/// The columns of the chunk, each array written by the tree at its place, in the encodings of its leaves: a dictionary as a dictionary page and one
/// data page of its keys. Pages are made when they are written.
///
/// # Errors
///
/// - `InvalidArgumentError(A8)`: the numbers of arrays, lists of encodings and trees differ; an array and its tree do not go together (as
///   `array_to_columns` says), or its encodings are not as many as its leaves.
/// - `NotYetImplemented(N7)`: a tree nests past 128.
/// - `NotYetImplemented(N4)`: a dictionary in another encoding than the two of dictionaries, or another flat column in another encoding than PLAIN
///   and the deltas that its type may have.
/// - `NotYetImplemented(N5)`: values of a leaf's type, or a dictionary of such entries, are not written in such a column.
/// - `InvalidArgumentError(A7)`: a decimal is past what its physical type holds.
/// - `Memory`: memory ran out.
pub fn row_group_iter(
    alloc: Global,
    chunk: Chunk,
    encodings: Vec<Vec<Encoding>>,
    fields: Vec<ParquetType>,
    options: WriteOptions,
) -> Result<RowGroupIter>
    ensures ok { IfOk result (λ g. (g.chunk ≡ chunk) × (g.encodings ≡ encodings) × (g.fields ≡ fields)
        × (g.options ≡ options)) }
    ensures columns { IfOk result (λ g. AreGroupColumns options chunk (trees_view fields.items)
        (map (λ es. es.items) encodings.items) g.columns.items) }
    ensures differ { (¬ AreSoMany chunk (length encodings.items) (length fields.items))
        → result ≡ Err (InvalidArgumentError A8) }
    ensures refused { IfErr result (λ e. (e ≡ Memory) ⊎ ((e ≡ InvalidArgumentError A8)
        × (¬ AreSoMany chunk (length encodings.items) (length fields.items)))
        ⊎ RefusesFields options chunk (trees_view fields.items) (map (λ es. es.items) encodings.items) e) }
{
    if !are_so_many(&chunk, &encodings, &fields) {
        return Err(Error::InvalidArgumentError(A::A8));
    }
    let columns = match columns_of(alloc, chunk.arrays(), &fields, options, &encodings) {
        Ok(columns) => columns,
        Err(error) => return Err(error),
    };
    Ok(RowGroupIter {
        chunk,
        encodings,
        fields,
        options,
        columns,
    })
}
