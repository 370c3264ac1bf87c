//! One column of a group.
ghost use Rattle.std.specs.Prelude.{◌≡◌, ◌⊎◌, ℕ, ◌+◌, ◌<◌, ◌≤◌, List, [], ◌∷◌, Some, None, length, map, option_map, pos, string_bytes, cond, IfOk, IfErr, IsErrOf};
ghost use Rattle.std.specs.Io.KnownBytes.{Appends};
ghost use Rattle.columns_base.specs.declared.error.Error.TheVariants.{Memory, Overflow, WriteFault};
ghost use Rattle.columns_base.specs.declared.error.V.TheVariants.{V3};
ghost use Rattle.footer_write.specs.FooterView.{chunk_view};
ghost use Rattle.pq_tree.specs.Paths.{names_of};
ghost use Rattle.pq_tree.specs.Physical.{number_of_physical};
ghost use Rattle.pq_tree.specs.Tree.{Leaf};
ghost use Rattle.pq_tree.specs.Views.{physical_view, statistics_view};
ghost use Rattle.pq_tree.specs.declared.version.Version.{Version};
ghost use Rattle.pq_files.specs.Layout.{OutChunk};
ghost use Rattle.pq_files.specs.Packed.{IsWrittenChunk};
ghost use Rattle.pq_files.specs.Page.{Encoding as PageEncoding};
ghost use Rattle.pq_files.specs.Room.{max_count};
ghost use Rattle.pq_files.specs.Written.{Place, chunk_record, encodings_of};
ghost use Rattle.pq_io.specs.Causes.{Rose};
ghost use Rattle.write_file.specs.Pages.{encoding_view};
ghost use Rattle.write_counts.specs.Passing.{ColumnPasses};

use crate::column::push_column;
use crate::{ChunkPages, Count};
use columns_base::Result;
use footer_write::{ThriftColumnChunk, ThriftColumnMetaData};
use pq_io::Sink;
use pq_tree::{Encoding, PhysicalType, Statistics};
use std::alloc::Global;

// The encodings of levels and of data that is not plain, ascending, behind that of the dictionary page, where there is one.
fn encodings_with(alloc: Global, encoding: i32, has_dictionary: bool) -> Result<Vec<i32>>
    ensures ok { IfOk result (λ v. v.items ≡ cond has_dictionary (pos 0 ∷ pos 3 ∷ encoding ∷ [])
        (pos 3 ∷ encoding ∷ [])) }
    ensures err { IfErr result (λ e. e ≡ Memory) }
{
    let encodings = if has_dictionary {
        Vec::from_slice(alloc, &[0, 3, encoding])?
    } else {
        Vec::from_slice(alloc, &[3, encoding])?
    };
    Ok(encodings)
}

// The encodings of the pages of a chunk, ascending and each once (Parquet format, `ColumnMetaData.encodings`).
fn encodings_from(alloc: Global, encoding: Encoding, has_dictionary: bool) -> Result<Vec<i32>>
    ensures ok { IfOk result (λ v. (e : PageEncoding) → encoding_view encoding ≡ Some e
        → v.items ≡ map (λ n. pos n) (encodings_of e has_dictionary)) }
    ensures err { IfErr result (λ e. e ≡ Memory) }
{
    match encoding {
        Encoding::Plain => Ok(Vec::from_slice(alloc, &[0, 3])?),
        Encoding::DeltaBinaryPacked => encodings_with(alloc, 5, has_dictionary),
        Encoding::DeltaLengthByteArray => encodings_with(alloc, 6, has_dictionary),
        _ => encodings_with(alloc, 8, has_dictionary),
    }
}

// Where the dictionary page stands, where there is one.
fn dictionary_offset(has_dictionary: bool, start: Count) -> Option<i64>
    ensures { result ≡ cond has_dictionary (Some (pos start)) None }
{
    if has_dictionary {
        Some(start.stated())
    } else {
        None
    }
}

fn number_from(physical: PhysicalType) -> i32
    ensures { result ≡ pos (number_of_physical (physical_view physical)) }
{
    match physical {
        PhysicalType::Boolean => 0,
        PhysicalType::Int32 => 1,
        PhysicalType::Int64 => 2,
        PhysicalType::Int96 => 3,
        PhysicalType::Float => 4,
        PhysicalType::Double => 5,
        PhysicalType::ByteArray => 6,
        PhysicalType::FixedLenByteArray(_) => 7,
    }
}

fn copy_statistics(alloc: Global, statistics: &Option<Statistics>) -> Result<Option<Statistics>>
    ensures ok { IfOk result (λ s. option_map statistics_view s ≡ option_map statistics_view statistics.now) }
    ensures err { IfErr result (λ e. e ≡ Memory) }
{
    match statistics {
        None => Ok(None),
        Some(statistics) => Ok(Some(statistics.clone(alloc)?)),
    }
}

fn copy_path(alloc: Global, path: &[String]) -> Result<Vec<String>>
    ensures ok { IfOk result (λ p. map string_bytes p.items ≡ map string_bytes path.now) }
    ensures err { IfErr result (λ e. e ≡ Memory) }
{
    let mut names = Vec::with_capacity(alloc, path.len())?;
    for name in path {
        names.push(String::from_str(alloc, name.as_str())?)?;
    }
    Ok(names)
}

/// A chunk that has gone to the sink: what the footer states of it, the place after it, and its number of data pages.
#[derive(Drop)]
pub(crate) struct Chunk {
    pub meta: ThriftColumnChunk,
    pub end: Count,
    pub pages: Count,
}

/// Pushes the pages of a column that starts at a place, the dictionary page first (Parquet format, "Column chunks"), and drops the column.
///
/// # Errors
///
/// Those of `push_column` and of the dictionary page.
pub(crate) fn push_chunk<W: Sink, P: ChunkPages + Drop>(
    alloc: Global,
    sink: &mut W,
    physical: PhysicalType,
    path: &[String],
    pages: P,
    start: Count,
) -> Result<Chunk>
    ensures ok { IfOk result (λ k. (version : Version) (l : Leaf) (c : OutChunk) → physical_view physical ≡ l.physical
        → map string_bytes path.now ≡ names_of l → P.begins pages version l c → 0 < length c.pages
        → (text : List ℕ) × (w : Place) × Appends (W.taken sink.old) (W.taken sink.new) text × (w.start ≡ start)
        × IsWrittenChunk version l c w text × (chunk_view k.meta ≡ chunk_record l c w)
        × (k.end ≡ start + length text) × (k.pages ≡ length c.pages)) }
    ensures few { IfOk result (λ k. start + k.pages ≤ k.end) }
    ensures most { IfOk result (λ k. k.end ≤ max_count) }
    ensures later { W.faults sink.old ≤ W.faults sink.new }
    ensures fault { IsErrOf result WriteFault → Rose (W.faults sink.old) (W.faults sink.new)
        ⊎ P.refuses pages WriteFault }
    ensures refused { IfErr result (λ e. (e ≡ Memory) ⊎ (e ≡ WriteFault)
        ⊎
        ((e ≡ Overflow V3)
        ×
        ((version : Version) (l : Leaf) (c : OutChunk) → P.begins pages version l c
        → ColumnPasses version l c start)) ⊎ P.refuses pages e) }
{
    let mut pages = pages;
    let path_in_schema = copy_path(alloc, path)?;
    let statistics = copy_statistics(alloc, pages.statistics())?;
    let dictionary = match pages.dictionary_page() {
        Ok(dictionary) => dictionary,
        Err(error) => return Err(error),
    };
    let has_dictionary = dictionary.is_some();
    let encodings = encodings_from(alloc, pages.encoding(), has_dictionary)?;
    let placed = match push_column(alloc, sink, dictionary, &mut pages, start) {
        Ok(placed) => placed,
        Err(error) => return Err(error),
    };
    let size = placed.end.minus(start).stated();
    Ok(Chunk {
        meta: ThriftColumnChunk {
            file_offset: start.stated(),
            meta_data: ThriftColumnMetaData {
                type_: number_from(physical),
                encodings,
                path_in_schema,
                codec: 0,
                num_values: placed.pairs.stated(),
                total_uncompressed_size: size,
                total_compressed_size: size,
                data_page_offset: placed.behind.stated(),
                dictionary_page_offset: dictionary_offset(has_dictionary, start),
                statistics,
            },
        },
        end: placed.end,
        pages: placed.pages,
    })
}
