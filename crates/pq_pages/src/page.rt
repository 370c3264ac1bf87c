//! Pages in memory (Parquet format, "Data Pages" and "Dictionary Page").
ghost use Rattle.std.specs.Prelude.{◌≡◌, None, Some, pos, option_map, IfSome, MatchOption};
ghost use Rattle.pq_pages.specs.DataPages.{number_in, stated_encoding, stated_values, AreRowsIn, IsEncodingNumber, MakesPage};

use pq_bitmaps::Interval;
use pq_tree::{DataPageHeader, Descriptor, Encoding};
use std::marker::Model;

/// A data page: levels and values of some pairs of one column, behind what its header states of them.
///
/// The number of values is not negative, its encoding is one of `Encoding`, and neither greatest level of its column
/// is negative.
#[derive(Debug, Drop)]
pub struct DataPage {
    header: DataPageHeader,
    buffer: Vec<u8>,
    descriptor: Descriptor,
    selected_rows: Option<Vec<Interval>>,
}

impl Model for DataPage {
    ghost use Rattle.std.specs.Prelude.{option_map};
    ghost use Rattle.pq_pages.specs.DataPages.{DataPageValue, IsHeld};

    ghost Value = { DataPageValue };

    ghost view = { λ p. record {
      header = p.header;
      buffer = p.buffer.items;
      descriptor = p.descriptor;
      selected_rows = option_map (λ rows. rows.items) p.selected_rows;
    } };

    ghost invariant = { λ p. IsHeld p.header p.descriptor (option_map (λ rows. rows.items) p.selected_rows) };
}

impl DataPage {
    /// The page with this header and body, of the column that the descriptor tells of. `rows` is the number of its rows,
    /// where the caller knows it; nothing depends on it, and none are selected.
    pub fn new(
        header: DataPageHeader,
        buffer: Vec<u8>,
        descriptor: Descriptor,
        _rows: Option<usize>,
    ) -> Self
        requires { MakesPage header descriptor }
        ensures { result
            ≡ record { header = header; buffer = buffer.items; descriptor = descriptor; selected_rows = None } }
    {
        DataPage {
            header,
            buffer,
            descriptor,
            selected_rows: None,
        }
    }

    /// The number of its pairs of levels, as the header states it.
    pub fn num_values(&self) -> usize
        ensures { pos result ≡ stated_values self.now.header }
    {
        match &self.header {
            DataPageHeader::V1(header) => header.num_values as usize,
            DataPageHeader::V2(header) => header.num_values as usize,
        }
    }

    /// How its values are spelled.
    pub fn encoding(&self) -> Encoding
        ensures { number_in result ≡ stated_encoding self.now.header }
    {
        encoding_named(encoding_in(&self.header)).unwrap()
    }

    /// Its header.
    pub fn header(&self) -> &DataPageHeader
        ensures is { result.now ≡ self.now.header }
        ensures makes { MakesPage self.now.header self.now.descriptor }
    {
        &self.header
    }

    /// The bytes of its body.
    pub fn buffer(&self) -> &[u8]
        ensures { result.now ≡ self.now.buffer }
    {
        &self.buffer
    }

    /// The bytes of its body, taken out of the page.
    pub fn into_buffer(self) -> Vec<u8>
        ensures { result.items ≡ self.buffer }
    {
        self.buffer
    }

    /// Its column, with the greatest levels.
    pub fn descriptor(&self) -> &Descriptor
        ensures is { result.now ≡ self.now.descriptor }
        ensures makes { MakesPage self.now.header self.now.descriptor }
    {
        &self.descriptor
    }

    /// Selects rows of the page, in the place of those that were selected before. Each interval begins at or behind the end of the one before, and
    /// the last ends within the page's values (Parquet format, "Page Index").
    pub fn select_rows(&mut self, rows: Vec<Interval>)
        requires { AreRowsIn self.old.header rows.items }
        ensures { self.new
            ≡ record {
              header = self.old.header;
              buffer = self.old.buffer;
              descriptor = self.old.descriptor;
              selected_rows = Some rows.items;
            } }
    {
        self.selected_rows = Some(rows);
    }

    /// The rows that are selected; none before `select_rows`.
    pub fn selected_rows(&self) -> Option<&[Interval]>
        ensures are { option_map (λ rows. rows.now) result ≡ self.now.selected_rows }
        ensures ascend { IfSome result (λ rows. AreRowsIn self.now.header rows.now) }
    {
        self.selected_rows.as_deref()
    }
}

fn encoding_in(header: &DataPageHeader) -> i32
    ensures { result ≡ stated_encoding header.now }
{
    match header {
        DataPageHeader::V1(header) => header.encoding,
        DataPageHeader::V2(header) => header.encoding,
    }
}

/// The encoding with this number (Parquet format, `Encoding`), if there is one.
pub fn encoding_named(number: i32) -> Option<Encoding>
    ensures { MatchOption result (¬ IsEncodingNumber number) (λ encoding. number_in encoding ≡ number) }
{
    match number {
        0 => Some(Encoding::Plain),
        2 => Some(Encoding::PlainDictionary),
        3 => Some(Encoding::Rle),
        4 => Some(Encoding::BitPacked),
        5 => Some(Encoding::DeltaBinaryPacked),
        6 => Some(Encoding::DeltaLengthByteArray),
        7 => Some(Encoding::DeltaByteArray),
        8 => Some(Encoding::RleDictionary),
        _ => None,
    }
}

/// A dictionary page: the entries of a column, in plain spelling.
#[derive(Debug, Drop)]
pub struct DictPage {
    pub buffer: Vec<u8>,
    /// How many entries there are.
    pub num_values: usize,
    /// Whether they ascend.
    pub is_sorted: bool,
}

impl DictPage {
    /// The page of so many entries, whose body these bytes are.
    pub fn new(buffer: Vec<u8>, num_values: usize, is_sorted: bool) -> Self
        ensures { result ≡ record { buffer = buffer; num_values = num_values; is_sorted = is_sorted } }
    {
        DictPage {
            buffer,
            num_values,
            is_sorted,
        }
    }
}

/// A page.
#[derive(Debug, Drop)]
pub enum Page {
    Data(DataPage),
    Dict(DictPage),
}
