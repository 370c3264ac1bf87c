//! Pages as a source shows them, whose bodies stay where they lie (Parquet format, "Data Pages" and "Dictionary Page").
ghost use Rattle.std.specs.Prelude.{◌≡◌, None, pos};
ghost use Rattle.pq_pages.specs.DataPages.{stated_values, MakesPage};
ghost use Rattle.pq_pages.specs.Outcomes.{page_shown};
ghost use Rattle.pq_pages.specs.Shown.{ref_shown};

use crate::page::Page;
use pq_tree::{DataPageHeader, Descriptor};
use std::marker::Model;

/// A data page whose body lies elsewhere: see `DataPage`. No rows of it are selected.
#[derive(Debug, Drop)]
pub struct DataPageRef<'a> {
    header: &'a DataPageHeader,
    buffer: &'a [u8],
    descriptor: &'a Descriptor,
}

impl<'a> Model for DataPageRef<'a> {
    ghost use Rattle.std.specs.Prelude.{None};
    ghost use Rattle.pq_pages.specs.DataPages.{DataPageValue, IsHeld};

    ghost Value = { DataPageValue };

    ghost view = { λ p. record {
      header = p.header.now;
      buffer = p.buffer.now;
      descriptor = p.descriptor.now;
      selected_rows = None;
    } };

    ghost invariant = { λ p. IsHeld p.header.now p.descriptor.now None };
}

impl<'a> DataPageRef<'a> {
    /// The page with this header and body, of the column that the descriptor tells of.
    pub fn new(header: &'a DataPageHeader, buffer: &'a [u8], descriptor: &'a Descriptor) -> Self
        requires { MakesPage header.now descriptor.now }
        ensures { result
            ≡ record { header = header.now; buffer = buffer.now; descriptor = descriptor.now; selected_rows = None } }
    {
        DataPageRef {
            header,
            buffer,
            descriptor,
        }
    }

    /// The number of its pairs of levels, as the header states it.
    pub fn num_values(&self) -> usize
        ensures { pos result ≡ stated_values self.now.header }
    {
        match self.header {
            DataPageHeader::V1(header) => header.num_values as usize,
            DataPageHeader::V2(header) => header.num_values as usize,
        }
    }

    /// Its header.
    pub fn header(&self) -> &'a DataPageHeader
        ensures is { result.now ≡ self.now.header }
        ensures makes { MakesPage self.now.header self.now.descriptor }
    {
        self.header
    }

    /// The bytes of its body.
    pub fn buffer(&self) -> &'a [u8]
        ensures { result.now ≡ self.now.buffer }
    {
        self.buffer
    }

    /// Its column, with the greatest levels.
    pub fn descriptor(&self) -> &'a Descriptor
        ensures is { result.now ≡ self.now.descriptor }
        ensures makes { MakesPage self.now.header self.now.descriptor }
    {
        self.descriptor
    }
}

/// A dictionary page whose body lies elsewhere.
#[derive(Clone, Copy, Debug, Drop)]
pub struct DictPageRef<'a> {
    pub buffer: &'a [u8],
    /// How many entries there are.
    pub num_values: usize,
}

/// A page whose body lies elsewhere.
#[derive(Debug, Drop)]
pub enum PageRef<'a> {
    Data(DataPageRef<'a>),
    Dict(DictPageRef<'a>),
}

impl Page {
    /// The page, its body where it lies. Rows that are selected are not told.
    pub fn as_page_ref(&self) -> PageRef<'_>
        ensures { ref_shown result ≡ page_shown self.now }
    {
        match self {
            Page::Data(page) => PageRef::Data(DataPageRef::new(
                page.header(),
                page.buffer(),
                page.descriptor(),
            )),
            Page::Dict(page) => PageRef::Dict(DictPageRef {
                buffer: &page.buffer,
                num_values: page.num_values,
            }),
        }
    }
}
