//! The pages of a column chunk, one after another (Parquet format, "Column chunks").
ghost use Rattle.std.specs.Prelude.{◌≡◌, ◌≢◌, ◌⊎◌, ◌<◌, ◌≤ℤ◌, pos, [], ◌∷◌, None, length, IfOk, IfErr};
ghost use Rattle.columns_base.specs.declared.error.Error.TheVariants.{Memory};
ghost use Rattle.pq_tree.specs.Counted.{IsCounted};
ghost use Rattle.pq_tree.specs.Views.{typed_view};
ghost use Rattle.pq_pages.specs.DataPages.{IsNamed};
ghost use Rattle.pq_pages.specs.Outcomes.{fails, levels_in, page_shown, HasLevels, Levels};
ghost use Rattle.pq_pages.specs.Reading.{at_start, fault_in, left_behind, outcome_in, pages_in, place_behind};

use crate::page::{DataPage, DictPage, Page};
use crate::pages::Pages;
use crate::place::Place;
use crate::raw::{RawPage, fault_of, raw_page};
use crate::shown::{DataPageRef, DictPageRef, PageRef};
use columns_base::{Error, Result};
use pq_tree::{DataPageHeader, Descriptor, TypedPageHeader};
use std::alloc::Global;
use std::marker::Model;

/// The pages of one column chunk, which are read as they are asked for.
///
/// A page that it lends is copied out of the file once, since a `DataPage` owns its body; one that it shows is not.
#[derive(Drop)]
pub struct PageReader<'a> {
    alloc: Global,
    descriptor: Descriptor,
    max_header_size: usize,
    place: Place,
    /// How many values are to come.
    left: usize,
    /// The bytes of the chunk that are not read yet.
    bytes: &'a [u8],
    page: Option<Page>,
    seen: Option<Seen<'a>>,
}

/// A page that is shown: its header, and its body where it lies.
#[derive(Drop)]
struct Seen<'a> {
    header: TypedPageHeader,
    body: &'a [u8],
}

impl<'a> Model for PageReader<'a> {
    ghost use Rattle.std.specs.Prelude.{option_map, IfSome};
    ghost use Rattle.pq_tree.specs.Counted.{IsCounted};
    ghost use Rattle.pq_tree.specs.Views.{typed_view};
    ghost use Rattle.pq_pages.specs.DataPages.{IsNamed};
    ghost use Rattle.pq_pages.specs.Outcomes.{levels_in, page_shown, HasLevels};
    ghost use Rattle.pq_pages.specs.Reading.{outcome_in, pages_in};
    ghost use Rattle.pq_pages.specs.Sources.{Source};

    ghost Value = { Source };

    ghost view = { λ r. record {
      outcomes = pages_in r.max_header_size (levels_in r.descriptor) r.place r.left r.bytes.now;
      lent = option_map page_shown r.page;
      shown = option_map (λ s. outcome_in (levels_in r.descriptor) (typed_view s.header) s.body.now) r.seen;
    } };

    ghost invariant = { λ r. HasLevels r.descriptor × IfSome r.seen (λ s. IsCounted s.header × IsNamed s.header) };
}

impl<'a> PageReader<'a> {
    /// The pages of a chunk of so many values in these bytes, whose headers take at most `max_header_size` each.
    pub(crate) fn new(
        alloc: Global,
        descriptor: Descriptor,
        bytes: &'a [u8],
        num_values: usize,
        max_header_size: usize,
    ) -> Self
        requires { HasLevels descriptor }
        ensures { result ≡ record {
          outcomes = pages_in max_header_size (levels_in descriptor) at_start num_values bytes.entry.now;
          lent = None;
          shown = None;
        } }
    {
        PageReader {
            alloc,
            descriptor,
            max_header_size,
            place: Place {
                has_dictionary: false,
                is_first: true,
            },
            left: num_values,
            bytes,
            page: None,
            seen: None,
        }
    }
}

/// How many values are to come behind a page.
fn left_of(left: usize, header: &TypedPageHeader) -> usize
    requires { IsCounted header.now }
    ensures { result ≡ left_behind left (typed_view header.now) }
{
    match header {
        TypedPageHeader::Data(DataPageHeader::V1(header)) => {
            left.saturating_sub(header.num_values as usize)
        }
        TypedPageHeader::Data(DataPageHeader::V2(header)) => {
            left.saturating_sub(header.num_values as usize)
        }
        TypedPageHeader::Dictionary(_) => left,
    }
}

/// Where the reader stands behind a page.
fn place_of(place: Place, header: &TypedPageHeader) -> Place
    ensures { result ≡ place_behind place (typed_view header.now) }
{
    let has_dictionary = match header {
        TypedPageHeader::Data(DataPageHeader::V1(_)) => place.has_dictionary,
        TypedPageHeader::Data(DataPageHeader::V2(_)) => place.has_dictionary,
        TypedPageHeader::Dictionary(_) => true,
    };
    Place {
        has_dictionary,
        is_first: false,
    }
}

/// The page in memory.
fn page_of(
    alloc: Global,
    header: TypedPageHeader,
    body: &[u8],
    descriptor: &Descriptor,
) -> Result<Page>
    requires levels { HasLevels descriptor.now }
    requires counted { IsCounted header }
    requires named { IsNamed header }
    ensures ok { IfOk result (λ p. page_shown p ≡ outcome_in (levels_in descriptor.now) (typed_view header) body.now) }
    ensures err { IfErr result (λ e. e ≡ Memory) }
{
    let buffer = Vec::from_slice(alloc, body)?;
    match header {
        TypedPageHeader::Data(header) => {
            let descriptor = descriptor.clone(alloc)?;
            Ok(Page::Data(DataPage::new(header, buffer, descriptor, None)))
        }
        TypedPageHeader::Dictionary(header) => {
            Ok(Page::Dict(DictPage::new(buffer, header.num_values as usize, false)))
        }
    }
}

/// A page that was found, and what is left behind it.
#[derive(Drop)]
struct Taken<'a> {
    seen: Seen<'a>,
    place: Place,
    left: usize,
    bytes: &'a [u8],
}

/// Finds the next page.
fn find_page<'a>(
    alloc: Global,
    max_header_size: usize,
    place: Place,
    left: usize,
    bytes: &'a [u8],
) -> Result<Taken<'a>>
    requires some { 0 < left }
    ensures ok { IfOk result (λ s. (levels : Levels) → pages_in max_header_size levels place left bytes.now
        ≡ outcome_in levels (typed_view s.seen.header) s.seen.body.now
        ∷ pages_in max_header_size levels s.place s.left s.bytes.now) }
    ensures counted { IfOk result (λ s. IsCounted s.seen.header) }
    ensures named { IfOk result (λ s. IsNamed s.seen.header) }
    ensures refused { IfErr result (λ e. (e ≡ Memory) ⊎ ((levels : Levels)
        → pages_in max_header_size levels place left bytes.now ≡ fails e ∷ [])) }
{
    let raw = match raw_page(alloc, bytes, max_header_size) {
        Ok(raw) => raw,
        Err(error) => return Err(error),
    };
    if let Some(error) = fault_of(place, left, &raw.header) {
        return Err(error);
    }
    let place = place_of(place, &raw.header);
    let left = left_of(left, &raw.header);
    Ok(Taken {
        seen: Seen {
            header: raw.header,
            body: raw.body,
        },
        place,
        left,
        bytes: raw.behind,
    })
}

/// How many values are to come behind an error: none, but after want of memory.
fn left_after(error: Error, left: usize) -> usize
    ensures { ((error ≡ Memory) × (result ≡ left)) ⊎ ((error ≢ Memory) × (result ≡ 0)) }
{
    match error {
        Error::Memory => left,
        _ => 0,
    }
}

impl<'a> Pages for PageReader<'a> {
    ghost outcomes = { λ r. r.outcomes };

    ghost lent = { λ r. r.lent };

    ghost shown = { λ r. r.shown };

    fn advance(&mut self) -> Result<()> {
        self.page = None;
        if self.left == 0 {
            return Ok(());
        }
        let found = find_page(
            self.alloc,
            self.max_header_size,
            self.place,
            self.left,
            self.bytes,
        );
        let taken = match found {
            Ok(taken) => taken,
            Err(error) => {
                self.left = left_after(error, self.left);
                return Err(error);
            }
        };
        let page = match page_of(
            self.alloc,
            taken.seen.header,
            taken.seen.body,
            &self.descriptor,
        ) {
            Ok(page) => page,
            Err(error) => return Err(error),
        };
        self.place = taken.place;
        self.left = taken.left;
        self.bytes = taken.bytes;
        self.page = Some(page);
        Ok(())
    }

    fn get(&self) -> Option<&Page> {
        self.page.as_ref()
    }

    fn advance_shown(&mut self) -> Result<()> {
        self.seen = None;
        if self.left == 0 {
            return Ok(());
        }
        match find_page(
            self.alloc,
            self.max_header_size,
            self.place,
            self.left,
            self.bytes,
        ) {
            Ok(taken) => {
                self.place = taken.place;
                self.left = taken.left;
                self.bytes = taken.bytes;
                self.seen = Some(taken.seen);
                Ok(())
            }
            Err(error) => {
                self.left = left_after(error, self.left);
                Err(error)
            }
        }
    }

    fn show(&self) -> Option<PageRef<'_>> {
        let Some(seen) = &self.seen else {
            return None;
        };
        match &seen.header {
            TypedPageHeader::Data(header) => Some(PageRef::Data(DataPageRef::new(
                header,
                seen.body,
                &self.descriptor,
            ))),
            TypedPageHeader::Dictionary(header) => Some(PageRef::Dict(DictPageRef {
                buffer: seen.body,
                num_values: header.num_values as usize,
            })),
        }
    }
}
