//! The next page of a chunk, as its header tells of it.
ghost use Rattle.std.specs.Prelude.{◌≡◌, ◌⊎◌, ◌+◌, ◌<◌, ◌≤◌, ◌≤ℤ◌, pos, Ok, Err, take, drop, length, IfOk, IfErr, MatchOption};
ghost use Rattle.columns_base.specs.declared.error.Error.TheVariants.{Memory};
ghost use Rattle.pq_tree.specs.Counted.{IsCounted};
ghost use Rattle.pq_tree.specs.Views.{natural_part, typed_view};
ghost use Rattle.pq_pages.specs.DataPages.{is_named};
ghost use Rattle.pq_pages.specs.Headers.{header_at, HeaderReads};
ghost use Rattle.pq_pages.specs.Reading.{data_fault, dictionary_fault, fault_in, is_indexed, is_of_entries, next_page, left_behind, place_behind};

use crate::place::Place;
use columns_base::{Error, N, Result, S};
use pq_container::read_page_header;
use pq_tree::{DataPageHeader, PageHeader, TypedPageHeader};
use std::alloc::Global;

/// A page: its header, its body, and the bytes of the chunk behind it.
#[derive(Drop)]
pub struct RawPage<'a> {
    pub header: TypedPageHeader,
    pub body: &'a [u8],
    pub behind: &'a [u8],
}

fn header_of(alloc: Global, bytes: &[u8]) -> Result<(PageHeader, usize)>
    ensures reads { HeaderReads result (header_at bytes.now) }
    ensures within { IfOk result (λ x. x.1 ≤ length bytes.now) }
    ensures counted { IfOk result (λ x. IsCounted x.0.header) }
{
    read_page_header(alloc, bytes)
}

/// The first bytes, at most so many.
fn front_of(bytes: &[u8], most: usize) -> &[u8]
    ensures { result.now ≡ take most bytes.now }
{
    if most < bytes.len() {
        &bytes[..most]
    } else {
        bytes
    }
}

/// So many bytes from a place on, and those behind them, if they lie in the bytes.
fn body_at(bytes: &[u8], place: usize, size: usize) -> Option<(&[u8], &[u8])>
    requires { place ≤ length bytes.now }
    ensures { MatchOption result (length bytes.now < place + size) (λ x. (place + size ≤ length bytes.now)
        × (x.0.now ≡ take size (drop place bytes.now)) × (x.1.now ≡ drop (place + size) bytes.now)) }
{
    let rest = &bytes[place..];
    if rest.len() < size {
        return None;
    }
    Some((&rest[..size], &rest[size..]))
}

/// The page in front of the bytes, whose header takes at most `max_header_size` of them.
///
/// # Errors
///
/// - `OutOfSpec(S3)`: no header stands there, or the body does not lie in the bytes.
/// - `NotYetImplemented(N4)`: the page is an index page, or of a type that isn't known.
/// - `Memory`: memory ran out.
pub fn raw_page(alloc: Global, bytes: &[u8], max_header_size: usize) -> Result<RawPage<'_>>
    ensures ok { IfOk result (λ p. next_page max_header_size bytes.now
        ≡ Ok (record { header = typed_view p.header; body = p.body.now }, p.behind.now)) }
    ensures counted { IfOk result (λ p. IsCounted p.header) }
    ensures refused { IfErr result (λ e. (e ≡ Memory) ⊎ (next_page max_header_size bytes.now ≡ Err e)) }
{
    let (header, size) = match header_of(alloc, front_of(bytes, max_header_size)) {
        Ok(read) => read,
        Err(error) => return Err(error),
    };
    match body_at(bytes, size, header.compressed_page_size) {
        Some((body, behind)) => Ok(RawPage {
            header: header.header,
            body,
            behind,
        }),
        None => Err(Error::OutOfSpec(S::S3)),
    }
}

/// PLAIN_DICTIONARY or RLE_DICTIONARY (Parquet format, `Encoding`).
fn is_dictionary_encoding(encoding: i32) -> bool
    ensures { result ≡ is_indexed encoding }
{
    encoding == 2 || encoding == 8
}

/// The number of an encoding (Parquet format, `Encoding`).
fn has_name(encoding: i32) -> bool
    ensures { result ≡ is_named encoding }
{
    encoding == 0 || (2 <= encoding && encoding <= 8)
}

/// Why a data page of so many values may not stand there, where so many are to come.
fn fault_of_data(place: Place, left: usize, count: i32, encoding: i32) -> Option<Error>
    requires { pos 0 ≤ℤ count }
    ensures { result ≡ data_fault place left (natural_part count) encoding }
{
    if left < count as usize {
        return Some(Error::OutOfSpec(S::S3));
    }
    if is_dictionary_encoding(encoding) && !place.has_dictionary {
        return Some(Error::OutOfSpec(S::S3));
    }
    if has_name(encoding) {
        None
    } else {
        Some(Error::NotYetImplemented(N::N4))
    }
}

/// Why a dictionary page whose entries are in this encoding may not stand there.
fn fault_of_dictionary(place: Place, encoding: i32) -> Option<Error>
    ensures { result ≡ dictionary_fault place encoding }
{
    if !place.is_first {
        return Some(Error::OutOfSpec(S::S3));
    }
    if encoding == 0 || encoding == 2 {
        None
    } else {
        Some(Error::NotYetImplemented(N::N4))
    }
}

/// Why a page may not stand there, where so many values are to come.
pub fn fault_of(place: Place, left: usize, header: &TypedPageHeader) -> Option<Error>
    requires { IsCounted header.now }
    ensures { result ≡ fault_in place left (typed_view header.now) }
{
    match header {
        TypedPageHeader::Data(DataPageHeader::V1(header)) => {
            fault_of_data(place, left, header.num_values, header.encoding)
        }
        TypedPageHeader::Data(DataPageHeader::V2(header)) => {
            fault_of_data(place, left, header.num_values, header.encoding)
        }
        TypedPageHeader::Dictionary(header) => fault_of_dictionary(place, header.encoding),
    }
}
