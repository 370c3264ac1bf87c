//! The header of a data page in the spelling that most writers choose, read from its bytes with no
//! Thrift value between.
ghost use Rattle.std.specs.Prelude.{◌≡◌, ◌+◌, ◌*◌, ◌<◌, ◌≤◌, ◌≤ℤ◌, ℕ, pos, List, ◌∷◌, IfSome, length, take};
ghost use Rattle.pq_numbers.specs.Varint.{IsNumber};
ghost use Rattle.pq_thrift.specs.Grammar.{IsBinary};
ghost use Rattle.pq_metadata.specs.Header.{HasDataHeader};
ghost use Rattle.pq_metadata.specs.HeaderText.{IsHeaderText};
ghost use Rattle.pq_tree.specs.Counted.{IsCounted, IsCountedV1};
ghost use Rattle.pq_tree.specs.Views.{v1_view, page_header_view};
ghost use Rattle.pq_container.specs.Ahead.{Fronts, FrontsBehind, IsShort, FrontsValue, FrontsFields};
ghost use Rattle.pq_container.specs.Ahead.{FrontsLast, FrontsSaying};

use pq_numbers::{from_zigzag, take_varint};
use pq_tree::{DataPageHeader, DataPageHeaderV1, PageHeader, TypedPageHeader};

/// What stands behind the byte, where it stands in front.
pub fn behind(byte: u8, bytes: &[u8]) -> Option<&[u8]>
    ensures { IfSome result (λ rest. bytes.now ≡ byte ∷ rest.now) }
{
    match bytes {
        [first, rest @ ..] if *first == byte => Some(rest),
        _ => None,
    }
}

/// The byte at the front, and what stands behind it.
pub fn first(bytes: &[u8]) -> Option<(u8, &[u8])>
    ensures { IfSome result (λ x. bytes.now ≡ x.0 ∷ x.1.now) }
{
    match bytes {
        [byte, rest @ ..] => Some((*byte, rest)),
        _ => None,
    }
}

/// The number at the front, and what stands behind it.
pub fn number(bytes: &[u8]) -> Option<(u64, &[u8])>
    ensures { IfSome result (λ x. Fronts (λ t. IsNumber t x.0) bytes.now x.1.now) }
{
    // Most numbers are one byte or two.
    let (low, behind_low) = first(bytes)?;
    if low < 128 {
        return Some((low as u64, behind_low));
    }
    let (high, behind_high) = first(behind_low)?;
    if high < 128 {
        return Some(((low % 128) as u64 + 128 * (high as u64), behind_high));
    }
    take_varint(bytes)
}

/// The number of 32 bits in the field with this head, and what stands behind it.
pub fn number_field(head: u8, bytes: &[u8]) -> Option<(i32, &[u8])>
    ensures { IfSome result (λ x. FrontsBehind head (IsShort x.0) bytes.now x.1.now) }
{
    let rest = behind(head, bytes)?;
    let (number, rest) = number(rest)?;
    if number >= 1 << 32 {
        return None;
    }
    Some((from_zigzag(number) as i32, rest))
}

/// A number that is not negative, in the same way.
fn count_field(head: u8, bytes: &[u8]) -> Option<(i32, &[u8])>
    ensures found { IfSome result (λ x. FrontsBehind head (IsShort x.0) bytes.now x.1.now) }
    ensures counted { IfSome result (λ x. pos 0 ≤ℤ x.0) }
{
    let (number, rest) = number_field(head, bytes)?;
    if number < 0 {
        return None;
    }
    Some((number, rest))
}

/// The number of bytes in such a field.
fn size_field(head: u8, bytes: &[u8]) -> Option<(usize, &[u8])>
    ensures { IfSome result (λ x. FrontsBehind head (IsShort (pos x.0)) bytes.now x.1.now) }
{
    let (number, rest) = count_field(head, bytes)?;
    Some((number as usize, rest))
}

/// What stands behind a byte string.
pub fn past_text(bytes: &[u8]) -> Option<&[u8]>
    ensures { IfSome result (λ rest. (s : List ℕ) × Fronts (λ t. IsBinary t s) bytes.now rest.now) }
{
    let (length, rest) = number(bytes)?;
    let length = length as usize;
    if rest.len() < length {
        return None;
    }
    let (_, rest) = rest.split_at(length);
    Some(rest)
}

/// What stands behind a number of 64 bits.
fn past_number(bytes: &[u8]) -> Option<&[u8]>
    ensures { IfSome result (λ rest. FrontsValue 6 bytes.now rest.now) }
{
    let (_, rest) = number(bytes)?;
    Some(rest)
}

/// What stands behind the value of a field whose kind has this number: a truth value, a number of
/// 64 bits or a byte string.
fn past_value(kind: u8, bytes: &[u8]) -> Option<&[u8]>
    ensures { IfSome result (λ rest. FrontsValue kind bytes.now rest.now) }
{
    match kind {
        1 => Some(bytes),
        2 => Some(bytes),
        6 => past_number(bytes),
        8 => past_text(bytes),
        _ => None,
    }
}

/// What stands behind at most so many fields, which come behind one with the id `last`, and behind
/// the end of their struct.
fn past_fields(most: u8, last: u8, bytes: &[u8]) -> Option<&[u8]>
    ensures { IfSome result (λ rest. FrontsFields last 1 bytes.now rest.now) }
{
    if most == 0 || last > 100 {
        return None;
    }
    let (head, rest) = first(bytes)?;
    if head == 0 {
        return Some(rest);
    }
    if head < 16 {
        return None;
    }
    let rest = past_value(head % 16, rest)?;
    past_fields(most - 1, last + head / 16, rest)
}

/// What stands behind the end of a struct, or behind statistics with the id 5 and that end.
fn past_statistics(bytes: &[u8]) -> Option<&[u8]>
    ensures { IfSome result (λ rest. FrontsLast bytes.now rest.now) }
{
    let (head, rest) = first(bytes)?;
    if head == 0 {
        return Some(rest);
    }
    if head != 28 {
        return None;
    }
    let rest = past_fields(9, 0, rest)?;
    behind(0, rest)
}

/// The struct of a data page (Parquet format, `DataPageHeader`), and what stands behind it.
fn data_header(bytes: &[u8]) -> Option<(DataPageHeaderV1, &[u8])>
    ensures found { IfSome result (λ x. FrontsSaying HasDataHeader 2 (v1_view x.0) bytes.now x.1.now) }
    ensures counted { IfSome result (λ x. IsCountedV1 x.0) }
{
    let (num_values, rest) = count_field(21, bytes)?;
    let (encoding, rest) = number_field(21, rest)?;
    let (definition, rest) = number_field(21, rest)?;
    let (repetition, rest) = number_field(21, rest)?;
    let rest = past_statistics(rest)?;
    let header = DataPageHeaderV1 {
        num_values,
        encoding,
        definition_level_encoding: Some(definition),
        repetition_level_encoding: Some(repetition),
        statistics: None,
    };
    Some((header, rest))
}

/// The header of a data page (Parquet format, `PageHeader`), and the number of its bytes, where its
/// fields and those of its struct stand in this order, each with a head of one byte, and none that
/// a reader looks at is missing. `None` of any other spelling.
pub fn data_page_header(bytes: &[u8]) -> Option<(PageHeader, usize)>
    ensures within { IfSome result (λ x. x.1 ≤ length bytes.now) }
    ensures found { IfSome result (λ x. IsHeaderText (take x.1 bytes.now) (page_header_view x.0)) }
    ensures counted { IfSome result (λ x. IsCounted x.0.header) }
{
    let rest = behind(21, bytes)?;
    let rest = behind(0, rest)?;
    let (_, rest) = number_field(21, rest)?;
    let (compressed_page_size, rest) = size_field(21, rest)?;
    let rest = behind(44, rest)?;
    let (header, rest) = data_header(rest)?;
    let rest = behind(0, rest)?;
    let header = PageHeader {
        header: TypedPageHeader::Data(DataPageHeader::V1(header)),
        compressed_page_size,
    };
    Some((header, bytes.len() - rest.len()))
}
