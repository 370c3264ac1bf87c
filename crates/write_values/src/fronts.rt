//! The least and the greatest of byte strings, by their first bytes as numbers.
ghost use Rattle.std.specs.Prelude.{◌≡◌, ◌+◌, ◌-◌, ◌%◌, ◌^◌, ◌<◌, ◌≤◌, ◌++◌, ◌∷◌, [], ℕ, List, Some, IsTrue, false, length, slice_index_or, take, drop};
ghost use Rattle.std.specs.List.{AllByRecursion};
ghost use Rattle.columns_slots.specs.Bytes.{pieces_values};
ghost use Rattle.columns_slots.specs.Slots.{IsPlaces};
ghost use Rattle.pq_files.specs.Statistics.{IsUpTo};
ghost use Rattle.write_places.specs.Places.{picked, range};
ghost use Rattle.page_statistics.specs.Extremes.{AreExtremes, IsGreatestAt, IsLeastAt};
ghost use Rattle.write_values.specs.FirstBytes.{AreFronts, IsFront, IsFrontAt, front, places_of};
ghost use Rattle.write_values.specs.Numbers.{at_place};

use crate::order::is_before;
use crate::strings::{string_at, without_lowest};
use columns_core::{Offset, OffsetsBuffer};
use page_statistics::Extremes;

// For each number of bytes below 16 the bits of so many bytes of 16, the highest.
const FRONTS: [u128; 16] = [
    0,
    0xff00_0000_0000_0000_0000_0000_0000_0000,
    0xffff_0000_0000_0000_0000_0000_0000_0000,
    0xffff_ff00_0000_0000_0000_0000_0000_0000,
    0xffff_ffff_0000_0000_0000_0000_0000_0000,
    0xffff_ffff_ff00_0000_0000_0000_0000_0000,
    0xffff_ffff_ffff_0000_0000_0000_0000_0000,
    0xffff_ffff_ffff_ff00_0000_0000_0000_0000,
    0xffff_ffff_ffff_ffff_0000_0000_0000_0000,
    0xffff_ffff_ffff_ffff_ff00_0000_0000_0000,
    0xffff_ffff_ffff_ffff_ffff_0000_0000_0000,
    0xffff_ffff_ffff_ffff_ffff_ff00_0000_0000,
    0xffff_ffff_ffff_ffff_ffff_ffff_0000_0000,
    0xffff_ffff_ffff_ffff_ffff_ffff_ff00_0000,
    0xffff_ffff_ffff_ffff_ffff_ffff_ffff_0000,
    0xffff_ffff_ffff_ffff_ffff_ffff_ffff_ff00,
];

// The place of a string, and its first 16 bytes as a number.
#[derive(Clone, Copy, Drop)]
pub struct Front {
    pub place: usize,
    pub front: u128,
}

// Those of a least and of a greatest string.
#[derive(Clone, Copy, Drop)]
pub struct Fronts {
    pub least: Front,
    pub greatest: Front,
}

// The highest bytes of a number of 16.
#[inline(always)]
fn kept_front(number: u128, size: usize) -> u128
    requires { size < 16 }
    ensures { result ≡ number - number % 256 ^ (16 - size) }
{
    number & FRONTS[size]
}

// The byte at a position, and 0 past the end.
fn byte_or_none(text: &[u8], i: usize) -> u8
    ensures { result ≡ slice_index_or text.now i 0 }
{
    if i < text.len() { text[i] } else { 0 }
}

// The first 16 bytes of a string as a number, byte by byte.
#[cold]
#[inline(never)]
fn front_by_bytes(text: &[u8]) -> u128
    ensures small { AllByRecursion (λ b. b < 256) text.now }
    ensures is { result ≡ front 16 text.now }
{
    let mut number = 0;
    for i in 0..16 {
        number = number * 256 + byte_or_none(text, i) as u128;
    }
    number
}

// The first 16 bytes of a piece of some bytes as a number, the first one the highest, with zeros behind a shorter one.
#[inline(always)]
fn front_of(all: &[u8], start: usize, end: usize) -> u128
    requires ordered { start ≤ end }
    requires within { end ≤ length all.now }
    ensures small { AllByRecursion (λ b. b < 256) (take (end - start) (drop start all.now)) }
    ensures is { result ≡ front 16 (take (end - start) (drop start all.now)) }
{
    let Some(chunk) = all[start..].first_chunk::<16>() else {
        return front_by_bytes(&all[start..end]);
    };
    let number = u128::from_be_bytes(*chunk);
    if end - start < 16 {
        kept_front(number, end - start)
    } else {
        number
    }
}

// The first 16 bytes of the string at a place as a number.
#[inline(always)]
fn front_at<O: Offset>(offsets: &OffsetsBuffer<O>, all: &[u8], place: usize) -> u128
    requires places { IsPlaces offsets.now (length all.now) }
    requires within { place + 1 < length offsets.now }
    ensures { IsFront result (at_place (pieces_values offsets.now all.now) place) }
{
    let _strings = offsets.len_proxy();
    front_of(all, offsets.place(place), offsets.place(place + 1))
}

// Whether the string at one place goes before the one at another.
#[cold]
#[inline(never)]
fn goes_before<O: Offset>(offsets: &OffsetsBuffer<O>, all: &[u8], i: usize, j: usize) -> bool
    requires places { IsPlaces offsets.now (length all.now) }
    requires first { i + 1 < length offsets.now }
    requires second { j + 1 < length offsets.now }
    ensures less { IsTrue result → IsUpTo (at_place (pieces_values offsets.now all.now) i)
        (at_place (pieces_values offsets.now all.now) j) }
    ensures other { result ≡ false → IsUpTo (at_place (pieces_values offsets.now all.now) j)
        (at_place (pieces_values offsets.now all.now) i) }
{
    is_before(string_at(offsets, all, i), string_at(offsets, all, j))
}

// The lesser of two strings, the first where they are equal.
#[inline(always)]
fn lesser<O: Offset>(offsets: &OffsetsBuffer<O>, all: &[u8], least: Front, new: Front) -> Front
    requires places { IsPlaces offsets.now (length all.now) }
    requires least { IsFrontAt offsets.now all.now least }
    requires new { IsFrontAt offsets.now all.now new }
    ensures front { IsFrontAt offsets.now all.now result }
    ensures is { (places : List ℕ) → IsLeastAt (at_place (pieces_values offsets.now all.now)) places least.place
        → IsLeastAt (at_place (pieces_values offsets.now all.now)) (places ++ new.place ∷ []) result.place }
{
    if least.front < new.front {
        return least;
    }
    if new.front < least.front {
        return new;
    }
    if goes_before(offsets, all, new.place, least.place) {
        new
    } else {
        least
    }
}

// The greater of two strings, the first where they are equal.
#[inline(always)]
fn greater<O: Offset>(offsets: &OffsetsBuffer<O>, all: &[u8], greatest: Front, new: Front) -> Front
    requires places { IsPlaces offsets.now (length all.now) }
    requires greatest { IsFrontAt offsets.now all.now greatest }
    requires new { IsFrontAt offsets.now all.now new }
    ensures front { IsFrontAt offsets.now all.now result }
    ensures is { (places : List ℕ) → IsGreatestAt (at_place (pieces_values offsets.now all.now)) places greatest.place
        → IsGreatestAt (at_place (pieces_values offsets.now all.now)) (places ++ new.place ∷ []) result.place }
{
    if new.front < greatest.front {
        return greatest;
    }
    if greatest.front < new.front {
        return new;
    }
    if goes_before(offsets, all, greatest.place, new.place) {
        new
    } else {
        greatest
    }
}

// The extremes with one string that may be one of them.
#[inline(always)]
fn with_front<O: Offset>(
    offsets: &OffsetsBuffer<O>,
    all: &[u8],
    fronts: Fronts,
    new: Front,
) -> Fronts
    requires places { IsPlaces offsets.now (length all.now) }
    requires before { AreFronts offsets.now all.now fronts }
    requires new { IsFrontAt offsets.now all.now new }
    ensures fronts { AreFronts offsets.now all.now result }
    ensures are { (places : List ℕ) → AreExtremes (at_place (pieces_values offsets.now all.now)) places
        (Some (places_of fronts)) → AreExtremes (at_place (pieces_values offsets.now all.now))
        (places ++ new.place ∷ []) (Some (places_of result)) }
{
    Fronts {
        least: lesser(offsets, all, fronts.least, new),
        greatest: greater(offsets, all, fronts.greatest, new),
    }
}

// Whether the first bytes of a string lie between those of the extremes.
#[inline(always)]
fn lies_between(fronts: Fronts, front: u128) -> bool
    ensures { IsTrue result → (fronts.least.front < front) × (front < fronts.greatest.front) }
{
    if front <= fronts.least.front {
        return false;
    }
    if fronts.greatest.front <= front {
        return false;
    }
    true
}

// The extremes with one string more. Where its first bytes lie between theirs, they stay.
#[inline(always)]
fn with_string<O: Offset>(
    offsets: &OffsetsBuffer<O>,
    all: &[u8],
    fronts: Fronts,
    place: usize,
) -> Fronts
    requires places { IsPlaces offsets.now (length all.now) }
    requires before { AreFronts offsets.now all.now fronts }
    requires within { place + 1 < length offsets.now }
    ensures fronts { AreFronts offsets.now all.now result }
    ensures are { (places : List ℕ) → AreExtremes (at_place (pieces_values offsets.now all.now)) places
        (Some (places_of fronts)) → AreExtremes (at_place (pieces_values offsets.now all.now)) (places ++ place ∷ [])
        (Some (places_of result)) }
{
    let front = front_at(offsets, all, place);
    if lies_between(fronts, front) {
        return fronts;
    }
    with_front(offsets, all, fronts, Front { place, front })
}

// The first bytes of the extremes.
fn fronts_at<O: Offset>(offsets: &OffsetsBuffer<O>, all: &[u8], extremes: Extremes) -> Fronts
    requires places { IsPlaces offsets.now (length all.now) }
    requires least { extremes.least + 1 < length offsets.now }
    requires greatest { extremes.greatest + 1 < length offsets.now }
    ensures fronts { AreFronts offsets.now all.now result }
    ensures places { places_of result ≡ extremes }
{
    let least = Front {
        place: extremes.least,
        front: front_at(offsets, all, extremes.least),
    };
    let greatest = Front {
        place: extremes.greatest,
        front: front_at(offsets, all, extremes.greatest),
    };
    Fronts { least, greatest }
}

// The extremes with the strings from one place on to another.
pub fn with_strings<O: Offset>(
    offsets: &OffsetsBuffer<O>,
    all: &[u8],
    extremes: Extremes,
    from: usize,
    to: usize,
) -> Extremes
    requires places { IsPlaces offsets.now (length all.now) }
    requires least { extremes.least + 1 < length offsets.now }
    requires greatest { extremes.greatest + 1 < length offsets.now }
    requires ordered { from ≤ to }
    requires within { to < length offsets.now }
    ensures least { result.least + 1 < length offsets.now }
    ensures greatest { result.greatest + 1 < length offsets.now }
    ensures are { (places : List ℕ) → AreExtremes (at_place (pieces_values offsets.now all.now)) places (Some extremes)
        → AreExtremes (at_place (pieces_values offsets.now all.now)) (places ++ range from (to - from)) (Some result) }
{
    let mut fronts = fronts_at(offsets, all, extremes);
    for place in from..to {
        fronts = with_string(offsets, all, fronts, place);
    }
    Extremes {
        least: fronts.least.place,
        greatest: fronts.greatest.place,
    }
}

// The extremes with the strings at picked places.
pub fn with_picked<O: Offset>(
    offsets: &OffsetsBuffer<O>,
    all: &[u8],
    extremes: Extremes,
    from: usize,
    bits: u64,
    count: usize,
) -> Extremes
    requires places { IsPlaces offsets.now (length all.now) }
    requires least { extremes.least + 1 < length offsets.now }
    requires greatest { extremes.greatest + 1 < length offsets.now }
    requires few { count ≤ 64 }
    requires low { bits < 2 ^ count }
    requires within { from + count < length offsets.now }
    ensures least { result.least + 1 < length offsets.now }
    ensures greatest { result.greatest + 1 < length offsets.now }
    ensures are { (places : List ℕ) → AreExtremes (at_place (pieces_values offsets.now all.now)) places (Some extremes)
        → AreExtremes (at_place (pieces_values offsets.now all.now)) (places ++ picked bits from count) (Some result) }
{
    let _strings = offsets.len_proxy();
    let mut fronts = fronts_at(offsets, all, extremes);
    let mut left = bits;
    while left != 0 {
        let i = left.trailing_zeros() as usize;
        fronts = with_string(offsets, all, fronts, from + i);
        left = without_lowest(left);
    }
    Extremes {
        least: fronts.least.place,
        greatest: fronts.greatest.place,
    }
}
