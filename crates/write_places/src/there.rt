//! Which slots of a path are there, 64 at once.
ghost use Rattle.std.specs.Prelude.{◌≡◌, ℕ, ◌+◌, ◌-◌, ◌^◌, ◌<◌, ◌≤◌, ◌==◌, ◌∷◌, IsTrue, true, length, Some};
ghost use Rattle.std.specs.Int.{bit_at};
ghost use Rattle.shredding.specs.Parts.{IsPath, MaskFits, is_present, slot_count, struct_part};
ghost use Rattle.levels.specs.Nested.{parts_of};
ghost use Rattle.write_places.specs.Reach.{IsRun};
ghost use Rattle.write_places.specs.There.{is_there, TellThere};

use columns_core::Bitmap;
use levels::{ListNested, Nested};

/// The masks that tell which slots of a path are there.
#[derive(Clone, Copy, Drop)]
pub enum Masks<'a> {
    /// None: all are there.
    Nowhere,
    /// One.
    Sole(&'a Bitmap),
    /// Two at once.
    Both(&'a Bitmap, &'a Bitmap),
    /// Three at once.
    Three(&'a Bitmap, &'a Bitmap, &'a Bitmap),
    /// Those of the parts in front.
    InFront,
}

/// A word whose low bits are set.
pub fn full_word(count: usize) -> u64
    requires some { 0 < count }
    requires few { count ≤ 64 }
    ensures { result ≡ 2 ^ count - 1 }
{
    u64::MAX >> (64 - count)
}

// Which slots a mask of so many has from a place on, as the low bits of a word.
fn mask_word(
    is_optional: bool,
    mask: &Option<Bitmap>,
    slots: usize,
    from: usize,
    count: usize,
) -> u64
    requires fits { MaskFits mask.now slots }
    requires some { 0 < count }
    requires few { count ≤ 64 }
    requires within { from + count ≤ slots }
    ensures bits { (i : ℕ) → i < count → (bit_at result i == 1) ≡ is_present is_optional mask.now (from + i) }
    ensures low { result < 2 ^ count }
{
    if !is_optional {
        return full_word(count);
    }
    match mask {
        None => full_word(count),
        Some(mask) => mask.word_at(from, count),
    }
}

// Which slots of a path are there from a place on, as the low bits of a word.
pub fn there_word(parts: &[Nested], from: usize, count: usize) -> u64
    requires well { IsPath (parts_of parts.now) }
    requires some { 0 < count }
    requires few { count ≤ 64 }
    requires within { from + count ≤ slot_count (parts_of parts.now) }
    ensures bits { (i : ℕ) → i < count → (bit_at result i == 1) ≡ is_there (parts_of parts.now) (from + i) }
    ensures low { result < 2 ^ count }
{
    let Some((part, rest)) = parts.split_first() else {
        unreachable!()
    };
    match part {
        Nested::Primitive(mask, is_optional, slots) => mask_word(
            *is_optional,
            mask,
            *slots,
            from,
            count,
        ),
        Nested::List(list) => {
            let lists = list.offsets.len_proxy();
            mask_word(list.is_optional, &list.validity, lists, from, count)
        }
        Nested::LargeList(list) => {
            let lists = list.offsets.len_proxy();
            mask_word(list.is_optional, &list.validity, lists, from, count)
        }
        Nested::Struct(mask, is_optional, slots) => {
            let word = mask_word(*is_optional, mask, *slots, from, count);
            word & there_word(rest, from, count)
        }
    }
}

// Whether a part has no null.
fn has_all(is_optional: bool, mask: &Option<Bitmap>) -> bool
    ensures { IsTrue result → (i : ℕ) → is_present is_optional mask.now i ≡ true }
{
    !is_optional || mask.is_none()
}

// Whether all slots of a path are there.
pub fn is_full(parts: &[Nested]) -> bool
    requires { IsPath (parts_of parts.now) }
    ensures { IsTrue result → (i : ℕ) → is_there (parts_of parts.now) i ≡ true }
{
    let Some((part, rest)) = parts.split_first() else {
        unreachable!()
    };
    match part {
        Nested::Primitive(mask, is_optional, _) => has_all(*is_optional, mask),
        Nested::List(list) => has_all(list.is_optional, &list.validity),
        Nested::LargeList(list) => has_all(list.is_optional, &list.validity),
        Nested::Struct(mask, is_optional, _) => has_all(*is_optional, mask) && is_full(rest),
    }
}

// The masks of a struct within a struct, both of which may have nulls, and of what stands beneath them.
fn masks_within<'a>(mask: &'a Bitmap, inner: &'a Bitmap, rest: &'a [Nested]) -> Masks<'a>
    requires well { IsPath (parts_of rest.now) }
    requires fits { length mask.now ≡ slot_count (parts_of rest.now) }
    requires inner_fits { length inner.now ≡ slot_count (parts_of rest.now) }
    ensures { (count few : ℕ) → length mask.entry.now ≡ count → length inner.entry.now ≡ few
        → TellThere (struct_part true (Some mask.entry.now) count ∷ struct_part true (Some inner.entry.now) few
        ∷ parts_of rest.entry.now) result }
{
    if is_full(rest) {
        return Masks::Both(mask, inner);
    }
    let Some((first, _)) = rest.split_first() else {
        unreachable!()
    };
    match first {
        Nested::Primitive(Some(leaf), true, _) => Masks::Three(mask, inner, leaf),
        _ => Masks::InFront,
    }
}

// The masks of a struct that may have nulls and of what stands beneath it.
fn masks_under<'a>(mask: &'a Bitmap, rest: &'a [Nested]) -> Masks<'a>
    requires well { IsPath (parts_of rest.now) }
    requires fits { length mask.now ≡ slot_count (parts_of rest.now) }
    ensures { (count : ℕ) → length mask.entry.now ≡ count → TellThere
        (struct_part true (Some mask.entry.now) count ∷ parts_of rest.entry.now) result }
{
    if is_full(rest) {
        return Masks::Sole(mask);
    }
    let Some((first, below)) = rest.split_first() else {
        unreachable!()
    };
    match first {
        Nested::Primitive(Some(other), true, _) => Masks::Both(mask, other),
        Nested::Struct(Some(inner), true, _) => masks_within(mask, inner, below),
        _ => Masks::InFront,
    }
}

/// The masks that tell which slots of a path are there.
pub fn masks_of(parts: &[Nested]) -> Masks<'_>
    requires { IsPath (parts_of parts.now) }
    ensures { TellThere (parts_of parts.now) result }
{
    if is_full(parts) {
        return Masks::Nowhere;
    }
    let Some((part, rest)) = parts.split_first() else {
        unreachable!()
    };
    match part {
        Nested::Primitive(Some(mask), true, _) => Masks::Sole(mask),
        Nested::List(
            ListNested {
                is_optional: true,
                offsets: _,
                validity: Some(mask),
            },
        ) => Masks::Sole(mask),
        Nested::LargeList(
            ListNested {
                is_optional: true,
                offsets: _,
                validity: Some(mask),
            },
        ) => Masks::Sole(mask),
        Nested::Struct(Some(mask), true, _) => masks_under(mask, rest),
        Nested::Struct(_, false, _) => masks_of(rest),
        _ => Masks::InFront,
    }
}

/// Which slots of a path are there from a place on by its masks, as the low bits of a word.
#[inline(always)]
pub fn masked_word(masks: Masks<'_>, parts: &[Nested], from: usize, count: usize) -> u64
    requires well { IsPath (parts_of parts.now) }
    requires tell { TellThere (parts_of parts.now) masks }
    requires some { 0 < count }
    requires few { count ≤ 64 }
    requires within { from + count ≤ slot_count (parts_of parts.now) }
    ensures bits { (i : ℕ) → i < count → (bit_at result i == 1) ≡ is_there (parts_of parts.now) (from + i) }
    ensures low { result < 2 ^ count }
{
    match masks {
        Masks::Nowhere => full_word(count),
        Masks::Sole(mask) => mask.word_at(from, count),
        Masks::Both(mask, beneath) => {
            let word = mask.word_at(from, count);
            word & beneath.word_at(from, count)
        }
        Masks::Three(mask, inner, beneath) => {
            let word = mask.word_at(from, count) & inner.word_at(from, count);
            word & beneath.word_at(from, count)
        }
        Masks::InFront => there_word(parts, from, count),
    }
}

// How many places there are from one on, at most 64.
pub fn word_size(place: usize, to: usize) -> usize
    requires { place < to }
    ensures some { 0 < result }
    ensures few { result ≤ 64 }
    ensures within { place + result ≤ to }
{
    if to - place < 64 { to - place } else { 64 }
}

// Where slots end that are all there from a place on, as far as words of 64 tell.
#[inline(always)]
pub fn full_end(masks: Masks<'_>, parts: &[Nested], from: usize, to: usize) -> usize
    requires well { IsPath (parts_of parts.now) }
    requires tell { TellThere (parts_of parts.now) masks }
    requires ordered { from ≤ to }
    requires within { to ≤ slot_count (parts_of parts.now) }
    ensures after { from ≤ result }
    ensures within { result ≤ to }
    ensures there { (i : ℕ) → from ≤ i → i < result → is_there (parts_of parts.now) i ≡ true }
{
    let mut end = from;
    while to - end >= 64 {
        if masked_word(masks, parts, end, 64) != u64::MAX {
            return end;
        }
        end += 64;
    }
    end
}

// The next slots from a place on that are there, side by side, as far as 64 tell.
pub fn next_run(masks: Masks<'_>, parts: &[Nested], place: usize, to: usize) -> (usize, usize)
    requires well { IsPath (parts_of parts.now) }
    requires tell { TellThere (parts_of parts.now) masks }
    requires some { place < to }
    requires within { to ≤ slot_count (parts_of parts.now) }
    ensures { IsRun (is_there (parts_of parts.now)) place to result.0 result.1 }
{
    let count = word_size(place, to);
    let word = masked_word(masks, parts, place, count);
    if word == 0 {
        return (place + count, place + count);
    }
    if word == u64::MAX {
        return (place, place + count);
    }
    let gap = word.trailing_zeros() as usize;
    let run = (word >> gap).trailing_ones() as usize;
    (place + gap, place + gap + run)
}
