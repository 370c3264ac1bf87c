//! What is left of a run of bits.
ghost use Rattle.std.specs.Prelude.{◌≡◌, ◌++◌, ◌+◌, ◌*◌, ◌<◌, ◌≤◌, ◌^◌, length, map, replicate};
ghost use Rattle.columns_core.specs.Bits.{bits_from};
ghost use Rattle.pq_bitmaps.specs.Called.{IsPart, bits_in};
ghost use Rattle.pq_bitmaps.specs.Selected.{Says, given_in, gives, set_bits};
ghost use Rattle.pq_bitmaps.specs.Stretch.{IsStretch, size_of, stretch_bits};

use crate::part::{FilteredHybridEncoded, HybridEncoded};
use columns_core::BitmapIter;

/// Bits that follow one another in a run.
#[derive(Clone, Copy, Debug)]
pub enum Stretch<'a> {
    Bitmap {
        values: &'a [u8],
        offset: usize,
        length: usize,
    },
    Repeated {
        is_set: bool,
        length: usize,
    },
}

impl<'a> Stretch<'a> {
    /// No bits.
    pub fn none() -> Self
        ensures is { IsStretch result }
        ensures none { size_of result ≡ 0 }
    {
        Stretch::Repeated {
            is_set: false,
            length: 0,
        }
    }

    /// The bits of a run.
    #[tactic(auto, using(columns_core::proofs::Bits::length_bits))]
    pub fn of(part: HybridEncoded<'a>) -> Self
        requires { IsPart part }
        ensures is { IsStretch result }
        ensures bits { stretch_bits result ≡ bits_in part.entry }
        ensures size { size_of result ≡ length (bits_in part.entry) }
    {
        match part {
            HybridEncoded::Bitmap(values, length) => Stretch::Bitmap {
                values,
                offset: 0,
                length,
            },
            HybridEncoded::Repeated(is_set, length) => Stretch::Repeated { is_set, length },
        }
    }

    /// The number of its bits.
    pub fn len(&self) -> usize
        ensures size { result ≡ size_of self.now }
    {
        match self {
            Stretch::Bitmap { length, .. } => *length,
            Stretch::Repeated { length, .. } => *length,
        }
    }

    /// Its first bits, and the others.
    pub fn cut(self, count: usize) -> (Self, Self)
        requires is { IsStretch self }
        requires few { count ≤ size_of self }
        ensures first { IsStretch result.0 × (size_of result.0 ≡ count) }
        ensures others { IsStretch result.1 × (count + size_of result.1 ≡ size_of self.entry) }
        ensures bits { stretch_bits self.entry ≡ stretch_bits result.0 ++ stretch_bits result.1 }
    {
        match self {
            Stretch::Bitmap {
                values,
                offset,
                length,
            } => cut_bitmap(values, offset, length, count),
            Stretch::Repeated { is_set, length } => cut_copies(is_set, length, count),
        }
    }

    /// Its bits as a part.
    pub fn given(self) -> FilteredHybridEncoded<'a>
        requires is { IsStretch self }
        requires some { 0 < size_of self }
        ensures says { Says result (map gives (stretch_bits self.entry)) }
        ensures size { given_in result ≡ size_of self.entry }
    {
        match self {
            Stretch::Bitmap {
                values,
                offset,
                length,
            } => FilteredHybridEncoded::Bitmap {
                values,
                offset,
                length,
            },
            Stretch::Repeated { is_set, length } => {
                FilteredHybridEncoded::Repeated { is_set, length }
            }
        }
    }

    /// How many of its bits are set.
    pub fn set_bits(self) -> usize
        requires is { IsStretch self }
        ensures { result ≡ set_bits (stretch_bits self.entry) }
    {
        match self {
            Stretch::Bitmap {
                values,
                offset,
                length,
            } => set_in(values, offset, length),
            Stretch::Repeated { is_set, length } => set_copies(is_set, length),
        }
    }
}

// The first bits of so many from a place on, and the others.
#[tactic(auto, using(crate::proofs::Steps::bits_cut))]
fn cut_bitmap<'a>(
    values: &'a [u8],
    offset: usize,
    size: usize,
    count: usize,
) -> (Stretch<'a>, Stretch<'a>)
    requires within { offset + size ≤ 8 * length values.now }
    requires counted { offset + size < 2 ^ 64 }
    requires few { count ≤ size }
    ensures first { IsStretch result.0 × (size_of result.0 ≡ count) }
    ensures others { IsStretch result.1 × (count + size_of result.1 ≡ size) }
    ensures bits { bits_from values.entry.now offset size ≡ stretch_bits result.0 ++ stretch_bits result.1 }
{
    let first = Stretch::Bitmap {
        values,
        offset,
        length: count,
    };
    let others = Stretch::Bitmap {
        values,
        offset: offset + count,
        length: size - count,
    };
    (first, others)
}

// The first of so many copies, and the others.
#[tactic(auto, using(crate::proofs::Steps::copies_cut))]
fn cut_copies<'a>(is_set: bool, size: usize, count: usize) -> (Stretch<'a>, Stretch<'a>)
    requires { count ≤ size }
    ensures first { IsStretch result.0 × (size_of result.0 ≡ count) }
    ensures others { IsStretch result.1 × (count + size_of result.1 ≡ size) }
    ensures bits { replicate size is_set ≡ stretch_bits result.0 ++ stretch_bits result.1 }
{
    let first = Stretch::Repeated {
        is_set,
        length: count,
    };
    let others = Stretch::Repeated {
        is_set,
        length: size - count,
    };
    (first, others)
}

// How many of so many bits from a place on are set.
fn set_in(values: &[u8], offset: usize, count: usize) -> usize
    requires within { offset + count ≤ 8 * length values.now }
    requires counted { offset + count < 2 ^ 64 }
    ensures { result ≡ set_bits (bits_from values.now offset count) }
{
    let mut set = 0;
    for is_set in BitmapIter::new(values, offset, count) {
        if is_set {
            set += 1;
        }
    }
    set
}

// How many of so many copies are set.
#[tactic(auto, using(crate::proofs::Steps::set_copies, crate::proofs::Steps::unset_copies))]
fn set_copies(is_set: bool, count: usize) -> usize
    ensures { result ≡ set_bits (replicate count is_set) }
{
    if is_set { count } else { 0 }
}
