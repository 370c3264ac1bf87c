//! What the iterators give.
ghost use Rattle.std.specs.Prelude.{◌≡◌, length};
ghost use Rattle.pq_bitmaps.specs.Called.{IsPart, bits_in};

/// A run of bits, as far as it is called for.
#[derive(Clone, Copy, Debug)]
pub enum HybridEncoded<'a> {
    /// So many bits at the front of the bytes, the lowest of each byte first.
    Bitmap(&'a [u8], usize),
    /// So many copies of a bit.
    Repeated(bool, usize),
}

impl<'a> HybridEncoded<'a> {
    /// The number of its bits.
    #[tactic(auto, using(columns_core::proofs::Bits::length_bits))]
    pub fn len(&self) -> usize
        ensures { result ≡ length (bits_in self.now) }
    {
        match self {
            HybridEncoded::Bitmap(_, length) => *length,
            HybridEncoded::Repeated(_, length) => *length,
        }
    }
}

/// Rows of a page, or values of it: those from `start` on, as many as `length`.
#[derive(Clone, Copy, Debug, PartialEq, Eq)]
pub struct Interval {
    pub start: usize,
    pub length: usize,
}

/// A part of a run of bits of which rows are selected.
#[derive(Clone, Copy, Debug)]
pub enum FilteredHybridEncoded<'a> {
    /// Selected bits: `length` of them from bit `offset` of the bytes on, the lowest bit of each byte first.
    Bitmap {
        values: &'a [u8],
        offset: usize,
        length: usize,
    },
    /// Selected bits that are all the same.
    Repeated {
        is_set: bool,
        length: usize,
    },
    /// Bits that are passed over: how many of them are set.
    Skipped(usize),
}
