//! Runs of bits.
ghost use Rattle.std.specs.Prelude.{◌≡◌, ℕ, List, length};
ghost use Rattle.std.specs.Iterator.{at_most};
ghost use Rattle.pq_bitmaps.specs.Called.{GivesRun, bits_called};

use crate::cursor::{Cursor, take_part};
use crate::part::HybridEncoded;
use columns_base::Result;
use pq_runs::hybrid_rle::Decoder;
use std::marker::Model;

/// The bits that are called for, run by run: each part has at least one bit, and is a run as far as it is called for.
///
/// Where a bit that is called for is not there, or is a repeated number other than 0 and 1, S6 comes once, and nothing behind it.
/// Seen by contracts as the number of bits that are left, and these bits.
#[derive(Debug, Drop)]
pub struct HybridDecoderBitmapIter<'a> {
    cursor: Cursor<'a>,
}

impl<'a> Model for HybridDecoderBitmapIter<'a> {
    ghost use Rattle.pq_bitmaps.specs.Called.{Called, bits_called};

    ghost Value = { Called };

    ghost view = { λ d. record { left = d.cursor.left; bits = bits_called d.cursor.left d.cursor.bytes.now } };
}

impl<'a> HybridDecoderBitmapIter<'a> {
    /// The first `length` bits that the runs spell.
    pub fn new(decoder: Decoder<'a>, length: usize) -> Self
        requires width { decoder.num_bits ≡ 1 }
        ensures { result ≡ record { left = length; bits = bits_called length decoder.entry.values.now } }
    {
        HybridDecoderBitmapIter {
            cursor: Cursor {
                bytes: decoder.values,
                left: length,
            },
        }
    }

    /// The same bits again, without memory.
    pub fn clone(&self) -> Self
        ensures { result ≡ self.now }
    {
        HybridDecoderBitmapIter {
            cursor: self.cursor,
        }
    }

    /// The number of bits that are left of those called for: 0 behind an error.
    pub fn len(&self) -> usize
        ensures { result ≡ self.now.left }
    {
        self.cursor.left
    }
}

impl<'a> Iterator for HybridDecoderBitmapIter<'a> {
    type Item = Result<HybridEncoded<'a>>;

    ghost next_gives = { GivesRun };

    ghost remaining = { λ d. at_most d.left };

    fn next(&mut self) -> Option<Result<HybridEncoded<'a>>> {
        if self.cursor.left == 0 {
            return None;
        }
        Some(take_part(&mut self.cursor))
    }
}
