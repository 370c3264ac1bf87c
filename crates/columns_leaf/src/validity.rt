//! Masks over the positions of an array (Arrow columnar format, "Validity bitmaps").
ghost use Rattle.std.specs.Prelude.{◌≡◌, ◌↔◌, ◌+◌, ◌≤◌, IsTrue, IfOk, IfErr, option_map, length as list_length};
ghost use Rattle.columns_slots.specs.Slots.{IsMaskOver, cut_mask, nulls_in};
ghost use Rattle.shredding.specs.Parts.{MaskFits};

use columns_core::bitmap::Bitmap;
use columns_core::{Error, Result};

/// Whether a mask, if any, has as many bits.
pub fn mask_fits(validity: &Option<Bitmap>, count: usize) -> bool
    ensures { IsTrue result ↔ MaskFits validity.now count }
{
    match validity {
        Some(mask) => mask.len() == count,
        None => true,
    }
}

/// Keeps `length` bits of a mask, if any, from the bit `offset` on.
pub fn cut_validity(validity: &mut Option<Bitmap>, offset: usize, length: usize)
    requires { IsMaskOver (offset + length) validity.old }
    ensures { validity.new ≡ cut_mask validity.old offset length }
{
    if let Some(mask) = validity {
        mask.slice(offset, length);
    }
}

/// The same mask, which shares its bytes.
///
/// # Errors
///
/// `Memory`, as `Bitmap::clone`.
pub fn copy_validity(validity: &Option<Bitmap>) -> Result<Option<Bitmap>>
    ensures ok { IfOk result (λ m. m ≡ validity.now) }
    ensures err { IfErr result (λ e. e ≡ Error.Memory) }
{
    match validity {
        Some(mask) => mask.clone().map(Some),
        None => Ok(None),
    }
}

/// How many positions a mask, if any, makes null.
pub fn count_unset(validity: &Option<Bitmap>) -> usize
    ensures { result ≡ nulls_in validity.now }
{
    match validity {
        Some(mask) => mask.unset_bits(),
        None => 0,
    }
}
