//! What stands behind the pages of a file.
ghost use Rattle.std.specs.Prelude.{◌≡◌, ◌⊎◌, IfOk, IfErr};
ghost use Rattle.columns_base.specs.declared.error.Error.TheVariants.{Memory, Overflow};
ghost use Rattle.columns_base.specs.declared.error.V.TheVariants.{V3};
ghost use Rattle.footer_write.specs.Fits.{FooterFits};
ghost use Rattle.footer_write.specs.FooterView.{footer_view};
ghost use Rattle.pq_files.specs.Room.{IsBrief};
ghost use Rattle.write_file.specs.Foot.{IsFoot};

use crate::MAGIC;
use columns_base::{Error, Result, V};
use footer_write::{ThriftFileMetaData, write_metadata};
use pq_numbers::{bytes_spell_numbers, push_u32_le};
use std::alloc::Global;

/// The footer, its length and what a file ends with (Parquet format, "File format").
///
/// # Errors
///
/// - `Overflow(V3)`: the footer's room passes 2^31 - 1.
/// - `Memory`: memory ran out.
pub(crate) fn foot_of(alloc: Global, metadata: &ThriftFileMetaData) -> Result<Vec<u8>>
    ensures ok { IfOk result (λ v. IsFoot (footer_view metadata.now) v.items) }
    ensures refused { IfErr result (λ e. (e ≡ Memory) ⊎ ((e ≡ Overflow V3)
        × (IsBrief (footer_view metadata.now) → ¬ FooterFits (footer_view metadata.now)))) }
{
    bytes_spell_numbers();
    let mut foot = Vec::new(alloc);
    if let Err(error) = write_metadata(metadata, &mut foot) {
        return Err(error);
    }
    // No footer within its room is longer.
    let Ok(length) = u32::try_from(foot.len()) else {
        return Err(Error::Overflow(V::V3));
    };
    push_u32_le(&mut foot, length)?;
    foot.extend_from_slice(MAGIC)?;
    Ok(foot)
}
