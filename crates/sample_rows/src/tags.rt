//! The column of tags.
ghost use Rattle.std.specs.Prelude.{◌≡◌, ◌+◌, ◌<◌, ◌≤◌, ◌^◌, ◌∷◌, ◌++◌, [], IfOk, IfErr, Some, length, string_bytes};
ghost use Rattle.columns_core.specs.Rising.{last_place};
ghost use Rattle.columns_core.specs.Tree.{t_utf8};
ghost use Rattle.columns_slots.specs.Bytes.{pieces};
ghost use Rattle.sample_rows.specs.Parts.{AreStrung, has_tag, tag_text};
ghost use Rattle.sample_rows.specs.Rows.{each_row};

use columns_base::{Error, Result};
use columns_core::{Bitmap, DataType, MutableBitmap, Offsets, OffsetsBuffer};
use columns_leaf::Utf8Array;
use std::alloc::Global;

/// Which of so many rows have a tag.
#[tactic(auto, using(crate::proofs::Tables::row_more))]
fn tagged(alloc: Global, count: u32) -> Result<Bitmap>
    ensures ok { IfOk result (λ m. m ≡ each_row has_tag count) }
    ensures err { IfErr result (λ e. e ≡ Error.Memory) }
{
    let mut mask = MutableBitmap::with_capacity(alloc, count as usize)?;
    for i in 0..count {
        mask.push(i % 3 != 0)?;
    }
    mask.into_bitmap()
}

/// The text of a row's tag, which is empty where it has none.
#[tactic(auto, using(crate::proofs::Texts::short_decimal))]
fn tag(alloc: Global, row: u32) -> Result<String>
    requires { row < 1000000 }
    ensures short { IfOk result (λ s. length (string_bytes s) ≤ 6) }
    ensures ok { IfOk result (λ s. string_bytes s ≡ tag_text row) }
    ensures err { IfErr result (λ e. e ≡ Error.Memory) }
{
    if row % 3 == 0 {
        return Ok(String::new(alloc));
    }
    Ok(format!(in alloc; "{row}")?)
}

/// A text behind the others, and its end.
fn push_text(offsets: &mut Offsets<i32>, bytes: &mut Vec<u8>, text: &str) -> Result<()>
    requires fits { last_place offsets.old.0 + length text.now < 2 ^ 31 }
    ensures offsets { IfOk result (λ _. offsets.new.0 ≡ offsets.old.0 ++ (last_place offsets.old.0 + length text.now)
        ∷ []) }
    ensures bytes { IfOk result (λ _. bytes.new.items ≡ bytes.old.items ++ text.now) }
    ensures err { IfErr result (λ e. e ≡ Error.Memory) }
{
    bytes.extend_from_slice(text.as_bytes())?;
    offsets.try_push_usize(text.len())
}

/// The tags' texts of so many rows one behind the other, and their offsets.
#[tactic(auto, using(crate::proofs::Strung::strung_none, crate::proofs::Strung::row_strung))]
fn texts(alloc: Global, count: u32) -> Result<(OffsetsBuffer<i32>, Vec<u8>)>
    requires { count ≤ 1000000 }
    ensures ok { IfOk result (λ p. AreStrung (each_row tag_text count) p.0 p.1.items) }
    ensures err { IfErr result (λ e. e ≡ Error.Memory) }
{
    let mut offsets = Offsets::with_capacity(alloc, count as usize)?;
    let mut bytes = Vec::new(alloc);
    for i in 0..count {
        push_text(&mut offsets, &mut bytes, &tag(alloc, i)?)?;
    }
    Ok((offsets.into_buffer()?, bytes))
}

/// The tags of so many rows.
#[tactic(auto, using(crate::proofs::Strung::strung_pieces, crate::proofs::Strung::strung_places, crate::proofs::Texts::tags_are_texts, crate::proofs::Texts::tags_masked))]
pub fn tags(alloc: Global, count: u32) -> Result<Utf8Array<i32>>
    requires { count ≤ 1000000 }
    ensures typed { IfOk result (λ a. a.0 ≡ t_utf8) }
    ensures texts { IfOk result (λ a. pieces a.1.0 a.1.1.0 ≡ each_row tag_text count) }
    ensures mask { IfOk result (λ a. a.1.1.1 ≡ Some (each_row has_tag count)) }
    ensures err { IfErr result (λ e. e ≡ Error.Memory) }
{
    let (offsets, bytes) = texts(alloc, count)?;
    let mask = tagged(alloc, count)?;
    Utf8Array::from_parts(alloc, DataType::Utf8, offsets, bytes, Some(mask))
}
