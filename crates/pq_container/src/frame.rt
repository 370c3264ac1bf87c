//! The frame of a file, as a reader tells it.
ghost use Rattle.std.specs.Prelude.{◌≡◌, ◌+◌, ◌≤◌, length, take, drop, MatchBool, MatchOption};
ghost use Rattle.pq_metadata.specs.Frame.{HasFrame, EndsEncrypted, footer_length};
ghost use Rattle.pq_numbers.specs.Texts.{number_of};

/// `PAR1`, as a number whose lowest byte stands first.
const MAGIC: u32 = 827474256;

/// `PARE`, in the same way.
const MAGIC_OF_ENCRYPTED: u32 = 1163018576;

/// The number that four bytes spell, lowest byte first.
fn four_bytes(bytes: &[u8], at: usize) -> u32
    requires { at + 4 ≤ length bytes.now }
    ensures { result ≡ number_of (take 4 (drop at bytes.now)) }
{
    bytes[at] as u32
        + 256 * (bytes[at + 1] as u32 + 256 * (bytes[at + 2] as u32 + 256 * (bytes[at + 3] as u32)))
}

/// The footer's length in bytes, where the file has a frame: `PAR1` in front and at the end, and
/// between them the footer and its length (Parquet format, "File format").
pub fn read_frame(file: &[u8]) -> Option<usize>
    ensures { MatchOption result (¬ HasFrame file.now) (λ n. HasFrame file.now × (n ≡ footer_length file.now)) }
{
    let len = file.len();
    if len < 12 {
        return None;
    }
    let footer = four_bytes(file, len - 8) as usize;
    if four_bytes(file, 0) != MAGIC || four_bytes(file, len - 4) != MAGIC || footer + 12 > len {
        return None;
    }
    Some(footer)
}

/// Whether the file ends in `PARE`, as one does whose footer is encrypted (Parquet format,
/// "Parquet Modular Encryption").
pub fn ends_encrypted(file: &[u8]) -> bool
    ensures { MatchBool result (EndsEncrypted file.now) (¬ EndsEncrypted file.now) }
{
    let len = file.len();
    if len < 4 {
        return false;
    }
    four_bytes(file, len - 4) == MAGIC_OF_ENCRYPTED
}
