//! One run after another.

ghost use Rattle.std.specs.Prelude.{◌≡◌, ◌<◌, ◌≤◌, ◌+◌, ◌*◌, ◌/◌, length, min, take, drop, MatchOption, IfSome, ℕ, List};
ghost use Rattle.pq_runs.specs.Taking.{IsRun, NoRun};

use pq_numbers::take_varint;

/// A run: the bytes of packed numbers, which may be cut where the bytes end, or those of one number and how many copies there are.
#[derive(Drop)]
pub enum Run<'a> {
    Packed(&'a [u8]),
    Repeated(&'a [u8], usize),
}

// So many groups of so many bytes, or as many bytes as there are.
fn body_size(groups: usize, width: usize, there: usize) -> usize
    ensures { result ≡ min (width * groups) there }
{
    if width == 0 {
        return 0;
    }
    if groups <= there / width {
        width * groups
    } else {
        there
    }
}

// The run at the front and the bytes behind it.
pub fn take_run(bytes: &[u8], width: u32) -> Option<(Run, &[u8])>
    ensures gives { MatchOption result (NoRun width bytes.now) (λ x. IsRun width bytes.now x.0 x.1.now) }
    ensures shorter { IfSome result (λ x. length x.1.now < length bytes.now) }
{
    let (head, rest) = take_varint(bytes)?;
    let count = (head / 2) as usize;
    let width = width as usize;
    if head % 2 == 0 {
        let size = (width + 7) / 8;
        if rest.len() < size {
            return None;
        }
        let (value, rest) = rest.split_at(size);
        Some((Run::Repeated(value, count), rest))
    } else {
        let size = body_size(count, width, rest.len());
        let (body, rest) = rest.split_at(size);
        Some((Run::Packed(body), rest))
    }
}
