//! Bits that are set in a word.
ghost use Rattle.std.specs.Prelude.{◌≡◌, ℕ, ◌<◌, ◌≤◌, ◌/◌, ◌%◌, ◌^◌, ◌==◌, replicate};
ghost use Rattle.std.specs.Int.{bit_at};
ghost use Rattle.columns_core.specs.Bits.{word_bits};
ghost use Rattle.read_walk.specs.Values.{ones};

/// The low bits of a word, and 0 behind them.
#[inline(always)]
pub fn low_bits(word: u64, count: usize) -> u64
    requires { count ≤ 64 }
    ensures below { result < 2 ^ count }
    ensures same { word_bits result count ≡ word_bits word count }
{
    if count == 64 {
        word
    } else {
        word % (1 << count)
    }
}

/// How many of the low bits of a word are set.
pub fn count_set(word: u64, count: usize) -> usize
    requires { count ≤ 64 }
    ensures { result ≡ ones (word_bits word count) }
{
    low_bits(word, count).count_ones() as usize
}

// How many of the low bits of a word are equal to the lowest, up to the first that is not.
fn lowest_run(word: u64) -> usize
    ensures some { 0 < result }
    ensures alike { (i : ℕ) → i < result → (bit_at word i == 1) ≡ (word % 2 == 1) }
{
    if word % 2 == 1 {
        word.trailing_ones() as usize
    } else {
        word.trailing_zeros() as usize
    }
}

/// The same of so many low bits.
pub fn first_run(word: u64, count: usize) -> usize
    requires { 0 < count }
    ensures some { 0 < result }
    ensures within { result ≤ count }
    ensures alike { word_bits word result ≡ replicate result (word % 2 == 1) }
{
    count.min(lowest_run(word))
}

/// The bits of a word behind so many low ones.
#[inline(always)]
pub fn bits_behind(word: u64, count: usize) -> u64
    requires { count ≤ 64 }
    ensures { result ≡ word / 2 ^ count }
{
    if count == 64 { 0 } else { word >> count }
}
