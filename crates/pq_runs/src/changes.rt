//! How often numbers of at most eight bits change from one to the next.

ghost use Rattle.std.specs.Prelude.{◌≡◌, ◌==◌, ◌≤◌, ◌+◌, ◌-◌, ◌*◌, ◌∷◌, length, take, drop, replicate, get_or, cond, IsTrue};
ghost use Rattle.pq_runs.specs.Stretches.{stretches};

// Whether all of the numbers are one and the same.
pub fn are_all_narrow(numbers: &[u8], number: u8) -> bool
    ensures { IsTrue result → numbers.now ≡ replicate (length numbers.now) number }
{
    let mut same = true;
    for other in numbers {
        same &= *other == number;
    }
    same
}

// 1 where a number differs from the one before it.
#[inline(always)]
fn differs(last: u8, number: u8) -> u32
    ensures value { result ≡ cond (last == number) 0 1 }
    ensures most { result ≤ 1 }
{
    if last == number { 0 } else { 1 }
}

// How many of the first 33 numbers differ from the one before them.
#[inline(always)]
fn changes_in(numbers: &[u8]) -> u32
    requires { 33 ≤ length numbers.now }
    ensures value { result + 1 ≡ stretches (take 33 numbers.now) }
    ensures most { result ≤ 32 }
{
    let mut changes = 0;
    for i in 0..32 {
        changes += differs(numbers[i], numbers[i + 1]);
    }
    changes
}

// The last 33 numbers.
#[inline(always)]
fn last_of(numbers: &[u8]) -> &[u8]
    requires { 33 ≤ length numbers.now }
    ensures { result.now ≡ drop (length numbers.now - 33) numbers.now }
{
    &numbers[numbers.len() - 33..]
}

// How many stretches of equal numbers stand side by side, with one more number in front.
fn count_stretches(numbers: &[u8], first: u8) -> u32
    requires { length numbers.now ≤ 504 }
    ensures value { result ≡ stretches (first ∷ numbers.now) }
    ensures most { result ≤ 505 }
{
    let mut count = 1;
    let mut last = first;
    for number in numbers {
        count += differs(last, *number);
        last = *number;
    }
    count
}

// Whether numbers are in so many stretches that they are best packed as they stand, by the first 33 and the last ones, where these are nearly all.
#[inline(always)]
fn are_mixed_ends(numbers: &[u8]) -> bool
    requires { 33 ≤ length numbers.now }
    ensures { IsTrue result → length numbers.now + 34 ≤ 14 * stretches numbers.now }
{
    let first = changes_in(numbers) as usize + 1;
    let last = changes_in(last_of(numbers)) as usize + 1;
    if 14 * first.max(last) < numbers.len() + 34 {
        return false;
    }
    if 7 * (first + last) < numbers.len() + 48 {
        return false;
    }
    true
}

// Whether so few numbers are in so many stretches that they are best packed as they stand: less than five numbers a stretch.
#[inline(always)]
pub fn are_narrow_mixed(numbers: &[u8], first: u8) -> bool
    requires some { 1 ≤ length numbers.now }
    requires first { first ≡ get_or numbers.now 0 0 }
    ensures few { IsTrue result → length numbers.now ≤ 504 }
    ensures mixed { IsTrue result → length numbers.now + 34 ≤ 14 * stretches numbers.now }
{
    if numbers.len() > 504 {
        return false;
    }
    if numbers.len() >= 33 && numbers.len() <= 66 {
        return are_mixed_ends(numbers);
    }
    7 * count_stretches(numbers, first) as usize >= numbers.len() + 34
}
