//! Writing delta packing.

ghost use Rattle.std.specs.Prelude.{◌≡◌, ◌<◌, ◌≤◌, ◌++◌, ℕ, ℤ, ◌-ℤ◌, List, [], ◌∷◌, length, Bool, OnOk, IfOk, IfErr, Option, Some, is_some, FitsSigned};
ghost use Rattle.std.specs.Int.{Width, w32, w64, int_wrap};
ghost use Rattle.std.specs.Iterator.{IsFinite, Drains};
ghost use mir.Val.{bits};
ghost use Rattle.columns_base.specs.declared.error.Error.TheVariants.{Memory};
ghost use Rattle.pq_numbers.specs.Varint.{varint};
ghost use Rattle.pq_deltas.specs.Encoding.{Feeds, IsEncoding};
ghost use Rattle.pq_runs.specs.DeltaWriting.{Begun, Going, Deltas, AppendsDelta};
ghost use Rattle.pq_runs.specs.Listed.{count};
ghost use Rattle.pq_runs.specs.Writing.{Extends};

use crate::delta_block::push_block;
use crate::waiting::Waiting;
use columns_base::{Error, Result};
use pq_numbers::{push_varint, to_zigzag};
use std::alloc::AllocError;

// Writes the differences that wait where they are a full block.
fn make_room(out: &mut Vec<u8>, waiting: &mut Waiting) -> std::result::Result<(), AllocError>
    ensures room { OnOk result (length waiting.new < 128) }
    ensures ok { OnOk result ((v : Width) (start : List ℕ) (latest : ℤ) (zs : List ℤ)
        → Going v start out.old.items waiting.old latest zs → Going v start out.new.items waiting.new latest zs) }
    ensures kept { Extends out.old.items out.new.items }
{
    if waiting.len() == 128 {
        push_block(out, waiting.as_slice())?;
        waiting.clear();
    }
    Ok(())
}

// One more difference, from the latest number to the next one.
fn push_difference(
    out: &mut Vec<u8>,
    waiting: &mut Waiting,
    difference: i64,
) -> std::result::Result<(), AllocError>
    ensures ok { OnOk result ((v : Width) (start : List ℕ) (latest value : ℤ) (zs : List ℤ) → FitsSigned v value
        → difference ≡ int_wrap v (value -ℤ latest) → Going v start out.old.items waiting.old latest zs
        → Going v start out.new.items waiting.new value (zs ++ value ∷ [])) }
    ensures kept { Extends out.old.items out.new.items }
{
    make_room(out, waiting)?;
    waiting.push(difference);
    Ok(())
}

// One more number of 64 bits behind the latest one.
fn add(
    out: &mut Vec<u8>,
    waiting: &mut Waiting,
    latest: Option<i64>,
    value: i64,
) -> std::result::Result<(), AllocError>
    ensures ok { OnOk result ((start : List ℕ) (zs : List ℤ) → Begun w64 start out.old.items waiting.old latest zs
        → Begun w64 start out.new.items waiting.new (Some value) (zs ++ value ∷ [])) }
    ensures kept { Extends out.old.items out.new.items }
{
    match latest {
        None => push_varint(out, to_zigzag(value)),
        Some(latest) => push_difference(out, waiting, value.wrapping_sub(latest)),
    }
}

// The low 32 bits of a number.
fn low_32(number: i64) -> i32
    ensures { result ≡ int_wrap w32 number }
{
    ((number.cast_unsigned() % (1 << 32)) as u32).cast_signed()
}

// One more number of 32 bits behind the latest one.
fn add_i32(
    out: &mut Vec<u8>,
    waiting: &mut Waiting,
    latest: Option<i64>,
    value: i32,
) -> std::result::Result<(), AllocError>
    ensures ok { OnOk result ((start : List ℕ) (zs : List ℤ) → Begun w32 start out.old.items waiting.old latest zs
        → Begun w32 start out.new.items waiting.new (Some value) (zs ++ value ∷ [])) }
    ensures kept { Extends out.old.items out.new.items }
{
    match latest {
        None => push_varint(out, to_zigzag(i64::from(value))),
        Some(latest) => {
            let latest = low_32(latest);
            push_difference(out, waiting, i64::from(value.wrapping_sub(latest)))
        }
    }
}

// Writes what waits, behind which nothing comes, and 0 in place of a first number where there is none.
fn finish(out: &mut Vec<u8>, waiting: &Waiting, some: bool) -> std::result::Result<(), AllocError>
    ensures ok { OnOk result ((v : Width) (start : List ℕ) (latest : Option ℤ) (zs : List ℤ) → some ≡ is_some latest
        → Begun v start out.old.items waiting.now latest zs → Deltas v start out.new.items zs) }
    ensures kept { Extends out.old.items out.new.items }
{
    if some {
        if waiting.len() > 0 {
            push_block(out, waiting.as_slice())?;
        }
        return Ok(());
    }
    push_varint(out, 0)
}

// The sizes of a block, and the count of all numbers.
fn push_head(out: &mut Vec<u8>, length: usize) -> std::result::Result<(), AllocError>
    ensures ok { OnOk result (out.new.items ≡ out.old.items ++ (varint 128 ++ (varint 4 ++ varint length))) }
    ensures kept { Extends out.old.items out.new.items }
{
    push_varint(out, 128)?;
    push_varint(out, 4)?;
    push_varint(out, length as u64)
}

/// An encoder that is fed number by number. Of these it keeps at most 128 differences, which fill no block yet, and the latest number, so that it
/// takes no memory but that of the section.
#[derive(Drop)]
pub struct Encoder {
    waiting: Waiting,
    latest: Option<i64>,
}

impl Encoder {
    /// Begins the section of so many numbers: appends its head.
    ///
    /// # Errors
    ///
    /// Want of memory.
    pub fn new(out: &mut Vec<u8>, count: usize) -> std::result::Result<Encoder, AllocError>
        ensures ok { IfOk result (λ e. (v : Width) → IsEncoding v count out.old.items out.new.items e []) }
        ensures kept { Extends out.old.items out.new.items }
    {
        push_head(out, count)?;
        Ok(Encoder {
            waiting: Waiting::new(),
            latest: None,
        })
    }

    /// Takes one more INT64 number. The difference is taken modulo 2^64, as a number from -2^63 on.
    ///
    /// # Errors
    ///
    /// Want of memory.
    pub fn push(&mut self, out: &mut Vec<u8>, value: i64) -> std::result::Result<(), AllocError>
        ensures ok { OnOk result (Feeds w64 out.old.items self.old out.new.items self.new (value ∷ [])) }
        ensures kept { Extends out.old.items out.new.items }
    {
        add(out, &mut self.waiting, self.latest, value)?;
        self.latest = Some(value);
        Ok(())
    }

    /// Takes one more INT32 number. The difference is taken modulo 2^32, as a number from -2^31 on.
    ///
    /// # Errors
    ///
    /// Want of memory.
    pub fn push_i32(&mut self, out: &mut Vec<u8>, value: i32) -> std::result::Result<(), AllocError>
        ensures ok { OnOk result (Feeds w32 out.old.items self.old out.new.items self.new (value ∷ [])) }
        ensures kept { Extends out.old.items out.new.items }
    {
        add_i32(out, &mut self.waiting, self.latest, value)?;
        self.latest = Some(i64::from(value));
        Ok(())
    }

    /// Ends the section, behind which nothing of it comes. It has got as many numbers as its head says.
    ///
    /// # Errors
    ///
    /// Want of memory.
    pub fn finish(&self, out: &mut Vec<u8>) -> std::result::Result<(), AllocError>
        ensures ok { OnOk result ((v : Width) (start : List ℕ) (zs : List ℤ) → bits v ≤ 64
            → IsEncoding v (count zs) start out.old.items self.now zs → AppendsDelta v start out.new.items zs) }
        ensures kept { Extends out.old.items out.new.items }
    {
        finish(out, &self.waiting, self.latest.is_some())
    }
}

fn push_numbers<I: Iterator<Item = i64>>(
    out: &mut Vec<u8>,
    values: I,
    length: usize,
) -> std::result::Result<(), AllocError>
    requires can { I.can_next values }
    requires ends { IsFinite (I.remaining values) }
    requires gives { (vs : List ℤ) → Drains I.next_gives values vs → count vs ≡ length }
    ensures ok { OnOk result ((vs : List ℤ) × Drains I.next_gives values vs
        × AppendsDelta w64 out.old.items out.new.items vs) }
    ensures kept { Extends out.old.items out.new.items }
{
    let mut encoder = Encoder::new(out, length)?;
    for value in values {
        encoder.push(out, value)?;
    }
    encoder.finish(out)
}

/// Appends the delta spelling of INT64 numbers, in blocks of 128 with 4 whole miniblocks of the least widths
/// (Parquet format, Encodings, "Delta Encoding"). Differences are taken modulo 2^64, as numbers from
/// -2^63 on. A block states the least of its own.
///
/// # Errors
///
/// Want of memory; `out` is then as before.
pub fn encode<I: Iterator<Item = i64>>(out: &mut Vec<u8>, values: I, length: usize) -> Result<()>
    requires can { I.can_next values }
    requires ends { IsFinite (I.remaining values) }
    requires gives { (vs : List ℤ) → Drains I.next_gives values vs → count vs ≡ length }
    ensures ok { OnOk result ((vs : List ℤ) × Drains I.next_gives values vs
        × AppendsDelta w64 out.old.items out.new.items vs) }
    ensures err { IfErr result (λ e. (e ≡ Memory) × (out.new.items ≡ out.old.items)) }
{
    let before = out.len();
    if push_numbers(out, values, length).is_err() {
        out.truncate(before);
        return Err(Error::Memory);
    }
    Ok(())
}

fn push_numbers_i32<I: Iterator<Item = i32>>(
    out: &mut Vec<u8>,
    values: I,
    length: usize,
) -> std::result::Result<(), AllocError>
    requires can { I.can_next values }
    requires ends { IsFinite (I.remaining values) }
    requires gives { (vs : List ℤ) → Drains I.next_gives values vs → count vs ≡ length }
    ensures ok { OnOk result ((vs : List ℤ) × Drains I.next_gives values vs
        × AppendsDelta w32 out.old.items out.new.items vs) }
    ensures kept { Extends out.old.items out.new.items }
{
    let mut encoder = Encoder::new(out, length)?;
    for value in values {
        encoder.push_i32(out, value)?;
    }
    encoder.finish(out)
}

/// Appends the delta spelling of INT32 numbers, as `encode` does. Differences are taken modulo 2^32, as numbers from -2^31 on, so that no
/// miniblock's width passes 32.
///
/// # Errors
///
/// Want of memory; `out` is then as before.
pub fn encode_i32<I: Iterator<Item = i32>>(
    out: &mut Vec<u8>,
    values: I,
    length: usize,
) -> Result<()>
    requires can { I.can_next values }
    requires ends { IsFinite (I.remaining values) }
    requires gives { (vs : List ℤ) → Drains I.next_gives values vs → count vs ≡ length }
    ensures ok { OnOk result ((vs : List ℤ) × Drains I.next_gives values vs
        × AppendsDelta w32 out.old.items out.new.items vs) }
    ensures err { IfErr result (λ e. (e ≡ Memory) × (out.new.items ≡ out.old.items)) }
{
    let before = out.len();
    if push_numbers_i32(out, values, length).is_err() {
        out.truncate(before);
        return Err(Error::Memory);
    }
    Ok(())
}
