//! Truth values that grow.
ghost use Rattle.std.specs.Prelude.{◌≡◌, ◌+◌, ◌-◌, ◌*◌, ◌/◌, ◌%◌, ◌<◌, ◌≤◌, ◌^◌, ◌==◌, ◌≢◌, ℕ, [], ◌∷◌, ◌++◌, IfOk, IfErr, IsOk, replicate, slice_index_or, vec_len, vec_capacity, length as list_length, IsTrue, false};
ghost use Rattle.columns_core.specs.Bits.{bits_from, bit_of, word_bits};
ghost use Rattle.std.specs.Int.{bit_at, bytes_low_first};

use crate::bit_runs::{bit_in, eight_bits};
use crate::bitmap::Bitmap;
use columns_base::{Error, Result};
use std::alloc::Global;
use std::marker::Model;

/// A list of truth values that grows, and the room that is left beside it.
#[derive(Debug, Drop)]
pub struct MutableBitmap {
    bytes: Vec<u8>,
    size: usize,
}

impl Model for MutableBitmap {
    ghost use Rattle.std.specs.Prelude.{List, Bool, ℕ, ◌+◌, ◌-◌, ◌*◌, ◌≤◌, ◌<◌, ◌^◌, min, vec_len, vec_capacity};
    ghost use Rattle.columns_core.specs.Bits.{bits_from};

    ghost Value = { List Bool × ℕ };

    ghost view = { λ b. (bits_from b.bytes.items 0 b.size, min (8 * vec_capacity b.bytes) (2 ^ 64 - 1) - b.size) };

    ghost invariant = { λ b. (b.size ≤ 8 * vec_len b.bytes) × (8 * vec_len b.bytes < b.size + 8) };
}

impl MutableBitmap {
    /// No truth value. Takes no memory.
    pub fn new(alloc: Global) -> Self
        ensures { result.0 ≡ [] }
    {
        MutableBitmap {
            bytes: Vec::new(alloc),
            size: 0,
        }
    }

    /// No truth value, and room for as many.
    ///
    /// # Errors
    ///
    /// `Memory`.
    pub fn with_capacity(alloc: Global, capacity: usize) -> Result<Self>
        ensures empty { IfOk result (λ b. b.0 ≡ []) }
        ensures room { IfOk result (λ b. capacity ≤ b.1) }
        ensures err { IfErr result (λ e. e ≡ Error.Memory) }
    {
        Ok(MutableBitmap {
            bytes: Vec::with_capacity(alloc, bytes_for(capacity))?,
            size: 0,
        })
    }

    /// How many truth values there are.
    pub fn len(&self) -> usize
        ensures { result ≡ list_length self.now.0 }
    {
        self.size
    }

    /// Room for as many truth values more.
    ///
    /// # Errors
    ///
    /// `Memory`.
    pub fn reserve(&mut self, additional: usize) -> Result<()>
        ensures same { self.new.0 ≡ self.old.0 }
        ensures ok { IfOk result (λ _. additional ≤ self.new.1) }
        ensures err { IfErr result (λ e. e ≡ Error.Memory) }
        ensures reserved { additional ≤ self.old.1 → IsOk result }
        ensures room { self.old.1 ≤ self.new.1 }
    {
        let Some(size) = self.size.checked_add(additional) else {
            return Err(Error::Memory);
        };
        let more = bytes_for(size) - self.bytes.len();
        self.bytes.reserve(more)?;
        Ok(())
    }

    /// A truth value more. It is not refused while room is left.
    ///
    /// # Errors
    ///
    /// `Memory`; the truth values are then as before.
    pub fn push(&mut self, value: bool) -> Result<()>
        ensures ok { IfOk result (λ _. self.new.0 ≡ self.old.0 ++ value ∷ []) }
        ensures err { IfErr result (λ e. (e ≡ Error.Memory) × (self.new.0 ≡ self.old.0)) }
        ensures reserved { 0 < self.old.1 → IsOk result }
        ensures room { self.old.1 ≤ self.new.1 + 1 }
    {
        if self.size == usize::MAX {
            return Err(Error::Memory);
        }
        make_room(&mut self.bytes, self.size)?;
        put_bit(&mut self.bytes, self.size, value);
        self.size += 1;
        Ok(())
    }

    /// As many equal truth values more.
    ///
    /// # Errors
    ///
    /// `Memory`; the truth values are then as before.
    pub fn extend_constant(&mut self, additional: usize, value: bool) -> Result<()>
        ensures ok { IfOk result (λ _. self.new.0 ≡ self.old.0 ++ replicate additional value) }
        ensures err { IfErr result (λ e. (e ≡ Error.Memory) × (self.new.0 ≡ self.old.0)) }
        ensures reserved { additional ≤ self.old.1 → IsOk result }
        ensures room { list_length self.old.0 + self.old.1 ≤ list_length self.new.0 + self.new.1 }
    {
        if additional <= 64 {
            return self.extend_from_word(full_word(value), additional);
        }
        self.reserve(additional)?;
        let front = self.until_byte(additional);
        self.push_copies(front, value);
        let whole = (additional - front) / 8;
        self.push_whole(whole, value);
        self.push_copies(additional - front - 8 * whole, value);
        Ok(())
    }

    /// `length` bits of packed bytes more, from the bit `offset` on.
    ///
    /// # Errors
    ///
    /// `Memory`; the truth values are then as before.
    pub fn extend_from_slice(&mut self, slice: &[u8], offset: usize, length: usize) -> Result<()>
        requires within { offset + length ≤ 8 * list_length slice.now }
        requires counted { offset + length < 2 ^ 64 }
        ensures ok { IfOk result (λ _. self.new.0 ≡ self.old.0 ++ bits_from slice.now offset length) }
        ensures err { IfErr result (λ e. (e ≡ Error.Memory) × (self.new.0 ≡ self.old.0)) }
        ensures reserved { length ≤ self.old.1 → IsOk result }
        ensures room { list_length self.old.0 + self.old.1 ≤ list_length self.new.0 + self.new.1 }
    {
        self.reserve(length)?;
        let front = self.until_byte(length);
        self.push_single(slice, offset, front);
        let whole = (length - front) / 8;
        self.push_bytes(slice, offset + front, whole);
        let done = front + 8 * whole;
        self.push_single(slice, offset + done, length - done);
        Ok(())
    }

    /// The low `length` bits of a word more, the lowest first.
    ///
    /// # Errors
    ///
    /// `Memory`; the truth values are then as before.
    #[inline(always)]
    pub fn extend_from_word(&mut self, word: u64, length: usize) -> Result<()>
        requires { length ≤ 64 }
        ensures ok { IfOk result (λ _. self.new.0 ≡ self.old.0 ++ word_bits word length) }
        ensures err { IfErr result (λ e. (e ≡ Error.Memory) × (self.new.0 ≡ self.old.0)) }
        ensures reserved { length ≤ self.old.1 → IsOk result }
        ensures room { list_length self.old.0 + self.old.1 ≤ list_length self.new.0 + self.new.1 }
    {
        if has_wide_room(&self.bytes, self.size) {
            put_wide(&mut self.bytes, self.size, word, length);
            self.size += length;
            return Ok(());
        }
        if !self.extend_narrow(word, length) {
            return Err(Error::Memory);
        }
        Ok(())
    }

    // The same where there may be little room. Tells whether there was memory.
    #[cold]
    #[inline(never)]
    fn extend_narrow(&mut self, word: u64, length: usize) -> bool
        requires { length ≤ 64 }
        ensures ok { IsTrue result → self.new.0 ≡ self.old.0 ++ word_bits word length }
        ensures err { result ≡ false → self.new.0 ≡ self.old.0 }
        ensures reserved { length ≤ self.old.1 → IsTrue result }
        ensures room { list_length self.old.0 + self.old.1 ≤ list_length self.new.0 + self.new.1 }
    {
        if self.reserve(length).is_err() {
            return false;
        }
        put_word(&mut self.bytes, self.size, word, length);
        self.size += length;
        true
    }

    /// The truth values in packed bytes, the lowest bit of each byte first. What stands in the last byte behind them may be anything.
    pub fn as_slice(&self) -> &[u8]
        ensures bits { bits_from result.now 0 (list_length self.now.0) ≡ self.now.0 }
        ensures enough { list_length self.now.0 ≤ 8 * list_length result.now }
        ensures least { 8 * list_length result.now < list_length self.now.0 + 8 }
    {
        &self.bytes
    }

    /// The truth values, in memory that can be shared.
    ///
    /// # Errors
    ///
    /// `Memory`.
    pub fn into_bitmap(self) -> Result<Bitmap>
        ensures ok { IfOk result (λ b. b ≡ self.0) }
        ensures err { IfErr result (λ e. e ≡ Error.Memory) }
    {
        let alloc = *self.bytes.allocator();
        Bitmap::from_bytes(alloc, self.bytes, self.size)
    }
}

// Within room that is there.
impl MutableBitmap {
    // How many of these bits fill the last byte.
    fn until_byte(&self, count: usize) -> usize
        ensures within { result ≤ count }
        ensures filled { result < count → (list_length self.now.0 + result) % 8 ≡ 0 }
    {
        let open = self.size % 8;
        if open == 0 { 0 } else { count.min(8 - open) }
    }

    fn push_copies(&mut self, count: usize, value: bool)
        requires { count ≤ self.old.1 }
        ensures same { self.new.0 ≡ self.old.0 ++ replicate count value }
        ensures room { self.old.1 ≤ self.new.1 + count }
    {
        for _i in 0..count {
            self.push(value).unwrap();
        }
    }

    // Whole bytes of equal bits, behind whole bytes. The C library clears stretches of more than 2 KiB by one instruction that repeats.
    fn push_whole(&mut self, count: usize, value: bool)
        requires room { 8 * count ≤ self.old.1 }
        requires filled { 0 < count → list_length self.old.0 % 8 ≡ 0 }
        ensures same { self.new.0 ≡ self.old.0 ++ replicate (8 * count) value }
        ensures room { self.old.1 ≤ self.new.1 + 8 * count }
    {
        let mut rest = count;
        while rest > 0 {
            let piece = rest.min(2048);
            self.push_equal_bytes(piece, value);
            rest -= piece;
        }
    }

    // The same by one call.
    fn push_equal_bytes(&mut self, count: usize, value: bool)
        requires room { 8 * count ≤ self.old.1 }
        requires filled { 0 < count → list_length self.old.0 % 8 ≡ 0 }
        ensures same { self.new.0 ≡ self.old.0 ++ replicate (8 * count) value }
        ensures room { self.old.1 ≤ self.new.1 + 8 * count }
    {
        self.bytes
            .resize(self.bytes.len() + count, full_byte(value))
            .unwrap();
        self.size += 8 * count;
    }

    fn push_single(&mut self, slice: &[u8], offset: usize, length: usize)
        requires within { offset + length ≤ 8 * list_length slice.now }
        requires counted { offset + length < 2 ^ 64 }
        requires room { length ≤ self.old.1 }
        ensures same { self.new.0 ≡ self.old.0 ++ bits_from slice.now offset length }
        ensures room { self.old.1 ≤ self.new.1 + length }
    {
        for i in 0..length {
            self.push(bit_in(slice, offset + i)).unwrap();
        }
    }

    // Whole bytes, behind whole bytes.
    fn push_bytes(&mut self, slice: &[u8], offset: usize, count: usize)
        requires within { offset + 8 * count ≤ 8 * list_length slice.now }
        requires counted { offset + 8 * count < 2 ^ 64 }
        requires room { 8 * count ≤ self.old.1 }
        requires filled { 0 < count → list_length self.old.0 % 8 ≡ 0 }
        ensures same { self.new.0 ≡ self.old.0 ++ bits_from slice.now offset (8 * count) }
        ensures room { self.old.1 ≤ self.new.1 + 8 * count }
    {
        for i in 0..count {
            self.push_eight(eight_bits(slice, offset + 8 * i));
        }
    }

    // The eight bits of a byte, behind whole bytes.
    fn push_eight(&mut self, byte: u8)
        requires room { 8 ≤ self.old.1 }
        requires filled { list_length self.old.0 % 8 ≡ 0 }
        ensures same { self.new.0 ≡ self.old.0 ++ bits_from (byte ∷ []) 0 8 }
        ensures room { self.old.1 ≤ self.new.1 + 8 }
    {
        self.bytes.push(byte).unwrap();
        self.size += 8;
    }
}

impl Bitmap {
    /// The truth values of a slice.
    ///
    /// # Errors
    ///
    /// `Memory`.
    pub fn from_slice(alloc: Global, bits: &[bool]) -> Result<Bitmap>
        ensures ok { IfOk result (λ b. b ≡ bits.now) }
        ensures err { IfErr result (λ e. e ≡ Error.Memory) }
    {
        let mut made = MutableBitmap::with_capacity(alloc, bits.len())?;
        for bit in bits {
            made.push(*bit)?;
        }
        made.into_bitmap()
    }
}

fn bytes_for(bits: usize) -> usize
    ensures enough { bits ≤ 8 * result }
    ensures least { 8 * result < bits + 8 }
{
    bits / 8 + if bits % 8 == 0 { 0 } else { 1 }
}

fn with_bit(byte: u8, at: usize, value: bool) -> u8
    requires { at < 8 }
    ensures set { (bit_at result at == 1) ≡ value }
    ensures others { (i : ℕ) → i < 8 → i ≢ at → bit_at result i ≡ bit_at byte i }
{
    let mask = 1u8 << at;
    if value { byte | mask } else { byte & !mask }
}

// A byte of equal bits.
fn full_byte(value: bool) -> u8
    ensures { bits_from (result ∷ []) 0 8 ≡ replicate 8 value }
{
    if value { 0xff } else { 0 }
}

// A word of equal bits.
fn full_word(value: bool) -> u64
    ensures { (n : ℕ) → n ≤ 64 → word_bits result n ≡ replicate n value }
{
    if value { u64::MAX } else { 0 }
}

// The first bits of a byte, as a number.
fn low_bits(byte: u8, count: usize) -> u8
    requires { count < 8 }
    ensures { result ≡ byte % 2 ^ count }
{
    byte % (1 << count)
}

// The bits of the last byte that are in use, where it is not full.
fn open_bits(bytes: &[u8], size: usize) -> u8
    requires { size ≤ 8 * list_length bytes.now }
    ensures { result ≡ slice_index_or bytes.now (size / 8) 0 % 2 ^ (size % 8) }
{
    if size % 8 == 0 {
        return 0;
    }
    low_bits(bytes[size / 8], size % 8)
}

// A word behind the first bits of a byte.
fn word_behind(word: u64, low: u8, count: usize) -> u128
    requires { count < 8 }
    ensures { result ≡ word * 2 ^ count + low }
{
    (u128::from(word) << count) + u128::from(low)
}

// Writes the low bits of a word behind the first bits, where there is room.
fn put_word(bytes: &mut Vec<u8>, size: usize, word: u64, length: usize)
    requires short { length ≤ 64 }
    requires below { size ≤ 8 * vec_len bytes.old }
    requires above { 8 * vec_len bytes.old < size + 8 }
    requires room { size + length ≤ 8 * vec_capacity bytes.old }
    ensures bits { bits_from bytes.new.items 0 (size + length) ≡ bits_from bytes.old.items 0 size
        ++ word_bits word length }
    ensures below { size + length ≤ 8 * vec_len bytes.new }
    ensures above { 8 * vec_len bytes.new < size + length + 8 }
    ensures capacity { vec_capacity bytes.old ≤ vec_capacity bytes.new }
{
    let open = size % 8;
    let low = open_bits(bytes, size);
    let joined = word_behind(word, low, open).to_le_bytes();
    bytes.truncate(size / 8);
    bytes
        .extend_from_slice(&joined[..bytes_for(open + length)])
        .unwrap();
}

// Whether there is room for sixteen bytes behind the full ones, and 64 bits more are counted.
fn has_wide_room(bytes: &Vec<u8>, size: usize) -> bool
    requires { size ≤ 8 * vec_len bytes.now }
    ensures room { IsTrue result → size / 8 + 16 ≤ vec_capacity bytes.now }
    ensures counted { IsTrue result → size + 64 < 2 ^ 64 }
{
    size < 0xffff_ffff_ffff_ff00 && bytes.capacity() - size / 8 >= 16
}

// As `put_word`, where there is so much room: sixteen bytes are written, and cut again.
fn put_wide(bytes: &mut Vec<u8>, size: usize, word: u64, length: usize)
    requires short { length ≤ 64 }
    requires below { size ≤ 8 * vec_len bytes.old }
    requires above { 8 * vec_len bytes.old < size + 8 }
    requires room { size / 8 + 16 ≤ vec_capacity bytes.old }
    ensures bits { bits_from bytes.new.items 0 (size + length) ≡ bits_from bytes.old.items 0 size
        ++ word_bits word length }
    ensures below { size + length ≤ 8 * vec_len bytes.new }
    ensures above { 8 * vec_len bytes.new < size + length + 8 }
    ensures capacity { vec_capacity bytes.old ≤ vec_capacity bytes.new }
{
    let full = size / 8;
    let open = size % 8;
    let low = open_bits(bytes, size);
    let joined = word_behind(word, low, open);
    let spelled = sixteen_bytes(joined);
    bytes.truncate(full);
    bytes.extend_from_slice(&spelled).unwrap();
    bytes.truncate(full + (open + length + 7) / 8);
}

// The sixteen bytes of a number, the lowest first.
#[inline(always)]
fn sixteen_bytes(n: u128) -> [u8; 16]
    ensures { result ≡ bytes_low_first 0 16 n }
{
    let first = (n % (1 << 64)) as u64;
    let second = (n >> 64) as u64;
    let mut both = [0; 16];
    let (low, high) = both.split_at_mut(8);
    low.copy_from_slice(&first.to_le_bytes());
    high.copy_from_slice(&second.to_le_bytes());
    both
}

// A byte more where the last one is full.
#[tactic(auto, using(crate::proofs::Bits::byte_more))]
fn make_room(bytes: &mut Vec<u8>, size: usize) -> Result<()>
    requires below { size ≤ 8 * vec_len bytes.old }
    requires above { 8 * vec_len bytes.old < size + 8 }
    ensures same { bits_from bytes.new.items 0 size ≡ bits_from bytes.old.items 0 size }
    ensures ok { IfOk result (λ _. size < 8 * vec_len bytes.new) }
    ensures below { size ≤ 8 * vec_len bytes.new }
    ensures above { 8 * vec_len bytes.new ≤ size + 8 }
    ensures err { IfErr result (λ e. (e ≡ Error.Memory) × (8 * vec_len bytes.new < size + 8)) }
    ensures capacity { vec_capacity bytes.old ≤ vec_capacity bytes.new }
    ensures reserved { size < 8 * vec_capacity bytes.old → IsOk result }
{
    if size % 8 != 0 {
        return Ok(());
    }
    bytes.push(0)?;
    Ok(())
}

// Writes the bit behind the first ones.
fn put_bit(bytes: &mut Vec<u8>, size: usize, value: bool)
    requires below { size < 8 * vec_len bytes.old }
    requires above { 8 * vec_len bytes.old ≤ size + 8 }
    ensures bits { bits_from bytes.new.items 0 (size + 1) ≡ bits_from bytes.old.items 0 size ++ value ∷ [] }
    ensures len { vec_len bytes.new ≡ vec_len bytes.old }
    ensures capacity { vec_capacity bytes.new ≡ vec_capacity bytes.old }
{
    let at = size / 8;
    let byte = bytes[at];
    bytes[at] = with_bit(byte, size % 8, value);
}
