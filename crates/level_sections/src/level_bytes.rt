//! Levels that wait for their writer, as bytes.
ghost use Rattle.std.specs.Prelude.{◌≡◌, ℕ, ◌+◌, ◌-◌, ◌<◌, ◌≤◌, ◌++◌, ◌∷◌, [], List, IsTrue, drop, length, replicate, slice_set, take};

use std::marker::Model;

// At most 2,048 levels below 256. Behind them are 64 places more, so that a block of levels is always put at once.
#[derive(Drop)]
pub struct LevelBytes {
    bytes: [u8; 2112],
    filled: usize,
}

impl Model for LevelBytes {
    ghost use Rattle.std.specs.Prelude.{List, ℕ, take, ◌≤◌};

    ghost Value = { List ℕ };

    ghost view = { λ t. take t.filled t.bytes };

    ghost invariant = { λ t. t.filled ≤ 2048 };
}

impl LevelBytes {
    pub fn new() -> Self
        ensures { result ≡ [] }
    {
        LevelBytes {
            bytes: [0; 2112],
            filled: 0,
        }
    }

    pub fn clear(&mut self)
        ensures { self.new ≡ [] }
    {
        self.filled = 0;
    }

    pub fn as_slice(&self) -> &[u8]
        ensures { result.now ≡ self.now }
    {
        &self.bytes[..self.filled]
    }

    // So many levels behind those that wait, by the first bytes of a block. They have no room where the answer is no.
    #[inline(always)]
    pub fn push_block(&mut self, bytes: [u8; 64], count: usize) -> bool
        requires few { count ≤ 64 }
        ensures { IsTrue result → self.new ≡ self.old ++ take count bytes }
    {
        if count > 2048 - self.filled {
            return false;
        }
        put_block(&mut self.bytes, self.filled, bytes);
        self.filled += count;
        true
    }

    // So many copies of a level behind those that wait. They have no room where the answer is no.
    #[inline(always)]
    pub fn push_copies(&mut self, level: u32, count: usize) -> bool
        requires low { level < 256 }
        ensures { IsTrue result → self.new ≡ self.old ++ replicate count level }
    {
        if count > 2048 - self.filled {
            return false;
        }
        if count > 16 {
            self.push_many(level, count);
            return true;
        }
        put_sixteen(&mut self.bytes, self.filled, level as u8);
        self.filled += count;
        true
    }

    // Many copies of a level, which have room.
    #[inline(never)]
    fn push_many(&mut self, level: u32, count: usize)
        requires low { level < 256 }
        requires room { length self.old + count ≤ 2048 }
        ensures { self.new ≡ self.old ++ replicate count level }
    {
        put_copies(&mut self.bytes, self.filled, level as u8, count);
        self.filled += count;
    }

    // The number of levels that wait.
    #[inline(always)]
    pub fn len(&self) -> usize
        ensures size { result ≡ length self.now }
        ensures most { result ≤ 2048 }
    {
        self.filled
    }

    // One level behind those that wait. It has no room where the answer is no.
    #[inline(always)]
    pub fn push_level(&mut self, level: u32) -> bool
        requires low { level < 256 }
        ensures { IsTrue result → self.new ≡ self.old ++ level ∷ [] }
    {
        if self.filled >= 2048 {
            return false;
        }
        self.bytes[self.filled] = level as u8;
        self.filled += 1;
        true
    }

    // Some of other levels behind those that wait. They have no room where the answer is no.
    #[inline(always)]
    pub fn push_part(&mut self, others: &LevelBytes, from: usize, to: usize) -> bool
        requires ordered { from ≤ to }
        requires within { to ≤ length others.now }
        ensures { IsTrue result → self.new ≡ self.old ++ take (to - from) (drop from others.now) }
    {
        let count = to - from;
        if count > 2048 - self.filled {
            return false;
        }
        put_some(&mut self.bytes, self.filled, &others.bytes, from, count);
        self.filled += count;
        true
    }

    // Another level in the place of one.
    #[inline(always)]
    pub fn set(&mut self, at: usize, level: u32)
        requires within { at < length self.old }
        requires low { level < 256 }
        ensures { self.new ≡ slice_set self.old at level }
    {
        self.bytes[at] = level as u8;
    }

    // A level and copies of another one, so many together. They have no room where the answer is no.
    #[inline(always)]
    pub fn push_first(&mut self, first: u32, level: u32, count: usize) -> bool
        requires first { first < 256 }
        requires low { level < 256 }
        requires some { 0 < count }
        ensures { IsTrue result → self.new ≡ self.old ++ first ∷ replicate (count - 1) level }
    {
        if self.filled >= 2048 {
            return false;
        }
        self.bytes[self.filled] = first as u8;
        self.filled += 1;
        self.push_copies(level, count - 1)
    }
}

// Sixteen bytes from a place on.
#[inline(always)]
fn sixteen_at(bytes: &[u8], at: usize) -> [u8; 16]
    requires { at + 16 ≤ length bytes.now }
    ensures { result ≡ take 16 (drop at bytes.now) }
{
    let mut part = [0; 16];
    part.copy_from_slice(&bytes[at..at + 16]);
    part
}

// Sixteen bytes take their places, and those before them stay.
#[inline(always)]
fn put_few(places: &mut [u8], at: usize, bytes: [u8; 16])
    requires { at + 16 ≤ length places.old }
    ensures len { length places.new ≡ length places.old }
    ensures front { take (at + 16) places.new ≡ take at places.old ++ bytes }
{
    places[at..at + 16].copy_from_slice(&bytes);
}

// So many bytes of others take their places, and the bytes before them stay.
#[inline(never)]
fn put_part(places: &mut [u8], at: usize, others: &[u8], from: usize, count: usize)
    requires room { at + count ≤ length places.old }
    requires within { from + count ≤ length others.now }
    ensures len { length places.new ≡ length places.old }
    ensures front { take (at + count) places.new ≡ take at places.old ++ take count (drop from others.now) }
{
    places[at..at + count].copy_from_slice(&others[from..from + count]);
}

// Some bytes of others take their places, few of them at once, and the bytes before them stay.
#[inline(always)]
fn put_some(places: &mut [u8], at: usize, others: &[u8], from: usize, count: usize)
    requires room { at + count + 16 ≤ length places.old }
    requires within { from + count + 16 ≤ length others.now }
    ensures len { length places.new ≡ length places.old }
    ensures front { take (at + count) places.new ≡ take at places.old ++ take count (drop from others.now) }
{
    if count > 16 {
        return put_part(places, at, others, from, count);
    }
    put_few(places, at, sixteen_at(others, from))
}

// 64 bytes take their places, and those before them stay.
#[inline(always)]
fn put_block(places: &mut [u8], at: usize, bytes: [u8; 64])
    requires { at + 64 ≤ length places.old }
    ensures len { length places.new ≡ length places.old }
    ensures front { take (at + 64) places.new ≡ take at places.old ++ bytes }
{
    places[at..at + 64].copy_from_slice(&bytes);
}

// Sixteen copies of a byte take their places, and the bytes before them stay.
#[inline(always)]
fn put_sixteen(places: &mut [u8], at: usize, byte: u8)
    requires { at + 16 ≤ length places.old }
    ensures len { length places.new ≡ length places.old }
    ensures front { take (at + 16) places.new ≡ take at places.old ++ replicate 16 byte }
{
    places[at..at + 16].copy_from_slice(&[byte; 16]);
}

// So many copies of a byte take their places, and the bytes before them stay.
#[inline(always)]
fn put_copies(places: &mut [u8], at: usize, byte: u8, count: usize)
    requires { at + count ≤ length places.old }
    ensures len { length places.new ≡ length places.old }
    ensures front { take (at + count) places.new ≡ take at places.old ++ replicate count byte }
{
    places[at..at + count].fill(byte);
}
