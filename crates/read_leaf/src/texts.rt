//! Texts in UTF-8.
ghost use Rattle.std.specs.Prelude.{◌≡◌, ◌↔◌, ◌+◌, ◌<◌, ◌≤◌, IsTrue, true, sum, length};
ghost use Rattle.std.specs.Str.{is_utf8, IsCharBoundary};
ghost use Rattle.read_leaf.specs.Strings.{cut_off, is_each, IsText};

use crate::cut::{front, skip};

/// Whether the bytes are a text.
#[tactic(auto, unfolding(crate::specs::Strings::IsText))]
pub fn is_text(bytes: &[u8]) -> bool
    ensures { IsTrue result ↔ IsText bytes.now }
{
    if bytes.is_ascii() {
        return true;
    }
    match std::str::from_utf8(bytes) {
        Ok(_) => true,
        Err(_) => false,
    }
}

// Whether no character goes on at this place.
fn is_boundary(bytes: &[u8], at: usize) -> bool
    requires { at ≤ length bytes.now }
    ensures { IsTrue result → IsCharBoundary bytes.now at }
{
    if bytes.len() <= at {
        return true;
    }
    bytes[at] < 0x80 || 0xc0 <= bytes[at]
}

// Whether a text may be cut behind each of the strings of these lengths.
fn are_boundaries(bytes: &[u8], lengths: &[usize]) -> bool
    requires within { sum lengths.now ≤ length bytes.now }
    requires text { IsText bytes.now }
    ensures { IsTrue result → is_each is_utf8 (cut_off lengths.now bytes.now) ≡ true }
{
    let mut rest = bytes;
    for length in lengths {
        if !is_boundary(rest, *length) {
            return false;
        }
        rest = skip(rest, *length);
    }
    true
}

// Whether each of the strings of these lengths is a text, one after another.
fn is_each_text(bytes: &[u8], lengths: &[usize]) -> bool
    requires { sum lengths.now ≤ length bytes.now }
    ensures { result ≡ is_each is_utf8 (cut_off lengths.now bytes.now) }
{
    let mut rest = bytes;
    for length in lengths {
        if !is_text(front(rest, *length)) {
            return false;
        }
        rest = skip(rest, *length);
    }
    true
}

// Whether all bytes are one text, which may be cut behind each of the strings of these lengths.
fn is_cut_text(bytes: &[u8], lengths: &[usize]) -> bool
    requires { sum lengths.now ≤ length bytes.now }
    ensures { IsTrue result → is_each is_utf8 (cut_off lengths.now bytes.now) ≡ true }
{
    if !is_text(bytes) {
        return false;
    }
    are_boundaries(bytes, lengths)
}

/// Whether all strings of these lengths, cut one after another off the front of the bytes, are texts. All bytes are asked at once first.
pub fn are_texts(bytes: &[u8], lengths: &[usize]) -> bool
    requires { sum lengths.now ≤ length bytes.now }
    ensures { result ≡ is_each is_utf8 (cut_off lengths.now bytes.now) }
{
    if bytes.is_ascii() {
        return true;
    }
    if is_cut_text(bytes, lengths) {
        return true;
    }
    is_each_text(bytes, lengths)
}
