//! States that keep the same.
ghost use Rattle.std.specs.Prelude.{◌≡◌, ◌↔◌, ◌+◌, ◌*◌, ◌<◌, ◌≤◌, IsTrue, length};
ghost use Rattle.columns_core.specs.Bits.{bits_from, bit_of};
ghost use Rattle.read_state.specs.Kinds.{starts_of, kept_box, all_kept};

use crate::boxes::NestedBox;
use crate::kinds::Nested;
use columns_core::MutableBitmap;

// Whether as many lengths are the same: true only where they are. No length ends the loop, so that several are compared by one instruction.
fn all_lengths(a: &[i64], b: &[i64]) -> bool
    requires { length a.now ≡ length b.now }
    ensures { IsTrue result → starts_of a.now ≡ starts_of b.now }
{
    let mut same = true;
    for i in 0..a.len() {
        same &= a[i].cast_unsigned() == b[i].cast_unsigned();
    }
    same
}

// Whether two lists keep the same lengths.
fn same_lengths(a: &[i64], b: &[i64]) -> bool
    ensures { IsTrue result ↔ starts_of a.now ≡ starts_of b.now }
{
    if a.len() != b.len() {
        return false;
    }
    if all_lengths(a, b) {
        return true;
    }
    for i in 0..a.len() {
        if a[i].cast_unsigned() != b[i].cast_unsigned() {
            return false;
        }
    }
    true
}

// The bit at a place of packed bytes.
fn bit_in(bytes: &[u8], at: usize) -> bool
    requires { at < 8 * length bytes.now }
    ensures { result ≡ bit_of bytes.now at }
{
    let byte = bytes[at / 8];
    (byte >> (at % 8)) & 1 == 1
}

// Whether two bits are the same.
fn agree(x: bool, y: bool) -> bool
    ensures { IsTrue result ↔ x ≡ y }
{
    x == y
}

// Whether the first bytes are the same: true only where they are, as with lengths.
fn all_bytes(a: &[u8], b: &[u8], count: usize) -> bool
    requires left { count ≤ length a.now }
    requires right { count ≤ length b.now }
    ensures { IsTrue result → bits_from a.now 0 (8 * count) ≡ bits_from b.now 0 (8 * count) }
{
    let mut same = true;
    for i in 0..count {
        same &= a[i] == b[i];
    }
    same
}

// How many of the first bits are known to be the same, by whole bytes.
fn known_bits(a: &[u8], b: &[u8], count: usize) -> usize
    requires left { count ≤ 8 * length a.now }
    requires right { count ≤ 8 * length b.now }
    ensures within { result ≤ count }
    ensures same { bits_from a.now 0 result ≡ bits_from b.now 0 result }
{
    let whole = count / 8;
    if all_bytes(a, b, whole) { 8 * whole } else { 0 }
}

// Whether the first bits are the same.
fn same_bits(a: &[u8], b: &[u8], count: usize) -> bool
    requires left { count ≤ 8 * length a.now }
    requires right { count ≤ 8 * length b.now }
    ensures { IsTrue result ↔ bits_from a.now 0 count ≡ bits_from b.now 0 count }
{
    for i in known_bits(a, b, count)..count {
        if !agree(bit_in(a, i), bit_in(b, i)) {
            return false;
        }
    }
    true
}

// Whether two parts keep the same validities.
fn same_validity(a: &MutableBitmap, b: &MutableBitmap) -> bool
    ensures { IsTrue result ↔ a.now.0 ≡ b.now.0 }
{
    if a.len() != b.len() {
        return false;
    }
    same_bits(a.as_slice(), b.as_slice(), a.len())
}

// Whether two parts are of one kind and keep the same.
fn same_part(a: &NestedBox, b: &NestedBox) -> bool
    ensures { IsTrue result ↔ kept_box a.now ≡ kept_box b.now }
{
    match (a, b) {
        (NestedBox::Primitive(a), NestedBox::Primitive(b)) => {
            a.is_nullable() == b.is_nullable() && a.len() == b.len()
        }
        (NestedBox::Optional(a), NestedBox::Optional(b)) => {
            same_lengths(&a.lengths, &b.lengths) && same_validity(&a.validity, &b.validity)
        }
        (NestedBox::Valid(a), NestedBox::Valid(b)) => same_lengths(&a.lengths, &b.lengths),
        (NestedBox::Struct(a), NestedBox::Struct(b)) => same_validity(&a.validity, &b.validity),
        (NestedBox::StructValid(a), NestedBox::StructValid(b)) => a.len() == b.len(),
        _ => false,
    }
}

/// Whether there are equally many parts that keep the same.
pub fn same_parts(a: &[NestedBox], b: &[NestedBox]) -> bool
    ensures { IsTrue result ↔ all_kept a.now ≡ all_kept b.now }
{
    match (a, b) {
        ([], []) => true,
        ([x, xs @ ..], [y, ys @ ..]) => same_part(x, y) && same_parts(xs, ys),
        _ => false,
    }
}
