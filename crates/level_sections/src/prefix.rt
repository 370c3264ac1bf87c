//! The length in front of a section.
ghost use Rattle.std.specs.Prelude.{◌≡◌, ℕ, ◌+◌, ◌≤◌, ◌++◌, List, length};
ghost use Rattle.pq_numbers.specs.Texts.{number_of};

// Writes a number into four bytes that stand at a place, lowest first.
pub fn put_number(buffer: &mut Vec<u8>, at: usize, number: u32)
    requires { at + 4 ≤ length buffer.old.items }
    ensures { (front four back : List ℕ) → length front ≡ at → length four ≡ 4
        → buffer.old.items ≡ front ++ (four ++ back) → (head : List ℕ) × (length head ≡ 4)
        × (number_of head ≡ number) × (buffer.new.items ≡ front ++ (head ++ back)) }
{
    let [a, b, c, d] = number.to_le_bytes();
    buffer[at] = a;
    buffer[at + 1] = b;
    buffer[at + 2] = c;
    buffer[at + 3] = d;
}
