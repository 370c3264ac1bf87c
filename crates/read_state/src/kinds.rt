//! The five kinds of parts, and what each keeps of its pushes.
ghost use Rattle.std.specs.Prelude.{◌≡◌, ◌⊎◌, ℕ, ◌+◌, ◌-◌, ◌<◌, ◌≤◌, ◌^◌, IfErr, IfOk, OnOk, option_map, [], Some, None};
ghost use Rattle.std.specs.Int.{w64, cast_unsigned};
ghost use Rattle.columns_base.specs.declared.error.Error.{Error};
ghost use Rattle.read_laws.specs.State.{Kept, kept_leaf, kept_list, kept_struct, size};
ghost use Rattle.read_laws.specs.Step.{bit, pushed, is_nullable, is_list, is_struct};
ghost use Rattle.read_state.specs.Kinds.{starts_of, starts, mask, emptied, item_count, kept_primitive, kept_optional, kept_valid, kept_optional_struct, kept_required_struct};

use crate::pushes::{last_length, more, push_places, push_validities};
use columns_base::{Error, Result};
use columns_core::MutableBitmap;
use std::alloc::Global;
use std::mem;

/// One part of the way to a leaf, while level pairs are taken (Dremel paper, section 4.3). It keeps of each push what its kind has: a list the
/// length that the part beneath had, an optional list or struct a validity, each their number.
pub trait Nested {
    // what the part keeps
    ghost kept: { Self → Kept };

    /// Takes a list's lengths and the validities of an optional list or struct, and leaves none. The kinds that have neither stay as they are.
    fn inner(&mut self) -> (Vec<i64>, Option<MutableBitmap>)
        ensures lengths { starts_of result.0.items ≡ starts (kept self.old) }
        ensures validity { option_map (λ b. b.0) result.1 ≡ mask (kept self.old) }
        ensures left { kept self.new ≡ emptied (kept self.old) };

    /// `count` pushes more. The part beneath has the length `first` at the first of them, and one more at each next one where it `grows`.
    ///
    /// # Errors
    ///
    /// `Memory`; the part is then as before.
    fn push_run(&mut self, first: usize, grows: bool, is_valid: bool, count: usize) -> Result<()>
        requires { first + count ≤ 2 ^ 64 }
        ensures ok { OnOk result (kept self.new ≡ pushed (kept self.old) first (bit grows) is_valid count) }
        ensures err { IfErr result (λ e. (e ≡ Error.Memory) × (kept self.new ≡ kept self.old)) };

    /// One push more: the length of the part beneath, and whether the slot is there.
    ///
    /// # Errors
    ///
    /// `Memory`; the part is then as before.
    fn push(&mut self, length: i64, is_valid: bool) -> Result<()>
        requires { size (kept self.old) < 2 ^ 64 - 1 }
        ensures ok { OnOk result (kept self.new ≡ pushed (kept self.old) (cast_unsigned w64 length) 0 is_valid 1) }
        ensures err { IfErr result (λ e. (e ≡ Error.Memory) × (kept self.new ≡ kept self.old)) }
    {
        self.push_run(length.cast_unsigned() as usize, false, is_valid, 1)
    }

    /// Whether the part may be null.
    fn is_nullable(&self) -> bool
        ensures { result ≡ is_nullable (kept self.now) };

    /// Whether the part is a list.
    fn is_repeated(&self) -> bool
        ensures { result ≡ is_list (kept self.now) };

    /// Whether the part is a struct, which is as long as the part beneath it.
    fn is_required(&self) -> bool
        ensures { result ≡ is_struct (kept self.now) };

    /// The number of pushes.
    fn len(&self) -> usize
        ensures { result ≡ size (kept self.now) };

    /// The last length of a list, 0 where there is none or it is negative; of the other kinds the number of pushes.
    fn num_values(&self) -> usize
        ensures { result ≡ item_count (kept self.now) };
}

/// A leaf.
#[derive(Debug, Drop)]
pub struct NestedPrimitive {
    alloc: Global,
    nullable: bool,
    pub(crate) pushes: usize,
}

impl NestedPrimitive {
    /// A leaf without pushes.
    pub fn new(alloc: Global, is_nullable: bool) -> Self
        ensures { kept_primitive result ≡ kept_leaf is_nullable 0 }
    {
        NestedPrimitive {
            alloc,
            nullable: is_nullable,
            pushes: 0,
        }
    }
}

impl Nested for NestedPrimitive {
    ghost use Rattle.read_state.specs.Kinds.{kept_primitive};

    ghost kept = { kept_primitive };

    fn inner(&mut self) -> (Vec<i64>, Option<MutableBitmap>) {
        (Vec::new(self.alloc), None)
    }

    fn push_run(&mut self, first: usize, grows: bool, is_valid: bool, count: usize) -> Result<()> {
        self.pushes = more(self.pushes, count)?;
        Ok(())
    }

    fn is_nullable(&self) -> bool {
        self.nullable
    }

    fn is_repeated(&self) -> bool {
        false
    }

    fn is_required(&self) -> bool {
        false
    }

    fn len(&self) -> usize {
        self.pushes
    }

    fn num_values(&self) -> usize {
        self.pushes
    }
}

/// An optional list.
#[derive(Debug, Drop)]
pub struct NestedOptional {
    pub(crate) lengths: Vec<i64>,
    pub(crate) validity: MutableBitmap,
}

impl NestedOptional {
    /// An optional list without pushes, and room for as many.
    ///
    /// # Errors
    ///
    /// `Memory`.
    pub fn with_capacity(alloc: Global, capacity: usize) -> Result<Self>
        ensures ok { IfOk result (λ p. kept_optional p ≡ kept_list (Some []) []) }
        ensures err { IfErr result (λ e. e ≡ Error.Memory) }
    {
        Ok(NestedOptional {
            lengths: Vec::with_capacity(alloc, capacity)?,
            validity: MutableBitmap::with_capacity(alloc, capacity)?,
        })
    }
}

impl Nested for NestedOptional {
    ghost use Rattle.read_state.specs.Kinds.{kept_optional};

    ghost kept = { kept_optional };

    fn inner(&mut self) -> (Vec<i64>, Option<MutableBitmap>) {
        let alloc = *self.lengths.allocator();
        let lengths = mem::replace(&mut self.lengths, Vec::new(alloc));
        let validity = mem::replace(&mut self.validity, MutableBitmap::new(alloc));
        (lengths, Some(validity))
    }

    fn push_run(&mut self, first: usize, grows: bool, is_valid: bool, count: usize) -> Result<()> {
        self.validity.reserve(count)?;
        push_places(&mut self.lengths, first, grows, count)?;
        push_validities(&mut self.validity, is_valid, count).unwrap();
        Ok(())
    }

    fn is_nullable(&self) -> bool {
        true
    }

    fn is_repeated(&self) -> bool {
        true
    }

    fn is_required(&self) -> bool {
        false
    }

    fn len(&self) -> usize {
        self.lengths.len()
    }

    fn num_values(&self) -> usize {
        last_length(&self.lengths)
    }
}

/// A required list.
#[derive(Debug, Drop)]
pub struct NestedValid {
    pub(crate) lengths: Vec<i64>,
}

impl NestedValid {
    /// A required list without pushes, and room for as many.
    ///
    /// # Errors
    ///
    /// `Memory`.
    pub fn with_capacity(alloc: Global, capacity: usize) -> Result<Self>
        ensures ok { IfOk result (λ p. kept_valid p ≡ kept_list None []) }
        ensures err { IfErr result (λ e. e ≡ Error.Memory) }
    {
        Ok(NestedValid {
            lengths: Vec::with_capacity(alloc, capacity)?,
        })
    }
}

impl Nested for NestedValid {
    ghost use Rattle.read_state.specs.Kinds.{kept_valid};

    ghost kept = { kept_valid };

    fn inner(&mut self) -> (Vec<i64>, Option<MutableBitmap>) {
        let alloc = *self.lengths.allocator();
        let lengths = mem::replace(&mut self.lengths, Vec::new(alloc));
        (lengths, None)
    }

    fn push_run(&mut self, first: usize, grows: bool, is_valid: bool, count: usize) -> Result<()> {
        push_places(&mut self.lengths, first, grows, count)
    }

    fn is_nullable(&self) -> bool {
        false
    }

    fn is_repeated(&self) -> bool {
        true
    }

    fn is_required(&self) -> bool {
        false
    }

    fn len(&self) -> usize {
        self.lengths.len()
    }

    fn num_values(&self) -> usize {
        last_length(&self.lengths)
    }
}

/// An optional struct.
#[derive(Debug, Drop)]
pub struct NestedStruct {
    alloc: Global,
    pub(crate) validity: MutableBitmap,
}

impl NestedStruct {
    /// An optional struct without pushes, and room for as many.
    ///
    /// # Errors
    ///
    /// `Memory`.
    pub fn with_capacity(alloc: Global, capacity: usize) -> Result<Self>
        ensures ok { IfOk result (λ p. kept_optional_struct p ≡ kept_struct (Some []) 0) }
        ensures err { IfErr result (λ e. e ≡ Error.Memory) }
    {
        Ok(NestedStruct {
            alloc,
            validity: MutableBitmap::with_capacity(alloc, capacity)?,
        })
    }
}

impl Nested for NestedStruct {
    ghost use Rattle.read_state.specs.Kinds.{kept_optional_struct};

    ghost kept = { kept_optional_struct };

    fn inner(&mut self) -> (Vec<i64>, Option<MutableBitmap>) {
        let alloc = self.alloc;
        let validity = mem::replace(&mut self.validity, MutableBitmap::new(alloc));
        (Vec::new(alloc), Some(validity))
    }

    fn push_run(&mut self, first: usize, grows: bool, is_valid: bool, count: usize) -> Result<()> {
        push_validities(&mut self.validity, is_valid, count)
    }

    fn is_nullable(&self) -> bool {
        true
    }

    fn is_repeated(&self) -> bool {
        false
    }

    fn is_required(&self) -> bool {
        true
    }

    fn len(&self) -> usize {
        self.validity.len()
    }

    fn num_values(&self) -> usize {
        self.validity.len()
    }
}

/// A required struct.
#[derive(Debug, Drop)]
pub struct NestedStructValid {
    alloc: Global,
    pub(crate) pushes: usize,
}

impl NestedStructValid {
    /// A required struct without pushes.
    pub fn new(alloc: Global) -> Self
        ensures { kept_required_struct result ≡ kept_struct None 0 }
    {
        NestedStructValid { alloc, pushes: 0 }
    }
}

impl Nested for NestedStructValid {
    ghost use Rattle.read_state.specs.Kinds.{kept_required_struct};

    ghost kept = { kept_required_struct };

    fn inner(&mut self) -> (Vec<i64>, Option<MutableBitmap>) {
        (Vec::new(self.alloc), None)
    }

    fn push_run(&mut self, first: usize, grows: bool, is_valid: bool, count: usize) -> Result<()> {
        self.pushes = more(self.pushes, count)?;
        Ok(())
    }

    fn is_nullable(&self) -> bool {
        false
    }

    fn is_repeated(&self) -> bool {
        false
    }

    fn is_required(&self) -> bool {
        true
    }

    fn len(&self) -> usize {
        self.pushes
    }

    fn num_values(&self) -> usize {
        self.pushes
    }
}
