//! The types of a dictionary's keys and entries.
ghost use Rattle.std.specs.Prelude.{◌≡◌, ◌⊎◌, ◌↔◌, ◌≤◌, false, true, option_map, IfErr, IfOk, IsErrOf, IsTrue, MatchOption};
ghost use Rattle.columns_array.specs.Boxed.{boxed};
ghost use Rattle.columns_base.specs.declared.error.Error.TheVariants.{Memory, NotYetImplemented};
ghost use Rattle.columns_base.specs.declared.error.N.TheVariants.{N5};
ghost use Rattle.columns_core.specs.Shapes.{base};
ghost use Rattle.columns_core.specs.View.{type_view};
ghost use Rattle.columns_slots.specs.Types.{entry_type, key_type};
ghost use Rattle.dictionary_leaves.specs.Dictionaries.{AreParts, AreRead, CannotRead, entry_nests, is_dictionary_read, is_entry_read, may_be_entry};
ghost use Rattle.pq_headline.specs.FieldReasons.{key_room};
ghost use Rattle.pq_pages.specs.Outcomes.{page_shown};
ghost use Rattle.pq_tree.specs.Views.{physical_view};
ghost use Rattle.read_column.specs.Queues.{is_leaf_alone};
ghost use Rattle.read_types.specs.Reads.{physical_of, types_of};

use crate::kinds::entries_of;
use columns_array::ArrayBox;
use columns_base::{Error, N, PhysicalType, Result, V};
use columns_core::{DataType, IntegerType};
use dictionary_columns::key_page;
use pq_pages::{DictPage, Page};
use read_state::InitNested;
use read_types::LeafKind;
use std::alloc::Global;
use std::marker::Model;

/// The types of a dictionary's keys and entries, and how the entries are read.
#[derive(Drop)]
pub struct EntryType {
    key: IntegerType,
    data_type: DataType,
    kind: LeafKind,
}

/// The entries of a dictionary page as an array of their type, and the dictionary page of their keys.
#[derive(Drop)]
pub struct ReadEntries {
    pub array: ArrayBox,
    pub keys: Page,
}

impl Model for EntryType {
    ghost use Rattle.std.specs.Prelude.{◌≡◌, true};
    ghost use Rattle.std.specs.Coded.{codes};
    ghost use Rattle.columns_core.specs.Shapes.{base};
    ghost use Rattle.columns_core.specs.TypeCode.{type_code};
    ghost use Rattle.columns_core.specs.View.{type_view};
    ghost use Rattle.read_types.specs.Reads.{types_of};
    ghost use Rattle.dictionary_leaves.specs.EntryTypes.{EntryReading};

    ghost Value = { EntryReading };

    ghost coded = { Prim.hlevel (codes, type_code) };

    ghost view = { λ e. record { key = e.key; data_type = type_view e.data_type; kind = e.kind } };

    ghost invariant = { λ e. types_of e.kind (base (type_view e.data_type)) ≡ true };
}

// The type of a dictionary's entries.
fn entries_type(data_type: &DataType) -> Option<&DataType>
    ensures { option_map (λ t. type_view t.now) result ≡ entry_type (base (type_view data_type.now)) }
{
    match data_type.base() {
        DataType::Dictionary(_, value, _) => Some(value),
        _ => None,
    }
}

// The type of its keys.
fn keys_type(data_type: &DataType) -> Option<IntegerType>
    ensures { result ≡ key_type (base (type_view data_type.now)) }
{
    match data_type.base() {
        DataType::Dictionary(key, _, _) => Some(*key),
        _ => None,
    }
}

// Whether values of this type may be the entries of a dictionary.
fn can_be_entry(data_type: &DataType) -> bool
    ensures { result ≡ may_be_entry (base (type_view data_type.now)) }
{
    match data_type.base() {
        DataType::Boolean => false,
        DataType::Null => false,
        DataType::Decimal(_, _) => false,
        DataType::Interval(_) => false,
        _ => true,
    }
}

// Whether they may be beneath lists and structs too.
fn may_nest(data_type: &DataType) -> bool
    ensures { result ≡ entry_nests (base (type_view data_type.now)) }
{
    match data_type.base() {
        DataType::UInt64 => false,
        DataType::Timestamp(_, _) => false,
        _ => true,
    }
}

// Whether a leaf is all of the way.
fn stands_alone(parts: &[InitNested]) -> bool
    ensures { result ≡ is_leaf_alone parts.now }
{
    match parts {
        [InitNested::Primitive(_)] => true,
        _ => false,
    }
}

// How entries of this type are read at the end of such a way; none where they are not read yet.
fn entry_kind(
    parts: &[InitNested],
    entries: &DataType,
    physical_type: PhysicalType,
) -> Option<LeafKind>
    ensures { MatchOption result (is_entry_read parts.now (base (type_view entries.now)) (physical_view physical_type)
        ≡ false) (λ k. (physical_of k ≡ physical_view physical_type)
        × (types_of k (base (type_view entries.now)) ≡ true) × (may_be_entry (base (type_view entries.now)) ≡ true)
        × (is_entry_read parts.now (base (type_view entries.now)) (physical_view physical_type) ≡ true)) }
{
    if !can_be_entry(entries) {
        return None;
    }
    if !may_nest(entries) && !stands_alone(parts) {
        return None;
    }
    LeafKind::of(entries, physical_type)
}

// Whether keys of the type number so many entries.
fn has_room(key: IntegerType, count: usize) -> bool
    ensures { IsTrue result ↔ count ≤ key_room key }
{
    match key {
        IntegerType::Int8 => count <= 0x80,
        IntegerType::Int16 => count <= 0x8000,
        IntegerType::Int32 => count <= 0x8000_0000,
        IntegerType::Int64 => count <= 0x8000_0000_0000_0000,
        IntegerType::UInt8 => count <= 0x100,
        IntegerType::UInt16 => count <= 0x1_0000,
        IntegerType::UInt32 => count <= 0x1_0000_0000,
        IntegerType::UInt64 => true,
    }
}

// The entries of a dictionary page, and the page of their keys.
fn read_page(
    alloc: Global,
    key: IntegerType,
    data_type: &DataType,
    kind: LeafKind,
    page: &DictPage,
) -> Result<ReadEntries>
    requires { types_of kind (base (type_view data_type.now)) ≡ true }
    ensures ok { IfOk result
        (λ v. AreRead
        (record { key = key; data_type = type_view data_type.now; kind = kind }) page.now.num_values
        page.now.buffer.items (boxed v.array) (page_shown v.keys)) }
    ensures err { IfErr result (λ e. CannotRead
        (record { key = key; data_type = type_view data_type.now; kind = kind }) page.now.num_values
        page.now.buffer.items e) }
{
    if !has_room(key, page.num_values) {
        return Err(Error::Overflow(V::V2));
    }
    let data_type = match data_type.clone(alloc) {
        Ok(data_type) => data_type,
        Err(error) => return Err(error),
    };
    let array = match entries_of(kind, alloc, &page.buffer, page.num_values, data_type) {
        Ok(array) => array,
        Err(error) => return Err(error),
    };
    match key_page(alloc, key, page.num_values) {
        Ok(keys) => Ok(ReadEntries { array, keys }),
        Err(error) => Err(error),
    }
}

impl EntryType {
    /// The parts of this dictionary type, whose entries are stored under this physical type, at the end of such a way.
    ///
    /// # Errors
    ///
    /// N5 exactly where the type is no dictionary, or where entries of its entry type are not read under this physical type at the end of such a way;
    /// `Memory`.
    #[tactic(auto, using(crate::proofs::Served::not_keyed, crate::proofs::Served::not_entered, crate::proofs::Served::read_as))]
    pub fn try_new(
        alloc: Global,
        parts: &[InitNested],
        data_type: &DataType,
        physical_type: PhysicalType,
    ) -> Result<Self>
        ensures ok { IfOk result (λ e. AreParts (type_view data_type.now) (physical_view physical_type) e) }
        ensures unserved { IsErrOf result (NotYetImplemented N5)
            ↔ (is_dictionary_read parts.now (base (type_view data_type.now)) (physical_view physical_type) ≡ false) }
        ensures err { IfErr result (λ e. (e ≡ Memory) ⊎ (e ≡ NotYetImplemented N5)) }
    {
        let Some(key) = keys_type(data_type) else {
            return Err(Error::NotYetImplemented(N::N5));
        };
        let Some(entries) = entries_type(data_type) else {
            return Err(Error::NotYetImplemented(N::N5));
        };
        let Some(kind) = entry_kind(parts, entries, physical_type) else {
            return Err(Error::NotYetImplemented(N::N5));
        };
        match entries.clone(alloc) {
            Ok(data_type) => Ok(EntryType {
                key,
                data_type,
                kind,
            }),
            Err(error) => Err(error),
        }
    }

    /// The type of the keys.
    pub fn key(&self) -> IntegerType
        ensures { result ≡ self.now.key }
    {
        self.key
    }

    /// The entries of a dictionary page as an array of their type, and the dictionary page of their keys.
    ///
    /// # Errors
    ///
    /// V2 where the page has more entries than the keys' type numbers; S6 where its body is cut, S7 where an entry is no value of the type, used or
    /// not; V1 where all are there and have more bytes than the type's offsets count; `Memory`.
    pub fn read(&self, alloc: Global, page: &DictPage) -> Result<ReadEntries>
        ensures ok { IfOk result (λ v. AreRead self.now page.now.num_values page.now.buffer.items (boxed v.array)
            (page_shown v.keys)) }
        ensures err { IfErr result (λ e. CannotRead self.now page.now.num_values page.now.buffer.items e) }
    {
        read_page(alloc, self.key, &self.data_type, self.kind, page)
    }
}
