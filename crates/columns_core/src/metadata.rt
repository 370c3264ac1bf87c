//! An ordered map of texts, which contracts see as the list of its entries.
ghost use Rattle.std.specs.Prelude.{◌≡◌, ◌==◌, IfOk, OnOk, IfErr, [], string_bytes, option_map, length as list_length};
ghost use Rattle.columns_core.specs.Meta.{KeysAscend, text_at, with_text, without_key, texts};

use columns_base::{Error, Result};
use std::alloc::Global;
use std::collections::BTreeMap;
use std::collections::btree_map::Iter;
use std::marker::Model;

/// Texts under keys that ascend, byte by byte (Arrow columnar format, "Custom application metadata").
#[derive(Debug, Drop)]
pub struct Metadata {
    entries: BTreeMap<String, String>,
}

impl Model for Metadata {
    ghost use Rattle.columns_core.specs.Meta.{Meta, text_entries};

    ghost Value = { Meta };

    ghost view = { λ m. text_entries m.entries };
}

impl Metadata {
    /// No entry.
    pub fn new(alloc: Global) -> Metadata
        ensures { result ≡ [] }
    {
        Metadata {
            entries: BTreeMap::new(alloc),
        }
    }

    /// How many entries there are.
    pub fn len(&self) -> usize
        ensures { result ≡ list_length self.now }
    {
        self.entries.len()
    }

    /// Whether there is no entry.
    pub fn is_empty(&self) -> bool
        ensures { result ≡ (list_length self.now == 0) }
    {
        self.entries.is_empty()
    }

    /// Callers learn that the keys ascend, and so that no key stands twice.
    pub fn know(&self)
        ensures { KeysAscend self.now }
    {
        let _len = self.entries.len();
    }

    /// The text of a key.
    pub fn get(&self, key: &str) -> Option<&String>
        ensures { option_map (λ text. string_bytes text.now) result ≡ text_at key.now self.now }
    {
        self.entries.get(key)
    }

    /// Puts a text under a key, and gives the text that stood there.
    ///
    /// # Errors
    ///
    /// `Memory`; the entries are then as before.
    pub fn insert(&mut self, key: String, text: String) -> Result<Option<String>>
        ensures ok { OnOk result (self.new ≡ with_text (string_bytes key) (string_bytes text) self.old) }
        ensures former { IfOk result (λ former. option_map string_bytes former ≡ text_at (string_bytes key) self.old) }
        ensures err { IfErr result (λ e. (e ≡ Error.Memory) × (self.new ≡ self.old)) }
    {
        Ok(self.entries.insert(key, text)?)
    }

    /// Takes a key out, and gives the text that stood there.
    pub fn remove(&mut self, key: &str) -> Option<String>
        ensures former { option_map string_bytes result ≡ text_at key.now self.old }
        ensures others { self.new ≡ without_key key.now self.old }
    {
        self.entries.remove(key)
    }

    /// Goes over the entries, keys ascending.
    pub fn iter(&self) -> Iter<'_, String, String>
        ensures { texts result ≡ self.now }
    {
        self.entries.iter()
    }

    /// An equal map.
    ///
    /// # Errors
    ///
    /// `Memory`.
    pub fn clone(&self, _alloc: Global) -> Result<Metadata>
        ensures ok { IfOk result (λ m. m ≡ self.now) }
        ensures err { IfErr result (λ e. e ≡ Error.Memory) }
    {
        Ok(Metadata {
            entries: self.entries.clone()?,
        })
    }
}

impl PartialEq for Metadata {
    ghost use Rattle.columns_core.specs.Meta.{meta_eq, meta_eq-laws};
    ghost use Rattle.std.specs.Cmp.{partial_equiv_from_equiv};

    ghost eq = { meta_eq };

    ghost laws = { partial_equiv_from_equiv meta_eq-laws };

    fn eq(&self, other: &Metadata) -> bool {
        self.entries == other.entries
    }
}

impl Eq for Metadata {
    ghost use Rattle.columns_core.specs.Meta.{meta_eq-laws};

    ghost laws = { meta_eq-laws };
}
