//! Metadata: texts under keys that ascend.

ghost use Rattle.std.specs.Prelude.{◌≡◌, ◌++◌, IfOk, OnOk, string_bytes};
ghost use Rattle.columns_core.specs.Meta.{KeysAscend, texts};
ghost use Rattle.schema_codec.specs.Ascending.{is_ascending};
ghost use Rattle.schema_codec.specs.Parse.{Gives, items_at};
ghost use Rattle.schema_codec.specs.Reading.{entry_at, metadata_at};
ghost use Rattle.schema_codec.specs.Spelling.{entry_bytes, metadata_bytes};

use crate::fault::Refusal;
use crate::numbers::{take_count, take_text};
use crate::writing::{push_count, push_text};
use columns_base::Result as Outcome;
use columns_core::Metadata;
use std::alloc::{AllocError, Global};

type Entry = (String, String);

fn take_entry(alloc: Global, bytes: &[u8]) -> Result<(Entry, &[u8]), Refusal>
    ensures { Gives (λ x. ((string_bytes x.0.0, string_bytes x.0.1), x.1.now)) result (entry_at bytes.now) }
{
    let (key, rest) = take_text(alloc, bytes)?;
    let (text, rest) = take_text(alloc, rest)?;
    Ok(((key, text), rest))
}

/// As many entries as a count states. The count is no ground to reserve memory.
fn take_entries(alloc: Global, count: u32, bytes: &[u8]) -> Result<(Vec<Entry>, &[u8]), Refusal>
    ensures { Gives (λ x. (texts x.0.items, x.1.now)) result (items_at entry_at count bytes.now) }
{
    let mut entries = Vec::new(alloc);
    let mut rest = bytes;
    'entries: for _ in 0..count {
        let (entry, after) = take_entry(alloc, rest)?;
        entries.push(entry)?;
        rest = after;
    }
    Ok((entries, rest))
}

/// Whether each key comes before the next.
fn keys_ascend(entries: &[Entry]) -> bool
    ensures { result ≡ is_ascending (texts entries.now) }
{
    for i in 1..entries.len() {
        if entries[i - 1].0 >= entries[i].0 {
            return false;
        }
    }
    true
}

fn metadata_from(alloc: Global, entries: Vec<Entry>) -> Outcome<Metadata>
    requires { KeysAscend (texts entries.items) }
    ensures { IfOk result (λ m. m ≡ texts entries.items) }
{
    let mut metadata = Metadata::new(alloc);
    for (key, text) in entries {
        metadata.insert(key, text)?;
    }
    Ok(metadata)
}

#[tactic(auto, unfolding(crate::specs::Reading::metadata_at))]
pub fn take_metadata(alloc: Global, bytes: &[u8]) -> Result<(Metadata, &[u8]), Refusal>
    ensures { Gives (λ x. (x.0, x.1.now)) result (metadata_at bytes.now) }
{
    let (count, rest) = take_count(bytes)?;
    let (entries, rest) = take_entries(alloc, count, rest)?;
    if !keys_ascend(&entries) {
        return Err(Refusal::Unreadable);
    }
    match metadata_from(alloc, entries) {
        Ok(metadata) => Ok((metadata, rest)),
        Err(_) => Err(Refusal::Memory),
    }
}

pub fn push_metadata(out: &mut Vec<u8>, metadata: &Metadata) -> Result<(), AllocError>
    ensures { OnOk result (out.new.items ≡ out.old.items ++ metadata_bytes metadata.now) }
{
    push_count(out, metadata.len())?;
    for (key, text) in metadata.iter() {
        push_text(out, key.as_str())?;
        push_text(out, text.as_str())?;
    }
    Ok(())
}
