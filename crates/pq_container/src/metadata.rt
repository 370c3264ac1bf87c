//! The whole footer of a file.
ghost use Rattle.std.specs.Prelude.{◌≡◌, ◌<◌, ◌≤◌, ℕ, List, IfOk, IfErr, IfSome, OnOk, length, map};
ghost use Rattle.pq_tree.specs.Columns.{columns_in};
ghost use Rattle.pq_tree.specs.Described.{GroupsAreDescribed};
ghost use Rattle.pq_metadata.specs.FlatFooter.{flat_form};
ghost use Rattle.pq_tree.specs.Forest.{RefusesTrees};
ghost use Rattle.pq_metadata.specs.Frame.{HasFrame, EndsEncrypted, footer_of};
ghost use Rattle.pq_metadata.specs.Metadata.{IsFooterText, RefusesMetadata, RefusesFile};
ghost use Rattle.pq_tree.specs.Tree.{schema_nesting};
ghost use Rattle.pq_tree.specs.TreeViews.{pairs_view, metadata_view};
ghost use Rattle.pq_tree.specs.Views.{flat_view, key_view};
ghost use Rattle.pq_numbers.specs.Texts.{Begins};

use crate::encryption::says_encrypted;
use crate::footer::footer_from;
use crate::footer_bytes::straight_footer;
use crate::frame::{ends_encrypted, read_frame};
use columns_base::{Error, N, S};
use pq_thrift::read_thrift;
use pq_tree::{FileMetaData, FlatFooter, KeyValue, SchemaDescriptor, describe_groups, read_trees};
use std::alloc::Global;

fn some_pairs(pairs: Vec<KeyValue>) -> Option<Vec<KeyValue>>
    ensures same { pairs_view result ≡ map key_view pairs.items }
    ensures some { IfSome result (λ keys. 0 < length keys.items) }
{
    if pairs.is_empty() {
        return None;
    }
    Some(pairs)
}

/// The footer with its nodes put together to trees.
fn metadata_of(alloc: Global, footer: FlatFooter) -> Result<FileMetaData, Error>
    ensures found { IfOk result (λ m. flat_form (metadata_view m) ≡ flat_view footer) }
    ensures described { IfOk result (λ m. GroupsAreDescribed (columns_in
        (metadata_view m).schema.fields) m.row_groups.items) }
    ensures shallow { IfOk result (λ m. schema_nesting (metadata_view m).schema ≤ 128) }
    ensures pairs { IfOk result (λ m. IfSome m.key_value_metadata (λ keys. 0 < length keys.items)) }
    ensures refused { IfErr result (RefusesTrees (flat_view footer).nodes footer.num_children) }
{
    let fields = read_trees(alloc, &footer.elements, footer.num_children)?;
    let schema_descr = SchemaDescriptor::new(alloc, footer.name, fields)?;
    let mut row_groups = footer.row_groups;
    describe_groups(alloc, &mut row_groups, schema_descr.columns())?;
    Ok(FileMetaData {
        schema_descr,
        row_groups,
        key_value_metadata: some_pairs(footer.key_value_metadata),
    })
}

/// The footer that stands in front, where it is in the spelling that most writers choose. An error
/// says nothing of it.
fn straight_metadata(alloc: Global, bytes: &[u8]) -> Result<FileMetaData, Error>
    ensures found { IfOk result (λ m. Begins IsFooterText bytes.now (metadata_view m)) }
    ensures described { IfOk result (λ m. GroupsAreDescribed (columns_in
        (metadata_view m).schema.fields) m.row_groups.items) }
    ensures shallow { IfOk result (λ m. schema_nesting (metadata_view m).schema ≤ 128) }
    ensures pairs { IfOk result (λ m. IfSome m.key_value_metadata (λ keys. 0 < length keys.items)) }
{
    let footer = straight_footer(alloc, bytes)?;
    metadata_of(alloc, footer)
}

/// The footer that stands in front, read as a Thrift value first.
fn metadata_by_value(alloc: Global, bytes: &[u8]) -> Result<FileMetaData, Error>
    ensures found { IfOk result (λ m. Begins IsFooterText bytes.now (metadata_view m)) }
    ensures described { IfOk result (λ m. GroupsAreDescribed (columns_in
        (metadata_view m).schema.fields) m.row_groups.items) }
    ensures shallow { IfOk result (λ m. schema_nesting (metadata_view m).schema ≤ 128) }
    ensures pairs { IfOk result (λ m. IfSome m.key_value_metadata (λ keys. 0 < length keys.items)) }
    ensures refused { IfErr result (RefusesMetadata bytes.now) }
{
    let (value, _) = read_thrift(alloc, bytes)?;
    if says_encrypted(&value) {
        return Err(Error::NotYetImplemented(N::N2));
    }
    let footer = footer_from(alloc, &value)?;
    metadata_of(alloc, footer)
}

/// Reads the footer that stands in front (Parquet format, `FileMetaData`). What follows it is not
/// looked at. Each chunk has the descriptor of the leaf at its place, and none where there is no
/// such leaf. A list without pairs counts as none.
///
/// # Errors
///
/// - `NotYetImplemented(N7)`: its struct or its tree nests past 128.
/// - `NotYetImplemented(N2)`: it says that the file or a column is encrypted.
/// - `OutOfSpec(S1)`: neither, and no footer stands there.
/// - `Memory`: memory ran out.
pub fn read_footer_metadata(alloc: Global, bytes: &[u8]) -> Result<FileMetaData, Error>
    ensures found { IfOk result (λ m. Begins IsFooterText bytes.now (metadata_view m)) }
    ensures described { IfOk result (λ m. GroupsAreDescribed (columns_in
        (metadata_view m).schema.fields) m.row_groups.items) }
    ensures shallow { IfOk result (λ m. schema_nesting (metadata_view m).schema ≤ 128) }
    ensures pairs { IfOk result (λ m. IfSome m.key_value_metadata (λ keys. 0 < length keys.items)) }
    ensures refused { IfErr result (RefusesMetadata bytes.now) }
{
    match straight_metadata(alloc, bytes) {
        Ok(metadata) => Ok(metadata),
        Err(_) => metadata_by_value(alloc, bytes),
    }
}

/// Reads the footer of a whole file (Parquet format, "File format" and `FileMetaData`). Each chunk
/// has the descriptor of the leaf at its place, and none where there is no such leaf. A list without
/// pairs counts as none.
///
/// # Errors
///
/// - `NotYetImplemented(N2)`: the file ends in `PARE`, or its footer says that the file or a
///   column is encrypted.
/// - `NotYetImplemented(N7)`: the footer's struct or its tree nests past 128.
/// - `OutOfSpec(S1)`: none of these, and the file has no frame, or no footer stands in it.
/// - `Memory`: memory ran out.
pub fn read_metadata(alloc: Global, file: &[u8]) -> Result<FileMetaData, Error>
    ensures framed { OnOk result (HasFrame file.now) }
    ensures found { IfOk result (λ m. Begins IsFooterText (footer_of file.now) (metadata_view m)) }
    ensures described { IfOk result (λ m. GroupsAreDescribed (columns_in
        (metadata_view m).schema.fields) m.row_groups.items) }
    ensures shallow { IfOk result (λ m. schema_nesting (metadata_view m).schema ≤ 128) }
    ensures pairs { IfOk result (λ m. IfSome m.key_value_metadata (λ keys. 0 < length keys.items)) }
    ensures refused { IfErr result (RefusesFile file.now) }
{
    if ends_encrypted(file) {
        return Err(Error::NotYetImplemented(N::N2));
    }
    let Some(length) = read_frame(file) else {
        return Err(Error::OutOfSpec(S::S1));
    };
    let (_, behind) = file.split_at(file.len() - 8 - length);
    let (footer, _) = behind.split_at(length);
    read_footer_metadata(alloc, footer)
}
