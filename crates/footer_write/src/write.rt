//! The call that writes a footer.
ghost use Rattle.std.specs.Prelude.{◌≡◌, ◌⊎◌, ◌↔◌, ◌++◌, IsTrue, OnOk, OnErr, IfErr, Err, IsUtf8};
ghost use Rattle.columns_base.specs.declared.error.Error.TheVariants.{Memory, Overflow};
ghost use Rattle.columns_base.specs.declared.error.V.TheVariants.{V3};
ghost use Rattle.pq_thrift.specs.Spelling.{spell};
ghost use Rattle.pq_files.specs.Written.{footer_value};
ghost use Rattle.footer_write.specs.Fits.{FooterFits};
ghost use Rattle.footer_write.specs.FooterView.{footer_view};
ghost use Rattle.footer_write.specs.Written.{AppendsFooter};

use crate::footer::push_footer;
use crate::numbers::numbers_fit;
use crate::room::spend_footer;
use crate::types::ThriftFileMetaData;
use columns_base::{Error, Result, V};
use pq_tree::SchemaDescriptor;

/// The most bytes that a footer may take.
const MAX_SIZE: usize = 2_147_483_647;

/// The root's name is text.
fn know_name(schema: &SchemaDescriptor)
    ensures { IsUtf8 schema.now.name }
{
    let _name = schema.name();
}

/// Whether the footer's room and the numbers of its schema pass no field.
#[tactic(auto, using(crate::proofs::Rooms::room_is))]
fn footer_fits(metadata: &ThriftFileMetaData) -> bool
    ensures { IsTrue result ↔ FooterFits (footer_view metadata.now) }
{
    spend_footer(MAX_SIZE, metadata).is_some() && numbers_fit(&metadata.schema)
}

/// Appends a footer (Parquet format, `FileMetaData`): the ids that the struct has a field for and the
/// orders of the columns, each once and ascending. Not written are the field ids of nodes, and the
/// precision and scale of a group's converted type, which a reader takes for 0.
///
/// A reader refuses a footer with a fixed length of 0 (Parquet format, `type_length`). It is written
/// all the same.
///
/// # Errors
///
/// - `Overflow(V3)`: the room of the footer passes 2,147,483,647, or a fixed length, a precision or a
///   scale that is to be written does. `out` is as before. The room counts 4,096 bytes for all that
///   it doesn't count by itself, such as `created_by`.
/// - `Memory`: memory ran out. `out` is as before.
#[tactic(auto, using(crate::proofs::Rooms::room_is))]
pub fn write_metadata(metadata: &ThriftFileMetaData, out: &mut Vec<u8>) -> Result<()>
    ensures ok { OnOk result (AppendsFooter (footer_view metadata.now) out.old.items out.new.items) }
    // Which spelling it is: varints have no padding, and ids are steps.
    ensures exact { OnOk result (out.new.items ≡ out.old.items ++ spell (footer_value (footer_view metadata.now))) }
    ensures fits { OnOk result (FooterFits (footer_view metadata.now)) }
    ensures passed { (¬ FooterFits (footer_view metadata.now)) → result ≡ Err (Overflow V3) }
    ensures refused { IfErr result (λ e. (e ≡ Memory) ⊎ ((e ≡ Overflow V3)
        × (¬ FooterFits (footer_view metadata.now)))) }
    ensures err { OnErr result (out.new.items ≡ out.old.items) }
{
    if !footer_fits(metadata) {
        return Err(Error::Overflow(V::V3));
    }
    know_name(&metadata.schema);
    let mut text = Vec::new(*out.allocator());
    push_footer(&mut text, metadata)?;
    out.extend_from_slice(&text)?;
    Ok(())
}
