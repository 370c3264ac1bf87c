//! Structs whose fields may be absent.
ghost use Rattle.std.specs.Prelude.{◌≡◌, ◌++◌, OnOk, IfOk, map, option_map};
ghost use Rattle.pq_thrift.specs.Value.{struct, binary, view, field_view};
ghost use Rattle.footer_write.specs.Parts.{part_view, present, one_part};

use pq_thrift::Thrift;
use std::alloc::{AllocError, Global};

/// A field's id, and its value if it stands.
pub type Part = (u8, Option<Thrift>);

/// Appends a field, if it stands.
pub fn push_part(
    fields: &mut Vec<(i16, Thrift)>,
    id: u8,
    value: Option<Thrift>,
) -> Result<(), AllocError>
    ensures { OnOk result (map field_view fields.new.items ≡ map field_view fields.old.items
        ++ one_part id (option_map view value)) }
{
    let Some(value) = value else {
        return Ok(());
    };
    fields.push((i16::from(id), value))?;
    Ok(())
}

/// The struct of the fields that stand.
pub fn struct_of(alloc: Global, parts: Vec<Part>) -> Result<Thrift, AllocError>
    ensures { IfOk result (λ v. view v ≡ struct (present (map part_view parts.items))) }
{
    let mut fields = Vec::with_capacity(alloc, parts.len())?;
    for (id, value) in parts {
        push_part(&mut fields, id, value)?;
    }
    Ok(Thrift::Struct(fields))
}

/// A text.
pub fn text_from(alloc: Global, text: &str) -> Result<Thrift, AllocError>
    ensures { IfOk result (λ v. view v ≡ binary text.now) }
{
    Ok(Thrift::Binary(Vec::from_slice(alloc, text.as_bytes())?))
}
