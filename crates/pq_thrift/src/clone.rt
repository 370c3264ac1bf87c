//! `clone`, written out since a derived one says nothing of a type that holds itself.

ghost use Rattle.std.specs.Prelude.{◌≡◌, IfOk, map};
ghost use Rattle.pq_thrift.specs.Value.{view, pair_view, field_view};

use crate::value::Thrift;
use std::alloc::AllocError;

impl Clone for Thrift {
    ghost is_clone = { λ v w. view w ≡ view v };

    fn clone(&self) -> Result<Thrift, AllocError> {
        copy(self)
    }
}

#[cycle(copy)]
fn copy(value: &Thrift) -> Result<Thrift, AllocError>
    ensures { IfOk result (λ v. view v ≡ view value.now) }
{
    match value {
        Thrift::Bool(b) => Ok(Thrift::Bool(*b)),
        Thrift::I8(n) => Ok(Thrift::I8(*n)),
        Thrift::I16(n) => Ok(Thrift::I16(*n)),
        Thrift::I32(n) => Ok(Thrift::I32(*n)),
        Thrift::I64(n) => Ok(Thrift::I64(*n)),
        Thrift::Double(bytes) => Ok(Thrift::Double(*bytes)),
        Thrift::Binary(bytes) => Ok(Thrift::Binary(Vec::from_slice(*bytes.allocator(), bytes)?)),
        Thrift::List(kind, values) => Ok(Thrift::List(*kind, copy_values(values)?)),
        Thrift::Set(kind, values) => Ok(Thrift::Set(*kind, copy_values(values)?)),
        Thrift::Map(keys, values, pairs) => Ok(Thrift::Map(*keys, *values, copy_pairs(pairs)?)),
        Thrift::Struct(fields) => Ok(Thrift::Struct(copy_fields(fields)?)),
    }
}

#[cycle(copy)]
fn copy_values(values: &Vec<Thrift>) -> Result<Vec<Thrift>, AllocError>
    ensures { IfOk result (λ v. map view v.items ≡ map view values.now.items) }
{
    let mut copies = Vec::with_capacity(*values.allocator(), values.len())?;
    for value in values {
        copies.push(copy(value)?)?;
    }
    Ok(copies)
}

#[cycle(copy)]
fn copy_pairs(pairs: &Vec<(Thrift, Thrift)>) -> Result<Vec<(Thrift, Thrift)>, AllocError>
    ensures { IfOk result (λ v. map pair_view v.items ≡ map pair_view pairs.now.items) }
{
    let mut copies = Vec::with_capacity(*pairs.allocator(), pairs.len())?;
    for (key, value) in pairs {
        let key = copy(key)?;
        copies.push((key, copy(value)?))?;
    }
    Ok(copies)
}

#[cycle(copy)]
fn copy_fields(fields: &Vec<(i16, Thrift)>) -> Result<Vec<(i16, Thrift)>, AllocError>
    ensures { IfOk result (λ v. map field_view v.items ≡ map field_view fields.now.items) }
{
    let mut copies = Vec::with_capacity(*fields.allocator(), fields.len())?;
    for (id, value) in fields {
        copies.push((*id, copy(value)?))?;
    }
    Ok(copies)
}
