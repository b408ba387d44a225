ghost use Rattle.json_model.specs.Faults.{IsFault};
ghost use Rattle.json_model.specs.declared.fault.FieldFault.TheVariants as faults;

use etcd_types::Bytes;
use json_model::FieldFault;
use std::alloc::Global;

/// `WrongKind` with this name, or `NoMemory` where the name finds none.
pub fn wrong_kind(alloc: Global, name: &str) -> FieldFault
    ensures { IsFault result (faults.WrongKind name.now) }
{
    match Bytes::from_slice(alloc, name.as_bytes()) {
        Ok(name) => FieldFault::WrongKind(name),
        Err(e) => FieldFault::from(e),
    }
}

pub(crate) fn bad_number(alloc: Global, name: &str) -> FieldFault
    ensures { IsFault result (faults.BadNumber name.now) }
{
    match Bytes::from_slice(alloc, name.as_bytes()) {
        Ok(name) => FieldFault::BadNumber(name),
        Err(e) => FieldFault::from(e),
    }
}

pub(crate) fn bad_base64(alloc: Global, name: &str) -> FieldFault
    ensures { IsFault result (faults.BadBase64 name.now) }
{
    match Bytes::from_slice(alloc, name.as_bytes()) {
        Ok(name) => FieldFault::BadBase64(name),
        Err(e) => FieldFault::from(e),
    }
}

pub(crate) fn bad_enum(alloc: Global, name: &str) -> FieldFault
    ensures { IsFault result (faults.BadEnum name.now) }
{
    match Bytes::from_slice(alloc, name.as_bytes()) {
        Ok(name) => FieldFault::BadEnum(name),
        Err(e) => FieldFault::from(e),
    }
}

pub(crate) fn unknown_field(alloc: Global, key: &str) -> FieldFault
    ensures { IsFault result (faults.UnknownField key.now) }
{
    match Bytes::from_slice(alloc, key.as_bytes()) {
        Ok(key) => FieldFault::UnknownField(key),
        Err(e) => FieldFault::from(e),
    }
}

pub(crate) fn twice_named(alloc: Global, name: &[u8]) -> FieldFault
    ensures { IsFault result (faults.TwiceNamed name.now) }
{
    match Bytes::from_slice(alloc, name) {
        Ok(name) => FieldFault::TwiceNamed(name),
        Err(e) => FieldFault::from(e),
    }
}
