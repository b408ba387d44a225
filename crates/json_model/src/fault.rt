ghost use Rattle.std.specs.Prelude.{◌≡◌, Some};
ghost use Rattle.json_model.specs.declared.fault.FieldFault.TheVariants.{NoMemory as NoFieldMemory};
ghost use Rattle.json_model.specs.declared.fault.NotReply.TheVariants.{NoMemory as NoReplyMemory};
ghost use Rattle.json_model.specs.Faults.{as_api_fault, as_not_reply, field_fault_text, api_fault_text, not_reply_text};

use etcd_types::{Bytes, NoMemory};
use std::alloc::{AllocError, AllocFailed};
use std::error::Error;
use std::fmt;

/// What is wrong with a field of a JSON object, with the field's plain name, or the key that no field has. It shows as its
/// kind alone.
#[derive(Debug, Drop, PartialEq, Eq)]
pub enum FieldFault {
    /// The value is of another JSON kind than the field.
    WrongKind(Bytes),
    /// A number isn't canonical decimal, or out of range.
    BadNumber(Bytes),
    /// A text is base64 of neither alphabet, has wrong padding or nonzero last bits.
    BadBase64(Bytes),
    UnknownField(Bytes),
    /// A field stands under its plain and its lowerCamelCase name.
    TwiceNamed(Bytes),
    /// An enum has no such name or number.
    BadEnum(Bytes),
    NoMemory,
}

impl fmt::Display for FieldFault {
    ghost output = { λ fault. Some (field_fault_text fault) };

    fn fmt<W: fmt::Write>(&self, f: &mut fmt::Formatter<W>) -> fmt::Result {
        match self {
            FieldFault::WrongKind(_) => f.write_str("wrong kind"),
            FieldFault::BadNumber(_) => f.write_str("bad number"),
            FieldFault::BadBase64(_) => f.write_str("bad base64"),
            FieldFault::UnknownField(_) => f.write_str("unknown field"),
            FieldFault::TwiceNamed(_) => f.write_str("field named twice"),
            FieldFault::BadEnum(_) => f.write_str("bad enum"),
            FieldFault::NoMemory => f.write_str("no memory"),
        }
    }
}

impl Error for FieldFault {}

impl From<NoMemory> for FieldFault {
    ghost from_gives = { λ _ e. e ≡ NoFieldMemory };

    fn from(_e: NoMemory) -> FieldFault {
        FieldFault::NoMemory
    }
}

impl From<AllocError> for FieldFault {
    ghost from_gives = { λ _ e. e ≡ NoFieldMemory };

    fn from(_e: AllocError) -> FieldFault {
        FieldFault::NoMemory
    }
}

impl<T: Drop> From<AllocFailed<T>> for FieldFault {
    ghost from_gives = { λ _ e. e ≡ NoFieldMemory };

    fn from(_e: AllocFailed<T>) -> FieldFault {
        FieldFault::NoMemory
    }
}

/// Why a path and a body are no request: the first fault, in the order path, JSON, fields, extras. A field's fault shows as
/// itself.
#[derive(Debug, Drop, PartialEq, Eq)]
pub enum ApiFault {
    NoSuchPath,
    /// The body isn't one JSON object.
    NotJson,
    /// The field's plain name.
    Unsupported(Bytes),
    Field(FieldFault),
    NoMemory,
}

impl fmt::Display for ApiFault {
    ghost output = { λ fault. Some (api_fault_text fault) };

    fn fmt<W: fmt::Write>(&self, f: &mut fmt::Formatter<W>) -> fmt::Result {
        match self {
            ApiFault::NoSuchPath => f.write_str("no such path"),
            ApiFault::NotJson => f.write_str("not JSON"),
            ApiFault::Unsupported(_) => f.write_str("unsupported"),
            ApiFault::Field(fault) => write!(f, "{fault}"),
            ApiFault::NoMemory => f.write_str("no memory"),
        }
    }
}

impl Error for ApiFault {}

/// Want of memory is `NoMemory`, and else it is `Field`.
impl From<FieldFault> for ApiFault {
    ghost from_gives = { λ e f. f ≡ as_api_fault e };

    fn from(e: FieldFault) -> ApiFault {
        match e {
            FieldFault::NoMemory => ApiFault::NoMemory,
            fault => ApiFault::Field(fault),
        }
    }
}

/// Why bytes of a member are no reply and no watch message.
#[derive(Clone, Copy, Debug, PartialEq, Eq)]
pub enum NotReply {
    /// Exactly where the bytes aren't in the mapping.
    Unreadable,
    NoMemory,
}

impl fmt::Display for NotReply {
    ghost output = { λ fault. Some (not_reply_text fault) };

    fn fmt<W: fmt::Write>(&self, f: &mut fmt::Formatter<W>) -> fmt::Result {
        match self {
            NotReply::Unreadable => f.write_str("unreadable"),
            NotReply::NoMemory => f.write_str("no memory"),
        }
    }
}

impl Error for NotReply {}

impl From<FieldFault> for NotReply {
    ghost from_gives = { λ e f. f ≡ as_not_reply e };

    fn from(e: FieldFault) -> NotReply {
        match e {
            FieldFault::NoMemory => NotReply::NoMemory,
            _ => NotReply::Unreadable,
        }
    }
}

impl From<NoMemory> for NotReply {
    ghost from_gives = { λ _ e. e ≡ NoReplyMemory };

    fn from(_e: NoMemory) -> NotReply {
        NotReply::NoMemory
    }
}
