//! How a fault of a request is worded where it is refused.
ghost use Rattle.std.specs.Prelude.{◌≡◌, IfOk};
ghost use Rattle.std.specs.Option.{option_copied};
ghost use Rattle.json_model.specs.FaultNames.{field_named, named_in, fault_words};

use crate::fault::{ApiFault, FieldFault};
use etcd_types::{Bytes, NoMemory};
use std::alloc::Global;

impl FieldFault {
    /// The name of the field that the fault is of.
    pub fn name(&self) -> Option<&Bytes>
        ensures { option_copied result ≡ field_named self.now }
    {
        match self {
            FieldFault::WrongKind(name)
            | FieldFault::BadNumber(name)
            | FieldFault::BadBase64(name)
            | FieldFault::UnknownField(name)
            | FieldFault::TwiceNamed(name)
            | FieldFault::BadEnum(name) => Some(name),
            FieldFault::NoMemory => None,
        }
    }
}

impl ApiFault {
    /// The name that the fault has.
    pub fn name(&self) -> Option<&Bytes>
        ensures { option_copied result ≡ named_in self.now }
    {
        match self {
            ApiFault::Unsupported(name) => Some(name),
            ApiFault::Field(fault) => fault.name(),
            ApiFault::NoSuchPath | ApiFault::NotJson | ApiFault::NoMemory => None,
        }
    }

    /// The words of a refusal for the fault, with its name.
    pub fn words(&self, alloc: Global) -> Result<Bytes, NoMemory>
        ensures { IfOk result (λ words. words ≡ fault_words self.now) }
    {
        let kind = format!(in alloc; "proxy: {self}")?;
        let mut words = kind.into_bytes();
        if let Some(name) = self.name() {
            words.extend_from_slice(b": ")?;
            words.extend_from_slice(name.as_slice())?;
        }
        Ok(Bytes::from_vec(words))
    }
}
