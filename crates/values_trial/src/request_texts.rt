use api_request::ApiFault;
use etcd_types::Request;
use json_model::FieldFault;
use message_text::Text;
use std::alloc::Global;
use table_rows::{Wrong, text};

/// The text of a request that was read, or of the fault.
pub fn told(alloc: Global, read: Result<Request, ApiFault>) -> Result<String, Wrong> {
    match read {
        Ok(request) => request_text(alloc, &request),
        Err(fault) => fault_text(alloc, &fault),
    }
}

fn request_text(alloc: Global, request: &Request) -> Result<String, Wrong> {
    let mut spelled = String::new(alloc);
    request.push(&mut spelled)?;
    let mut told = String::new(alloc);
    told.push_str(spelled.as_str().trim_end())?;
    Ok(told)
}

fn fault_text(alloc: Global, fault: &ApiFault) -> Result<String, Wrong> {
    let mut told = String::new(alloc);
    match fault {
        ApiFault::NoMemory => return Err(Wrong::NoMemory),
        ApiFault::NoSuchPath | ApiFault::NotJson => write!(told, "{fault}")?,
        ApiFault::Unsupported(name) => write!(told, "{fault}: {}", text(name.as_slice()))?,
        ApiFault::Field(fault) => write!(told, "{fault}: {}", field_name(fault))?,
    }
    Ok(told)
}

/// The name that a field's fault tells.
fn field_name(fault: &FieldFault) -> &str {
    match fault {
        FieldFault::WrongKind(name)
        | FieldFault::BadNumber(name)
        | FieldFault::BadBase64(name)
        | FieldFault::UnknownField(name)
        | FieldFault::TwiceNamed(name)
        | FieldFault::BadEnum(name) => text(name.as_slice()),
        FieldFault::NoMemory => "?",
    }
}
