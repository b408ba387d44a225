use crate::request_texts::told;
use api_request::{decode_call, decode_request, encode_request};
use etcd_types::Request;
use std::alloc::Global;
use table_rows::{Wrong, parts, read_body, read_text, text};

/// What comes of a row's case.
pub fn try_row(alloc: Global, case: &str) -> Result<String, Wrong> {
    let (kind, case) = parts(case, " ")?;
    match kind {
        "client" => told_to_client(alloc, case),
        "call" => told_to_store(alloc, case),
        "both" => told_to_both(alloc, case),
        "written" => written(alloc, case),
        _ => Err(Wrong::Word),
    }
}

fn told_to_client(alloc: Global, case: &str) -> Result<String, Wrong> {
    let (path, body) = parts(case, " ")?;
    let body = read_body(alloc, body)?;
    told(
        alloc,
        decode_request(alloc, path.as_bytes(), body.as_slice()),
    )
}

fn told_to_store(alloc: Global, case: &str) -> Result<String, Wrong> {
    let (path, body) = parts(case, " ")?;
    let body = read_body(alloc, body)?;
    told(alloc, decode_call(alloc, path.as_bytes(), body.as_slice()))
}

fn told_to_both(alloc: Global, case: &str) -> Result<String, Wrong> {
    let mut client = told_to_client(alloc, case)?;
    let store = told_to_store(alloc, case)?;
    if client != store {
        write!(client, ", and to a store {store}")?;
    }
    Ok(client)
}

/// The path and the body that are written for a request, and what a store reads where that is another request.
fn written(alloc: Global, case: &str) -> Result<String, Wrong> {
    let request: Request = read_text(alloc, case)?;
    let (path, body) = encode_request(alloc, &request)?;
    let mut written = String::new(alloc);
    write!(
        written,
        "{} {}",
        text(path.as_slice()),
        text(body.as_slice())
    )?;
    let again = decode_call(alloc, path.as_slice(), body.as_slice());
    if again != Ok(request) {
        write!(written, ", read as {}", told(alloc, again)?)?;
    }
    Ok(written)
}
