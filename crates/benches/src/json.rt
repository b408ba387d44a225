//! How fast a JSON body is read as a request, and the request written again. The one word is the path of the request; the
//! body is the standard input. The word `calls` measures the calls that a proxy makes most.

use crate::calls;
use api_request::{ApiFault, decode_request, encode_request};
use etcd_types::Request;
use std::alloc::Global;
use std::io::{self, Read};
use std::time::Instant;

pub const USAGE: &str = "benches json PATH < BODY, or benches json calls";

/// Microseconds since then.
fn micros(rt: &HostRuntime, start: &Instant) -> io::Result<u128> {
    Ok(start.elapsed(rt)?.as_micros())
}

/// The length of the request's own text, where it finds memory.
fn written_length(alloc: Global, request: &Request) -> usize {
    match encode_request(alloc, request) {
        Ok((_, text)) => text.as_slice().len(),
        Err(_) => 0,
    }
}

fn tell(
    rt: &HostRuntime,
    alloc: Global,
    length: usize,
    read: Result<Request, ApiFault>,
    taken: u128,
) -> io::Result<()> {
    match read {
        Err(fault) => println!(rt; "{length} bytes: {fault}, {taken} us"),
        Ok(request) => {
            let start = Instant::now(rt)?;
            let written = written_length(alloc, &request);
            let writing = micros(rt, &start)?;
            println!(rt; "{length} bytes: read, {taken} us; {written} bytes written, {writing} us")
        }
    }
}

/// Measures what the words ask for.
pub fn run(rt: &HostRuntime, alloc: Global, words: &[String]) -> io::Result<()> {
    let [path] = words else {
        return println!(rt; "{USAGE}");
    };
    if path.as_str() == "calls" {
        return calls::tell_calls(rt, alloc);
    }
    let mut body = Vec::new(alloc);
    rt.reader().read_to_end(&mut body)?;
    let start = Instant::now(rt)?;
    let read = decode_request(alloc, path.as_bytes(), body.as_slice());
    let taken = micros(rt, &start)?;
    tell(rt, alloc, body.len(), read, taken)
}
