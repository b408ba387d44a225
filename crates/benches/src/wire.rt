//! How fast requests are read from memory. The words are the kind of request (`short`, no body; `curl`, a put
//! as curl sends it; `chunked`, the same put in chunks of a few bytes), how many stand one behind another, and how many
//! bytes one read gives.

use http_wire::{Wire, WireFault};
use outside::MemSource;
use std::alloc::{AllocError, Global};
use std::io;
use std::time::Instant;

pub const USAGE: &str = "benches wire short|curl|chunked REQUESTS BYTES";

const SHORT: &[u8] = b"POST /v3/lease/leases HTTP/1.1\r\nHost: localhost:23790\r\n\r\n";

const CURL: &[u8] =
    b"POST /v3/kv/put HTTP/1.1\r\nHost: localhost:23790\r\nUser-Agent: curl/8.5.0\r\nAccept: */*\r\nContent-Length: 32\r\nContent-Type: application/x-www-form-urlencoded\r\n\r\n{\"key\": \"Zm9v\", \"value\": \"YmFy\"}";

const CHUNKED: &[u8] =
    b"POST /v3/kv/put HTTP/1.1\r\nHost: localhost:23790\r\nTransfer-Encoding: chunked\r\n\r\n8\r\n{\"key\": \r\n8\r\n\"Zm9v\", \r\n8\r\n\"value\":\r\n8\r\n \"YmFy\"}\r\n0\r\n\r\n";

/// So many requests, one behind another.
fn pipelined(alloc: Global, request: &[u8], count: u64) -> Result<Vec<u8>, AllocError> {
    let mut bytes = Vec::new(alloc);
    for _ in 0..count {
        bytes.extend_from_slice(request)?;
    }
    Ok(bytes)
}

/// Reads so many requests, or fewer where the bytes end before, and says how many came and how long all their bodies are.
fn read_all(alloc: Global, source: &mut MemSource, count: u64) -> Result<(u64, u64), WireFault> {
    let mut wire = Wire::new(alloc)?;
    let mut read = 0u64;
    let mut length = 0u64;
    for _ in 0..count {
        let Some(head) = wire.read_head(source)? else {
            break;
        };
        let body = wire.read_body(source, &head)?;
        read = read.wrapping_add(1);
        length = length.wrapping_add(body.as_slice().len() as u64);
    }
    Ok((read, length))
}

/// Measures what the words ask for.
pub fn run(rt: &HostRuntime, alloc: Global, words: &[String]) -> io::Result<()> {
    let [kind, count, piece] = words else {
        return println!(rt; "{USAGE}");
    };
    let request = match kind.as_str() {
        "short" => SHORT,
        "curl" => CURL,
        _ => CHUNKED,
    };
    let count = count.parse::<u64>().unwrap_or(1);
    let piece = piece.parse::<usize>().unwrap_or(1);
    let bytes = pipelined(alloc, request, count)?;
    let mut source = MemSource::new(bytes, piece, Vec::new(alloc));
    let start = Instant::now(rt)?;
    let Ok((read, length)) = read_all(alloc, &mut source, count) else {
        return println!(rt; "a request was refused");
    };
    let taken = start.elapsed(rt)?.as_nanos().max(1);
    let rate = u128::from(read).saturating_mul(1_000_000_000) / taken;
    println!(rt;
        "{kind}, {piece} bytes a read: {read} requests with {length} bytes of body, {rate} requests a second"
    )
}
