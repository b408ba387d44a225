ghost use Rattle.std.specs.Prelude.{◌≡◌, ◌++◌, ◌≤◌, IfOk, IsErrOf, string_bytes};
ghost use Rattle.outside.specs.Faults.{Rose};
ghost use Rattle.http_wire.specs.Written as spec;

use crate::fault::WireFault;
use etcd_types::{Bytes, NoMemory};
use outside::{Sink, WriteMark, write_whole};
use std::alloc::{AllocError, Global};

/// The phrase of each status that a reply here has; another status has none.
fn phrase(status: u16) -> &'static str
    ensures { result.now ≡ spec.phrase status }
{
    match status {
        200 => "OK",
        400 => "Bad Request",
        403 => "Forbidden",
        404 => "Not Found",
        405 => "Method Not Allowed",
        500 => "Internal Server Error",
        501 => "Not Implemented",
        503 => "Service Unavailable",
        504 => "Gateway Timeout",
        _ => "",
    }
}

/// Room for a head, or for what frames a chunk.
const HEAD_ROOM: usize = 160;

/// The bytes of a text, and then more bytes.
fn joined(text: String, bytes: &[u8]) -> Result<Vec<u8>, AllocError>
    ensures { IfOk result (λ all. all.items ≡ string_bytes text ++ bytes.now) }
{
    let mut all = text.into_bytes();
    all.extend_from_slice(bytes)?;
    Ok(all)
}

/// The head of a reply whose body has so many bytes, in a text of so much room.
fn reply_head(alloc: Global, status: u16, length: usize, room: usize) -> Result<String, AllocError>
    ensures { IfOk result (λ head. string_bytes head ≡ spec.reply_head status length) }
{
    let phrase = phrase(status);
    let mut head = String::with_capacity(alloc, room)?;
    write!(
        head,
        "HTTP/1.1 {status} {phrase}\r\nContent-Type: application/json\r\nContent-Length: {length}\r\n\r\n"
    )?;
    Ok(head)
}

fn reply(alloc: Global, status: u16, body: &[u8]) -> Result<Vec<u8>, AllocError>
    ensures { IfOk result (λ all. all.items ≡ spec.reply status body.now) }
{
    let length = body.len();
    let head = reply_head(alloc, status, length, HEAD_ROOM + length)?;
    Ok(joined(head, body)?)
}

fn chunk(alloc: Global, piece: &[u8]) -> Result<Vec<u8>, AllocError>
    ensures { IfOk result (λ all. all.items ≡ spec.chunk piece.now) }
{
    let length = piece.len();
    if length == 0 {
        return Ok(Vec::new(alloc));
    }
    let mut line = String::with_capacity(alloc, HEAD_ROOM + length)?;
    write!(line, "{length:x}\r\n")?;
    let mut all = joined(line, piece)?;
    all.extend_from_slice(b"\r\n")?;
    Ok(all)
}

/// The fields of a call after its host, and the empty line.
fn call_fields(alloc: Global, length: usize) -> Result<String, AllocError>
    ensures { IfOk result (λ text. string_bytes text ≡ spec.call_fields length) }
{
    Ok(format!(in alloc;
        "Content-Type: application/json\r\nConnection: close\r\nContent-Length: {length}\r\n\r\n"
    )?)
}

/// The same fields without the one that asks for the end of the connection.
fn kept_call_fields(alloc: Global, length: usize) -> Result<String, AllocError>
    ensures { IfOk result (λ text. string_bytes text ≡ spec.kept_call_fields length) }
{
    Ok(format!(in alloc; "Content-Type: application/json\r\nContent-Length: {length}\r\n\r\n")?)
}

/// A call with these fields after its host.
fn call_with(
    alloc: Global,
    host: &[u8],
    path: &[u8],
    fields: &str,
    body: &[u8],
) -> Result<Vec<u8>, AllocError>
    ensures { IfOk result (λ all. all.items ≡ spec.call_with host.now path.now fields.now body.now) }
{
    let mut all = Vec::new(alloc);
    all.extend_from_slice(b"POST ")?;
    all.extend_from_slice(path)?;
    all.extend_from_slice(b" HTTP/1.1\r\nHost: ")?;
    all.extend_from_slice(host)?;
    all.extend_from_slice(b"\r\n")?;
    all.extend_from_slice(fields.as_bytes())?;
    all.extend_from_slice(body)?;
    Ok(all)
}

/// Writes all the bytes, or a front of them where the sink fails.
fn send<K: Sink>(sink: &mut K, bytes: &[u8]) -> Result<(), WireFault>
    ensures written { spec.Writes (K.written sink.old) (K.written sink.new) bytes.now result }
    ensures cause { IsErrOf result WireFault.WriteFault → Rose (K.faults sink.old) (K.faults sink.new) }
    ensures kept { K.faults sink.old ≤ K.faults sink.new }
{
    match write_whole(sink, bytes) {
        Ok(()) => Ok(()),
        Err(_) => Err(WireFault::WriteFault),
    }
}

/// Tells the sink what comes, and writes all the bytes, or a front of them where the sink fails.
fn announce<K: Sink>(sink: &mut K, mark: WriteMark, bytes: &[u8]) -> Result<(), WireFault>
    ensures written { spec.Writes (K.written sink.old) (K.written sink.new) bytes.now result }
    ensures cause { IsErrOf result WireFault.WriteFault → Rose (K.faults sink.old) (K.faults sink.new) }
    ensures kept { K.faults sink.old ≤ K.faults sink.new }
{
    sink.mark(mark);
    Ok(send(sink, bytes)?)
}

/// Writes a reply with its length. The phrase is that of the status, where it is one that the gateway answers with.
pub fn write_reply<K: Sink>(
    alloc: Global,
    sink: &mut K,
    status: u16,
    body: &[u8],
) -> Result<(), WireFault>
    ensures written { spec.Writes (K.written sink.old) (K.written sink.new) (spec.reply status body.now) result }
    ensures cause { IsErrOf result WireFault.WriteFault → Rose (K.faults sink.old) (K.faults sink.new) }
    ensures kept { K.faults sink.old ≤ K.faults sink.new }
{
    match reply(alloc, status, body) {
        Ok(all) => Ok(announce(sink, WriteMark::Reply(status), all.as_slice())?),
        Err(_) => Err(WireFault::NoMemory),
    }
}

/// Writes what the reply to a HEAD is: the head of the reply with this body, and nothing behind it.
pub fn write_bodiless_reply<K: Sink>(
    alloc: Global,
    sink: &mut K,
    status: u16,
    body: &[u8],
) -> Result<(), WireFault>
    ensures written { spec.Writes (K.written sink.old) (K.written sink.new) (spec.bodiless_reply status body.now) result }
    ensures cause { IsErrOf result WireFault.WriteFault → Rose (K.faults sink.old) (K.faults sink.new) }
    ensures kept { K.faults sink.old ≤ K.faults sink.new }
{
    match reply_head(alloc, status, body.len(), HEAD_ROOM) {
        Ok(head) => Ok(announce(sink, WriteMark::Reply(status), head.as_bytes())?),
        Err(_) => Err(WireFault::NoMemory),
    }
}

/// Writes the head of a reply of status 200 whose body comes in chunks.
pub fn begin_chunks<K: Sink>(sink: &mut K) -> Result<(), WireFault>
    ensures written { spec.Writes (K.written sink.old) (K.written sink.new) spec.chunks_head result }
    ensures cause { IsErrOf result WireFault.WriteFault → Rose (K.faults sink.old) (K.faults sink.new) }
    ensures kept { K.faults sink.old ≤ K.faults sink.new }
{
    announce(
        sink,
        WriteMark::Reply(200),
        b"HTTP/1.1 200 OK\r\nContent-Type: application/json\r\nTransfer-Encoding: chunked\r\n\r\n",
    )
}

/// Writes one chunk with these bytes; of no bytes none, since a chunk of size 0 would end the body.
pub fn write_chunk<K: Sink>(alloc: Global, sink: &mut K, piece: &[u8]) -> Result<(), WireFault>
    ensures written { spec.Writes (K.written sink.old) (K.written sink.new) (spec.chunk piece.now) result }
    ensures cause { IsErrOf result WireFault.WriteFault → Rose (K.faults sink.old) (K.faults sink.new) }
    ensures kept { K.faults sink.old ≤ K.faults sink.new }
{
    match chunk(alloc, piece) {
        Ok(all) => Ok(announce(sink, WriteMark::Message, all.as_slice())?),
        Err(_) => Err(WireFault::NoMemory),
    }
}

/// Writes the last chunk, with no trailer.
pub fn end_chunks<K: Sink>(sink: &mut K) -> Result<(), WireFault>
    ensures written { spec.Writes (K.written sink.old) (K.written sink.new) spec.last_chunk result }
    ensures cause { IsErrOf result WireFault.WriteFault → Rose (K.faults sink.old) (K.faults sink.new) }
    ensures kept { K.faults sink.old ≤ K.faults sink.new }
{
    send(sink, b"0\r\n\r\n")
}

/// Writes what a client waits for that sent `Expect: 100-continue` (RFC 9110, section 10.1.1).
pub fn write_continue<K: Sink>(sink: &mut K) -> Result<(), WireFault>
    ensures written { spec.Writes (K.written sink.old) (K.written sink.new) spec.go_on result }
    ensures cause { IsErrOf result WireFault.WriteFault → Rose (K.faults sink.old) (K.faults sink.new) }
    ensures kept { K.faults sink.old ≤ K.faults sink.new }
{
    announce(sink, WriteMark::Continue, b"HTTP/1.1 100 Continue\r\n\r\n")
}

/// The bytes of a call to a member: a POST after whose answer the connection is closed.
pub fn write_call(alloc: Global, host: &[u8], path: &[u8], body: &[u8]) -> Result<Bytes, NoMemory>
    ensures { IfOk result (λ bytes. bytes ≡ spec.call host.now path.now body.now) }
{
    let fields = call_fields(alloc, body.len())?;
    let bytes = call_with(alloc, host, path, fields.as_str(), body)?;
    Ok(Bytes::from_vec(bytes))
}

/// The bytes of a call to a member after whose answer the connection stays: those of `write_call` without the field that asks
/// for its end, since it stays where nobody asks for that (RFC 9112, section 9.3).
pub fn write_kept_call(
    alloc: Global,
    host: &[u8],
    path: &[u8],
    body: &[u8],
) -> Result<Bytes, NoMemory>
    ensures { IfOk result (λ bytes. bytes ≡ spec.kept_call host.now path.now body.now) }
{
    let fields = kept_call_fields(alloc, body.len())?;
    let bytes = call_with(alloc, host, path, fields.as_str(), body)?;
    Ok(Bytes::from_vec(bytes))
}
