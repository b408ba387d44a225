// The ranges whose streams brought the most messages, as they are shown.

use base64::DecodeAllocError;
use base64::engine::general_purpose::STANDARD;
use etcd_types::{Bytes, List, NoMemory};
use member_links::{Members, StreamCount};
use metrics_text::RangeFigure;
use std::alloc::Global;
use std::str;
use std::sync::Wait;

/// So many ranges are shown at most.
const MOST: usize = 8;

/// What stands behind this in the text, up to the next quote; nothing where it doesn't stand there.
fn field<'a>(text: &'a str, name: &str) -> &'a str {
    text.split_once(name)
        .map_or("", |parts| parts.1)
        .split_once('"')
        .map_or("", |parts| parts.0)
}

/// The bytes of a field in base64, or its text where it isn't.
fn bytes_of(alloc: Global, text: &str) -> Result<Bytes, NoMemory> {
    match STANDARD.decode(alloc, text.as_bytes()) {
        Ok(bytes) => Ok(Bytes::from_vec(bytes)),
        Err(DecodeAllocError::DecodeError(_)) => Bytes::from_slice(alloc, text.as_bytes()),
        Err(DecodeAllocError::OutOfMemory) => Err(NoMemory),
    }
}

/// How a stream is shown.
fn shown(alloc: Global, counted: &StreamCount) -> Result<RangeFigure, NoMemory> {
    let text = str::from_utf8(counted.range.as_slice()).unwrap_or("");
    Ok(RangeFigure {
        first: bytes_of(alloc, field(text, "\"key\":\""))?,
        end: bytes_of(alloc, field(text, "\"range_end\":\""))?,
        messages: counted.messages,
    })
}

/// The busiest ranges, the first before the others.
pub(crate) fn busiest_of<R: Wait>(
    rt: &R,
    alloc: Global,
    members: &Members,
) -> Result<List<RangeFigure>, NoMemory> {
    let mut ranges = List::new(alloc);
    for counted in members.busiest(rt, MOST)?.as_slice() {
        ranges.push(shown(alloc, counted)?)?;
    }
    Ok(ranges)
}
