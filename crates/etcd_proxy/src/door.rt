// How many clients are served at once.

use etcd_types::{Bytes, NoMemory};
use http_wire::write_reply;
use outside::MemSink;
use sockets::{Budget, Door};
use std::alloc::Global;
use std::sync::Arc;

/// What a client is told for which there is no room.
const REFUSAL: &[u8] = b"{\"code\":14,\"message\":\"proxy: too many connections\"}";

/// The same as etcd's own gateway would write it.
const REFUSAL_TWICE: &[u8] =
    b"{\"error\":\"proxy: too many connections\",\"message\":\"proxy: too many connections\",\"code\":14}";

/// The status that goes with it.
const UNAVAILABLE: u16 = 503;

/// What lets at most so many clients in at once, and no more than the system's limit on descriptors has room for. Others are told that
/// there is no room.
pub(crate) fn door_of(
    alloc: Global,
    most_connections: u64,
    has_error_field: bool,
) -> Result<Door, NoMemory> {
    let text = if has_error_field {
        REFUSAL_TWICE
    } else {
        REFUSAL
    };
    let mut sink = MemSink::new(alloc, usize::MAX, Vec::new(alloc));
    let refusal = match write_reply(alloc, &mut sink, UNAVAILABLE, text) {
        Ok(()) => Bytes::from_slice(alloc, sink.as_slice())?,
        Err(_) => return Err(NoMemory),
    };
    let budget = Arc::new(alloc, Budget::of_system(most_connections))?;
    Ok(Door::new(alloc, budget, refusal))
}
