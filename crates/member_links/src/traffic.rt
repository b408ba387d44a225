//! How many messages came on each stream, so that the busiest of them can be named.
ghost use Rattle.std.specs.Prelude.{◌≤◌, length};

use etcd_types::NoMemory;
use std::alloc::Global;
use std::sync::atomic::AtomicU64;
use std::sync::atomic::Ordering::SeqCst;

/// What is known of what comes on a stream, by who reads it and by who asks.
#[derive(Drop)]
pub(crate) struct Traffic {
    /// What tells its range from others.
    pub(crate) range: Vec<u8>,
    messages: AtomicU64,
}

/// How many messages came on a stream since it was begun.
#[derive(Debug, Drop)]
pub struct StreamCount {
    /// The beginning of the body of the request that began it, with its range in base64.
    pub range: Vec<u8>,
    pub messages: u64,
}

impl Traffic {
    /// Nothing came yet on a stream of this range.
    pub(crate) fn new(range: Vec<u8>) -> Traffic {
        Traffic {
            range,
            messages: AtomicU64::new(0),
        }
    }

    /// A message came.
    pub(crate) fn came(&self) {
        self.messages.fetch_add(1, SeqCst);
    }
}

/// Where one with so many messages stands among these.
fn place_of(busiest: &[StreamCount], messages: u64) -> usize
    ensures { result ≤ length busiest.now }
{
    match busiest.iter().position(|other| other.messages < messages) {
        Some(place) => place,
        None => busiest.len(),
    }
}

/// Puts a stream among these, which are the `most` busiest of others in order, where it is one of them.
pub(crate) fn rank(
    alloc: Global,
    busiest: &mut Vec<StreamCount>,
    most: usize,
    traffic: &Traffic,
) -> Result<(), NoMemory> {
    let messages = traffic.messages.load(SeqCst);
    let place = place_of(busiest.as_slice(), messages);
    if messages > 0 && place < most {
        let range = Vec::from_slice(alloc, traffic.range.as_slice())?;
        busiest.insert(place, StreamCount { range, messages })?;
        busiest.truncate(most);
    }
    Ok(())
}
