//! Streams of ranges that brought a message that is too long to be read: each time such a stream is begun again, a longer rest comes before.
ghost use Rattle.std.specs.Prelude.{◌≡◌, ◌*◌, min};

use crate::member::Member;
use socket_limits::{line_time, time};
use std::alloc::{AllocError, Global};
use std::rt::Clock as Times;
use std::str;
use std::sync::{Mutex, Wait};

/// The first of these rests has so many milliseconds with the one that a follower takes, and each further one twice as many.
const FIRST_MS: u64 = 1_000;

/// None has more milliseconds.
const MOST_MS: u64 = 60_000;

/// A range whose stream went well for so many milliseconds behind its rest begins with the first one again.
const FORGIVEN_MS: u64 = 120_000;

/// Of one range a line tells once in so many milliseconds.
const LINES_MS: u64 = 60_000;

/// So many ranges are kept at most.
const RANGES: usize = 64;

/// So much of the text of a range is kept at most.
const TEXT_BYTES: usize = 512;

/// A range whose last stream brought a message that is too long.
#[derive(Drop)]
struct Unread {
    range: Vec<u8>,
    /// When it was cut, by `time`.
    since: u64,
    /// How long it rests from then on, in milliseconds, with what a follower rests before.
    rest: u64,
    /// When a line told of it, by `time`.
    told: u64,
}

/// These ranges, for all links of a process.
#[derive(Drop)]
pub(crate) struct UnreadRanges {
    all: Mutex<Vec<Unread>>,
}

/// What tells the streams of one range from those of others: the request of a stream, but for the revision that it begins at, which stands
/// last in its text.
pub(crate) fn range_of(alloc: Global, call: &[u8]) -> Result<Vec<u8>, AllocError> {
    let text = str::from_utf8(call).unwrap_or("");
    let body = text.split_once("\r\n\r\n").map_or("", |parts| parts.1);
    let range = body
        .split_once(",\"start_revision\"")
        .map_or(body.strip_suffix("}}").unwrap_or(body), |parts| parts.0);
    let kept = range
        .as_bytes()
        .get(..TEXT_BYTES)
        .unwrap_or(range.as_bytes());
    Vec::from_slice(alloc, kept)
}

/// The rest behind this one.
fn longer(rest: u64) -> u64
    ensures { result ≡ min (rest * 2) 60000 }
{
    rest.saturating_mul(2).min(MOST_MS)
}

impl Unread {
    // Notes that it happened again, and says whether that is to be told.
    fn again(&mut self, now: u64) -> bool {
        let well = self
            .since
            .saturating_add(self.rest)
            .saturating_add(FORGIVEN_MS);
        self.rest = if now < well {
            longer(self.rest)
        } else {
            FIRST_MS
        };
        self.since = now;
        let tells = now >= self.told.saturating_add(LINES_MS);
        if tells {
            self.told = now;
        }
        tells
    }
}

impl UnreadRanges {
    /// None.
    pub(crate) fn new(alloc: Global) -> UnreadRanges {
        UnreadRanges {
            all: Mutex::new(Vec::new(alloc)),
        }
    }

    // Notes a range whose stream brought what is too long. How long it rests, and whether that is to be told.
    fn note<R: Wait>(&self, rt: &R, alloc: Global, range: &[u8], now: u64) -> (u64, bool) {
        let mut all = self.all.lock(rt);
        for unread in all.as_mut_slice() {
            if unread.range.as_slice() == range {
                let tells = unread.again(now);
                return (unread.rest, tells);
            }
        }
        if all.len() >= RANGES {
            all.remove(0);
        }
        if let Ok(kept) = Vec::from_slice(alloc, range) {
            // one that finds no memory isn't kept, and its stream rests no longer than a follower does
            let _ = all.push(Unread {
                range: kept,
                since: now,
                rest: FIRST_MS,
                told: now,
            });
        }
        (FIRST_MS, true)
    }

    /// A stream of this range brought a message that is too long, of which so many bytes came. It is told which, and how long it rests.
    pub(crate) fn add<R: Wait + Times + Eprint>(
        &self,
        rt: &R,
        alloc: Global,
        member: &Member,
        range: &[u8],
        came: u64,
    ) {
        let Ok(now) = time(rt) else {
            return;
        };
        let (rest, tells) = self.note(rt, alloc, range, now);
        if tells {
            let number = member.number;
            let host = member.host.as_str();
            let when = line_time(rt);
            let text = str::from_utf8(range).unwrap_or("");
            let seconds = rest / 1_000;
            let _ = eprintln!(rt;
                "{when:.3} WARN etcd_proxy: member {number} ({host}) sent a message that is longer than --message-limit allows ({came} bytes of it came): the stream of {text} is begun again in {seconds} s"
            );
        }
    }

    /// How many milliseconds a stream of this range is to rest now before it is begun. Its follower has rested for the first second.
    pub(crate) fn rest<R: Wait + Times>(&self, rt: &R, range: &[u8]) -> u64 {
        let Ok(now) = time(rt) else {
            return 0;
        };
        let all = self.all.lock(rt);
        for unread in all.as_slice() {
            if unread.range.as_slice() == range {
                let end = unread
                    .since
                    .saturating_add(unread.rest.saturating_sub(FIRST_MS));
                return end.saturating_sub(now);
            }
        }
        0
    }
}
