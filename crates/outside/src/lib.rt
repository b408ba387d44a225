//! What the program meets outside itself, as traits: streams of bytes, a clock, a source of random words, the machine
//! that many threads step, the link to a cluster's members, the host that accepts connections, and what starts parts.
//!
//! Each object counts its own failures, and a call answers a failure only where the count rose. So a clause above can
//! say that the program blames its input only where the input did fail. The forms over memory keep their bytes and a
//! list of the calls that are to fail; the adapters over the standard streams tell nothing of content.
#![tactic(auto)]

mod clock;
mod draw;
mod host;
mod link;
mod machine;
mod marks;
mod memory_host;
mod memory_link;
mod memory_sink;
mod memory_source;
mod memory_spawner;
mod parts;
mod seeded_draw;
mod sink;
mod slept;
mod source;
mod streams;
mod system_clock;
mod system_draw;

pub use clock::{Clock, MemClock};
pub use draw::{Draw, MemDraw};
pub use host::Host;
pub use link::{AnswerEnd, CALL_LIMIT, CallKind, Link, LinkFault};
pub use machine::{CREWS, LOT_WORDS, LOTS, Machine, Roused};
pub use marks::{ReadMark, RequestKind, WriteMark};
pub use memory_host::MemHost;
pub use memory_link::MemLink;
pub use memory_sink::MemSink;
pub use memory_source::MemSource;
pub use memory_spawner::MemSpawner;
pub use parts::{Follow, Part, Spawner, TicketRange};
pub use seeded_draw::SeededDraw;
pub use sink::{Sink, write_whole};
pub use source::{Failed, Source};
pub use streams::{Reading, Writing};
pub use system_clock::SystemClock;
pub use system_draw::SystemDraw;
