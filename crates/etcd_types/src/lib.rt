//! The values of the etcd v3 API: keys, records, requests, replies and watch messages.
//!
//! The names and meanings are those of the etcd API reference (`etcdserverpb` and `mvccpb`). Clauses see
//! `Bytes` as a list of numbers below 256, `List<T>` as a list, and every other type as the plain record or
//! data of its fields, so that `≡` compares what is meant and not where it lies in memory.
#![tactic(auto)]

mod answer;
mod bytes;
pub mod code;
mod key_range;
mod list;
mod no_memory;
mod operation;
mod record;
mod request;
mod short_bytes;
mod watch;

pub use answer::{Answer, Body, Refusal, Reply};
pub use bytes::Bytes;
pub use key_range::{KeyRange, ranges_meet_in_a_key};
pub use list::List;
pub use no_memory::NoMemory;
pub use operation::{Compare, DeleteAsk, Op, PutAsk, RangeAsk, Relation, Sort, Target, TxnAsk};
pub use record::{Header, Kv};
pub use request::{Request, WatchAsk};
pub use watch::{Change, Event, WatchItem};
