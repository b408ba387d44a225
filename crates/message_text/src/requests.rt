ghost use Rattle.message_text.specs.Requests.{request_txn, watch, request};

use crate::operations::{push_txn, read_txn};
use crate::ranges::{PlainRange, UNSORTED};
use crate::sorts::{push_range_ask, read_sort};
use crate::text::{Text, push_named};
use etcd_types::{DeleteAsk, KeyRange, NoMemory, PutAsk, Request, TxnAsk, WatchAsk};
use std::alloc::Global;
use text_words::{
    ReadError, Words, is_word, push_bytes, push_flag, push_flags, push_number, push_word,
    read_bytes, read_flag, read_number, read_watch_flags,
};

/// How deep transactions nest within a transaction, so that it is 128 with itself.
const MAX_WITHIN: u64 = 127;

/// `LIST LIST LIST`: compares, and the operations of both branches.
impl Text for TxnAsk {
    ghost form = { request_txn };

    #[tactic(auto, unfolding(crate::specs::Requests::request_txn))]
    fn read(alloc: Global, words: &mut Words) -> Result<TxnAsk, ReadError> {
        Ok(read_txn(alloc, words, MAX_WITHIN)?)
    }

    #[tactic(auto, using(crate::proofs::RequestLaws::request_txn_written))]
    fn push(&self, out: &mut String) -> Result<(), NoMemory> {
        push_txn(out, self)?;
        Ok(())
    }
}

/// `K E START F`
impl Text for WatchAsk {
    ghost form = { watch };

    #[tactic(auto, unfolding(crate::specs::Requests::watch))]
    fn read(alloc: Global, words: &mut Words) -> Result<WatchAsk, ReadError> {
        let key = read_bytes(alloc, words)?;
        let end = read_bytes(alloc, words)?;
        let start = read_number(words)?;
        let flags = read_watch_flags(words)?;
        Ok(WatchAsk {
            range: KeyRange { key, end },
            start,
            no_put: flags.no_put,
            no_delete: flags.no_delete,
            prev_kv: flags.prev_kv,
            progress: flags.progress,
        })
    }

    #[tactic(auto, using(text_model::proofs::TextLaws::in_turn), unfolding(crate::specs::Requests::watch))]
    fn push(&self, out: &mut String) -> Result<(), NoMemory> {
        push_bytes(out, &self.range.key)?;
        push_bytes(out, &self.range.end)?;
        push_number(out, self.start)?;
        push_flags(
            out,
            &[
                (b'p', self.prev_kv),
                (b'u', self.no_put),
                (b'd', self.no_delete),
                (b'n', self.progress),
            ],
        )?;
        Ok(())
    }
}

/// A word for the kind of request, and its fields.
impl Text for Request {
    ghost form = { request };

    #[tactic(auto, unfolding(crate::specs::Requests::request, crate::specs::Requests::other_ask))]
    fn read(alloc: Global, words: &mut Words) -> Result<Request, ReadError> {
        let name = words.take()?;
        if is_word(name, "range") {
            Ok(Request::Range(PlainRange::read(alloc, words)?.sorted(UNSORTED)))
        } else if is_word(name, "rangex") {
            let range = PlainRange::read(alloc, words)?;
            let sort = read_sort(words)?;
            Ok(Request::Range(range.sorted(sort)))
        } else if is_word(name, "put") {
            Ok(Request::Put(PutAsk::read(alloc, words)?))
        } else if is_word(name, "delete") {
            Ok(Request::Delete(DeleteAsk::read(alloc, words)?))
        } else if is_word(name, "txn") {
            Ok(Request::Txn(TxnAsk::read(alloc, words)?))
        } else if is_word(name, "compact") {
            let revision = read_number(words)?;
            let physical = read_flag(words, b'p')?;
            Ok(Request::Compact { revision, physical })
        } else if is_word(name, "grant") {
            let ttl = read_number(words)?;
            let lease = read_number(words)?;
            Ok(Request::Grant { ttl, lease })
        } else if is_word(name, "revoke") {
            let lease = read_number(words)?;
            Ok(Request::Revoke { lease })
        } else if is_word(name, "keepalive") {
            let lease = read_number(words)?;
            Ok(Request::KeepAlive { lease })
        } else if is_word(name, "timetolive") {
            let lease = read_number(words)?;
            let keys = read_flag(words, b'k')?;
            Ok(Request::TimeToLive { lease, keys })
        } else if is_word(name, "leases") {
            Ok(Request::Leases)
        } else if is_word(name, "watch") {
            Ok(Request::Watch(WatchAsk::read(alloc, words)?))
        } else {
            Err(words.wrong())
        }
    }

    #[tactic(auto, using(text_model::proofs::TextLaws::in_turn, crate::proofs::RequestLaws::range_ask_written), unfolding(crate::specs::Requests::request, crate::specs::Requests::other_ask))]
    fn push(&self, out: &mut String) -> Result<(), NoMemory> {
        match self {
            Request::Range(ask) => push_range_ask(out, ask)?,
            Request::Put(ask) => push_named(out, "put", ask)?,
            Request::Delete(ask) => push_named(out, "delete", ask)?,
            Request::Txn(ask) => push_named(out, "txn", ask)?,
            Request::Compact { revision, physical } => {
                push_word(out, "compact")?;
                push_number(out, *revision)?;
                push_flag(out, "p", *physical)?;
            }
            Request::Grant { ttl, lease } => {
                push_word(out, "grant")?;
                push_number(out, *ttl)?;
                push_number(out, *lease)?;
            }
            Request::Revoke { lease } => {
                push_word(out, "revoke")?;
                push_number(out, *lease)?;
            }
            Request::KeepAlive { lease } => {
                push_word(out, "keepalive")?;
                push_number(out, *lease)?;
            }
            Request::TimeToLive { lease, keys } => {
                push_word(out, "timetolive")?;
                push_number(out, *lease)?;
                push_flag(out, "k", *keys)?;
            }
            Request::Leases => push_word(out, "leases")?,
            Request::Watch(ask) => push_named(out, "watch", ask)?,
        }
        Ok(())
    }
}
