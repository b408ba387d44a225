ghost use Rattle.std.specs.Prelude.{◌≡◌, IfOk};
ghost use Rattle.proxy_model.specs.Wrapped.{request_under};
ghost use Rattle.proxy_model.specs.Unwrapped.{reply_without, item_without};
ghost use Rattle.namespace_keys.specs.Returned.{Unwraps};

use crate::fault::KeyFault;
use crate::unwrap::{unwrap_body, unwrap_events};
use crate::wrap::{wrap_delete, wrap_put, wrap_range, wrap_transaction, wrap_watch};
use etcd_types::{Bytes, NoMemory, Reply, Request, WatchItem};
use std::alloc::Global;
use std::marker::Model;

/// The keys with a prefix, as if they were all the keys that there are. Contracts see it as the prefix.
#[derive(Debug, Drop)]
pub struct Namespace {
    prefix: Bytes,
}

impl Model for Namespace {
    ghost use Rattle.std.specs.Prelude.{List, ℕ};

    ghost Value = { List ℕ };

    ghost view = { λ namespace. namespace.prefix };
}

impl Namespace {
    /// The namespace of the keys with this prefix: of all keys where the prefix is empty. It takes no memory.
    pub fn new(prefix: Bytes) -> Namespace
        ensures { result ≡ prefix }
    {
        Namespace { prefix }
    }

    /// The request with the namespace: the prefix stands before every key that it names, in the compares of transactions
    /// and in transactions within transactions too, and its ranges are those of the same keys with the prefix. All else
    /// stays. `NoMemory` where memory was wanting.
    pub fn wrap_request(&self, alloc: Global, request: &Request) -> Result<Request, NoMemory>
        ensures { IfOk result (λ wrapped. wrapped ≡ request_under self.now request.now) }
    {
        let prefix = &self.prefix;
        match request {
            Request::Range(ask) => Ok(Request::Range(wrap_range(alloc, prefix, ask)?)),
            Request::Put(ask) => Ok(Request::Put(wrap_put(alloc, prefix, ask)?)),
            Request::Delete(ask) => Ok(Request::Delete(wrap_delete(alloc, prefix, ask)?)),
            Request::Txn(ask) => Ok(Request::Txn(wrap_transaction(alloc, prefix, ask)?)),
            Request::Watch(ask) => Ok(Request::Watch(wrap_watch(alloc, prefix, ask)?)),
            _ => Ok(request.copy(alloc)?),
        }
    }

    /// The reply without the namespace: the prefix is off every key, in the bodies of transactions within transactions
    /// too, and all else stays.
    ///
    /// `ForeignKey` exactly where a record's key lacks the prefix, with the first such key in the order of the reply. Of the
    /// keys of a lease's time to live those without the prefix are left out instead. `NoMemory` where memory was wanting.
    pub fn unwrap_reply(&self, alloc: Global, reply: Reply) -> Result<Reply, KeyFault>
        ensures { Unwraps result (reply_without self.now reply) }
    {
        let body = unwrap_body(alloc, &self.prefix, &reply.body)?;
        Ok(Reply {
            header: reply.header,
            body,
        })
    }

    /// The message of a watch without the namespace: the prefix is off every key, and all else stays.
    ///
    /// `ForeignKey` exactly where a key lacks the prefix, with the first such key: of an event first the key that changed,
    /// then that of the record before. `NoMemory` where memory was wanting.
    pub fn unwrap_item(&self, alloc: Global, item: WatchItem) -> Result<WatchItem, KeyFault>
        ensures { Unwraps result (item_without self.now item) }
    {
        match item {
            WatchItem::Events { header, events } => {
                let events = unwrap_events(alloc, &self.prefix, &events)?;
                Ok(WatchItem::Events { header, events })
            }
            other => Ok(other),
        }
    }
}
