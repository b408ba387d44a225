use crate::shown::{done, named, shown, words};
use etcd_types::{Answer, Bytes, Request, WatchItem};
use message_text::Text;
use namespace_keys::{KeyFault, Namespace, prefix_end};
use std::alloc::Global;
use table_rows::{Wrong, parts};
use text_words::read_bytes;

/// What comes of a namespace's case.
pub fn came_of(alloc: Global, kind: &str, case: &str) -> Result<String, Wrong> {
    if kind == "end" {
        return end(alloc, case);
    }
    let (prefix, text) = parts(case, " ")?;
    let namespace = Namespace::new(bytes_of(alloc, prefix)?);
    match kind {
        "wrap" => wrapped(alloc, &namespace, text),
        "unwrap" => unwrapped(alloc, &namespace, text),
        _ => bare(alloc, &namespace, text),
    }
}

fn bytes_of(alloc: Global, word: &str) -> Result<Bytes, Wrong> {
    let mut words = words(word);
    let bytes = read_bytes(alloc, &mut words)?;
    words.end()?;
    Ok(bytes)
}

fn end(alloc: Global, prefix: &str) -> Result<String, Wrong> {
    let prefix = bytes_of(alloc, prefix)?;
    named(alloc, "", &prefix_end(alloc, &prefix)?)
}

fn wrapped(alloc: Global, namespace: &Namespace, text: &str) -> Result<String, Wrong> {
    let request: Request = table_rows::read_text(alloc, text)?;
    shown(alloc, &namespace.wrap_request(alloc, &request)?)
}

/// An answer without the namespace.
fn unwrapped(alloc: Global, namespace: &Namespace, text: &str) -> Result<String, Wrong> {
    let reply = done(table_rows::read_text(alloc, text)?)?;
    match namespace.unwrap_reply(alloc, reply) {
        Ok(reply) => shown(alloc, &Answer::Done(reply)),
        Err(fault) => foreign(alloc, fault),
    }
}

/// A message of a watch without the namespace.
fn bare(alloc: Global, namespace: &Namespace, text: &str) -> Result<String, Wrong> {
    let message: WatchItem = table_rows::read_text(alloc, text)?;
    match namespace.unwrap_item(alloc, message) {
        Ok(message) => shown(alloc, &message),
        Err(fault) => foreign(alloc, fault),
    }
}

fn foreign(alloc: Global, fault: KeyFault) -> Result<String, Wrong> {
    match fault {
        KeyFault::ForeignKey(key) => named(alloc, "foreign ", &key),
        KeyFault::NoMemory => Err(Wrong::NoMemory),
    }
}
