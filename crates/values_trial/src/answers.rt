ghost use Rattle.std.specs.Prelude.{IfOk};
ghost use Rattle.proxy_model.specs.Guarded.{IsWrite};

use crate::shown::{done, trimmed, words};
use etcd_types::{Answer, Bytes, Kv, List, Reply, Request};
use lease_txn::{Claim, NotShape, Owner, Written, read_acquire, read_guard, read_write};
use message_text::Text;
use std::alloc::Global;
use table_rows::{Wrong, parts};
use text_words::{push_bytes, read_bytes};

/// What comes of an answer's case.
pub fn came_of(alloc: Global, kind: &str, case: &str) -> Result<String, Wrong> {
    match kind {
        "claimed" => claimed(alloc, case),
        "wrote" => wrote(alloc, case),
        _ => guard(alloc, case),
    }
}

fn shapeless(alloc: Global, fault: NotShape) -> Result<String, Wrong> {
    match fault {
        NotShape::Shape => Ok(String::from_str(alloc, "shape")?),
        NotShape::NoMemory => Err(Wrong::NoMemory),
    }
}

/// What the answer to an acquire says.
fn claimed(alloc: Global, case: &str) -> Result<String, Wrong> {
    let (prefix, key, reply) = acquire_in(alloc, case)?;
    match read_acquire(alloc, &prefix, &key, reply) {
        Ok(claim) => told_claim(alloc, &claim),
        Err(fault) => shapeless(alloc, fault),
    }
}

fn acquire_in(alloc: Global, case: &str) -> Result<(Bytes, Bytes, Reply), Wrong> {
    let mut words = words(case);
    let prefix = read_bytes(alloc, &mut words)?;
    let key = read_bytes(alloc, &mut words)?;
    let answer = Answer::read(alloc, &mut words)?;
    words.end()?;
    Ok((prefix, key, done(answer)?))
}

fn told_claim(alloc: Global, claim: &Claim) -> Result<String, Wrong> {
    let mut out = String::new(alloc);
    match claim {
        Claim::Acquired { create, kv } => push_acquired(&mut out, *create, kv)?,
        Claim::OwnedBy { kv, owner } => push_owned(&mut out, kv, owner)?,
    }
    trimmed(alloc, &out)
}

fn push_acquired(out: &mut String, create: u64, kv: &Option<Kv>) -> Result<(), Wrong> {
    write!(out, "acquired {create} ")?;
    push_value(out, kv)
}

fn push_owned(out: &mut String, kv: &Option<Kv>, owner: &Option<Owner>) -> Result<(), Wrong> {
    out.push_str("owned ")?;
    push_value(out, kv)?;
    match owner {
        Some(owner) => push_bytes(out, &owner.key)?,
        None => out.push_str("-")?,
    }
    Ok(())
}

/// The value of a record, and `-` where there is none, with a space behind.
fn push_value(out: &mut String, kv: &Option<Kv>) -> Result<(), Wrong> {
    match kv {
        Some(kv) => push_bytes(out, &kv.value)?,
        None => out.push_str("- ")?,
    }
    Ok(())
}

/// What the answer to a guarded write says.
fn wrote(alloc: Global, case: &str) -> Result<String, Wrong> {
    let (write, answer) = parts(case, " | ")?;
    let (prefix, write) = guarded_in(alloc, write)?;
    let reply = done(table_rows::read_text(alloc, answer)?)?;
    match read_write(alloc, &prefix, &write, reply) {
        Ok(written) => told_write(alloc, written),
        Err(fault) => shapeless(alloc, fault),
    }
}

/// The prefix, and the write.
fn guarded_in(alloc: Global, text: &str) -> Result<(Bytes, Request), Wrong>
    ensures { IfOk result (λ it. IsWrite it.1) }
{
    let mut words = words(text);
    let prefix = read_bytes(alloc, &mut words)?;
    let write = Request::read(alloc, &mut words)?;
    words.end()?;
    match write {
        Request::Put(_) | Request::Delete(_) | Request::Txn(_) => Ok((prefix, write)),
        _ => Err(Wrong::Word),
    }
}

fn told_write(alloc: Global, written: Written) -> Result<String, Wrong> {
    match written {
        Written::Wrote(reply) => told_reply(alloc, reply),
        Written::Blocked(owners) => blocked(alloc, &owners),
    }
}

fn told_reply(alloc: Global, reply: Reply) -> Result<String, Wrong> {
    let mut out = String::from_str(alloc, "done ")?;
    Answer::Done(reply).push(&mut out)?;
    trimmed(alloc, &out)
}

fn blocked(alloc: Global, owners: &List<Owner>) -> Result<String, Wrong> {
    let mut out = String::from_str(alloc, "blocked ")?;
    for owner in owners.as_slice() {
        push_bytes(&mut out, &owner.key)?;
    }
    trimmed(alloc, &out)
}

/// Whether a rescind or a revoke call was done.
fn guard(alloc: Global, case: &str) -> Result<String, Wrong> {
    let reply = done(table_rows::read_text(alloc, case)?)?;
    match read_guard(&reply) {
        Ok(true) => Ok(String::from_str(alloc, "yes")?),
        Ok(false) => Ok(String::from_str(alloc, "no")?),
        Err(fault) => shapeless(alloc, fault),
    }
}
