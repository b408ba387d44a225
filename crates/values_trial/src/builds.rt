ghost use Rattle.std.specs.Prelude.{IfOk};
ghost use Rattle.std.specs.Bool.{IsTrue};
ghost use Rattle.proxy_model.specs.Guarded.{is_one_key};

use crate::shown::{shown, words};
use etcd_types::{Bytes, DeleteAsk, Op, Request};
use lease_txn::{acquire, ask_revoke, guest_write, owner_write, range_write, rescind};
use message_text::Text;
use std::alloc::Global;
use table_rows::{Wrong, parts};
use text_words::{Words, read_bytes, read_number};

/// What comes of a transaction's case: one on an ownership key, or a guarded write.
pub fn came_of(alloc: Global, kind: &str, case: &str) -> Result<String, Wrong> {
    match kind {
        "owner" => by_owner(alloc, case),
        "guest" => by_guest(alloc, case),
        "several" => of_several(alloc, case),
        _ => on_ownership_key(alloc, kind, case),
    }
}

/// The transaction that takes a key, gives it up, or asks its owner to.
fn on_ownership_key(alloc: Global, kind: &str, case: &str) -> Result<String, Wrong> {
    let (prefix, key, number) = key_of(alloc, case)?;
    match kind {
        "acquire" => shown(alloc, &acquire(alloc, &prefix, &key, number)?),
        "rescind" => shown(alloc, &rescind(alloc, &prefix, &key, number)?),
        _ => shown(alloc, &ask_revoke(alloc, &prefix, &key, number)?),
    }
}

fn key_of(alloc: Global, case: &str) -> Result<(Bytes, Bytes, u64), Wrong> {
    let mut words = words(case);
    let prefix = read_bytes(alloc, &mut words)?;
    let key = read_bytes(alloc, &mut words)?;
    let number = read_number(&mut words)?;
    words.end()?;
    Ok((prefix, key, number))
}

/// A put, or a delete of one key, as an operation.
fn single(request: Request) -> Result<Op, Wrong>
    ensures { IfOk result (λ op. IsTrue (is_one_key op)) }
{
    match request {
        Request::Put(ask) => Ok(Op::Put(ask)),
        Request::Delete(ask) => deletion(ask),
        _ => Err(Wrong::Word),
    }
}

/// The delete of one key as an operation.
fn deletion(ask: DeleteAsk) -> Result<Op, Wrong>
    ensures { IfOk result (λ op. IsTrue (is_one_key op)) }
{
    if ask.range.is_one() {
        Ok(Op::Delete(ask))
    } else {
        Err(Wrong::Word)
    }
}

fn write_in(alloc: Global, words: &mut Words) -> Result<Request, Wrong> {
    let write = Request::read(alloc, words)?;
    words.end()?;
    Ok(write)
}

/// The write of one key by its owner.
fn by_owner(alloc: Global, case: &str) -> Result<String, Wrong> {
    let mut words = words(case);
    let prefix = read_bytes(alloc, &mut words)?;
    let create = read_number(&mut words)?;
    let write = single(write_in(alloc, &mut words)?)?;
    shown(alloc, &owner_write(alloc, &prefix, &write, create)?)
}

/// The write of one key by a guest.
fn by_guest(alloc: Global, case: &str) -> Result<String, Wrong> {
    let mut words = words(case);
    let prefix = read_bytes(alloc, &mut words)?;
    let write = single(write_in(alloc, &mut words)?)?;
    shown(alloc, &guest_write(alloc, &prefix, &write)?)
}

/// The write of several keys.
fn of_several(alloc: Global, case: &str) -> Result<String, Wrong> {
    let mut words = words(case);
    let prefix = read_bytes(alloc, &mut words)?;
    let write = write_in(alloc, &mut words)?;
    match write {
        Request::Delete(_) | Request::Txn(_) => {
            shown(alloc, &range_write(alloc, &prefix, &write)?)
        }
        _ => Err(Wrong::Word),
    }
}
