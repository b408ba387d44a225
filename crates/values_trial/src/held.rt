use etcd_types::{Answer, Body, Bytes, Header, Kv, Reply, Request, TxnAsk};
use message_text::Text;
use snapshot_reads::{Records, read_only};
use std::alloc::Global;
use table_rows::{Wrong, read_text};

/// A record, and a key that is held as absent.
#[derive(Drop)]
struct Held {
    record: Kv,
    absent: Bytes,
}

impl Records for Held {
    ghost use Rattle.std.specs.Prelude.{None, Some, if◌then◌else◌};
    ghost use Rattle.etcd_types.specs.Keys.{same};

    ghost records = { λ held k. (if same held.record.key k then Some (Some held.record) else if same held.absent k then Some None else None) };

    fn held(&self, key: &Bytes) -> Option<Option<&Kv>> {
        if self.record.key == *key {
            return Some(Some(&self.record));
        }
        if self.absent == *key {
            return Some(None);
        }
        None
    }
}

/// What comes of a transaction on held records.
pub fn came_of(alloc: Global, case: &str) -> Result<String, Wrong> {
    let txn = txn_of(read_text(alloc, case)?)?;
    let body = read_only(alloc, &txn, &records(alloc)?)?;
    match body {
        None => Ok(String::from_str(alloc, "none")?),
        Some(body) => told(alloc, body),
    }
}

fn txn_of(request: Request) -> Result<TxnAsk, Wrong> {
    match request {
        Request::Txn(txn) => Ok(txn),
        _ => Err(Wrong::Word),
    }
}

fn records(alloc: Global) -> Result<Held, Wrong> {
    let record = Kv {
        key: Bytes::from_slice(alloc, b"a")?,
        value: Bytes::from_slice(alloc, b"y")?,
        create: 3,
        modified: 4,
        version: 2,
        lease: 0,
    };
    let absent = Bytes::from_slice(alloc, b"c")?;
    Ok(Held { record, absent })
}

/// The body as that of an answer.
fn told(alloc: Global, body: Body) -> Result<String, Wrong> {
    let header = Header {
        cluster: 0,
        member: 0,
        revision: 0,
        term: 0,
    };
    let mut out = String::new(alloc);
    Answer::Done(Reply { header, body }).push(&mut out)?;
    Ok(String::from_str(alloc, out.as_str().trim_end())?)
}
