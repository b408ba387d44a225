ghost use Rattle.std.specs.Prelude.{◌≡◌, IfOk};
ghost use Rattle.std.specs.Option.{option_copied, option_map};
ghost use Rattle.proxy_model.specs.LeaseTable.{is_held};
ghost use Rattle.std.specs.Prelude.{Some};
ghost use Rattle.core_model.specs.Asking.{held_record, held_body};

use etcd_types::{Body, Bytes, Kv, NoMemory, Request};
use lease_table::{Entry, LeaseTable, Phase};
use snapshot_reads::{Records, read_only};
use std::alloc::Global;

/// The records that the lease table holds.
#[derive(Drop)]
struct HeldRecords<'a> {
    table: &'a LeaseTable,
}

impl<'a> Records for HeldRecords<'a> {
    ghost use Rattle.proxy_model.specs.Keyed.{at};
    ghost use Rattle.core_model.specs.Asking.{held_record};

    ghost records = { λ held k. held_record (at held.table.now.entries k) };

    fn held(&self, key: &Bytes) -> Option<Option<&Kv>> {
        record_of(self.table.find(key))
    }
}

/// The record of an entry, where it is held.
fn record_of(entry: Option<&Entry>) -> Option<Option<&Kv>>
    ensures { option_map option_copied result ≡ held_record (option_copied entry.entry) }
{
    match entry {
        Some(entry) if is_held(entry) => Some(entry.kv.as_ref()),
        _ => None,
    }
}

fn is_held(entry: &Entry) -> bool
    ensures { result ≡ is_held (Some entry.now) }
{
    match entry.phase {
        Phase::Held => true,
        Phase::Writing { .. } | Phase::Leaving { .. } => false,
    }
}

/// The answer to a transaction that only reads, of plain reads and compares of single keys which are all held; nothing for any
/// other request. `NoMemory` where memory was wanting.
pub fn held_body(
    alloc: Global,
    table: &LeaseTable,
    request: &Request,
) -> Result<Option<Body>, NoMemory>
    ensures { IfOk result (λ body. body ≡ held_body table.now.entries request.now) }
{
    match request {
        Request::Txn(txn) => Ok(read_only(alloc, txn, &HeldRecords { table })?),
        _ => Ok(None),
    }
}
