ghost use Rattle.std.specs.Prelude.{◌≡◌, map, IfOk};
ghost use Rattle.store_model.specs.Reads.{is_unsupported, without_value, limited, shown, range_body};

use etcd_types::{Body, Bytes, Kv, List, NoMemory, RangeAsk, Sort};
use std::alloc::Global;

/// Whether the range asks for an order or for a filter that is not supported.
pub fn is_unsupported(sort: &Sort) -> bool
    ensures { result ≡ is_unsupported sort.now }
{
    sort.order == 2
        || sort.target != 0
        || sort.min_mod != 0
        || sort.max_mod != 0
        || sort.min_create != 0
        || sort.max_create != 0
}

/// What a range that these are the records of is answered.
pub fn range_body(alloc: Global, ask: &RangeAsk, records: List<Kv>) -> Result<Body, NoMemory>
    ensures { IfOk result (λ body. body ≡ range_body ask.now records) }
{
    let count = records.len() as u64;
    if ask.count_only {
        return Ok(Body::Range {
            count,
            more: false,
            kvs: List::new(alloc),
        });
    }
    let more = ask.limit != 0 && ask.limit < count;
    Ok(Body::Range {
        count,
        more,
        kvs: shown(alloc, ask, records)?,
    })
}

fn shown(alloc: Global, ask: &RangeAsk, records: List<Kv>) -> Result<List<Kv>, NoMemory>
    ensures { IfOk result (λ kvs. kvs ≡ shown ask.now records) }
{
    let first = limited(records.as_slice(), ask.limit);
    if ask.keys_only {
        return Ok(without_values(alloc, first)?);
    }
    if first.len() < records.len() {
        return Ok(copies(alloc, first)?);
    }
    Ok(records)
}

fn limited(records: &[Kv], limit: u64) -> &[Kv]
    ensures { result.now ≡ limited limit records.now }
{
    if limit == 0 || records.len() as u64 <= limit {
        records
    } else {
        &records[..limit as usize]
    }
}

fn copies(alloc: Global, records: &[Kv]) -> Result<List<Kv>, NoMemory>
    ensures { IfOk result (λ kvs. kvs ≡ records.now) }
{
    let mut kvs = List::new(alloc);
    for record in records {
        kvs.push(record.copy(alloc)?)?;
    }
    Ok(kvs)
}

fn without_values(alloc: Global, records: &[Kv]) -> Result<List<Kv>, NoMemory>
    ensures { IfOk result (λ kvs. kvs ≡ map without_value records.now) }
{
    let mut kvs = List::new(alloc);
    for record in records {
        kvs.push(Kv {
            key: record.key.copy(alloc)?,
            value: Bytes::new(alloc),
            create: record.create,
            modified: record.modified,
            version: record.version,
            lease: record.lease,
        })?;
    }
    Ok(kvs)
}
