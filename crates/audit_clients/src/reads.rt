ghost use Rattle.std.specs.Prelude.{◌≡◌, ◌++◌, List as Values, IfOk};
ghost use Rattle.audit_model.specs.Unsent.{is_true_read as is_read_true};
ghost use Rattle.proxy_model.specs.Snapshot.{is_plain as is_plain_ask, is_unsorted as is_unsorted_ask};
ghost use Rattle.store_model.specs.Records.{record_now as record_at};
ghost use Rattle.audit_clients.specs.Given.{Gave};
ghost use Rattle.audit_store.specs.Store.{Stands};
ghost use Rattle.world_model.specs.Answers.{seen};
ghost use Rattle.script_text.specs.declared.item.Item.{Item as Told};
ghost use Rattle.world_model.specs.Reads.{shown as shown_as, shown_now as shows_now};

use crate::given::{Given, is_true_header};
use audit_store::Store;
use equal_values::same_body;
use etcd_types::{Body, Bytes, Kv, List, NoMemory, RangeAsk, Reply, Sort};
use namespace_keys::key_under;
use std::alloc::Global;

fn is_unsorted(sort: Sort) -> bool
    ensures { result ≡ is_unsorted_ask sort }
{
    sort.order == 0
        && sort.target == 0
        && sort.min_mod == 0
        && sort.max_mod == 0
        && sort.min_create == 0
        && sort.max_create == 0
}

/// Whether it reads one key as it is now, and shows the whole record.
fn is_plain(ask: &RangeAsk) -> bool
    ensures { result ≡ is_plain_ask ask.now }
{
    ask.range.is_one()
        && ask.revision == 0
        && !ask.serializable
        && !ask.keys_only
        && !ask.count_only
        && is_unsorted(ask.sort)
}

/// What a read of the key shows where this is the record, told by the client's key.
fn shown(alloc: Global, key: &Bytes, found: Option<Kv>) -> Result<Body, NoMemory>
    ensures { IfOk result (λ body. body ≡ shown_as key.now found) }
{
    let mut kvs = List::new(alloc);
    match found {
        None => Ok(Body::Range {
            count: 0,
            more: false,
            kvs,
        }),
        Some(kv) => {
            let mut kv = kv;
            kv.key = key.copy(alloc)?;
            kvs.push(kv)?;
            Ok(Body::Range {
                count: 1,
                more: false,
                kvs,
            })
        }
    }
}

/// What a read of the key shows.
fn shown_now(alloc: Global, store: &Store, given: &Given, key: &Bytes) -> Result<Body, NoMemory>
    ensures { IfOk result (λ body. (items : Values Told) → Stands store.now (seen items).store → Gave given.now items → body ≡ shows_now items key.now) }
{
    let namespace = given.namespace(alloc)?;
    let stored = key_under(alloc, &namespace, key)?;
    let found = store.record(&stored)?;
    Ok(shown(alloc, key, found)?)
}

/// Whether it is a plain read, and its reply is what the store shows.
pub(crate) fn is_true_read(
    alloc: Global,
    store: &Store,
    given: &Given,
    proxy: u64,
    ask: &RangeAsk,
    reply: &Reply,
) -> Result<bool, NoMemory>
    ensures { IfOk result (λ so. (items : Values Told) → Stands store.now (seen items).store → Gave given.now items → so ≡ is_read_true items proxy ask.now reply.now) }
{
    if !is_plain(ask) {
        return Ok(false);
    }
    let due = shown_now(alloc, store, given, &ask.range.key)?;
    Ok(same_body(&reply.body, &due) && is_true_header(store, given, proxy, &reply.header))
}
