ghost use Rattle.std.specs.Prelude.{◌≡◌, ◌&&◌, ◌||◌, false, List as Values, IfOk};
ghost use Rattle.audit_model.specs.Unsent.{is_bare_body as is_body_bare, is_true_header as is_header_true, is_true_snapshot as is_snapshot_true};
ghost use Rattle.core_model.specs.Kinds.{writes_keys as writes};
ghost use Rattle.etcd_types.specs.declared.request.Request.TheVariants as request;
ghost use Rattle.proxy_model.specs.Wrapped.{request_under};
ghost use Rattle.store_model.specs.State.{State};
ghost use Rattle.store_model.specs.Step.{exec};
ghost use Rattle.audit_clients.specs.Given.{Gave};
ghost use Rattle.audit_store.specs.Store.{Stands};
ghost use Rattle.script_text.specs.declared.item.Item.{Item as Told};
ghost use Rattle.world_model.specs.Answers.{seen};
ghost use Rattle.world_model.specs.Lives.{namespace_of as namespace_told};

use crate::given::{Given, is_true_header};
use audit_store::Store;
use core_asks::writes_keys;
use equal_values::same_body;
use etcd_types::{Answer, Body, Header, NoMemory, Reply, Request, TxnAsk};
use namespace_keys::{KeyFault, Namespace};
use std::alloc::Global;

/// The store does nothing at a revision from this one on.
const LAST_REVISION: u64 = 0x7fff_ffff_ffff_ffff;

/// The transaction under the namespace.
fn wrapped_txn(alloc: Global, namespace: &Namespace, txn: &TxnAsk) -> Result<Request, NoMemory>
    ensures { IfOk result (λ wrapped. wrapped ≡ request_under namespace.now (request.Txn txn.now)) }
{
    let request = Request::Txn(txn.copy(alloc)?);
    Ok(namespace.wrap_request(alloc, &request)?)
}

/// What the store answers to a transaction that writes nothing. It stays as it is.
fn answer_now(
    alloc: Global,
    store: &mut Store,
    namespace: &Namespace,
    txn: &TxnAsk,
) -> Result<Answer, NoMemory>
    requires { writes (request.Txn txn.now) ≡ false }
    ensures { IfOk result (λ answer. (s : State) → Stands store.old s → Stands store.new s × (answer ≡ (exec s 1 (request_under namespace.now (request.Txn txn.now))).1)) }
{
    if store.newest() >= LAST_REVISION {
        return Err(NoMemory);
    }
    let wrapped = wrapped_txn(alloc, namespace, txn)?;
    let answer = store.execute(&wrapped)?;
    Ok(answer)
}

/// Whether the body is that of the answer without the namespace.
fn is_bare_body(
    alloc: Global,
    namespace: &Namespace,
    told: &Body,
    answer: Answer,
) -> Result<bool, NoMemory>
    ensures { IfOk result (λ so. so ≡ is_body_bare namespace.now told.now answer) }
{
    match answer {
        Answer::Refused(_) => Ok(false),
        Answer::Done(stored) => match namespace.unwrap_reply(alloc, stored) {
            Ok(bare) => Ok(same_body(told, &bare.body)),
            Err(KeyFault::ForeignKey(_)) => Ok(false),
            Err(KeyFault::NoMemory) => Err(NoMemory),
        },
    }
}

/// Whether the body is so, and the header is true.
fn has_true_header(is_bare: bool, store: &Store, given: &Given, proxy: u64, header: &Header) -> bool
    ensures { (items : Values Told) → Stands store.now (seen items).store → Gave given.now items → result ≡ is_bare && is_header_true items proxy header.now }
{
    is_bare && is_true_header(store, given, proxy, header)
}

/// Whether the reply to a transaction that writes nothing is what the store answers to it, without the namespace.
fn is_true_under(
    alloc: Global,
    store: &mut Store,
    given: &Given,
    namespace: &Namespace,
    proxy: u64,
    txn: &TxnAsk,
    reply: &Reply,
) -> Result<bool, NoMemory>
    requires { writes (request.Txn txn.now) ≡ false }
    ensures { IfOk result (λ so. (items : Values Told) → namespace.now ≡ namespace_told items → Stands store.old (seen items).store → Gave given.now items → Stands store.new (seen items).store × (so ≡ is_snapshot_true items proxy txn.now reply.now)) }
{
    let answer = answer_now(alloc, store, namespace, txn)?;
    let is_bare = is_bare_body(alloc, namespace, &reply.body, answer)?;
    Ok(has_true_header(is_bare, store, given, proxy, &reply.header))
}

/// Whether the reply to a transaction that writes nothing is what the store answers to it.
fn is_true_snapshot(
    alloc: Global,
    store: &mut Store,
    given: &Given,
    proxy: u64,
    txn: &TxnAsk,
    reply: &Reply,
) -> Result<bool, NoMemory>
    requires { writes (request.Txn txn.now) ≡ false }
    ensures { IfOk result (λ so. (items : Values Told) → Stands store.old (seen items).store → Gave given.now items → Stands store.new (seen items).store × (so ≡ is_snapshot_true items proxy txn.now reply.now)) }
{
    let namespace = Namespace::new(given.namespace(alloc)?);
    Ok(is_true_under(alloc, store, given, &namespace, proxy, txn, reply)?)
}

/// Whether the transaction writes, or its reply is what the store answers to it.
pub(crate) fn is_true_transaction(
    alloc: Global,
    store: &mut Store,
    given: &Given,
    proxy: u64,
    txn: &TxnAsk,
    reply: &Reply,
) -> Result<bool, NoMemory>
    ensures { IfOk result (λ so. (items : Values Told) → Stands store.old (seen items).store → Gave given.now items → Stands store.new (seen items).store × (so ≡ writes (request.Txn txn.now) || is_snapshot_true items proxy txn.now reply.now)) }
{
    let request = Request::Txn(txn.copy(alloc)?);
    if writes_keys(&request) {
        return Ok(true);
    }
    Ok(is_true_snapshot(alloc, store, given, proxy, txn, reply)?)
}
