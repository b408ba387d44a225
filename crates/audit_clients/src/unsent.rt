ghost use Rattle.std.specs.Prelude.{◌≡◌, List as Values, Some, IfOk};
ghost use Rattle.std.specs.Option.{option_copied};
ghost use Rattle.audit_model.specs.Unsent.{is_true_unsent as is_unsent_true, replies_so as reply_is_so};
ghost use Rattle.script_text.specs.declared.item.Item.TheVariants as item;
ghost use Rattle.audit_clients.specs.Given.{Gave};
ghost use Rattle.audit_store.specs.Store.{Stands};
ghost use Rattle.script_text.specs.declared.item.Item.{Item as Told};
ghost use Rattle.world_model.specs.Answers.{seen};
ghost use Rattle.world_model.specs.Lives.{asked_as as first_asked, is_named as has_call, life as last_life};

use crate::given::Given;
use crate::reads::is_true_read;
use crate::snapshots::is_true_transaction;
use audit_store::Store;
use etcd_types::{Answer, NoMemory, Reply, Request};
use std::alloc::Global;

/// Whether the reply to a request, with no call of its own so far, is what the store holds.
fn is_true_reply(
    alloc: Global,
    store: &mut Store,
    given: &Given,
    proxy: u64,
    request: &Request,
    reply: &Reply,
) -> Result<bool, NoMemory>
    ensures { IfOk result (λ so. (items : Values Told) → Stands store.old (seen items).store → Gave given.now items → Stands store.new (seen items).store × (so ≡ is_unsent_true items proxy (Some request.now) reply.now)) }
{
    match request {
        Request::Range(ask) => Ok(is_true_read(alloc, store, given, proxy, ask, reply)?),
        Request::Txn(txn) => Ok(is_true_transaction(alloc, store, given, proxy, txn, reply)?),
        _ => Ok(true),
    }
}

/// The same of what was asked under a ticket, where something was.
fn is_true_unsent(
    alloc: Global,
    store: &mut Store,
    given: &Given,
    proxy: u64,
    request: Option<&Request>,
    reply: &Reply,
) -> Result<bool, NoMemory>
    ensures { IfOk result (λ so. (items : Values Told) → Stands store.old (seen items).store → Gave given.now items → Stands store.new (seen items).store × (so ≡ is_unsent_true items proxy (option_copied request.entry) reply.now)) }
{
    match request {
        Some(request) => Ok(is_true_reply(alloc, store, given, proxy, request, reply)?),
        None => Ok(true),
    }
}

/// Whether a call of the proxy's life names the ticket.
fn is_named(given: &Given, proxy: u64, ticket: u64) -> bool
    ensures { (items : Values Told) → Gave given.now items → result ≡ has_call proxy ticket (last_life proxy items) }
{
    given.index().is_named(proxy, ticket)
}

/// What was asked at the proxy under this ticket, in its life.
fn asked_as(given: &Given, proxy: u64, ticket: u64) -> Option<&Request>
    ensures { (items : Values Told) → Gave given.now items → option_copied result ≡ first_asked proxy ticket (last_life proxy items) }
{
    given.index().asked_as(proxy, ticket)
}

/// Whether a reply is true where no call of its proxy's life names its ticket so far: an ok reply to a read, or to a transaction that
/// writes nothing, is what the store holds.
pub fn replies_so(
    alloc: Global,
    store: &mut Store,
    given: &Given,
    proxy: u64,
    ticket: u64,
    answer: &Answer,
) -> Result<bool, NoMemory>
    ensures { IfOk result (λ so. (items : Values Told) → Stands store.old (seen items).store → Gave given.now items → Stands store.new (seen items).store × (so ≡ reply_is_so items (item.Reply proxy ticket answer.now))) }
{
    let Answer::Done(reply) = answer else {
        return Ok(true);
    };
    if is_named(given, proxy, ticket) {
        return Ok(true);
    }
    Ok(is_true_unsent(
        alloc,
        store,
        given,
        proxy,
        asked_as(given, proxy, ticket),
        reply,
    )?)
}
