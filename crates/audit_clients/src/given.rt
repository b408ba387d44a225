ghost use Rattle.std.specs.Prelude.{◌≡◌, ◌++◌, ◌∷◌, ◌==◌, [], nat_le, true, List as Values, IfOk, OnOk};
ghost use Rattle.std.specs.List.{list_all};
ghost use Rattle.audit_clients.specs.Given.{Forgets, Gave, GaveNext, KeepsNewest, Raises, is_one, newest_at};
ghost use Rattle.audit_clients.specs.Takings.{TicketOk};
ghost use Rattle.audit_lives.specs.Index.{TellsAll};
ghost use Rattle.audit_model.specs.Order.{in_order};
ghost use Rattle.audit_model.specs.Takes.{takes_so};
ghost use Rattle.audit_model.specs.Summaries.{summary as summary_of};
ghost use Rattle.audit_model.specs.Unsent.{is_true_header as is_header_true};
ghost use Rattle.audit_store.specs.Store.{Stands};
ghost use Rattle.script_text.specs.declared.item.Item.{Item as Told};
ghost use Rattle.world_model.specs.Answers.{seen};
ghost use Rattle.world_model.specs.Lives.{asked_as, life, namespace_of, opened_it, sent_it};
ghost use Rattle.world_model.specs.Reads.{given as given_to};
ghost use Rattle.world_model.specs.Received.{taken_for};

use crate::floors::{LeaseCall, note_call, raise_by};
use crate::takings::{Taking, Takings};
use audit_lives::Index;
use audit_model::Summary;
use audit_store::Store;
use etcd_types::{Bytes, Header, NoMemory};
use replay_parts::Numbers;
use script_text::Item;
use std::alloc::Global;
use world_model::Floor;

/// What proxies and sessions were given by the items so far: the sessions' floors, with the calls that may raise them, and for each proxy
/// the greatest header revision that it was given in its life. And where the watches stand, and where the items tell what is looked up
/// for the next one.
#[derive(Drop)]
pub struct Given {
    pub(crate) floors: Numbers<Floor>,
    leases: Numbers<LeaseCall>,
    newest: Numbers<u64>,
    pub(crate) index: Index,
    takings: Takings,
}

impl Given {
    /// By no items. It takes no memory.
    pub fn new(alloc: Global) -> Given
        ensures { Gave result [] }
    {
        Given {
            floors: Numbers::new(alloc),
            leases: Numbers::new(alloc),
            newest: Numbers::new(alloc),
            index: Index::new(alloc),
            takings: Takings::new(alloc),
        }
    }

    /// Where the items tell what is looked up for the next one.
    pub fn index(&self) -> &Index
        ensures { (items : Values Told) → Gave self.now items → TellsAll result.now items }
    {
        &self.index
    }

    /// What is reported of the items.
    pub fn summary(&self) -> Summary
        ensures { (items : Values Told) → Gave self.now items → result ≡ summary_of items }
    {
        self.index.summary()
    }

    /// Where the watch of the ticket stands, in the life of its proxy.
    pub(crate) fn taking(&self, proxy: u64, ticket: u64) -> Option<Taking>
        ensures { (items : Values Told) → Gave self.now items
            → TicketOk (seen items).store (namespace_of items) (asked_as proxy ticket (life proxy items)) (taken_for proxy ticket (life proxy items)) result }
    {
        self.takings
            .find(self.index.life_start(proxy), proxy, ticket)
    }

    /// The namespace of the world, or none where there is no world.
    pub(crate) fn namespace(&self, alloc: Global) -> Result<Bytes, NoMemory>
        ensures { IfOk result (λ namespace. (items : Values Told) → Gave self.now items → namespace ≡ namespace_of items) }
    {
        Ok(self.index.namespace(alloc)?)
    }

    /// By the next item, too, which keeps the rules.
    pub fn take(&mut self, item: Item) -> Result<(), NoMemory>
        ensures { OnOk result ((items : Values Told) → in_order items item ≡ true → takes_so items item ≡ true → Gave self.old items → Gave self.new (items ++ item ∷ [])) }
    {
        // What owns an item is dear to prove over each way out: others borrow it.
        self.note(&item)?;
        self.index.take(item)?;
        Ok(())
    }

    /// Notes what is given by the next item, but where it tells it.
    fn note(&mut self, item: &Item) -> Result<(), NoMemory>
        ensures { OnOk result ((items : Values Told) → in_order items item.now ≡ true → takes_so items item.now ≡ true → Gave self.old items → GaveNext self.new items item.now) }
    {
        raise_by(&mut self.floors, &self.leases, item)?;
        note_call(&mut self.leases, &self.index, item)?;
        renew(&mut self.newest, &self.index, item)?;
        self.takings.follow(&self.index, item)?;
        Ok(())
    }
}

/// The revision that is kept for the proxy, or 0.
fn newest_of(newest: &Numbers<u64>, proxy: u64) -> u64
    ensures { result ≡ newest_at newest.now proxy }
{
    match newest.find(proxy) {
        Some(revision) => *revision,
        None => 0,
    }
}

/// The proxy was given this revision.
fn raise(newest: &mut Numbers<u64>, proxy: u64, revision: u64) -> Result<(), NoMemory>
    ensures { OnOk result (Raises newest.old newest.new (λ p. proxy == p) revision) }
{
    let greatest = newest_of(newest, proxy).max(revision);
    newest.put(proxy, greatest)?;
    Ok(())
}

/// The same, where there is a proxy.
fn raise_one(newest: &mut Numbers<u64>, proxy: Option<u64>, revision: u64) -> Result<(), NoMemory>
    ensures { OnOk result (Raises newest.old newest.new (is_one proxy) revision) }
{
    match proxy {
        Some(proxy) => Ok(raise(newest, proxy, revision)?),
        None => Ok(()),
    }
}

/// The sender of the call was given this revision. Calls are numbered in order: one whose number was sent twice has no one sender.
fn raise_sender(
    newest: &mut Numbers<u64>,
    index: &Index,
    call: u64,
    revision: u64,
) -> Result<(), NoMemory>
    ensures { OnOk result ((items : Values Told) → TellsAll index.now items → Raises newest.old newest.new (λ p. sent_it p call items) revision) }
{
    if !index.has_single_senders() {
        return Err(NoMemory);
    }
    Ok(raise_one(newest, index.sender_of(call), revision)?)
}

/// The opener of the stream was given this revision. Streams are numbered in order, too.
fn raise_opener(
    newest: &mut Numbers<u64>,
    index: &Index,
    stream: u64,
    revision: u64,
) -> Result<(), NoMemory>
    ensures { OnOk result ((items : Values Told) → TellsAll index.now items → Raises newest.old newest.new (λ p. opened_it p stream items) revision) }
{
    if !index.has_single_openers() {
        return Err(NoMemory);
    }
    Ok(raise_one(newest, index.opener_of(stream), revision)?)
}

/// The proxy begins a life.
fn forget(newest: &mut Numbers<u64>, proxy: u64) -> Result<(), NoMemory>
    ensures { OnOk result (Forgets newest.old newest.new proxy) }
{
    newest.put(proxy, 0)?;
    Ok(())
}

/// The next item gives a header, or begins a life.
fn renew(newest: &mut Numbers<u64>, index: &Index, item: &Item) -> Result<(), NoMemory>
    ensures { OnOk result ((items : Values Told) → TellsAll index.now items → KeepsNewest newest.old items → KeepsNewest newest.new (items ++ item.now ∷ [])) }
{
    match item {
        Item::Started { proxy } => Ok(forget(newest, *proxy)?),
        Item::Restarted { proxy } => Ok(forget(newest, *proxy)?),
        Item::Answered { call } => {
            let revision = index.answer_revision(*call);
            Ok(raise_sender(newest, index, *call, revision)?)
        }
        Item::Delivered { stream } => {
            let revision = index.message_revision(*stream);
            Ok(raise_opener(newest, index, *stream, revision)?)
        }
        _ => Ok(()),
    }
}

/// Whether no header that the proxy was given in its life is newer than this revision.
fn is_given_up_to(given: &Given, proxy: u64, revision: u64) -> bool
    ensures { (items : Values Told) → Gave given.now items → result ≡ list_all (λ r. nat_le r revision) (given_to proxy items) }
{
    newest_of(&given.newest, proxy) <= revision
}

/// Whether no header that the proxy was given in its life is newer than this one, and the store is no older.
pub(crate) fn is_true_header(store: &Store, given: &Given, proxy: u64, header: &Header) -> bool
    ensures { (items : Values Told) → Stands store.now (seen items).store → Gave given.now items → result ≡ is_header_true items proxy header.now }
{
    is_given_up_to(given, proxy, header.revision) && header.revision <= store.newest()
}
