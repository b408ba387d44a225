ghost use Rattle.std.specs.Prelude.{◌≡◌, ◌<◌, ◌≤◌, ◌^◌, ◌++◌, ◌∷◌, [], ℕ, List as Values, length, true, None, IfOk, IfErr, OnOk};
ghost use Rattle.audit_clients.specs.Given.{Gave};
ghost use Rattle.audit_model.specs.Broken.{breaks_clients, breaks_store, broken};
ghost use Rattle.audit_model.specs.Answers.{is_due_answer as is_answer_due, is_due_message as is_message_due};
ghost use Rattle.audit_model.specs.Floors.{too_early as is_too_early};
ghost use Rattle.audit_model.specs.Order.{fits_behind as fits_so, is_ok};
ghost use Rattle.audit_model.specs.Takes.{takes_so as take_is_so};
ghost use Rattle.audit_model.specs.Unsent.{replies_so as reply_is_so};
ghost use Rattle.audit_model.specs.declared.fault.AuditFault.TheVariants as fault;
ghost use Rattle.audit_text.specs.Standing.{IsFaultOf, Makes, MakesAll, Refuses};
ghost use Rattle.script_text.specs.declared.item.Item.{Item as Told};
ghost use Rattle.script_text.specs.declared.item.Item.TheVariants as item;
ghost use Rattle.store_model.specs.Leases.{expired};
ghost use Rattle.store_model.specs.Members.{applied};
ghost use Rattle.world_model.specs.Answers.{Seen, after_opening, answer_to, message_by, message_of as message, saw, seen, unseen};

use crate::compared::{is_due_answer, is_due_message};
use crate::stored::{answer_of, applies, expires, message_of, open};
use audit_clients::{Given, replies_so, takes_so, too_early};
use audit_lives::{about, fits_behind};
use audit_model::AuditFault;
use audit_store::Store;
use etcd_types::{Answer, NoMemory, Request, WatchItem};
use script_text::Item;
use std::alloc::Global;

/// What the items of a transcript make: the store.
#[derive(Drop)]
pub(crate) struct Made {
    pub alloc: Global,
    pub store: Store,
}

impl Made {
    /// A world of so many members.
    pub fn new(alloc: Global, members: u64) -> Result<Made, NoMemory>
        requires members { (1 ≤ members) × (members ≤ 9) }
        ensures { IfOk result (λ made. (namespace leasing : Values ℕ) → Makes made (saw unseen (item.World members namespace leasing))) }
    {
        Ok(Made {
            alloc,
            store: Store::new(alloc, members as u32)?,
        })
    }

    /// Takes the next item, or says which rule it breaks.
    pub fn follow(&mut self, item: &Item, given: &Given) -> Result<(), AuditFault>
        ensures taken { OnOk result ((items : Values Told) → MakesAll self.old items → Gave given.now items → (broken items item.now ≡ None) × Makes self.new (saw (seen items) item.now)) }
        ensures fault { IfErr result (λ f. (items : Values Told) → MakesAll self.old items → Gave given.now items → IsFaultOf f (broken items item.now)) }
    {
        match self.step(item, given) {
            Ok(()) => self.give(item, given),
            Err(fault) => Err(fault),
        }
    }

    /// The item is in order, and its answer or its message is the store's.
    fn step(&mut self, item: &Item, given: &Given) -> Result<(), AuditFault>
        ensures taken { OnOk result ((items : Values Told) → MakesAll self.old items → Gave given.now items → (breaks_store items item.now ≡ None) × Makes self.new (saw (seen items) item.now)) }
        ensures fault { IfErr result (λ f. (items : Values Told) → MakesAll self.old items → Gave given.now items → IsFaultOf f (breaks_store items item.now)) }
    {
        if !is_in_order(given, item) {
            return Err(AuditFault::Order(about(item)));
        }
        match item {
            Item::Opened {
                member,
                request,
                ..
            } => Ok(self.open(*member, request)?),
            Item::Executed { call, answer } => self.execute(given, *call, answer),
            Item::Pushed { stream, item } => self.push(*stream, item),
            Item::Expired { lease } => self.expire(*lease),
            Item::Applied { member, revision } => self.apply(*member, *revision),
            _ => Ok(()),
        }
    }

    /// What the item gives to a client is true, and no session expires too early by it.
    fn give(&mut self, item: &Item, given: &Given) -> Result<(), AuditFault>
        ensures taken { OnOk result ((items : Values Told) → Makes self.old (saw (seen items) item.now) → Gave given.now items → (breaks_clients items item.now ≡ None) × Makes self.new (saw (seen items) item.now)) }
        ensures fault { IfErr result (λ f. (items : Values Told) → Makes self.old (saw (seen items) item.now) → Gave given.now items → IsFaultOf f (breaks_clients items item.now)) }
    {
        match item {
            Item::Reply {
                proxy,
                ticket,
                answer,
            } => self.reply(given, *proxy, *ticket, answer),
            Item::Taken {
                proxy,
                ticket,
                item,
            } => self.take(given, *proxy, *ticket, item),
            Item::Expired { lease } => end(given, *lease),
            _ => Ok(()),
        }
    }

    /// A ticket is replied.
    fn reply(
        &mut self,
        given: &Given,
        proxy: u64,
        ticket: u64,
        answer: &Answer,
    ) -> Result<(), AuditFault>
        ensures taken { OnOk result ((items : Values Told) → Makes self.old (seen items) → Gave given.now items → (reply_is_so items (item.Reply proxy ticket answer.now) ≡ true) × Makes self.new (seen items)) }
        ensures fault { IfErr result (λ f. (items : Values Told) → Makes self.old (seen items) → Gave given.now items → Refuses f (fault.Unsent ticket) (reply_is_so items (item.Reply proxy ticket answer.now))) }
    {
        if replies_so(self.alloc, &mut self.store, given, proxy, ticket, answer)? {
            Ok(())
        } else {
            Err(AuditFault::Unsent(ticket))
        }
    }

    /// A watch takes a message.
    fn take(
        &mut self,
        given: &Given,
        proxy: u64,
        ticket: u64,
        message: &WatchItem,
    ) -> Result<(), AuditFault>
        ensures taken { OnOk result ((items : Values Told) → Makes self.old (seen items) → Gave given.now items → (take_is_so items (item.Taken proxy ticket message.now) ≡ true) × Makes self.new (seen items)) }
        ensures fault { IfErr result (λ f. (items : Values Told) → Makes self.old (seen items) → Gave given.now items → Refuses f (fault.Watch ticket) (take_is_so items (item.Taken proxy ticket message.now))) }
    {
        if takes_so(self.alloc, &self.store, given, proxy, ticket, message)? {
            Ok(())
        } else {
            Err(AuditFault::Watch(ticket))
        }
    }

    /// The call is executed, and its answer is this one.
    fn execute(&mut self, given: &Given, call: u64, told: &Answer) -> Result<(), AuditFault>
        ensures taken { OnOk result ((items : Values Told) → Makes self.old (seen items) → Gave given.now items → (is_answer_due told.now (answer_to (seen items) call) ≡ true) × Makes self.new (saw (seen items) (item.Executed call told.now))) }
        ensures fault { IfErr result (λ f. (items : Values Told) → Makes self.old (seen items) → Gave given.now items → Refuses f (fault.Answer call) (is_answer_due told.now (answer_to (seen items) call))) }
    {
        let due = answer_of(self.alloc, &mut self.store, given.index().sent_call(call))?;
        if is_due_answer(told, &due) {
            Ok(())
        } else {
            Err(AuditFault::Answer(call))
        }
    }

    /// The stream has a message of this kind to push, and it is this one.
    fn push(&mut self, stream: u64, told: &WatchItem) -> Result<(), AuditFault>
        ensures taken { OnOk result ((s : Seen) → Makes self.old s → (is_message_due told.now (message (message_by s.store stream told.now)) ≡ true) × Makes self.new (saw s (item.Pushed stream told.now))) }
        ensures fault { IfErr result (λ f. (s : Seen) → Makes self.old s → Refuses f (fault.Push stream) (is_message_due told.now (message (message_by s.store stream told.now)))) }
    {
        let due = message_of(&mut self.store, stream, told)?;
        if is_due_message(told, &due) {
            Ok(())
        } else {
            Err(AuditFault::Push(stream))
        }
    }

    /// There is such a lease, and it expires.
    fn expire(&mut self, lease: u64) -> Result<(), AuditFault>
        ensures taken { OnOk result ((s : Seen) → Makes self.old s → (is_ok (expired s.store lease) ≡ true) × Makes self.new (saw s (item.Expired lease))) }
        ensures fault { IfErr result (λ f. (s : Seen) → Makes self.old s → Refuses f (fault.Order lease) (is_ok (expired s.store lease))) }
    {
        if expires(&mut self.store, lease)? {
            Ok(())
        } else {
            Err(AuditFault::Order(lease))
        }
    }

    /// There is such a member that can apply this revision, and it does.
    fn apply(&mut self, member: u64, revision: u64) -> Result<(), AuditFault>
        ensures taken { OnOk result ((s : Seen) → Makes self.old s → (is_ok (applied s.store member revision) ≡ true) × Makes self.new (saw s (item.Applied member revision))) }
        ensures fault { IfErr result (λ f. (s : Seen) → Makes self.old s → Refuses f (fault.Order member) (is_ok (applied s.store member revision))) }
    {
        if applies(&mut self.store, member, revision)? {
            Ok(())
        } else {
            Err(AuditFault::Order(member))
        }
    }

    /// A stream is opened.
    fn open(&mut self, member: u64, request: &Request) -> Result<(), NoMemory>
        ensures { OnOk result ((s : Seen) → Makes self.old s → Makes self.new (record s { store = after_opening s.store member request.now })) }
    {
        open(&mut self.store, member, request)?;
        Ok(())
    }
}

/// Whether the item is in order behind these.
fn is_in_order(given: &Given, item: &Item) -> bool
    ensures { (items : Values Told) → Gave given.now items → result ≡ fits_so items item.now }
{
    fits_behind(given.index(), item)
}

/// A lease ends that expired.
fn end(given: &Given, lease: u64) -> Result<(), AuditFault>
    ensures taken { OnOk result ((items : Values Told) → Gave given.now items → is_too_early items (item.Expired lease) ≡ None) }
    ensures fault { IfErr result (λ f. (items : Values Told) → Gave given.now items → IsFaultOf f (is_too_early items (item.Expired lease))) }
{
    match too_early(given, lease) {
        Some(fault) => Err(fault),
        None => Ok(()),
    }
}
