ghost use Rattle.std.specs.Prelude.{◌≡◌, ◌≤◌, if◌then◌else◌, Bool, true, [], None, Some, is_some, OnOk, OnErr};
ghost use Rattle.std.specs.Option.{option_copied};
ghost use Rattle.proxy_model.specs.Keyed.{at, with_at};
ghost use Rattle.proxy_model.specs.declared.ownership.Claim.TheVariants.{Acquired, OwnedBy};
ghost use Rattle.known_asks.specs.Changes.{restaged};
ghost use Rattle.read_model.specs.Acquires.{acquire_answered, acquire_done, acquire_refused, done_by, won, found_own};
ghost use Rattle.proxy_model.specs.Acquire.{claimed};
ghost use Rattle.wait_model.specs.Asked.{acquire_ended};
ghost use Rattle.wait_model.specs.State.{owned};
ghost use Rattle.read_steps.specs.Parts.{held_entries};
ghost use Rattle.read_steps.specs.Steps.{FitTogether, GivesReads, Claims};

use crate::moment::Moment;
use crate::reads::Reads;
use acquire_rows::Acquires;
use etcd_types::code::NOT_FOUND;
use etcd_types::{Answer, Bytes, Header, Kv, NoMemory, Reply};
use known_asks::{Asks, Stage, set_stages};
use lease_table::{Entry, LeaseTable, Phase};
use lease_txn::{NotShape, read_acquire};
use proxy_model::{Claim, Owner};
use read_core::{reader_changes, release_at};
use revoke_calls::{is_session, own_entry};
use revoke_core::Waits;
use std::alloc::Global;

impl Reads {
    /// The acquire of the key was answered; whether the session ended by it, since its lease isn't there any more. Where the key is held
    /// now, its reads are answered; else what was taken is given up, and the reads that joined become calls. Nothing is done where no
    /// acquire of the key is due or out. `Shape` comes exactly where the answer can't be one to an acquire, which then counts as lost;
    /// then, and where memory was wanting, all is as before.
    pub fn answer_acquire(
        &mut self,
        m: &Moment,
        key: &Bytes,
        answer: Answer,
    ) -> Result<bool, NotShape>
        requires { FitTogether self.old }
        ensures after { GivesReads result self.new (acquire_answered m.entry.now key.now answer self.old) }
        ensures err { OnErr result (self.new ≡ self.old) }
    {
        let session = match self.acquires.find(key) {
            Some(acquire) => acquire.session,
            None => return Ok(false),
        };
        match answer {
            Answer::Done(reply) => {
                let held = is_session(m.session, session) && !self.waits.is_spoiled(key);
                self.take_reply(m, key, held, reply)?;
                Ok(false)
            }
            Answer::Refused(refusal) => {
                let ends = is_session(m.session, session) && refusal.code == NOT_FOUND;
                self.refuse_acquire(m, key, ends);
                Ok(ends)
            }
        }
    }

    /// The acquire of the key was refused, and the session ends by it or doesn't; where it doesn't, the reads of the key alone are looked at.
    fn refuse_acquire(&mut self, m: &Moment, key: &Bytes, ends: bool)
        requires { FitTogether self.old }
        ensures { self.new ≡ (acquire_refused m.entry.now key.now ends self.old).reads }
    {
        self.waits.end_acquire(key);
        self.acquires.remove(key);
        if ends {
            self.end_session(m);
        } else {
            release_at(
                self.alloc,
                &mut self.asks,
                key,
                &self.table,
                &self.acquires,
                self.waits.step(),
            );
        }
    }

    /// The acquire of the key has this reply; `held` says that the key is held where it was acquired.
    fn take_reply(
        &mut self,
        m: &Moment,
        key: &Bytes,
        held: bool,
        reply: Reply,
    ) -> Result<(), NotShape>
        requires fit { FitTogether self.old }
        requires acquire { is_some (at self.old.acquires key.now) ≡ true }
        ensures after { Claims result self.new (done_by m.entry.now key.now held reply.header (claimed self.old.own.waits.prefix key.now reply) self.old) }
        ensures err { OnErr result (self.new ≡ self.old) }
    {
        let header = reply.header;
        match read_acquire(self.alloc, self.waits.prefix(), key, reply) {
            Err(fault) => Err(fault),
            Ok(Claim::Acquired { create, kv }) => {
                self.win(m, key, held, header, create, kv)?;
                Ok(())
            }
            Ok(Claim::OwnedBy { kv, owner }) => {
                self.give_way(m, key, header, kv, owner)?;
                Ok(())
            }
        }
    }

    /// The key was acquired, and is held or given up again.
    fn win(
        &mut self,
        m: &Moment,
        key: &Bytes,
        held: bool,
        header: Header,
        create: u64,
        kv: Option<Kv>,
    ) -> Result<(), NoMemory>
        requires fit { FitTogether self.old }
        requires acquire { is_some (at self.old.acquires key.now) ≡ true }
        ensures ok { OnOk result (self.new ≡ acquire_done m.entry.now key.now held header (Acquired create kv) self.old) }
        ensures err { OnErr result (self.new ≡ self.old) }
    {
        let changes = reader_changes(
            self.alloc,
            &self.asks,
            key,
            header,
            kv.as_ref(),
            header_if(held, m.header),
            self.waits.step(),
        )?;
        let entry = entry_won(held, create, kv);
        end_acquire(
            self.alloc,
            key,
            Some(entry),
            changes,
            &mut self.waits,
            &mut self.table,
            &mut self.acquires,
            &mut self.asks,
        )?;
        Ok(())
    }

    /// The key is owned by another, or by this proxy's session, which then gives it up.
    fn give_way(
        &mut self,
        m: &Moment,
        key: &Bytes,
        header: Header,
        kv: Option<Kv>,
        owner: Option<Owner>,
    ) -> Result<(), NoMemory>
        requires fit { FitTogether self.old }
        requires acquire { is_some (at self.old.acquires key.now) ≡ true }
        ensures ok { OnOk result ((held : Bool) → self.new ≡ acquire_done m.entry.now key.now held header (OwnedBy kv owner) self.old) }
        ensures err { OnErr result (self.new ≡ self.old) }
    {
        let changes = reader_changes(
            self.alloc,
            &self.asks,
            key,
            header,
            kv.as_ref(),
            None,
            self.waits.step(),
        )?;
        end_acquire(
            self.alloc,
            key,
            entry_found(m.session, owner.as_ref()),
            changes,
            &mut self.waits,
            &mut self.table,
            &mut self.acquires,
            &mut self.asks,
        )?;
        Ok(())
    }
}

fn header_if(held: bool, header: Header) -> Option<Header>
    ensures { result ≡ (if held then Some header else None) }
{
    if held { Some(header) } else { None }
}

fn entry_won(held: bool, create: u64, kv: Option<Kv>) -> Entry
    ensures { result ≡ won held create kv }
{
    if held {
        Entry {
            create,
            kv,
            phase: Phase::Held,
        }
    } else {
        own_entry(create)
    }
}

/// The entry by which an ownership key of the live session is given up.
fn entry_found(session: Option<u64>, owner: Option<&Owner>) -> Option<Entry>
    ensures { result ≡ found_own session (option_copied owner.entry) None }
{
    match owner {
        Some(owner) if is_session(session, owner.lease) => Some(own_entry(owner.create)),
        _ => None,
    }
}

/// The acquire of the key is over, the key has this entry, if any, and the reads of these tickets have these stages. Where memory was
/// wanting all is as before.
fn end_acquire(
    alloc: Global,
    key: &Bytes,
    entry: Option<Entry>,
    changes: Vec<(u64, Stage)>,
    waits: &mut Waits,
    table: &mut LeaseTable,
    acquires: &mut Acquires,
    asks: &mut Asks,
) -> Result<(), NoMemory>
    requires { at table.old.entries key.now ≡ None }
    ensures waits { OnOk result (waits.new ≡ (acquire_ended key.now (owned [] waits.old)).waits) }
    ensures entries { OnOk result (table.new.entries ≡ held_entries key.now entry table.old.entries) }
    ensures acquires { OnOk result (acquires.new ≡ with_at acquires.old key.now None) }
    ensures asks { OnOk result (asks.new ≡ restaged changes.items asks.old) }
    ensures err_waits { OnErr result (waits.new ≡ waits.old) }
    ensures err_entries { OnErr result (table.new.entries ≡ table.old.entries) }
    ensures err_acquires { OnErr result (acquires.new ≡ acquires.old) }
    ensures err_asks { OnErr result (asks.new ≡ asks.old) }
{
    let owned = key.copy(alloc)?;
    table.reserve(1)?;
    hold(owned, entry, table);
    waits.end_acquire(key);
    acquires.remove(key);
    set_stages(asks, changes);
    Ok(())
}

fn hold(key: Bytes, entry: Option<Entry>, table: &mut LeaseTable)
    requires absent { at table.old.entries key ≡ None }
    requires room { 1 ≤ table.old.spare }
    ensures { table.new.entries ≡ held_entries key entry table.old.entries }
{
    if let Some(entry) = entry {
        table.hold(key, entry);
    }
}
