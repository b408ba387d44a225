ghost use Rattle.std.specs.Prelude.{◌≡◌, [], None, true, OnOk, OnErr};
ghost use Rattle.std.specs.Option.{option_copied};
ghost use Rattle.core_model.specs.Lookups.{ask_at, without_ask};
ghost use Rattle.core_model.specs.Takes.{least_ready};
ghost use Rattle.proxy_model.specs.Keyed.{at};
ghost use Rattle.read_model.specs.WriteAnswers.{went_on};
ghost use Rattle.wait_model.specs.LeasingStream.{resynced, all_given_up};
ghost use Rattle.wait_model.specs.Notices.{all_noticed};
ghost use Rattle.wait_model.specs.State.{step_begun};
ghost use Rattle.read_steps.specs.Steps.{first_reads};

use acquire_rows::Acquires;
use etcd_types::{Bytes, Event, List, NoMemory};
use known_asks::{Asked, Asks};
use lease_table::{Entry, LeaseTable};
use revoke_core::Waits;
use std::alloc::Global;
use std::marker::Model;

/// The lease table and the waiting writes, the acquires that are due or out, and the requests that are known.
#[derive(Debug, Drop)]
pub struct Reads {
    pub(crate) alloc: Global,
    pub(crate) table: LeaseTable,
    pub(crate) waits: Waits,
    pub(crate) acquires: Acquires,
    pub(crate) asks: Asks,
}

impl Model for Reads {
    ghost use Rattle.std.specs.Coded.{codes};
    ghost use Rattle.etcd_types.specs.contracts.operation.Op as operation;
    ghost use Rattle.etcd_types.specs.contracts.answer.Body as body;
    ghost use Rattle.wait_model.specs.State.{owned};
    ghost use Rattle.read_model.specs.State.{Reads as Value'};

    ghost Value = { Value' };

    ghost coded = { Prim.hlevel (codes, operation.the_row.coded, body.the_row.coded) };

    ghost view = { λ r. record { own = owned r.table.entries r.waits; acquires = r.acquires; asks = r.asks } };
}

impl Reads {
    /// Nothing is owned or asked, under this leasing prefix. It takes no memory.
    pub fn new(alloc: Global, prefix: Bytes) -> Reads
        ensures { result ≡ first_reads prefix }
    {
        Reads {
            alloc,
            table: LeaseTable::new(alloc),
            waits: Waits::new(alloc, prefix),
            acquires: Acquires::new(alloc),
            asks: Asks::new(alloc),
        }
    }

    // What stands.

    /// The leasing prefix.
    pub fn prefix(&self) -> &Bytes
        ensures { result.now ≡ self.now.own.waits.prefix }
    {
        self.waits.prefix()
    }

    /// What becomes due now is due since this step.
    pub fn step(&self) -> u64
        ensures { result ≡ self.now.own.waits.step }
    {
        self.waits.step()
    }

    /// The lease table.
    pub fn table(&self) -> &LeaseTable
        ensures { result.now.entries ≡ self.now.own.entries }
    {
        &self.table
    }

    /// The key's entry.
    pub fn entry(&self, key: &Bytes) -> Option<&Entry>
        ensures { option_copied result ≡ at self.now.own.entries key.now }
    {
        self.table.find(key)
    }

    /// The waiting writes.
    pub fn waits(&self) -> &Waits
        ensures { result.now ≡ self.now.own.waits }
    {
        &self.waits
    }

    /// The acquires that are due or out, by key.
    pub fn acquires(&self) -> &Acquires
        ensures { result.now ≡ self.now.acquires }
    {
        &self.acquires
    }

    /// The requests that are known, in order of asking.
    pub fn asks(&self) -> &Asks
        ensures { result.now ≡ self.now.asks }
    {
        &self.asks
    }

    /// The request of this ticket.
    pub fn find(&self, ticket: u64) -> Option<&Asked>
        ensures { option_copied result ≡ ask_at ticket self.now.asks }
    {
        self.asks.find(ticket)
    }

    /// The least ticket whose reply stands.
    pub fn ready(&self) -> Option<u64>
        ensures { result ≡ least_ready None self.now.asks }
    {
        self.asks.ready()
    }

    // Steps on one part.

    /// What becomes due from here on became due at this step.
    pub fn begin_step(&mut self, step: u64)
        ensures { self.new ≡ record self.old { own = step_begun step self.old.own } }
    {
        self.waits.begin_step(step);
    }

    /// Waiting writes go on, as far as the rule of each lets it, in order of asking. It takes no memory.
    pub fn proceed(&mut self)
        ensures { self.new ≡ went_on self.old }
    {
        self.waits.proceed(&mut self.table);
    }

    /// The request of this ticket is known no more. It takes no memory.
    pub fn remove(&mut self, ticket: u64) -> Option<Asked>
        ensures found { result ≡ ask_at ticket self.old.asks }
        ensures rest { self.new ≡ record self.old { asks = without_ask ticket self.old.asks } }
    {
        self.asks.remove(ticket)
    }

    /// A message on the leasing stream, under the live session of this number. Where memory was wanting all is as before.
    pub fn notice(&mut self, events: &List<Event>, session: Option<u64>) -> Result<(), NoMemory>
        ensures ok { OnOk result (self.new ≡ record self.old { own = all_noticed session events.now self.old.own }) }
        ensures err { OnErr result (self.new ≡ self.old) }
    {
        self.waits.notice(events, session, &mut self.table)?;
        Ok(())
    }

    /// The leasing stream began anew: all owners that were found count as gone. It takes no memory.
    pub fn resync(&mut self)
        ensures { self.new ≡ record self.old { own = resynced self.old.own } }
    {
        self.waits.resynced();
    }

    /// The leasing stream lost what it was to tell: each key is given up, and each acquire is spoiled. It takes no memory.
    pub fn give_all_up(&mut self)
        ensures { self.new ≡ record self.old { own = all_given_up self.old.own } }
    {
        self.waits.give_all_up(&mut self.table);
    }
}
