ghost use Rattle.std.specs.Prelude.{◌≡◌, ◌≤◌, IfOk, OnOk};
ghost use Rattle.core_model.specs.DueJobs.{has_job};
ghost use Rattle.core_model.specs.Lookups.{is_known};
ghost use Rattle.core_model.specs.declared.event.CoreEvent.TheVariants as event;
ghost use Rattle.core_model.specs.Step.{stepped};
ghost use Rattle.replay_places.specs.Places.{PlaceSteps, fresh, fetched_with, fetches_on, is_wanting, replied, with_own_call, with_own_stream};
ghost use Rattle.world_model.specs.Gains.{Fetched, Replies, all_fetched, fetched_by, fetches, gained};
ghost use Rattle.world_model.specs.Places.{with_place, is_among, kept_at, with_ticket, with_posted};
ghost use Rattle.world_model.specs.State.{World, Place as Spot};
ghost use Rattle.world_model.specs.Steps.{gains};
ghost use Rattle.world_model.specs.Takes.{is_watch};

use crate::tickets::Tickets;
use core_face::{CoreEvent, Outcome, ProxyCore, Settings, StepFault};
use etcd_types::{Answer, List, NoMemory};
use replay_parts::{Numbers, push_replies};
use script_text::Item;
use std::alloc::Global;
use std::collections::BTreeSet;
use std::marker::Model;

/// A proxy since its last start.
#[derive(Drop)]
pub struct Place<C: ProxyCore> {
    /// What its clock reads, in milliseconds.
    pub clock: u64,
    /// How often it was started.
    pub life: u64,
    pub core: C,
    /// The tickets that were asked or posted.
    pub tickets: Tickets,
    /// Those that were posted.
    pub posted: BTreeSet<u64>,
    /// The world's numbers of its calls, in the order in which it sent them.
    pub calls: Vec<u64>,
    /// The world's numbers of its streams, by its own.
    pub streams: Numbers<u64>,
}

impl<C: ProxyCore> Model for Place<C> {
    ghost use Rattle.std.specs.Coded.{codes};
    ghost use Rattle.etcd_types.specs.contracts.operation.Op as operation;
    ghost use Rattle.etcd_types.specs.contracts.answer.Body as body;
    ghost use Rattle.world_model.specs.State.{Place as Spot};

    ghost Value = { Spot };

    ghost coded = { Prim.hlevel (codes, operation.the_row.coded, body.the_row.coded) };

    ghost view = { λ x. record { clock = x.clock; life = x.life; core = C.core x.core; tickets = x.tickets; posted = x.posted; calls = x.calls.items; streams = x.streams } };
}

impl<C: ProxyCore> Place<C> {
    /// A proxy at a start, at this reading of its clock.
    pub fn new(
        alloc: Global,
        settings: Settings,
        clock: u64,
        life: u64,
    ) -> Result<Place<C>, NoMemory>
        requires { 1 ≤ settings.members }
        ensures { IfOk result (λ x. x ≡ fresh settings clock life) }
    {
        let core = C::new(alloc, settings)?;
        Ok(Place {
            clock,
            life,
            core,
            tickets: Tickets::new(alloc),
            posted: BTreeSet::new(alloc),
            calls: Vec::new(alloc),
            streams: Numbers::new(alloc),
        })
    }

    pub fn clock(&self) -> u64
        ensures { result ≡ self.now.clock }
    {
        self.clock
    }

    pub fn life(&self) -> u64
        ensures { result ≡ self.now.life }
    {
        self.life
    }

    /// Whether the ticket was asked or posted.
    pub fn has_ticket(&self, ticket: u64) -> bool
        ensures { result ≡ is_among self.now.tickets ticket }
    {
        self.tickets.contains(ticket)
    }

    /// Whether the ticket is that of a watch.
    pub fn is_watch(&self, ticket: u64) -> bool
        ensures { result ≡ is_watch ticket self.now }
    {
        self.core.watches(ticket)
    }

    /// Whether the ticket is that of a request whose reply wasn't taken, or of a watch.
    pub fn knows(&self, ticket: u64) -> bool
        ensures { result ≡ is_known ticket self.now.core }
    {
        self.core.knows(ticket)
    }

    pub fn has_job(&self) -> bool
        ensures { result ≡ has_job self.now.core }
    {
        self.core.has_job()
    }

    /// The world's number of the stream that has this one at the proxy.
    pub fn stream_at(&self, own: u64) -> Option<u64>
        ensures { result ≡ kept_at self.now.streams own }
    {
        self.streams.find(own).copied()
    }

    pub fn set_clock(&mut self, millis: u64)
        ensures { self.new ≡ record self.old { clock = millis } }
    {
        self.clock = millis;
    }

    pub fn add_ticket(&mut self, ticket: u64) -> Result<(), NoMemory>
        ensures { OnOk result (self.new ≡ with_ticket ticket self.old) }
    {
        self.tickets.insert(ticket)?;
        Ok(())
    }

    pub fn add_posted(&mut self, ticket: u64) -> Result<(), NoMemory>
        ensures { OnOk result (self.new ≡ with_posted ticket self.old) }
    {
        self.tickets.insert(ticket)?;
        self.posted.insert(ticket)?;
        Ok(())
    }

    /// It has sent a call, of this number in the world.
    pub fn add_call(&mut self, number: u64) -> Result<(), NoMemory>
        ensures { OnOk result (self.new ≡ with_own_call number self.old) }
    {
        self.calls.push(number)?;
        Ok(())
    }

    /// It has opened a stream, of these numbers at the proxy and in the world.
    pub fn add_stream(&mut self, own: u64, number: u64) -> Result<(), NoMemory>
        ensures { OnOk result (self.new ≡ with_own_stream own number self.old) }
    {
        self.streams.put(own, number)?;
        Ok(())
    }

    pub fn step(&mut self, event: CoreEvent) -> Result<Outcome, StepFault>
        ensures { PlaceSteps self.old event self.new result }
    {
        self.core.step(event, self.clock)
    }

    /// Takes the reply to this ticket, where it stands.
    #[tactic(auto, using(crate::proofs::PlaceSteps::reply_taken, crate::proofs::PlaceSteps::none_taken))]
    fn take_reply(&mut self, ticket: u64) -> Result<Option<Answer>, NoMemory>
        ensures { IfOk result (λ answer. (more : Spot → Replies → Fetched) (got : Replies)
            → fetched_by more self.old ticket got (stepped self.old.core (event.Take ticket) self.old.clock) ≡ fetched_with more self.new ticket got answer) }
    {
        match self.step(CoreEvent::Take { ticket }) {
            Ok(outcome) => Ok(replied(outcome)),
            Err(fault) => {
                if is_wanting(fault) {
                    Err(NoMemory)
                } else {
                    Ok(None)
                }
            }
        }
    }

    /// Fetches the first reply that stands ready, and says whether there was one.
    fn fetch_one(&mut self, told: &mut Numbers<Answer>) -> Result<bool, NoMemory>
        ensures { IfOk result (λ more. fetches_on more self.old told.old self.new told.new) }
    {
        let Some(ticket) = self.core.ready() else {
            return Ok(false);
        };
        match self.take_reply(ticket)? {
            Some(answer) => {
                told.put(ticket, answer)?;
                Ok(true)
            }
            None => Ok(false),
        }
    }

    /// Fetches each reply that stands ready.
    fn fetch(&mut self, told: &mut Numbers<Answer>) -> Result<(), NoMemory>
        ensures { OnOk result (all_fetched self.old told.old ≡ fetches self.new told.new) }
    {
        let count = self.core.requests();
        for _ in 0..count {
            let more = self.fetch_one(told)?;
            if !more {
                return Ok(());
            }
        }
        Ok(())
    }

    /// What a line gains at this proxy: its own items, and then the replies, those that the proxy's step told and those that
    /// stand ready.
    #[tactic(auto, using(crate::proofs::PlaceSteps::gained_so))]
    pub fn gain(
        &mut self,
        alloc: Global,
        proxy: u64,
        own: List<Item>,
        told: Numbers<Answer>,
    ) -> Result<List<Item>, NoMemory>
        ensures { IfOk result (λ items. (w : World) → gained w proxy self.old own told ≡ gains (with_place w proxy self.new) items) }
    {
        let mut replies = told;
        self.fetch(&mut replies)?;
        let mut items = own;
        push_replies(alloc, &mut items, proxy, &self.posted, replies.into_vec())?;
        Ok(items)
    }
}

/// The reply that an outcome is.
pub fn replied(outcome: Outcome) -> Option<Answer>
    ensures { result ≡ replied outcome }
{
    match outcome {
        Outcome::Replied(answer) => Some(answer),
        other => {
            drop(other);
            None
        }
    }
}

/// Whether memory was wanting.
fn is_wanting(fault: StepFault) -> bool
    ensures { result ≡ is_wanting fault }
{
    fault == StepFault::NoMemory
}
