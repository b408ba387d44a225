ghost use Rattle.std.specs.Prelude.{◌≡◌, ◌≢◌, ◌++◌, ◌∷◌, [], IfOk, IfErr, List};
ghost use Rattle.core_model.specs.declared.event.CoreEvent.TheVariants as event;
ghost use Rattle.core_model.specs.declared.event.Outcome.{Outcome as Given};
ghost use Rattle.replay_places.specs.Places.{PlaceGives, job_of, job_or_nothing, message_of, with_own_call, with_own_stream};
ghost use Rattle.replay_places.specs.Turns.{turned, stepped_by, clock_is};
ghost use Rattle.world_model.specs.declared.fault.WorldFault.TheVariants as fault;
ghost use Rattle.world_model.specs.Gains.{gained, taken_items};
ghost use Rattle.world_model.specs.Places.{with_place};
ghost use Rattle.world_model.specs.Sends.{sent_at};
ghost use Rattle.world_model.specs.State.{World, Place as Spot};
ghost use Rattle.world_model.specs.Steps.{Step, gains, of_core, refuses, steps};
ghost use Rattle.world_model.specs.Takes.{took};

use crate::place::Place;
use core_face::{CoreEvent, Job, Outcome, ProxyCore, StepFault};
use etcd_types::{Bytes, List, NoMemory, Request, WatchItem};
use replay_parts::{Numbers, one, taken};
use script_text::Item;
use std::alloc::Global;
use told_items::Told;
use world_model::WorldFault;

/// What happens at a proxy.
#[derive(Drop)]
pub enum Turn {
    /// Its machine makes a step, whose line gains this item, or is refused so where the machine doesn't know what the step is
    /// about.
    Step {
        event: CoreEvent,
        otherwise: WorldFault,
        own: Item,
    },
    /// A client asks.
    Ask {
        ticket: u64,
        request: Request,
        word: u64,
    },
    /// A client posts.
    Post {
        ticket: u64,
        path: Bytes,
        body: Bytes,
        word: u64,
    },
    /// A client takes the next message of its watch.
    Take {
        ticket: u64,
    },
    /// It has sent a call, of this number in the world.
    Sent {
        call: u64,
        own: Item,
    },
    /// It has opened a stream, of these numbers at the proxy and in the world.
    Opened {
        number: u64,
        stream: u64,
        own: Item,
    },
    /// Its clock is set, to no earlier reading.
    Clock {
        millis: u64,
    },
    /// Nothing but that its line gains this item.
    Told {
        own: Item,
    },
}

/// The line's fault where a proxy's machine has one.
fn fault_of(proxy: u64, otherwise: WorldFault, fault: StepFault) -> WorldFault
    ensures { result ≡ of_core proxy otherwise fault }
{
    match fault {
        StepFault::Worn => WorldFault::Worn(proxy),
        StepFault::NoMemory => WorldFault::NoMemory,
        StepFault::TicketUsed(_)
        | StepFault::NoSuchTicket(_)
        | StepFault::NoSuchCall(_)
        | StepFault::NoSuchStream(_) => otherwise,
    }
}

/// The job that an outcome is.
fn job_of(outcome: Outcome) -> Option<Job>
    ensures { result ≡ job_of outcome }
{
    match outcome {
        Outcome::Job(job) => job,
        other => {
            drop(other);
            None
        }
    }
}

/// The message that an outcome is.
fn message_of(outcome: Outcome) -> Option<Told>
    ensures { result ≡ message_of outcome }
{
    match outcome {
        Outcome::Item(item) => Some(item),
        other => {
            drop(other);
            None
        }
    }
}

impl<C: ProxyCore> Place<C> {
    /// What happens at the proxy of this number.
    pub fn turn(&mut self, alloc: Global, proxy: u64, turn: Turn) -> Result<List<Item>, WorldFault>
        ensures { (before after : World) → PlaceGives before after proxy self.new result (turned before after proxy turn self.old) }
    {
        match turn {
            Turn::Step {
                event,
                otherwise,
                own,
            } => self.note(alloc, proxy, event, otherwise, own),
            Turn::Ask {
                ticket,
                request,
                word,
            } => self.ask(alloc, proxy, ticket, request, word),
            Turn::Post {
                ticket,
                path,
                body,
                word,
            } => self.post(alloc, proxy, ticket, path, body, word),
            Turn::Take { ticket } => self.take(alloc, proxy, ticket),
            Turn::Sent { call, own } => Ok(self.send(alloc, proxy, call, own)?),
            Turn::Opened {
                number,
                stream,
                own,
            } => Ok(self.open(alloc, proxy, number, stream, own)?),
            Turn::Clock { millis } => Ok(self.set_to(alloc, proxy, millis)?),
            Turn::Told { own } => Ok(self.tell(alloc, proxy, own)?),
        }
    }

    /// A step of its machine.
    pub fn make_step(
        &mut self,
        proxy: u64,
        event: CoreEvent,
        otherwise: WorldFault,
    ) -> Result<Outcome, WorldFault>
        ensures step { IfOk result (λ o. (w : World) (next : Spot → Given → Step) → steps w proxy self.old event otherwise next ≡ next self.new o) }
        ensures fault { IfErr result (λ why. why ≢ fault.NoMemory
            → (w : World) (next : Spot → Given → Step) → steps w proxy self.old event otherwise next ≡ refuses (with_place w proxy self.new) why) }
    {
        match self.step(event) {
            Ok(outcome) => Ok(outcome),
            Err(fault) => Err(fault_of(proxy, otherwise, fault)),
        }
    }

    /// The first due job.
    #[tactic(auto, using(crate::proofs::PlaceSteps::worked_same))]
    pub fn work(&mut self, proxy: u64) -> Result<Option<Job>, WorldFault>
        ensures job { IfOk result (λ job. (w : World) → sent_at w proxy self.old ≡ job_or_nothing w proxy self.new job) }
        ensures fault { IfErr result (λ why. why ≢ fault.NoMemory → (w : World) → sent_at w proxy self.old ≡ refuses (with_place w proxy self.new) why) }
    {
        let outcome = self.make_step(proxy, CoreEvent::Work, WorldFault::NothingToSend(proxy))?;
        Ok(job_of(outcome))
    }

    fn note(
        &mut self,
        alloc: Global,
        proxy: u64,
        event: CoreEvent,
        otherwise: WorldFault,
        own: Item,
    ) -> Result<List<Item>, WorldFault>
        ensures { (before after : World) → PlaceGives before after proxy self.new result (stepped_by before after proxy event otherwise own self.old) }
    {
        match self.make_step(proxy, event, otherwise) {
            Ok(outcome) => {
                drop(outcome);
                Ok(self.tell(alloc, proxy, own)?)
            }
            Err(why) => {
                drop(own);
                Err(why)
            }
        }
    }

    fn tell(&mut self, alloc: Global, proxy: u64, own: Item) -> Result<List<Item>, NoMemory>
        ensures { IfOk result (λ items. (w : World) → gained w proxy self.old (own ∷ []) [] ≡ gains (with_place w proxy self.new) items) }
    {
        let own = one(alloc, own)?;
        Ok(self.gain(alloc, proxy, own, Numbers::new(alloc))?)
    }

    fn send(
        &mut self,
        alloc: Global,
        proxy: u64,
        call: u64,
        own: Item,
    ) -> Result<List<Item>, NoMemory>
        ensures { IfOk result (λ items. (w : World) → gained w proxy (with_own_call call self.old) (own ∷ []) [] ≡ gains (with_place w proxy self.new) items) }
    {
        let own = one(alloc, own)?;
        self.add_call(call)?;
        Ok(self.gain(alloc, proxy, own, Numbers::new(alloc))?)
    }

    fn open(
        &mut self,
        alloc: Global,
        proxy: u64,
        number: u64,
        stream: u64,
        own: Item,
    ) -> Result<List<Item>, NoMemory>
        ensures { IfOk result (λ items. (w : World) → gained w proxy (with_own_stream number stream self.old) (own ∷ []) [] ≡ gains (with_place w proxy self.new) items) }
    {
        let own = one(alloc, own)?;
        self.add_stream(number, stream)?;
        Ok(self.gain(alloc, proxy, own, Numbers::new(alloc))?)
    }

    fn set_to(&mut self, alloc: Global, proxy: u64, millis: u64) -> Result<List<Item>, NoMemory>
        ensures { IfOk result (λ items. (w : World) → clock_is w proxy millis self.old ≡ gains (with_place w proxy self.new) items) }
    {
        self.set_clock(millis);
        Ok(one(alloc, Item::Clock { proxy, millis })?)
    }

    #[tactic(auto, using(crate::proofs::PlaceSteps::took_same))]
    fn take(&mut self, alloc: Global, proxy: u64, ticket: u64) -> Result<List<Item>, WorldFault>
        ensures { (before after : World) → PlaceGives before after proxy self.new result
            (steps before proxy self.old (event.Take ticket) (fault.NoSuchTicket ticket) (took after proxy ticket)) }
    {
        let event = CoreEvent::Take { ticket };
        let outcome = self.make_step(proxy, event, WorldFault::NoSuchTicket(ticket))?;
        match message_of(outcome) {
            Some(told) => Ok(self.tell_taken(alloc, proxy, ticket, told.into_item(alloc)?)?),
            None => Ok(self.tell(alloc, proxy, Item::Pending { proxy, ticket })?),
        }
    }

    fn tell_taken(
        &mut self,
        alloc: Global,
        proxy: u64,
        ticket: u64,
        item: WatchItem,
    ) -> Result<List<Item>, NoMemory>
        ensures { IfOk result (λ items. (w : World) → gained w proxy self.old (taken_items proxy self.old.posted ticket item) [] ≡ gains (with_place w proxy self.new) items) }
    {
        let own = taken(alloc, proxy, &self.posted, ticket, item)?;
        Ok(self.gain(alloc, proxy, own, Numbers::new(alloc))?)
    }
}
