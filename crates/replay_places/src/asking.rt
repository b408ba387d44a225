ghost use Rattle.std.specs.Prelude.{◌≡◌, ◌≢◌, ◌++◌, ◌∷◌, [], IfOk, IfErr, OnOk, List};
ghost use Rattle.core_model.specs.declared.event.CoreEvent.TheVariants as event;
ghost use Rattle.core_model.specs.declared.event.Outcome.{Outcome as Given};
ghost use Rattle.replay_places.specs.Places.{PlaceGives, told_of};
ghost use Rattle.etcd_types.specs.declared.answer.Answer.TheVariants.{Refused};
ghost use Rattle.replay_places.specs.Turns.{asked_by, posted_by};
ghost use Rattle.script_text.specs.declared.item.Item.{Item as Told};
ghost use Rattle.script_text.specs.declared.item.Item.TheVariants as item;
ghost use Rattle.world_model.specs.Asks.{post_refused, told_at_once};
ghost use Rattle.world_model.specs.declared.fault.WorldFault.TheVariants as fault;
ghost use Rattle.world_model.specs.Gains.{Replies, gained, reply_items};
ghost use Rattle.world_model.specs.Places.{with_place, with_ticket, with_posted};
ghost use Rattle.world_model.specs.PostRefusals.{post_refusal};
ghost use Rattle.world_model.specs.State.{World, Place as Spot};
ghost use Rattle.world_model.specs.Steps.{Step, gains, refuses, steps};

use crate::place::{Place, replied};
use api_request::decode_request;
use core_face::{CoreEvent, Outcome, ProxyCore};
use etcd_types::{Answer, Bytes, List, NoMemory, Request};
use json_model::ApiFault;
use replay_parts::{Numbers, one, post_refusal, push_reply};
use script_text::Item;
use std::alloc::Global;
use world_model::WorldFault;

/// The reply that a step told at once, under its ticket.
#[tactic(auto, using(crate::proofs::PlaceSteps::told_same))]
fn told_at_once(alloc: Global, ticket: u64, outcome: Outcome) -> Result<Numbers<Answer>, NoMemory>
    ensures { IfOk result (λ told. told ≡ told_at_once ticket outcome) }
{
    Ok(told_of(alloc, ticket, replied(outcome))?)
}

fn told_of(alloc: Global, ticket: u64, reply: Option<Answer>) -> Result<Numbers<Answer>, NoMemory>
    ensures { IfOk result (λ told. told ≡ told_of ticket reply) }
{
    let mut told = Numbers::new(alloc);
    if let Some(answer) = reply {
        told.put(ticket, answer)?;
    }
    Ok(told)
}

/// The items with the one more that this was asked.
fn with_asked(
    alloc: Global,
    items: List<Item>,
    proxy: u64,
    ticket: u64,
    request: &Request,
) -> Result<List<Item>, NoMemory>
    ensures { IfOk result (λ own. own ≡ items ++ item.Asked proxy ticket request.now ∷ []) }
{
    let mut own = items;
    own.push(Item::Asked {
        proxy,
        ticket,
        request: request.copy(alloc)?,
    })?;
    Ok(own)
}

/// What was posted, and the request that it is.
fn posted_and_asked(
    alloc: Global,
    posted: Item,
    proxy: u64,
    ticket: u64,
    request: &Request,
) -> Result<List<Item>, NoMemory>
    ensures { IfOk result (λ own. own ≡ posted ∷ item.Asked proxy ticket request.now ∷ []) }
{
    let own = one(alloc, posted)?;
    Ok(with_asked(alloc, own, proxy, ticket, request)?)
}

impl<C: ProxyCore> Place<C> {
    /// A client asks, under a ticket that it didn't use before.
    pub fn ask(
        &mut self,
        alloc: Global,
        proxy: u64,
        ticket: u64,
        request: Request,
        word: u64,
    ) -> Result<List<Item>, WorldFault>
        ensures { (before after : World) → PlaceGives before after proxy self.new result
            (asked_by before after proxy ticket request word [] (with_ticket ticket) self.old) }
    {
        let own = List::new(alloc);
        match with_asked(alloc, own, proxy, ticket, &request) {
            Ok(own) => self.ask_so(alloc, proxy, ticket, request, word, own),
            Err(NoMemory) => {
                drop(request);
                Err(WorldFault::NoMemory)
            }
        }
    }

    /// The same, where the line's own items are made.
    fn ask_so(
        &mut self,
        alloc: Global,
        proxy: u64,
        ticket: u64,
        request: Request,
        word: u64,
        own: List<Item>,
    ) -> Result<List<Item>, WorldFault>
        requires { own ≡ item.Asked proxy ticket request ∷ [] }
        ensures { (before after : World) → PlaceGives before after proxy self.new result
            (asked_by before after proxy ticket request word [] (with_ticket ticket) self.old) }
    {
        let told = self.feed(alloc, proxy, ticket, request, word)?;
        self.add_ticket(ticket)?;
        Ok(self.gain(alloc, proxy, own, told)?)
    }

    /// The machine is asked.
    fn feed(
        &mut self,
        alloc: Global,
        proxy: u64,
        ticket: u64,
        request: Request,
        word: u64,
    ) -> Result<Numbers<Answer>, WorldFault>
        ensures step { IfOk result (λ told. (w v : World) (before : List Told) (mark : Spot → Spot)
            → asked_by w v proxy ticket request word before mark self.old ≡ gained v proxy (mark self.new) (before ++ item.Asked proxy ticket request ∷ []) told) }
        ensures fault { IfErr result (λ why. why ≢ fault.NoMemory → (w v : World) (before : List Told) (mark : Spot → Spot)
            → asked_by w v proxy ticket request word before mark self.old ≡ refuses (with_place w proxy self.new) why) }
    {
        let event = CoreEvent::Ask {
            ticket,
            request,
            word,
        };
        let outcome = self.make_step(proxy, event, WorldFault::TicketUsed(ticket))?;
        Ok(told_at_once(alloc, ticket, outcome)?)
    }

    /// A client posts, under a ticket that it didn't use before.
    pub fn post(
        &mut self,
        alloc: Global,
        proxy: u64,
        ticket: u64,
        path: Bytes,
        body: Bytes,
        word: u64,
    ) -> Result<List<Item>, WorldFault>
        ensures { (before after : World) → PlaceGives before after proxy self.new result
            (posted_by before after proxy ticket path body word self.old) }
    {
        let read = decode_request(alloc, path.as_slice(), body.as_slice());
        let posted = Item::Posted {
            proxy,
            ticket,
            path,
            body,
        };
        match read {
            Ok(request) => self.ask_posted(alloc, proxy, ticket, request, word, posted),
            Err(ApiFault::NoMemory) => {
                drop(posted);
                Err(WorldFault::NoMemory)
            }
            Err(fault) => {
                let gained = self.refuse_posted(alloc, proxy, ticket, &fault, posted);
                drop(fault);
                Ok(gained?)
            }
        }
    }

    fn ask_posted(
        &mut self,
        alloc: Global,
        proxy: u64,
        ticket: u64,
        request: Request,
        word: u64,
        posted: Item,
    ) -> Result<List<Item>, WorldFault>
        ensures { (before after : World) → PlaceGives before after proxy self.new result
            (asked_by before after proxy ticket request word (posted ∷ []) (with_posted ticket) self.old) }
    {
        match posted_and_asked(alloc, posted, proxy, ticket, &request) {
            Ok(own) => self.ask_posted_so(alloc, proxy, ticket, request, word, own),
            Err(NoMemory) => {
                drop(request);
                Err(WorldFault::NoMemory)
            }
        }
    }

    /// The same, where the line's own items are made.
    fn ask_posted_so(
        &mut self,
        alloc: Global,
        proxy: u64,
        ticket: u64,
        request: Request,
        word: u64,
        own: List<Item>,
    ) -> Result<List<Item>, WorldFault>
        ensures { (before after : World) (posted : Told) → own ≡ posted ∷ item.Asked proxy ticket request ∷ []
            → PlaceGives before after proxy self.new result
            (asked_by before after proxy ticket request word (posted ∷ []) (with_posted ticket) self.old) }
    {
        let told = self.feed(alloc, proxy, ticket, request, word)?;
        self.add_posted(ticket)?;
        Ok(self.gain(alloc, proxy, own, told)?)
    }

    /// What was posted is no request: the machine makes no step, and the ticket is used up.
    fn refuse_posted(
        &mut self,
        alloc: Global,
        proxy: u64,
        ticket: u64,
        fault: &ApiFault,
        posted: Item,
    ) -> Result<List<Item>, NoMemory>
        ensures { IfOk result (λ items. (w : World) → post_refused w proxy ticket (posted ∷ []) (Refused (post_refusal fault.now)) (with_posted ticket self.old)
            ≡ gains (with_place w proxy self.new) items) }
    {
        let mut items = one(alloc, posted)?;
        self.add_posted(ticket)?;
        let answer = Answer::Refused(post_refusal(alloc, fault)?);
        push_reply(alloc, &mut items, proxy, &self.posted, ticket, answer)?;
        Ok(items)
    }
}
