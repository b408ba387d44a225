ghost use Rattle.std.specs.Prelude.{◌≡◌, ◌+◌};
ghost use Rattle.replay_world.specs.Refusals.{ticket_fault, watch_fault, known_fault};
ghost use Rattle.replay_world.specs.World.{Gives, Stands};
ghost use Rattle.world_model.specs.Asks.{asked, posted};
ghost use Rattle.world_model.specs.Places.{kept_at};
ghost use Rattle.world_model.specs.Starts.{ticked};
ghost use Rattle.world_model.specs.State.{World as Model};
ghost use Rattle.world_model.specs.Takes.{message_taken, left};

use crate::world::World;
use core_face::{CoreEvent, ProxyCore};
use etcd_types::{Bytes, List, Request};
use replay_places::Turn;
use script_text::Item;
use world_model::WorldFault;

impl<C: ProxyCore> World<C> {
    /// A proxy looks at its clock.
    pub(crate) fn tick(&mut self, proxy: u64, word: u64) -> Result<List<Item>, WorldFault>
        requires { word ≡ self.old.lines + 2 }
        ensures step { (w : Model) → Stands self.old w → Gives self.new result (ticked w proxy) }
        ensures lines { self.new.lines ≡ self.old.lines }
    {
        let turn = Turn::Step {
            event: CoreEvent::Tick { word },
            otherwise: WorldFault::NoSuchProxy(proxy),
            own: Item::Ticked { proxy },
        };
        self.places.turn(self.alloc, proxy, turn)
    }

    /// A client asks a proxy.
    pub(crate) fn ask(
        &mut self,
        proxy: u64,
        ticket: u64,
        request: Request,
        word: u64,
    ) -> Result<List<Item>, WorldFault>
        requires { word ≡ self.old.lines + 2 }
        ensures step { (w : Model) → Stands self.old w → Gives self.new result (asked w proxy ticket request) }
        ensures lines { self.new.lines ≡ self.old.lines }
    {
        match self.ticket_fault(proxy, ticket) {
            Some(fault) => {
                drop(request);
                Err(fault)
            }
            None => {
                let turn = Turn::Ask {
                    ticket,
                    request,
                    word,
                };
                self.places.turn(self.alloc, proxy, turn)
            }
        }
    }

    /// A client posts JSON to a proxy.
    pub(crate) fn post(
        &mut self,
        proxy: u64,
        ticket: u64,
        path: Bytes,
        body: Bytes,
        word: u64,
    ) -> Result<List<Item>, WorldFault>
        requires { word ≡ self.old.lines + 2 }
        ensures step { (w : Model) → Stands self.old w → Gives self.new result (posted w proxy ticket path body) }
        ensures lines { self.new.lines ≡ self.old.lines }
    {
        if let Some(fault) = self.ticket_fault(proxy, ticket) {
            return Err(fault);
        }
        let turn = Turn::Post {
            ticket,
            path,
            body,
            word,
        };
        self.places.turn(self.alloc, proxy, turn)
    }

    /// Why a client can't ask under this ticket.
    fn ticket_fault(&self, proxy: u64, ticket: u64) -> Option<WorldFault>
        ensures { result ≡ ticket_fault proxy ticket (kept_at self.now.places proxy) }
    {
        match self.places.find(proxy) {
            None => Some(WorldFault::NoSuchProxy(proxy)),
            Some(place) => {
                if place.has_ticket(ticket) {
                    Some(WorldFault::TicketUsed(ticket))
                } else {
                    None
                }
            }
        }
    }

    /// A client takes the next message of its watch.
    pub(crate) fn take(&mut self, proxy: u64, ticket: u64) -> Result<List<Item>, WorldFault>
        ensures step { (w : Model) → Stands self.old w → Gives self.new result (message_taken w proxy ticket) }
        ensures lines { self.new.lines ≡ self.old.lines }
    {
        if let Some(fault) = self.watch_fault(proxy, ticket) {
            return Err(fault);
        }
        self.places.turn(self.alloc, proxy, Turn::Take { ticket })
    }

    /// Why a client can't take a message under this ticket.
    fn watch_fault(&self, proxy: u64, ticket: u64) -> Option<WorldFault>
        ensures { result ≡ watch_fault proxy ticket (kept_at self.now.places proxy) }
    {
        match self.places.find(proxy) {
            None => Some(WorldFault::NoSuchProxy(proxy)),
            Some(place) => {
                if place.is_watch(ticket) {
                    None
                } else {
                    Some(WorldFault::NoSuchTicket(ticket))
                }
            }
        }
    }

    /// A client leaves.
    pub(crate) fn leave(&mut self, proxy: u64, ticket: u64) -> Result<List<Item>, WorldFault>
        ensures step { (w : Model) → Stands self.old w → Gives self.new result (left w proxy ticket) }
        ensures lines { self.new.lines ≡ self.old.lines }
    {
        if let Some(fault) = self.known_fault(proxy, ticket) {
            return Err(fault);
        }
        let turn = Turn::Step {
            event: CoreEvent::Leave { ticket },
            otherwise: WorldFault::NoSuchTicket(ticket),
            own: Item::Left { proxy, ticket },
        };
        self.places.turn(self.alloc, proxy, turn)
    }

    /// Why a client with this ticket can't leave.
    fn known_fault(&self, proxy: u64, ticket: u64) -> Option<WorldFault>
        ensures { result ≡ known_fault proxy ticket (kept_at self.now.places proxy) }
    {
        match self.places.find(proxy) {
            None => Some(WorldFault::NoSuchProxy(proxy)),
            Some(place) => {
                if place.knows(ticket) {
                    None
                } else {
                    Some(WorldFault::NoSuchTicket(ticket))
                }
            }
        }
    }
}
