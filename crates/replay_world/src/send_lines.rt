ghost use Rattle.std.specs.Prelude.{◌≡◌, ◌++◌, ◌∷◌, [], IfOk, IsSome, OnOk};
ghost use Rattle.replay_world.specs.World.{Gives, Stands};
ghost use Rattle.replay_places.specs.declared.turn.Turn.TheVariants as turn;
ghost use Rattle.replay_places.specs.Turns.{turned};
ghost use Rattle.script_text.specs.declared.item.Item.TheVariants as item;
ghost use Rattle.world_model.specs.Places.{kept_at, with_place};
ghost use Rattle.world_model.specs.Steps.{at_place};
ghost use Rattle.world_model.specs.Sends.{sent, call_sent, stream_begun, stream_opened, stream_closed};
ghost use Rattle.world_model.specs.State.{World as Model, Place as Spot};
ghost use Rattle.store_model.specs.Watches.{opened};

use crate::world::World;
use core_face::{Job, ProxyCore};
use etcd_types::{List, NoMemory, Request, WatchAsk};
use replay_parts::{OpenedStream, end_stream, open_watch};
use replay_places::Turn;
use script_text::Item;
use std::alloc::Global;
use world_model::{SentCall, WorldFault};

impl<C: ProxyCore> World<C> {
    /// A proxy's first due job is done: a call is sent, a stream is opened at the store, or closed.
    pub(crate) fn send(&mut self, proxy: u64) -> Result<List<Item>, WorldFault>
        ensures step { (w : Model) → Stands self.old w → Gives self.new result (sent w proxy) }
        ensures lines { self.new.lines ≡ self.old.lines }
    {
        match self.places.work(proxy)? {
            Some(
                Job::Call {
                    call,
                    member,
                    ticket,
                    request,
                },
            ) => self.send_call(proxy, call, member, ticket, request),
            Some(
                Job::Begin {
                    stream,
                    member,
                    request,
                },
            ) => self.open_request(proxy, stream, member, request),
            Some(Job::Close { stream }) => self.close_stream(proxy, stream),
            None => Err(WorldFault::NothingToSend(proxy)),
        }
    }

    /// The proxy has sent a call.
    fn send_call(
        &mut self,
        proxy: u64,
        own: u64,
        member: u32,
        ticket: u64,
        request: Request,
    ) -> Result<List<Item>, WorldFault>
        requires { IsSome (kept_at self.old.places proxy) }
        ensures step { (w : Model) (x : Spot) → Stands self.old (with_place w proxy x)
            → Gives self.new result (call_sent w proxy x own member ticket request) }
        ensures lines { self.new.lines ≡ self.old.lines }
    {
        let number = self.calls.len() as u64 + 1;
        let (life, clock) = self.places.life_and_clock(proxy);
        match told_sent(self.alloc, proxy, number, member, ticket, &request) {
            Ok(told) => {
                let call = SentCall {
                    proxy,
                    life,
                    own,
                    member,
                    request,
                    clock,
                    executed: None,
                    settled: false,
                };
                self.note_sent(proxy, number, call, told)
            }
            Err(NoMemory) => {
                drop(request);
                Err(WorldFault::NoMemory)
            }
        }
    }

    fn note_sent(
        &mut self,
        proxy: u64,
        number: u64,
        call: SentCall,
        told: Item,
    ) -> Result<List<Item>, WorldFault>
        requires { IsSome (kept_at self.old.places proxy) }
        ensures step { (w : Model) → Stands self.old w
            → Gives self.new result (at_place w proxy (turned w (record w { calls = w.calls ++ call ∷ [] }) proxy (turn.Sent number told))) }
        ensures lines { self.new.lines ≡ self.old.lines }
    {
        match self.add_call(call) {
            Ok(()) => self.places.turn(
                self.alloc,
                proxy,
                Turn::Sent {
                    call: number,
                    own: told,
                },
            ),
            Err(NoMemory) => {
                drop(told);
                Err(WorldFault::NoMemory)
            }
        }
    }

    fn add_call(&mut self, call: SentCall) -> Result<(), NoMemory>
        ensures calls { OnOk result (self.new ≡ record self.old { calls = self.old.calls ++ call ∷ [] }) }
        ensures lines { self.new.lines ≡ self.old.lines }
    {
        self.calls.push(call)?;
        Ok(())
    }

    /// The proxy has opened a stream, where the request is a watch.
    fn open_request(
        &mut self,
        proxy: u64,
        own: u64,
        member: u32,
        request: Request,
    ) -> Result<List<Item>, WorldFault>
        requires { IsSome (kept_at self.old.places proxy) }
        ensures step { (w : Model) (x : Spot) → Stands self.old (with_place w proxy x)
            → Gives self.new result (stream_opened w proxy x own member request) }
        ensures lines { self.new.lines ≡ self.old.lines }
    {
        match request {
            Request::Watch(ask) => self.open_stream(proxy, own, member, ask),
            other => {
                drop(other);
                Err(WorldFault::NothingToSend(proxy))
            }
        }
    }

    /// The proxy has opened a stream.
    fn open_stream(
        &mut self,
        proxy: u64,
        own: u64,
        member: u32,
        ask: WatchAsk,
    ) -> Result<List<Item>, WorldFault>
        requires { IsSome (kept_at self.old.places proxy) }
        ensures step { (w : Model) (x : Spot) → Stands self.old (with_place w proxy x)
            → Gives self.new result (stream_begun w proxy x own member ask (opened w.store member ask)) }
        ensures lines { self.new.lines ≡ self.old.lines }
    {
        let number = self.streams.len() as u64 + 1;
        let (life, _) = self.places.life_and_clock(proxy);
        open_watch(&mut self.store, member, &ask)?;
        self.add_stream(OpenedStream::new(self.alloc, proxy, life, own))?;
        let turn = Turn::Opened {
            number: own,
            stream: number,
            own: Item::Opened {
                proxy,
                stream: number,
                member: u64::from(member),
                request: Request::Watch(ask),
            },
        };
        self.places.turn(self.alloc, proxy, turn)
    }

    fn add_stream(&mut self, stream: OpenedStream) -> Result<(), NoMemory>
        ensures streams { OnOk result (self.new ≡ record self.old { streams = self.old.streams ++ stream ∷ [] }) }
        ensures lines { self.new.lines ≡ self.old.lines }
    {
        self.streams.push(stream)?;
        Ok(())
    }

    /// The proxy closes a stream, where it opened it.
    fn close_stream(&mut self, proxy: u64, own: u64) -> Result<List<Item>, WorldFault>
        requires { IsSome (kept_at self.old.places proxy) }
        ensures step { (w : Model) (x : Spot) → Stands self.old (with_place w proxy x)
            → Gives self.new result (stream_closed w proxy x (kept_at x.streams own)) }
        ensures lines { self.new.lines ≡ self.old.lines }
    {
        let Some(number) = self.places.stream_at(proxy, own) else {
            return Err(WorldFault::NothingToSend(proxy));
        };
        end_stream(&mut self.streams, number);
        let own = Item::Closed {
            proxy,
            stream: number,
        };
        self.places.turn(self.alloc, proxy, Turn::Told { own })
    }
}

fn told_sent(
    alloc: Global,
    proxy: u64,
    call: u64,
    member: u32,
    ticket: u64,
    request: &Request,
) -> Result<Item, NoMemory>
    ensures { IfOk result (λ told. told ≡ item.Sent proxy call member ticket request.now) }
{
    let request = request.copy(alloc)?;
    Ok(Item::Sent {
        proxy,
        call,
        member: u64::from(member),
        ticket,
        request,
    })
}
