ghost use Rattle.std.specs.Prelude.{◌≡◌, ◌≤◌, ◌+◌, ◌∷◌, [], Ok, IfOk};
ghost use Rattle.replay_world.specs.Refusals.{clock_fault};
ghost use Rattle.replay_world.specs.World.{Gives, Leaves, Stands};
ghost use Rattle.store_model.specs.History.{newest};
ghost use Rattle.world_model.specs.Questions.{has_due, place_has_job, streams};
ghost use Rattle.world_model.specs.Starts.{settings as settings_of, started, clock_set, new_place};
ghost use Rattle.world_model.specs.Places.{kept_at, with_place};
ghost use Rattle.world_model.specs.State.{World as Model, starting_world};
ghost use Rattle.world_model.specs.Steps.{gains};

use core_face::{ProxyCore, Settings};
use etcd_types::{Bytes, List, NoMemory};
use replay_parts::{Numbers, OpenedStream, one};
use replay_places::{Place, Places, Turn};
use script_text::Item;
use std::alloc::Global;
use std::marker::Model;
use store_world::Store;
use world_model::{Floor, SentCall, WorldFault};

/// The time to live of sessions in a replay.
const SESSION_TIME_SECONDS: u64 = 60;

/// The world of a replay: a store of several members, and the proxies before it.
///
/// Calls and streams are numbered from 1 over all proxies, in the order in which they were sent or opened.
#[derive(Drop)]
pub struct World<C: ProxyCore> {
    pub(crate) alloc: Global,
    pub(crate) members: u32,
    pub(crate) namespace: Bytes,
    pub(crate) leasing: Bytes,
    pub(crate) places: Places<C>,
    pub(crate) calls: Vec<SentCall>,
    pub(crate) streams: Vec<OpenedStream>,
    pub(crate) floors: Numbers<Floor>,
    pub(crate) store: Store,
    pub(crate) lines: u64,
    pub(crate) spent: bool,
}

impl<C: ProxyCore> Model for World<C> {
    ghost use Rattle.std.specs.Prelude.{◌≤◌};
    ghost use Rattle.std.specs.Coded.{codes};
    ghost use Rattle.etcd_types.specs.contracts.operation.Op as operation;
    ghost use Rattle.etcd_types.specs.contracts.answer.Body as body;
    ghost use Rattle.replay_world.specs.World.{Parts};

    ghost Value = { Parts };

    ghost coded = { Prim.hlevel (codes, operation.the_row.coded, body.the_row.coded) };

    ghost view = { λ w. record {
      members = w.members;
      namespace = w.namespace;
      leasing = w.leasing;
      places = w.places;
      calls = w.calls.items;
      streams = w.streams.items;
      floors = w.floors;
      store = w.store;
      lines = w.lines;
      spent = w.spent;
    } };

    ghost invariant = { λ w. (1 ≤ w.members) × (w.members ≤ 9) };
}

impl<C: ProxyCore> World<C> {
    /// A world of so many members of the store, with no proxy, this namespace and this leasing prefix.
    pub fn new(
        alloc: Global,
        members: u32,
        namespace: Bytes,
        leasing: Bytes,
    ) -> Result<World<C>, NoMemory>
        requires { (1 ≤ members) × (members ≤ 9) }
        ensures { IfOk result (λ world. Stands world (starting_world members namespace leasing)) }
    {
        let store = Store::new(alloc, members)?;
        Ok(World {
            alloc,
            members,
            namespace,
            leasing,
            places: Places::new(alloc),
            calls: Vec::new(alloc),
            streams: Vec::new(alloc),
            floors: Numbers::new(alloc),
            store,
            lines: 0,
            spent: false,
        })
    }

    /// A proxy starts, or starts again: what it knew is gone then, and its clock goes on.
    pub(crate) fn start(&mut self, proxy: u64) -> Result<List<Item>, WorldFault>
        ensures step { (w : Model) → Stands self.old w → Gives self.new result (started w proxy) }
        ensures lines { self.new.lines ≡ self.old.lines }
    {
        match self.places.find(proxy) {
            None => Ok(self.place_anew(proxy, 0, 1, Item::Started { proxy })?),
            Some(place) => {
                let clock = place.clock();
                let life = one_more(place.life())?;
                Ok(self.place_anew(proxy, clock, life, Item::Restarted { proxy })?)
            }
        }
    }

    fn place_anew(
        &mut self,
        proxy: u64,
        clock: u64,
        life: u64,
        own: Item,
    ) -> Result<List<Item>, NoMemory>
        ensures step { IfOk result (λ items. (w : Model) → Stands self.old w
            → Leaves self.new (gains (with_place w proxy (new_place w clock life)) (own ∷ [])) (Ok items)) }
        ensures lines { self.new.lines ≡ self.old.lines }
    {
        let told = one(self.alloc, own)?;
        let settings = self.settings()?;
        let place = Place::new(self.alloc, settings, clock, life)?;
        self.places.put(proxy, place)?;
        Ok(told)
    }

    /// What a proxy of this world is started with.
    fn settings(&self) -> Result<Settings, NoMemory>
        ensures settings { IfOk result (λ settings. (w : Model) → Stands self.now w → settings ≡ settings_of w) }
        ensures some { IfOk result (λ settings. 1 ≤ settings.members) }
    {
        Ok(Settings {
            members: self.members,
            namespace: self.namespace.copy(self.alloc)?,
            leasing: self.leasing.copy(self.alloc)?,
            ttl: SESSION_TIME_SECONDS,
        })
    }

    /// A proxy's clock is set. It doesn't go back.
    pub(crate) fn set_clock(&mut self, proxy: u64, millis: u64) -> Result<List<Item>, WorldFault>
        ensures step { (w : Model) → Stands self.old w → Gives self.new result (clock_set w proxy millis) }
        ensures lines { self.new.lines ≡ self.old.lines }
    {
        if let Some(fault) = self.clock_fault(proxy, millis) {
            return Err(fault);
        }
        self.places.turn(self.alloc, proxy, Turn::Clock { millis })
    }

    /// Why a proxy's clock can't be set to this reading.
    fn clock_fault(&self, proxy: u64, millis: u64) -> Option<WorldFault>
        ensures { result ≡ clock_fault proxy millis (kept_at self.now.places proxy) }
    {
        match self.places.find(proxy) {
            None => Some(WorldFault::NoSuchProxy(proxy)),
            Some(place) => {
                let clock = place.clock();
                if millis < clock {
                    Some(WorldFault::ClockBack {
                        clock,
                        asked: millis,
                    })
                } else {
                    None
                }
            }
        }
    }

    /// The number of lines whose step gave its items. It takes no memory.
    pub fn lines(&self) -> u64
        ensures { result ≡ self.now.lines }
    {
        self.lines
    }

    /// Whether something of the proxy is due to be sent. It takes no memory.
    pub fn has_job(&self, proxy: u64) -> bool
        ensures { (w : Model) → Stands self.now w → result ≡ has_due w proxy }
    {
        self.has_job_at(proxy)
    }

    fn has_job_at(&self, proxy: u64) -> bool
        ensures { result ≡ place_has_job (kept_at self.now.places proxy) }
    {
        match self.places.find(proxy) {
            Some(place) => place.has_job(),
            None => false,
        }
    }

    /// The number of streams that were opened. It takes no memory.
    pub fn streams(&self) -> u64
        ensures { (w : Model) → Stands self.now w → result ≡ streams w }
    {
        self.streams.len() as u64
    }

    /// The store's newest revision, from 1. It takes no memory.
    pub fn newest(&self) -> u64
        ensures { (w : Model) → Stands self.now w → result ≡ newest w.store.history }
    {
        self.store.newest()
    }
}

fn one_more(life: u64) -> Result<u64, NoMemory>
    ensures { IfOk result (λ next. next ≡ life + 1) }
{
    life.checked_add(1).ok_or(NoMemory)
}
