ghost use Rattle.std.specs.Prelude.{◌≡◌, ◌≢◌, [], Some, IsSome, IfOk, IfErr, OnOk, OnErr, is_some};
ghost use Rattle.std.specs.Option.{option_copied};
ghost use Rattle.replay_places.specs.Places.{PlacesGive, job_or_nothing, with_places};
ghost use Rattle.replay_places.specs.Turns.{turned};
ghost use Rattle.world_model.specs.declared.fault.WorldFault.TheVariants as fault;
ghost use Rattle.world_model.specs.Places.{if_life, kept_at, with_kept};
ghost use Rattle.world_model.specs.Sends.{sent};
ghost use Rattle.world_model.specs.State.{World, Place as Spot};
ghost use Rattle.world_model.specs.Steps.{at_place, refuses};

use crate::place::Place;
use crate::turn::Turn;
use core_face::{Job, ProxyCore};
use etcd_types::{List, NoMemory};
use numbered_rows::place;
use script_text::Item;
use std::alloc::Global;
use std::marker::Model;
use world_model::WorldFault;

/// The proxies that were started, by their numbers.
#[derive(Drop)]
pub struct Places<C: ProxyCore> {
    rows: Vec<(u64, Place<C>)>,
}

impl<C: ProxyCore> Model for Places<C> {
    ghost use Rattle.std.specs.Prelude.{IsTrue};
    ghost use Rattle.std.specs.Coded.{codes};
    ghost use Rattle.etcd_types.specs.contracts.operation.Op as operation;
    ghost use Rattle.etcd_types.specs.contracts.answer.Body as body;
    ghost use Rattle.numbered_rows.specs.Numbered.{is_in_order};
    ghost use Rattle.world_model.specs.State.{Numbered, Place as Spot};

    ghost Value = { Numbered Spot };

    ghost coded = { Prim.hlevel (codes, operation.the_row.coded, body.the_row.coded) };

    ghost view = { λ r. r.rows.items };

    ghost invariant = { λ r. IsTrue (is_in_order r.rows.items) };
}

impl<C: ProxyCore> Places<C> {
    /// No proxies. It takes no memory.
    pub fn new(alloc: Global) -> Places<C>
        ensures { result ≡ [] }
    {
        Places {
            rows: Vec::new(alloc),
        }
    }

    /// The proxy of this number, where it was started.
    pub fn find(&self, proxy: u64) -> Option<&Place<C>>
        ensures { option_copied result ≡ kept_at self.now proxy }
    {
        match place(&self.rows, proxy) {
            Ok(at) => Some(&self.rows[at].1),
            Err(_) => None,
        }
    }

    /// A proxy starts, or starts again.
    pub fn put(&mut self, proxy: u64, fresh: Place<C>) -> Result<(), NoMemory>
        ensures ok { OnOk result (self.new ≡ with_kept self.old proxy fresh) }
        ensures err { OnErr result (self.new ≡ self.old) }
    {
        match place(&self.rows, proxy) {
            Ok(at) => self.rows[at].1 = fresh,
            Err(gap) => self.rows.insert(gap, (proxy, fresh))?,
        }
        Ok(())
    }

    /// Whether a proxy is in this life.
    pub fn is_alive(&self, proxy: u64, life: u64) -> bool
        ensures { result ≡ is_some (if_life life (kept_at self.now proxy)) }
    {
        match self.find(proxy) {
            Some(place) => place.life() == life,
            None => false,
        }
    }

    /// How often a proxy was started, and what its clock reads.
    pub fn life_and_clock(&self, proxy: u64) -> (u64, u64)
        requires { IsSome (kept_at self.now proxy) }
        ensures { (x : Spot) → kept_at self.now proxy ≡ Some x → result ≡ (x.life, x.clock) }
    {
        let Some(place) = self.find(proxy) else {
            unreachable!()
        };
        (place.life(), place.clock())
    }

    /// The world's number of the stream that has this one at the proxy.
    pub fn stream_at(&self, proxy: u64, own: u64) -> Option<u64>
        ensures { (x : Spot) → kept_at self.now proxy ≡ Some x → result ≡ kept_at x.streams own }
    {
        self.find(proxy)?.stream_at(own)
    }

    /// What happens at a proxy. `NoSuchProxy` comes where it wasn't started.
    pub fn turn(&mut self, alloc: Global, proxy: u64, turn: Turn) -> Result<List<Item>, WorldFault>
        ensures { (before after : World) → before.places ≡ self.old → after.places ≡ self.old
            → PlacesGive before after self.new result (at_place before proxy (turned before after proxy turn)) }
    {
        match place(&self.rows, proxy) {
            Ok(at) => self.rows[at].1.turn(alloc, proxy, turn),
            Err(_) => {
                drop(turn);
                Err(WorldFault::NoSuchProxy(proxy))
            }
        }
    }

    /// A proxy is asked for what is due first.
    pub fn work(&mut self, proxy: u64) -> Result<Option<Job>, WorldFault>
        ensures job { IfOk result (λ job. (w : World) → w.places ≡ self.old
            → (x : Spot) × (self.new ≡ with_kept self.old proxy x) × (sent w proxy ≡ job_or_nothing w proxy x job)) }
        ensures fault { IfErr result (λ why. why ≢ fault.NoMemory → (w : World) → w.places ≡ self.old → sent w proxy ≡ refuses (with_places w self.new) why) }
    {
        match place(&self.rows, proxy) {
            Ok(at) => self.rows[at].1.work(proxy),
            Err(_) => Err(WorldFault::NoSuchProxy(proxy)),
        }
    }
}
