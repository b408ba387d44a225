ghost use Rattle.std.specs.Prelude.{◌≡◌, length};
ghost use Rattle.std.specs.Arc.{arc_value};

use etcd_types::{Bytes, List};
use proxy_core::Core;
use proxy_parts::{Place, RefusalForm};
use std::alloc::Global;
use std::sync::Arc;
use turn_hub::{Hub, Pass};

/// Which passes go with a hub and with hosts.
pub trait Admits<P> {
    ghost use Rattle.std.specs.Prelude.{ℕ, List};

    ghost admits: { Self → List (List ℕ) → P → Type 0 };

    ghost only: { (hub : Self) (hosts : List (List ℕ)) (pass : P) → IsProp (admits hub hosts pass) };
}

impl Admits<Pass<Core>> for Hub<Core> {
    ghost use Rattle.std.specs.Prelude.{◌≡◌, length};
    ghost use Rattle.std.specs.Coded.{codes};
    ghost use Rattle.proxy_core.specs.contracts.proxy.Core as core;
    ghost use Rattle.turn_hub.specs.Known.{opening_of};

    ghost admits = { λ hub hosts pass. (pass.hub ≡ hub) × ((opening_of hub).settings.members ≡ length hosts) };

    ghost only = { λ hub hosts pass. Prim.hlevel (codes, core.the_row.coded) };
}

/// A place, in terms of plain types: only so is it shown that it may cross threads.
#[derive(Drop)]
pub struct CarriedOf<H: Admits<P>, P> {
    hub: Arc<H, Global>,
    hosts: Arc<List<Bytes>, Global>,
    message_limit: usize,
    form: RefusalForm,
    pass: P,
    ghost admitted: { H.admits (arc_value hub) (arc_value hosts) pass } by { H.only (arc_value hub) (arc_value hosts) pass },
}

/// A place on its way to another thread.
pub(crate) type Carried = CarriedOf<Hub<Core>, Pass<Core>>;

impl Carried {
    pub(crate) fn pack(place: Place) -> Carried
        ensures hub { result.hub ≡ place.hub }
        ensures hosts { result.hosts ≡ place.hosts }
        ensures message_limit { result.message_limit ≡ place.message_limit }
        ensures form { result.form ≡ place.form }
        ensures pass { result.pass ≡ place.pass }
    {
        let Place {
            hub,
            hosts,
            message_limit,
            form,
            pass,
        } = place;
        CarriedOf {
            hub,
            hosts,
            message_limit,
            form,
            pass,
        }
    }

    pub(crate) fn unpack(self) -> Place
        ensures hub { result.hub ≡ self.hub }
        ensures hosts { result.hosts ≡ self.hosts }
        ensures message_limit { result.message_limit ≡ self.message_limit }
        ensures form { result.form ≡ self.form }
        ensures pass { result.pass ≡ self.pass }
    {
        let CarriedOf {
            hub,
            hosts,
            message_limit,
            form,
            pass,
        } = self;
        Place {
            hub,
            hosts,
            message_limit,
            form,
            pass,
        }
    }
}
