ghost use Rattle.std.specs.Prelude.{◌≡◌, [], Some, length};
ghost use Rattle.std.specs.Arc.{arc_value};
ghost use Rattle.turn_hub.specs.Known.{made, opening_of};
ghost use Rattle.server_model.specs.Steps.{NoEvent};
ghost use Rattle.proxy_parts.specs.Passes.{Grows, is_at_limit};

use crate::place::Place;
use crate::seated::Seated;
use core_model::{CoreEvent, Outcome};
use etcd_types::{Bytes, List, NoMemory};
use http_talk::RefusalForm;
use outside::Clock;
use proxy_core::Core;
use proxy_server::Turn;
use proxy_workers::Seats;
use server_model::TurnFault;
use std::alloc::Global;
use std::sync::{Arc, Wait};
use turn_hub::{Hub, Pass};

/// A seat at a hub at which further parts can be seated.
#[derive(Drop)]
pub struct Seating<'a, R: Wait> {
    seated: Seated<'a, R>,
    hub: &'a Arc<Hub<Core>, Global>,
    hosts: &'a Arc<List<Bytes>, Global>,
    message_limit: usize,
    form: RefusalForm,
    ghost mine: { seated.hub.now ≡ arc_value hub.now },
    ghost numbered: { (opening_of (arc_value hub.now)).settings.members ≡ length (arc_value hosts.now) },
}

impl<'a, R: Wait> Seating<'a, R> {
    /// A turn over a pass of the hub, whose core was opened with as many members as there are hosts.
    pub fn new(
        rt: &'a R,
        hub: &'a Arc<Hub<Core>, Global>,
        hosts: &'a Arc<List<Bytes>, Global>,
        message_limit: usize,
        form: RefusalForm,
        pass: Pass<Core>,
    ) -> Seating<'a, R>
        requires mine { pass.hub ≡ arc_value hub.now }
        requires numbered { (opening_of (arc_value hub.now)).settings.members ≡ length
            (arc_value hosts.now) }
        ensures hub { result.seated.pass.hub ≡ pass.hub }
        ensures hosts { result.hosts.now ≡ hosts.now }
        ensures message_limit { result.message_limit ≡ message_limit }
        ensures form { result.form ≡ form }
        ensures made { made result.seated.pass ≡ made pass }
        ensures begun { result.seated.begun.value ≡ pass }
        ensures grows { Grows pass result.seated.pass }
    {
        let seated = Seated::new(rt, hub, pass);
        Seating {
            seated,
            hub,
            hosts,
            message_limit,
            form,
        }
    }

    /// Gives the pass back.
    pub fn into_pass(self) -> Pass<Core>
        ensures { result ≡ self.entry.seated.pass }
    {
        self.seated.into_pass()
    }
}

impl<'a, R: Wait> Turn for Seating<'a, R> {
    type Home = (Pass<Core>, List<Bytes>, usize, RefusalForm);

    ghost use Rattle.std.specs.Prelude.{[]};

    ghost home = { λ s. (record s.seated.pass { seen = []; own = [] }, arc_value s.hosts.now, s.message_limit, s.form) };

    ghost made = { λ s. Some (made s.seated.pass) };

    ghost rests = { NoEvent };

    ghost worn = { λ s. is_at_limit s.seated.pass };

    ghost allowed = { λ s. Grows s.seated.begun.value s.seated.pass };

    fn turn<C: Clock>(&mut self, event: CoreEvent, clock: &mut C) -> Result<Outcome, TurnFault> {
        self.seated.turn(event, clock)
    }

    fn rest<C: Clock>(&mut self, clock: &mut C) -> Result<(), TurnFault> {
        self.seated.rest(clock)
    }
}

impl<'a, R: Wait> Seats for Seating<'a, R> {
    type Place = Place;

    ghost use Rattle.proxy_parts.specs.Homes.{home_of};

    ghost place_home = { home_of };

    fn another(&mut self) -> Result<Place, NoMemory> {
        let hub = Arc::try_clone(self.hub)?;
        let hosts = Arc::try_clone(self.hosts)?;
        let message_limit = self.message_limit;
        let form = self.form;
        let pass = self.seated.split();
        Ok(Place {
            hub,
            hosts,
            message_limit,
            form,
            pass,
        })
    }
}
