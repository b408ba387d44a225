ghost use Rattle.std.specs.Prelude.{◌≡◌, [], Some};
ghost use Rattle.turn_hub.specs.Known.{made};
ghost use Rattle.server_model.specs.Steps.{NoEvent};
ghost use Rattle.proxy_parts.specs.Passes.{Grows, is_at_limit};

use core_model::{CoreEvent, Outcome};
use outside::Clock;
use proxy_core::Core;
use proxy_server::Turn;
use server_model::TurnFault;
use std::snapshot::Snapshot;
use std::sync::Wait;
use turn_hub::{Hub, HubFault, Pass};

/// The first rest behind a request lasts so many milliseconds at most, and each further one twice as long as the one before: a client that
/// leaves soon is noticed soon.
const FIRST_REST_MS: u64 = 50;

/// A pass at a hub whose core many parts step.
#[derive(Drop)]
pub struct Seated<'a, R: Wait> {
    rt: &'a R,
    hub: &'a Hub<Core>,
    pass: Pass<Core>,
    // how many milliseconds the next rest lasts at most
    rest: u64,
    // the pass before it was seated
    begun: Snapshot<Pass<Core>>,
    ghost mine: { pass.hub ≡ hub.now },
}

impl<'a, R: Wait> Seated<'a, R> {
    /// A turn over a pass of the hub, which meets the hub's history first.
    pub fn new(rt: &'a R, hub: &'a Hub<Core>, pass: Pass<Core>) -> Seated<'a, R>
        requires { pass.hub ≡ hub.now }
        ensures hub { result.pass.hub ≡ pass.hub }
        ensures made { made result.pass ≡ made pass }
        ensures begun { result.begun.value ≡ pass }
        ensures grows { Grows pass result.pass }
    {
        let begun = Snapshot::of(&pass);
        let mut pass = pass;
        let mut other = hub.split(&mut pass);
        hub.meet(&mut pass, &mut other);
        Seated {
            rt,
            hub,
            pass,
            rest: FIRST_REST_MS,
            begun,
        }
    }

    /// Gives the pass back.
    pub fn into_pass(self) -> Pass<Core>
        ensures { result ≡ self.entry.pass }
    {
        self.pass
    }

    /// A further pass, which has seen what this one has.
    pub(crate) fn split(&mut self) -> Pass<Core>
        ensures apart { result ≡ record self.old.pass { own = [] } }
        ensures pass { self.new.pass ≡ self.old.pass }
        ensures begun { self.new.begun ≡ self.old.begun }
        ensures hub { self.new.hub.now ≡ self.old.hub.now }
    {
        self.hub.split(&mut self.pass)
    }
}

impl<'a, R: Wait> Turn for Seated<'a, R> {
    type Home = (Pass<Core>, Pass<Core>);

    ghost use Rattle.std.specs.Prelude.{[]};

    // its hub, and the pass that was seated
    ghost home = { λ s. (record s.pass { seen = []; own = [] }, s.begun.value) };

    ghost made = { λ s. Some (made s.pass) };

    ghost rests = { NoEvent };

    ghost worn = { λ s. is_at_limit s.pass };

    ghost allowed = { λ s. Grows s.begun.value s.pass };

    fn turn<C: Clock>(&mut self, event: CoreEvent, clock: &mut C) -> Result<Outcome, TurnFault> {
        if matches!(event, CoreEvent::Ask { .. }) {
            self.rest = FIRST_REST_MS;
        }
        match self.hub.step(self.rt, &mut self.pass, event, clock) {
            Ok(outcome) => Ok(outcome),
            Err(HubFault::Worn) => Err(TurnFault::Worn),
            Err(HubFault::Machine(fault)) => Err(TurnFault::Core(fault)),
        }
    }

    fn rest<C: Clock>(&mut self, _clock: &mut C) -> Result<(), TurnFault> {
        self.hub.wait_at_most(self.rt, &mut self.pass, self.rest);
        self.rest = self.rest.saturating_mul(2);
        Ok(())
    }
}
