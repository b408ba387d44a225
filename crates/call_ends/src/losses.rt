ghost use Rattle.std.specs.Prelude.{◌≡◌, map, if◌then◌else◌};
ghost use Rattle.core_model.specs.Ends.{stale_once};
ghost use Rattle.core_model.specs.Lookups.{calls_as};
ghost use Rattle.read_model.specs.Acquires.{lost_once};
ghost use Rattle.call_ends.specs.Callers.{lost_caller, stale_caller, lost_caller-ticket, stale_caller-ticket};

use crate::callers::change_caller;
use known_asks::{Asked, Asks, Rule, calls_as, lose_once, refuse_stale};

/// A read's own call was lost.
#[derive(Drop)]
struct LostCall {
    call: u64,
    members: u32,
    step: u64,
}

impl Rule for LostCall {
    ghost changed = { λ s. lost_caller s.call s.members s.step };

    fn change(&self, ask: &mut Asked) {
        if calls_as(ask, self.call) {
            lose_once(ask, self.members, self.step);
        }
    }

    ghost keeps = { λ s a. lost_caller-ticket s.call s.members s.step a };
}

/// A request's own call was answered by a stale reply.
#[derive(Drop)]
struct StaleCall {
    call: u64,
    members: u32,
    step: u64,
}

impl Rule for StaleCall {
    ghost changed = { λ s. stale_caller s.call s.members s.step };

    fn change(&self, ask: &mut Asked) {
        if calls_as(ask, self.call) {
            refuse_stale(ask, self.members, self.step);
        }
    }

    ghost keeps = { λ s a. stale_caller-ticket s.call s.members s.step a };
}

/// The read's own call of this number was lost: it is due again since this step, until one was lost for each member. It takes no
/// memory.
pub fn lose_caller(asks: &mut Asks, call: u64, members: u32, step: u64)
    ensures { asks.new ≡ map (λ a. if calls_as call a then lost_once members step a else a) asks.old }
{
    let lost = LostCall {
        call,
        members,
        step,
    };
    change_caller(asks, call, &lost);
}

/// The own call of this number was answered by a stale reply: it is due again since this step, until there were five such for each
/// member. It takes no memory.
pub fn refuse_caller(asks: &mut Asks, call: u64, members: u32, step: u64)
    ensures { asks.new ≡ map (λ a. if calls_as call a then stale_once members step a else a) asks.old }
{
    let stale = StaleCall {
        call,
        members,
        step,
    };
    change_caller(asks, call, &stale);
}
