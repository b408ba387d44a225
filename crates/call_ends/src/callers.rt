ghost use Rattle.std.specs.Prelude.{◌≡◌, map, filter, true, false, if◌then◌else◌};
ghost use Rattle.core_model.specs.Fits.{at_most_one};
ghost use Rattle.core_model.specs.Lookups.{calls_as};
ghost use Rattle.read_model.specs.PlainRead.{in_stage};
ghost use Rattle.read_model.specs.declared.asked.Asked.{Asked as Value};
ghost use Rattle.read_model.specs.declared.asked.Stage.TheVariants as stage;
ghost use Rattle.call_ends.specs.Callers.{caller_of};

use known_asks::{Asked, Asks, Callers, Rule, Stage, Verdict, calls_as};

/// The request whose own call this is, which is one at most, ends with this verdict. It takes no memory.
pub fn tell_caller(asks: &mut Asks, call: u64, verdict: Verdict)
    requires { at_most_one (filter (calls_as call) asks.old) ≡ true }
    ensures { asks.new ≡ map (λ a. if calls_as call a then in_stage (stage.Replied verdict) a else a) asks.old }
{
    match asks.callers(call) {
        Callers::Nobody => {}
        Callers::One(ticket) => asks.set_stage(ticket, Stage::Replied(verdict)),
        Callers::Several => tell_first(asks, call, verdict),
    }
}

/// The first request whose own call this is, which is one at most, ends with this verdict.
fn tell_first(asks: &mut Asks, call: u64, verdict: Verdict)
    requires { at_most_one (filter (calls_as call) asks.old) ≡ true }
    ensures { asks.new ≡ map (λ a. if calls_as call a then in_stage (stage.Replied verdict) a else a) asks.old }
{
    if let Some(ticket) = caller_of(asks.rows(), call) {
        asks.set_stage(ticket, Stage::Replied(verdict));
    }
}

/// The ticket of the request whose own call this is.
fn caller_of(rows: &[(u64, Asked)], call: u64) -> Option<u64>
    ensures { result ≡ caller_of call (map (λ r. r.1) rows.now) }
{
    for row in rows {
        if calls_as(&row.1, call) {
            return Some(row.1.ticket);
        }
    }
    None
}

/// Each request whose own call this is is changed by the rule, which leaves all others as they are. It takes no memory.
pub(crate) fn change_caller<R: Rule>(asks: &mut Asks, call: u64, rule: &R)
    requires { (a : Value) → calls_as call a ≡ false → R.changed rule.now a ≡ a }
    ensures { asks.new ≡ map (R.changed rule.now) asks.old }
{
    match asks.callers(call) {
        Callers::Nobody => {}
        Callers::One(ticket) => asks.change(ticket, rule),
        Callers::Several => asks.change_each(rule),
    }
}
