ghost use Rattle.std.specs.Prelude.{◌≡◌, ◌<◌, Some, None, map, false, IfOk, IfSome};
ghost use Rattle.read_model.specs.declared.asked.Asked.{Asked as Value};
ghost use Rattle.known_asks.specs.Alike.{is_kin, changed_within, changed_below};
ghost use Rattle.known_asks.specs.Changes.{restaged, staged_by};

use crate::asks::Asks;
use crate::kin::Kin;
use crate::restage::{Restage, add_change};
use crate::rule::Rule;
use etcd_types::NoMemory;
use read_model::Stage;
use std::alloc::Global;

/// Each request of this kin is changed by the rule, which leaves all others as they are. It looks at those alone, each
/// found in logarithmic time, and takes no memory.
pub(crate) fn change_alike<R: Rule>(asks: &mut Asks, kin: Kin, rule: &R)
    requires { (a : Value) → is_kin kin a ≡ false → R.changed rule.now a ≡ a }
    ensures { asks.new ≡ map (R.changed rule.now) asks.old }
{
    let mut next = Some(0);
    while let Some(from) = next {
        next = change_next(asks, kin, from, rule);
    }
}

/// The first request of this kin from this ticket on is changed by the rule; from which ticket on the next one has to be
/// looked for, or nothing where there is none.
fn change_next<R: Rule>(asks: &mut Asks, kin: Kin, from: u64, rule: &R) -> Option<u64>
    requires { (a : Value) → is_kin kin a ≡ false → R.changed rule.now a ≡ a }
    ensures further { IfSome result (λ next. from < next) }
    ensures changed { asks.new ≡ changed_within from result (R.changed rule.now) asks.old }
{
    let Some(ask) = asks.next_alike(kin, from) else {
        return None;
    };
    let ticket = ask.ticket;
    asks.change(ticket, rule);
    ticket.checked_add(1)
}

/// What the rule changes of the requests of this kin, by ticket, where it changes no other. It looks at those alone, each
/// found in logarithmic time.
pub(crate) fn alike_changes<R: Restage>(
    alloc: Global,
    asks: &Asks,
    kin: Kin,
    rule: &R,
) -> Result<Vec<(u64, Stage)>, NoMemory>
    requires { (a : Value) → is_kin kin a ≡ false → R.stage_of rule.now a ≡ None }
    ensures { IfOk result (λ changes. restaged changes.items asks.now ≡ map (staged_by (R.stage_of rule.now)) asks.now) }
{
    let mut changes = Vec::new(alloc);
    let mut next = Some(0);
    while let Some(from) = next {
        next = add_next(alloc, asks, kin, from, rule, &mut changes)?;
    }
    Ok(changes)
}

/// One more change, of the first request of this kin from this ticket on, beside those of the tickets below; from which
/// ticket on the next one has to be looked for, or nothing where there is none.
fn add_next<R: Restage>(
    alloc: Global,
    asks: &Asks,
    kin: Kin,
    from: u64,
    rule: &R,
    changes: &mut Vec<(u64, Stage)>,
) -> Result<Option<u64>, NoMemory>
    requires stays { (a : Value) → is_kin kin a ≡ false → R.stage_of rule.now a ≡ None }
    requires so_far { restaged changes.old.items asks.now ≡ changed_below (Some from) (staged_by (R.stage_of rule.now)) asks.now }
    ensures further { IfOk result (λ next. IfSome next (λ ticket. from < ticket)) }
    ensures more { IfOk result (λ next. restaged changes.new.items asks.now ≡ changed_below next (staged_by (R.stage_of rule.now)) asks.now) }
{
    let Some(ask) = asks.next_alike(kin, from) else {
        return Ok(None);
    };
    add_change(alloc, changes, ask, rule)?;
    Ok(ask.ticket.checked_add(1))
}
