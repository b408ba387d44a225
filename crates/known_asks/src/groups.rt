ghost use Rattle.std.specs.Prelude.{◌≡◌, ◌&&◌, map, false, None, IfOk};
ghost use Rattle.std.specs.Option.{option_map};
ghost use Rattle.core_model.specs.Groups.{keeps, is_due_stage, is_out_stage, waits_next, due_since, group_since};
ghost use Rattle.read_model.specs.declared.asked.Asked.{Asked as Value};
ghost use Rattle.known_asks.specs.Changes.{restaged, staged_by};
ghost use Rattle.known_asks.specs.OneByOne.{Settles, first_of};
ghost use Rattle.ask_tables.specs.RowMarks.{has_key, by_group};

use crate::alike::{alike_changes, change_alike};
use crate::asks::Asks;
use crate::kin::Kin;
use crate::restage::Restage;
use crate::rule::Rule;
use ask_tables::{GROUP_DUE, GROUP_NEXT, GROUP_OUT};
use etcd_types::NoMemory;
use read_model::Stage;
use std::alloc::Global;
use wait_model::Sending;

/// Since when a group of the lease is due, where one is. It takes logarithmic time.
pub fn due_group(asks: &Asks, lease: u64) -> Option<u64>
    ensures { result ≡ group_since lease asks.now }
{
    match asks.first_grouped(GROUP_DUE, lease) {
        Some(ask) => due_since(&ask.stage),
        None => None,
    }
}

fn due_since(stage: &Stage) -> Option<u64>
    ensures { result ≡ due_since stage.now }
{
    match stage {
        Stage::Grouped(Some(Sending::Due { since })) => Some(*since),
        _ => None,
    }
}

/// Each is changed by the rule, which leaves all but the keepalives in the due group of the lease, and these are in it no more. It looks
/// at these alone, each found in logarithmic time, and takes no memory.
pub fn change_due_group<R: Rule>(asks: &mut Asks, lease: u64, rule: &R)
    requires { Settles (λ a. keeps lease a.request && is_due_stage a.stage) (R.changed rule.now) }
    ensures { asks.new ≡ map (R.changed rule.now) asks.old }
{
    change_grouped(asks, GROUP_DUE, lease, rule);
}

/// Each is changed by the rule, which leaves all but the keepalives that wait for the next call of the lease, and these wait for it no
/// more. It looks at these alone, each found in logarithmic time, and takes no memory.
pub fn change_next_group<R: Rule>(asks: &mut Asks, lease: u64, rule: &R)
    requires { Settles (λ a. keeps lease a.request && waits_next a.stage) (R.changed rule.now) }
    ensures { asks.new ≡ map (R.changed rule.now) asks.old }
{
    change_grouped(asks, GROUP_NEXT, lease, rule);
}

/// One keepalive of this kind and lease after the other is changed, until there is none.
fn change_grouped<R: Rule>(asks: &mut Asks, kind: u64, lease: u64, rule: &R)
    requires { Settles (has_key by_group kind lease) (R.changed rule.now) }
    ensures { asks.new ≡ map (R.changed rule.now) asks.old }
{
    while let Some(ticket) = grouped_ticket(asks, kind, lease) {
        asks.change(ticket, rule);
    }
}

/// The ticket of the first keepalive of this kind and lease.
fn grouped_ticket(asks: &Asks, kind: u64, lease: u64) -> Option<u64>
    ensures { result ≡ option_map (λ a. a.ticket) (first_of (has_key by_group kind lease) asks.now) }
{
    match asks.first_grouped(kind, lease) {
        Some(ask) => Some(ask.ticket),
        None => None,
    }
}

/// Each is changed by the rule, which leaves all but the keepalives that share this call. It looks at these alone, and takes no memory.
pub fn change_group<R: Rule>(asks: &mut Asks, call: u64, rule: &R)
    requires { (a : Value) → is_out_stage call a.stage ≡ false → R.changed rule.now a ≡ a }
    ensures { asks.new ≡ map (R.changed rule.now) asks.old }
{
    change_alike(asks, Kin::Stage(GROUP_OUT, call), rule);
}

/// The stages that the rule says, by ticket, to be set by `set_stages`, where by the rule all but the keepalives that share this call
/// stay; nothing is changed yet. It looks at these alone.
pub fn group_changes<R: Restage>(
    alloc: Global,
    asks: &Asks,
    call: u64,
    rule: &R,
) -> Result<Vec<(u64, Stage)>, NoMemory>
    requires { (a : Value) → is_out_stage call a.stage ≡ false → R.stage_of rule.now a ≡ None }
    ensures { IfOk result (λ changes. restaged changes.items asks.now ≡ map (staged_by (R.stage_of rule.now)) asks.now) }
{
    Ok(alike_changes(alloc, asks, Kin::Stage(GROUP_OUT, call), rule)?)
}
