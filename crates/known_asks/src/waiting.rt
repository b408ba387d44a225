ghost use Rattle.std.specs.Prelude.{◌≡◌, ◌&&◌, map, false, None, IfOk};
ghost use Rattle.etcd_types.specs.Keys.{same};
ghost use Rattle.read_model.specs.PlainRead.{ask_key};
ghost use Rattle.read_model.specs.declared.asked.Asked.{Asked as Value};
ghost use Rattle.known_asks.specs.Changes.{restaged, staged_by};
ghost use Rattle.ask_tables.specs.Waiting.{waits_at_key};

use crate::alike::{alike_changes, change_alike};
use crate::asks::Asks;
use crate::kin::Kin;
use crate::restage::Restage;
use crate::rule::Rule;
use ask_tables::{WAITING, key_number};
use etcd_types::{Bytes, NoMemory};
use read_model::Stage;
use std::alloc::Global;

/// Each is changed by the rule, which leaves all that don't wait at a key as they are. It looks at those that wait so, and at no others,
/// and takes no memory.
pub fn change_waiting<R: Rule>(asks: &mut Asks, rule: &R)
    requires { (a : Value) → waits_at_key a.stage ≡ false → R.changed rule.now a ≡ a }
    ensures { asks.new ≡ map (R.changed rule.now) asks.old }
{
    change_alike(asks, Kin::Stage(WAITING, 0), rule);
}

/// The stages that the rule says, by ticket, to be set by `set_stages`, where by the rule all that don't wait at a key stay; nothing is
/// changed yet. It looks at those that wait so, and at no others.
pub fn waiting_changes<R: Restage>(
    alloc: Global,
    asks: &Asks,
    rule: &R,
) -> Result<Vec<(u64, Stage)>, NoMemory>
    requires { (a : Value) → waits_at_key a.stage ≡ false → R.stage_of rule.now a ≡ None }
    ensures { IfOk result (λ changes. restaged changes.items asks.now ≡ map (staged_by (R.stage_of rule.now)) asks.now) }
{
    Ok(alike_changes(alloc, asks, Kin::Stage(WAITING, 0), rule)?)
}

/// Each is changed by the rule, which leaves all that don't wait at this key as they are. It looks at those that wait there, and at those
/// whose key has the same number, and takes no memory.
pub fn change_waiting_at<R: Rule>(asks: &mut Asks, key: &Bytes, rule: &R)
    requires { (a : Value) → waits_at_key a.stage && same (ask_key a) key.now ≡ false → R.changed rule.now a ≡ a }
    ensures { asks.new ≡ map (R.changed rule.now) asks.old }
{
    change_alike(asks, Kin::Key(key_number(key.as_slice())), rule);
}

/// The stages that the rule says, by ticket, to be set by `set_stages`, where by the rule all that don't wait at this key stay; nothing
/// is changed yet. It looks at those that wait there, and at those whose key has the same number.
pub fn waiting_changes_at<R: Restage>(
    alloc: Global,
    asks: &Asks,
    key: &Bytes,
    rule: &R,
) -> Result<Vec<(u64, Stage)>, NoMemory>
    requires { (a : Value) → waits_at_key a.stage && same (ask_key a) key.now ≡ false → R.stage_of rule.now a ≡ None }
    ensures { IfOk result (λ changes. restaged changes.items asks.now ≡ map (staged_by (R.stage_of rule.now)) asks.now) }
{
    Ok(alike_changes(alloc, asks, Kin::Key(key_number(key.as_slice())), rule)?)
}
