ghost use Rattle.std.specs.Prelude.{◌≡◌, ◌++◌, Option, IfOk, OnOk};
ghost use Rattle.read_model.specs.declared.asked.Asked.{Asked as Value};
ghost use Rattle.read_model.specs.declared.asked.Stage.{Stage as Step};
ghost use Rattle.known_asks.specs.Changes.{restaged, change_of};

use crate::asks::Asks;
use etcd_types::NoMemory;
use read_model::{Asked, Stage};
use std::alloc::Global;

/// A rule by which requests come into other stages, which may take memory.
pub trait Restage {
    ghost stage_of: { Self → Value → Option Step };

    /// The stage that the request comes into, or nothing where it stays.
    fn stage(&self, alloc: Global, ask: &Asked) -> Result<Option<Stage>, NoMemory>
        ensures { IfOk result (λ stage. stage ≡ stage_of self.now ask.now) };
}

pub(crate) fn add_change<R: Restage>(
    alloc: Global,
    changes: &mut Vec<(u64, Stage)>,
    ask: &Asked,
    rule: &R,
) -> Result<(), NoMemory>
    ensures { OnOk result (changes.new.items ≡ changes.old.items ++ change_of ask.now.ticket (R.stage_of rule.now ask.now)) }
{
    match rule.stage(alloc, ask)? {
        Some(stage) => {
            changes.push((ask.ticket, stage))?;
            Ok(())
        }
        None => Ok(()),
    }
}

/// Those of these tickets are in these stages now. It takes no memory.
pub fn set_stages(asks: &mut Asks, changes: Vec<(u64, Stage)>)
    ensures { asks.new ≡ restaged changes.items asks.old }
{
    for (ticket, stage) in changes {
        asks.set_stage(ticket, stage);
    }
}
