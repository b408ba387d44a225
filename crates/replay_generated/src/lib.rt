//! The generated script of a number: its lines are made one by one over a world, each from what the lines before left there, and
//! it is told how much was asked and replied.
#![tactic(auto)]

ghost use Rattle.std.specs.Prelude.{◌≤◌, IfOk};
ghost use Rattle.replay_generated.specs.Made.{script, Tells};

mod making;
mod opening;
mod rounds;
mod settling;
mod summary;

use core_face::ProxyCore;
use etcd_types::NoMemory;
use making::Making;
use std::alloc::Global;
pub use summary::Summary;

/// Makes the script of this number, from 1 to 20,000, each line over the world that the lines before left, and tells the counts of
/// what they gained.
pub fn generated<C: ProxyCore>(alloc: Global, number: u64) -> Result<Summary, NoMemory>
    requires { number ≤ 20000 }
    ensures { IfOk result (λ told. Tells told (script number)) }
{
    let making: Making<C> = Making::whole(alloc, number)?;
    Ok(making.summary())
}
