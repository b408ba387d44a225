ghost use Rattle.std.specs.Prelude.{◌≡◌};
ghost use Rattle.core_model.specs.Ends.{stale_once, stales_limit};
ghost use Rattle.read_model.specs.Acquires.{lost_once};
ghost use Rattle.read_model.specs.PlainRead.{called};

use read_model::{Asked, Stage, Verdict};
use wait_model::Sending;

/// How many stale replies of each member a request is told before it ends.
const STALES_OF_A_MEMBER: u64 = 5;

/// One call of the read was lost: it is due again since this step, until there was one for each member. The count of losses ends at
/// the last number of 64 bits.
pub fn lose_once(ask: &mut Asked, members: u32, step: u64)
    ensures { ask.new ≡ lost_once members step ask.old }
{
    ask.losses = ask.losses.saturating_add(1);
    ask.stage = if u64::from(members) <= ask.losses {
        Stage::Replied(Verdict::Lost)
    } else {
        called(step)
    };
}

/// One reply of the request was stale: it is due again since this step, until there were five for each member. The count of stale
/// replies ends at the last number of 64 bits.
pub fn refuse_stale(ask: &mut Asked, members: u32, step: u64)
    ensures { ask.new ≡ stale_once members step ask.old }
{
    ask.stales = ask.stales.saturating_add(1);
    ask.stage = if stales_limit(members) <= ask.stales {
        Stage::Replied(Verdict::Stale)
    } else {
        called(step)
    };
}

fn stales_limit(members: u32) -> u64
    ensures { result ≡ stales_limit members }
{
    STALES_OF_A_MEMBER * u64::from(members)
}

/// A call of its own, due since this step.
fn called(step: u64) -> Stage
    ensures { result ≡ called step }
{
    Stage::Calling(Sending::Due { since: step })
}
