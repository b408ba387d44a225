ghost use Rattle.std.specs.Prelude.{◌≡◌, map};
ghost use Rattle.core_model.specs.Groups.{group_sent, is_due_stage};
ghost use Rattle.keep_merge.specs.Tickets.{group_sent-ticket};

use crate::joins::keeps;
use known_asks::{Asked, Asks, Rule, Stage, change_due_group};
use wait_model::Sending;

/// The due group of the lease is out under this call.
#[derive(Drop)]
struct Sent {
    call: u64,
    lease: u64,
}

impl Rule for Sent {
    ghost changed = { λ s. group_sent s.call s.lease };

    fn change(&self, ask: &mut Asked) {
        if keeps(self.lease, &ask.request) && is_due(&ask.stage) {
            ask.stage = Stage::Grouped(Some(Sending::Out { call: self.call }));
        }
    }

    ghost keeps = { λ s a. group_sent-ticket s.call s.lease a };
}

fn is_due(stage: &Stage) -> bool
    ensures { result ≡ is_due_stage stage.now }
{
    matches!(stage, Stage::Grouped(Some(Sending::Due { .. })))
}

/// The due group of the lease is out under this call. It looks at those in the group alone, and takes no memory.
pub fn send_group(asks: &mut Asks, call: u64, lease: u64)
    ensures { asks.new ≡ map (group_sent call lease) asks.old }
{
    change_due_group(asks, lease, &Sent { call, lease });
}
