ghost use Rattle.std.specs.Prelude.{◌≡◌, ℕ, map, IfOk, OnOk, OnErr};
ghost use Rattle.std.specs.Option.{option_map};
ghost use Rattle.core_model.specs.Groups.{group_sent};
ghost use Rattle.core_model.specs.Sending.{called_as};
ghost use Rattle.read_model.specs.Acquires.{acquire_sent};
ghost use Rattle.wait_model.specs.Sent.{job_sent};
ghost use Rattle.revoke_core.specs.Sends.{after_sending};

use crate::reads::Reads;
use etcd_types::{Bytes, NoMemory};
use keep_merge::send_group;
use known_asks::Stage;
use revoke_core::Due;
use wait_model::Sending;

impl Reads {
    /// The first due rescind, revoke call or call of a write, which is then out under this number, which no call had before; nothing
    /// exactly where none is due. Where memory was wanting all is as before.
    pub fn send_write(&mut self, call: u64) -> Result<Option<Due>, NoMemory>
        ensures due { IfOk result (λ due. due ≡ option_map (λ sent. sent.due) (job_sent call self.old.own)) }
        ensures reads { OnOk result (self.new ≡ record self.old { own = after_sending self.old.own (job_sent call self.old.own) }) }
        ensures err { OnErr result (self.new ≡ self.old) }
    {
        self.waits.next_job(call, &mut self.table)
    }

    /// The first due rescind, revoke call or call of a write, whatever number it will have; nothing exactly where none is due.
    pub fn first_write(&self) -> Result<Option<Due>, NoMemory>
        ensures { IfOk result (λ due. (call : ℕ) → due ≡ option_map (λ sent. sent.due) (job_sent call self.now.own)) }
    {
        Ok(self.waits.first_job(&self.table)?)
    }

    /// The acquire of the key is out under this call. It takes no memory.
    pub fn send_acquire(&mut self, call: u64, key: &Bytes)
        ensures { self.new ≡ acquire_sent call key.now self.old }
    {
        self.acquires.send_out(call, key);
    }

    /// The request's own call is out under this number. It takes no memory.
    pub fn send_ask(&mut self, call: u64, ticket: u64)
        ensures { self.new ≡ record self.old { asks = map (called_as call ticket) self.old.asks } }
    {
        self.asks
            .set_stage(ticket, Stage::Calling(Sending::Out { call }));
    }

    /// The due keepalives of the lease are out under this call. It takes no memory.
    pub fn send_keepalives(&mut self, call: u64, lease: u64)
        ensures { self.new ≡ record self.old { asks = map (group_sent call lease) self.old.asks } }
    {
        send_group(&mut self.asks, call, lease);
    }
}
