ghost use Rattle.std.specs.Prelude.{OnOk, IfOk};
ghost use Rattle.generated_laws.specs.Laws.{AllPushesTaken, EndTaken, PushesTaken, SendTaken, SendsTaken, SettleTaken, SettlesTaken, TurnTaken};
ghost use Rattle.replay_generated.specs.Made.{Makes, Turns};
ghost use Rattle.replay_generated.specs.Taken.{CanMake};
ghost use Rattle.world_model.specs.Generated.{all_pushes, ended, pushes, send_one, sends, settle, settles, turn};

use crate::making::Making;
use core_face::ProxyCore;
use etcd_types::NoMemory;
use script_text::Line;

/// So many jobs of a proxy are done in a turn at the most, and a script settles in at most so many turns.
const MOST: u64 = 64;

impl<C: ProxyCore> Making<C> {
    /// All that is due is done, until nothing more comes of it.
    pub fn settle(&mut self) -> Result<(), NoMemory>
        requires { CanMake SettleTaken self.old }
        ensures { OnOk result (Makes settle self.old self.new) }
    {
        Ok(self.settles(MOST)?)
    }

    fn settles(&mut self, most: u64) -> Result<(), NoMemory>
        requires { CanMake (SettlesTaken most) self.old }
        ensures { OnOk result (Makes (settles most) self.old self.new) }
    {
        for _ in 0..most {
            let more = self.turn_adds()?;
            if !more {
                return Ok(());
            }
        }
        Ok(())
    }

    /// Makes a turn, and tells whether it added a line.
    fn turn_adds(&mut self) -> Result<bool, NoMemory>
        requires { CanMake TurnTaken self.old }
        ensures { IfOk result (λ more. Turns more self.old self.new) }
    {
        let before = self.lines();
        self.turn()?;
        let after = self.lines();
        Ok(after != before)
    }

    fn turn(&mut self) -> Result<(), NoMemory>
        requires { CanMake TurnTaken self.old }
        ensures { OnOk result (Makes turn self.old self.new) }
    {
        self.sends(MOST, 1)?;
        self.sends(MOST, 2)?;
        self.sends(MOST, 3)?;
        Ok(self.all_pushes()?)
    }

    /// What is due at a proxy is sent, executed and answered.
    fn sends(&mut self, most: u64, proxy: u64) -> Result<(), NoMemory>
        requires { CanMake (SendsTaken most proxy) self.old }
        ensures { OnOk result (Makes (sends most proxy) self.old self.new) }
    {
        for _ in 0..most {
            let due = self.is_due(proxy);
            if !due {
                return Ok(());
            }
            self.send_one(proxy)?;
        }
        Ok(())
    }

    fn send_one(&mut self, proxy: u64) -> Result<(), NoMemory>
        requires { CanMake (SendTaken proxy) self.old }
        ensures { OnOk result (Makes (send_one proxy) self.old self.new) }
    {
        let call = self.add_send(proxy)?;
        Ok(self.end(call)?)
    }

    /// The call that was sent, where one was, is executed and answered.
    fn end(&mut self, call: Option<u64>) -> Result<(), NoMemory>
        requires { CanMake (EndTaken call) self.old }
        ensures { OnOk result (Makes (ended call) self.old self.new) }
    {
        match call {
            Some(call) => {
                self.add(Line::Exec { call })?;
                Ok(self.add(Line::Answer { call })?)
            }
            None => Ok(()),
        }
    }

    /// What the store has for the streams is pushed and delivered.
    fn all_pushes(&mut self) -> Result<(), NoMemory>
        requires { CanMake AllPushesTaken self.old }
        ensures { OnOk result (Makes all_pushes self.old self.new) }
    {
        let count = self.streams();
        Ok(self.pushes(count)?)
    }

    /// The same for the first streams, so many of them.
    fn pushes(&mut self, count: u64) -> Result<(), NoMemory>
        requires { CanMake (PushesTaken count 1) self.old }
        ensures { OnOk result (Makes (pushes count 1) self.old self.new) }
    {
        for at in 0..count {
            self.push_one(at + 1)?;
        }
        Ok(())
    }
}
