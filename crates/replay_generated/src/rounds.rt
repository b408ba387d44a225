ghost use Rattle.std.specs.Prelude.{◌≤◌, ◌==◌, ◌%◌, OnOk};
ghost use Rattle.generated_laws.specs.Laws.{AskTaken, OnTimeTaken, OnTimesTaken, RoundTaken, RoundsTaken};
ghost use Rattle.replay_generated.specs.Made.{Makes};
ghost use Rattle.replay_generated.specs.Taken.{CanMake};
ghost use Rattle.world_model.specs.Generated.{asks_once, on_time, on_times, round, rounds};

use crate::making::Making;
use core_face::ProxyCore;
use etcd_types::NoMemory;
use script_text::Line;

/// Every so many rounds the clocks go on.
const CLOCK_ROUNDS: u64 = 10;

/// By so much a round.
const ROUND_TIME_MS: u64 = 200;

impl<C: ProxyCore> Making<C> {
    /// So many rounds: in each something is asked, and all settles.
    pub fn rounds(&mut self, count: u64) -> Result<(), NoMemory>
        requires few { count ≤ 20000 }
        requires goes { CanMake (RoundsTaken count 1) self.old }
        ensures { OnOk result (Makes (rounds count 1) self.old self.new) }
    {
        for at in 0..count {
            self.round(at + 1)?;
        }
        Ok(())
    }

    fn round(&mut self, number: u64) -> Result<(), NoMemory>
        requires few { number ≤ 20000 }
        requires goes { CanMake (RoundTaken number) self.old }
        ensures { OnOk result (Makes (round number) self.old self.new) }
    {
        let state = self.next_state();
        self.on_times(number)?;
        Ok(self.asks_once(state, number)?)
    }

    fn asks_once(&mut self, state: u64, number: u64) -> Result<(), NoMemory>
        requires { CanMake (AskTaken state number) self.old }
        ensures { OnOk result (Makes (asks_once state number) self.old self.new) }
    {
        let line = self.asking(state, number)?;
        self.set_state(state);
        self.add(line)?;
        Ok(self.settle()?)
    }

    fn on_times(&mut self, number: u64) -> Result<(), NoMemory>
        requires few { number ≤ 20000 }
        requires goes { CanMake (OnTimesTaken (number % 10 == 0) number) self.old }
        ensures { OnOk result (Makes (on_times (number % 10 == 0) number) self.old self.new) }
    {
        if number % CLOCK_ROUNDS != 0 {
            return Ok(());
        }
        self.on_time(number, 1)?;
        self.on_time(number, 2)?;
        Ok(self.on_time(number, 3)?)
    }

    fn on_time(&mut self, number: u64, proxy: u64) -> Result<(), NoMemory>
        requires few { number ≤ 20000 }
        requires goes { CanMake (OnTimeTaken number proxy) self.old }
        ensures { OnOk result (Makes (on_time number proxy) self.old self.new) }
    {
        let millis = ROUND_TIME_MS * number;
        self.add(Line::Clock { proxy, millis })?;
        Ok(self.add(Line::Tick { proxy })?)
    }
}
