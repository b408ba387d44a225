ghost use Rattle.std.specs.Prelude.{◌≡◌};
ghost use Rattle.core_model.specs.ClockWork.{begun, requests_timed_out, clock_work, writes_go_on};
ghost use Rattle.core_model.specs.Lookups.{reads_of};
ghost use Rattle.core_model.specs.Sessions.{without_session, deadline_passed};
ghost use Rattle.core_laws.proofs.Steps.Whole.{Mid};
ghost use Rattle.read_steps.specs.Steps.{FitTogether};
ghost use Rattle.core_machine.specs.Keeping.{on};

use crate::machine::Machine;
use core_parts::seat_is_over;

impl Machine {
    /// What the clock brings about, with which each step begins: the session ends at its deadline, requests that waited for
    /// five seconds have their reply, and waiting writes go on. It takes no memory.
    #[tactic(auto, unfolding(core_model::specs::ClockWork::clock_work))]
    #[inline(never)]
    pub fn work_clock(&mut self, now: u64)
        requires { Mid 0 self.old.core }
        ensures { self.new ≡ on self.old (clock_work now self.old.core) }
    {
        self.begin_step();
        self.pass_deadline(now);
        self.time_out(now);
        self.go_on();
    }

    /// What becomes due from here on is due since this step.
    fn begin_step(&mut self)
        ensures { self.new ≡ on self.old (begun self.old.core) }
    {
        self.reads.begin_step(self.steps);
        self.watches.begin_step(self.steps);
    }

    fn pass_deadline(&mut self, now: u64)
        ensures { self.new ≡ on self.old (deadline_passed now self.old.core) }
    {
        if seat_is_over(&self.seat, now) {
            self.end_session(now);
        }
    }

    /// The session is over: its number is forgotten, and with it all that was owned. It takes no memory.
    pub fn end_session(&mut self, now: u64)
        ensures { self.new ≡ on self.old (without_session now self.old.core) }
    {
        self.seat = None;
        let moment = self.moment(now);
        self.reads.end_session(&moment);
    }

    fn time_out(&mut self, now: u64)
        requires { FitTogether (reads_of self.old.core) }
        ensures { self.new ≡ on self.old (requests_timed_out now self.old.core) }
    {
        let moment = self.moment(now);
        self.reads.time_out(&moment);
    }

    /// Waiting writes go on. It takes no memory.
    pub fn go_on(&mut self)
        ensures { self.new ≡ on self.old (writes_go_on self.old.core) }
    {
        self.reads.proceed();
    }
}
