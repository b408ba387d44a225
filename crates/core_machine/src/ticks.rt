ghost use Rattle.std.specs.Prelude.{◌≡◌, ◌<◌, ◌^◌, Some, None, true, is_some};
ghost use Rattle.core_model.specs.LeasingStream.{leasing_ticked};
ghost use Rattle.core_model.specs.Step.{on_tick, ticked};
ghost use Rattle.core_model.specs.Stepped.{noted};
ghost use Rattle.proxy_model.specs.Prefixes.{leasing_range};
ghost use Rattle.core_machine.specs.Keeping.{IsFirst};

use crate::machine::Machine;
use core_parts::{opening_of, tick_seat};
use etcd_types::KeyRange;
use watch_resume::Upstream;

impl Machine {
    /// Time went on: there are a session and a leasing stream, where leasing is on, and the session is kept alive in time.
    /// It takes no memory.
    #[tactic(auto, unfolding(core_model::specs::Step::on_tick))]
    #[inline(never)]
    pub fn on_tick(&mut self, word: u64, now: u64)
        requires given { self.old.core.watches.given < 2 ^ 63 }
        requires first { IsFirst self.old.core.leasing (leasing_range self.old.core.own.waits.prefix) self.old.ranges.first }
        ensures core { on_tick now word self.old.core ≡ noted self.new.core }
        ensures leasing { self.new.ranges.leasing ≡ self.old.ranges.leasing }
        ensures first { IsFirst self.new.core.leasing (leasing_range self.old.core.own.waits.prefix) self.new.ranges.first }
    {
        if self.leases() {
            self.tick(word, now);
        }
    }

    fn tick(&mut self, word: u64, now: u64)
        requires given { self.old.core.watches.given < 2 ^ 63 }
        requires first { IsFirst self.old.core.leasing (leasing_range self.old.core.own.waits.prefix) self.old.ranges.first }
        ensures core { self.new.core ≡ ticked now word self.old.core }
        ensures leasing { self.new.ranges.leasing ≡ self.old.ranges.leasing }
        ensures first { IsFirst self.new.core.leasing (leasing_range self.old.core.own.waits.prefix) self.new.ranges.first }
    {
        tick_seat(&mut self.seat, word, self.ttl, self.reads.step(), now);
        self.tick_leasing();
    }

    /// The leasing stream is to be opened, where there was none yet.
    fn tick_leasing(&mut self)
        requires given { self.old.core.watches.given < 2 ^ 63 }
        requires first { IsFirst self.old.core.leasing (leasing_range self.old.core.own.waits.prefix) self.old.ranges.first }
        ensures core { self.new.core ≡ leasing_ticked self.old.core.leasing self.old.core }
        ensures leasing { self.new.ranges.leasing ≡ self.old.ranges.leasing }
        ensures first { IsFirst self.new.core.leasing (leasing_range self.old.core.own.waits.prefix) self.new.ranges.first }
    {
        if self.leasing.is_some() {
            return;
        }
        let range = take_range(&mut self.first);
        let number = self.watches.take_number();
        let step = self.reads.step();
        self.leasing = Some(opening_of(number, step, Upstream::opened(range, 0)));
    }
}

/// The range that is there, which is taken out.
fn take_range(first: &mut Option<KeyRange>) -> KeyRange
    requires { is_some first.old ≡ true }
    ensures { first.old ≡ Some result }
{
    match first.take() {
        Some(range) => range,
        None => unreachable!(),
    }
}
