ghost use Rattle.std.specs.Prelude.{◌≡◌, ◌≢◌, ◌≤◌, true, Err, length, IfOk};
ghost use Rattle.core_model.specs.State.{Core, first_core};
ghost use Rattle.core_model.specs.DueJobs.{has_job};
ghost use Rattle.core_model.specs.Lookups.{is_known};
ghost use Rattle.core_model.specs.Takes.{ready};
ghost use Rattle.core_model.specs.declared.event.StepFault.TheVariants.{NoMemory as Wanting};
ghost use Rattle.core_face.specs.Steps.{Steps, takes_no_memory, is_watch};
ghost use Rattle.core_face.specs.Promises.{StaysSound, LeavesNoneIdle, HoldsNothingBack, LeavesStreamsMerged, LeavesQueuesBounded};
ghost use Rattle.core_laws.specs.Watches.Streams.{JoinsWhereItCan};
ghost use Rattle.waiting_laws.specs.Sound.{IsSound};

use core_model::{CoreEvent, Outcome, Settings, StepFault};
use etcd_types::NoMemory;
use std::alloc::Global;

/// The machine of one proxy.
pub trait ProxyCore: Drop {
    // the state that it holds
    ghost core: { Self → Core };

    /// A proxy at its start, with these settings. They name at least one member.
    fn new(alloc: Global, settings: Settings) -> Result<Self, NoMemory>
        requires { 1 ≤ settings.members }
        ensures first { IfOk result (λ made. core made ≡ first_core settings) }
        ensures sound { IfOk result (λ made. IsSound (core made)) };

    /// One step, at this reading of the proxy's clock in milliseconds.
    ///
    /// `Worn` comes before all else, and leaves all as it was. The other faults leave what stood before the step, but for its
    /// clock work. Losses, ticks, cuts and leaving take no memory.
    ///
    /// A sound proxy is sound after it, whatever the result: no request and no watch waits for nothing, and no two created streams
    /// of one range have equal next. A watch that is asked opens a stream only where there is none that it can join. Nothing is held
    /// back of a watch, and no queue has more than 1,024 events, or than one message.
    fn step(&mut self, event: CoreEvent, now: u64) -> Result<Outcome, StepFault>
        ensures step { Steps (core self.old) event now (core self.new) result }
        ensures memory { takes_no_memory event ≡ true → result ≢ Err Wanting }
        ensures sound { StaysSound (core self.old) event (core self.new) }
        ensures idle { LeavesNoneIdle (core self.old) event (core self.new) }
        ensures merged { LeavesStreamsMerged (core self.old) event (core self.new) }
        ensures joined { JoinsWhereItCan (core self.old) event (core self.new) }
        ensures held { HoldsNothingBack (core self.old) event (core self.new) result }
        ensures bounded { LeavesQueuesBounded (core self.old) event (core self.new) };

    /// The least ticket whose reply stands. It takes no memory.
    fn ready(&self) -> Option<u64>
        ensures { result ≡ ready (core self.now) };

    /// Whether a job is due. It takes no memory.
    fn has_job(&self) -> bool
        ensures { result ≡ has_job (core self.now) };

    /// Whether the ticket is that of a request whose reply wasn't taken, or of a watch. It takes no memory.
    fn knows(&self, ticket: u64) -> bool
        ensures { result ≡ is_known ticket (core self.now) };

    /// Whether the ticket is that of a watch. It takes no memory.
    fn watches(&self, ticket: u64) -> bool
        ensures { result ≡ is_watch ticket (core self.now) };

    /// How many requests were asked whose reply wasn't taken. It takes no memory.
    fn requests(&self) -> usize
        ensures { result ≡ length (core self.now).asks };
}
