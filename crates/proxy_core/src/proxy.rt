ghost use Rattle.std.specs.Prelude.{◌≡◌, ◌≢◌, ◌≤◌, true, Err, length, IfOk};
ghost use Rattle.std.specs.Option.{option_copied};
ghost use Rattle.core_face.specs.Steps.{Steps, takes_no_memory, is_watch};
ghost use Rattle.core_model.specs.declared.event.StepFault.TheVariants.{NoMemory as Wanting};
ghost use Rattle.core_model.specs.DueJobs.{has_job};
ghost use Rattle.core_model.specs.Lookups.{is_known};
ghost use Rattle.core_model.specs.State.{first_core};
ghost use Rattle.core_model.specs.Takes.{peek, ready};
ghost use Rattle.core_model.specs.declared.event.CoreEvent.TheVariants.{Work};
ghost use Rattle.core_model.specs.declared.event.Outcome.TheVariants.{Job as JobOf};
ghost use Rattle.core_laws.specs.Steps.Outcomes.{may_have};
ghost use Rattle.proxy_core.specs.Faults.{GivesJob, AnswersFit};

use crate::events::step;
use crate::woken::{Woken, taker_of, told_by, woken_by};
use crate::work::has_due;
use core_face::ProxyCore;
use core_machine::Machine as Kept;
use core_model::{CoreEvent, Job, Outcome, Settings, StepFault};
use etcd_types::{Bytes, Kv, NoMemory};
use outside::{Machine, Roused};
use std::alloc::Global;
use std::marker::Model;

/// The machine of one proxy between a cluster and its clients.
pub struct Core {
    /// Behind a box, since a hub moves its machine in and out at each step.
    pub(crate) kept: Box<Kept>,
    /// Whom the last step at a hub woke.
    woken: Woken,
}

// By hand, so that whoever lets a proxy go has one call to prove, and not the end of each of its parts.
impl Drop for Core {
    fn drop(self) {
        let Core { kept, woken: _ } = self;
        drop(kept);
    }
}

impl Model for Core {
    ghost use Rattle.std.specs.Coded.{codes};
    ghost use Rattle.etcd_types.specs.contracts.operation.Op as operation;
    ghost use Rattle.etcd_types.specs.contracts.answer.Body as body;
    ghost use Rattle.core_model.specs.State.{Core as Value'};
    ghost use Rattle.core_machine.specs.Keeping.{IsKept};

    ghost Value = { Value' };

    ghost coded = { Prim.hlevel (codes, operation.the_row.coded, body.the_row.coded) };

    ghost view = { λ c. c.kept.value.core };

    ghost invariant = { λ c. IsKept c.kept.value };
}

impl Core {
    /// The record of a key that is held under a session that is live at this reading of the clock. It takes no memory.
    pub fn peek(&self, key: &Bytes, now: u64) -> Option<&Kv>
        ensures { option_copied result ≡ peek self.now key.now now }
    {
        self.kept.peek(key, now)
    }

    /// The first due job, which is sent, or nothing where none is due: the step of a worker that asks.
    pub fn next_job(&mut self, now: u64) -> Result<Option<Job>, StepFault>
        ensures { GivesJob self.old now self.new result }
    {
        match step(&mut self.kept, CoreEvent::Work, now) {
            Ok(outcome) => Ok(job_of(outcome)),
            Err(fault) => Err(fault),
        }
    }
}

/// The job that a step of a worker gave.
fn job_of(outcome: Outcome) -> Option<Job>
    requires { may_have Work outcome ≡ true }
    ensures { outcome ≡ JobOf result }
{
    match outcome {
        Outcome::Job(job) => job,
        _ => unreachable!(),
    }
}

/// Which answers a step may have: outcomes of the event's kind, and faults of what it names.
pub fn answers_fit()
    ensures { AnswersFit }
{}

impl Machine for Core {
    type Event = CoreEvent;

    type Outcome = Outcome;

    type Fault = StepFault;

    ghost use Rattle.proxy_core.specs.Faults.{CoreSteps};

    ghost may = { λ event. Unit {0} };

    ghost steps = { CoreSteps };

    fn step(&mut self, event: CoreEvent, now: u64) -> Result<Outcome, StepFault> {
        let told = told_by(&self.kept, &event);
        let taker = taker_of(&event);
        let answer = step(&mut self.kept, event, now);
        self.woken = woken_by(&self.kept, self.woken.is_due(), told, taker, &answer);
        answer
    }

    /// Who has a reply or may have a message, and a worker where a job is due.
    fn rouses(&self) -> Roused {
        self.woken.roused()
    }

    fn roused(&self, word: u32) -> u64 {
        self.woken.word(word)
    }
}

impl ProxyCore for Core {
    ghost core = { λ c. c };

    /// A proxy at its start, with these settings, which name at least one member. `NoMemory` where memory was wanting.
    fn new(alloc: Global, settings: Settings) -> Result<Core, NoMemory> {
        let kept = Kept::new(alloc, settings)?;
        Ok(Core {
            kept: Box::new(alloc, kept)?,
            woken: Woken::nobody(),
        })
    }

    /// One step, at this reading of the proxy's clock in milliseconds: the clock work, and then what the event does.
    ///
    /// `Worn` comes before all else, where 2^62 steps gave an outcome or 2^62 stream numbers were given, and leaves all as it was.
    /// `TicketUsed` comes where a ticket that is asked is known, and `NoSuchTicket`, `NoSuchCall` and `NoSuchStream` where what
    /// the event names is unknown. These and `NoMemory` leave what stood before the step, but for its clock work. Losses, ticks,
    /// cuts and leaving take no memory.
    fn step(&mut self, event: CoreEvent, now: u64) -> Result<Outcome, StepFault> {
        step(&mut self.kept, event, now)
    }

    fn ready(&self) -> Option<u64> {
        self.kept.reads.ready()
    }

    fn has_job(&self) -> bool {
        has_due(&self.kept)
    }

    fn knows(&self, ticket: u64) -> bool {
        self.kept.knows(ticket)
    }

    fn watches(&self, ticket: u64) -> bool {
        self.kept.watches.is_known(ticket)
    }

    fn requests(&self) -> usize {
        self.kept.reads.asks().rows().len()
    }
}
