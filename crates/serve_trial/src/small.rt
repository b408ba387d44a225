ghost use Rattle.server_model.specs.Steps.{FitsAnswer};
ghost use Rattle.serve_trial.specs.Outcomes.{IsAsked, IsTaken};

use core_model::{CoreEvent, Outcome, StepFault};
use etcd_types::{Answer, Bytes, Header, Refusal, Request, WatchItem};
use outside::Machine;
use std::alloc::Global;
use told_items::Told;

/// A stand-in for the proxy's core. It answers a put at once and everything else at a later step; a watch gets its first message
/// and then its last. The tickets up to some number are in use.
#[derive(Drop)]
pub struct Core {
    alloc: Global,
    used: u64,
    rested: bool,
    watched: bool,
    told: bool,
}

impl Core {
    pub fn new(alloc: Global, used: u64) -> Core {
        Core {
            alloc,
            used,
            rested: false,
            watched: false,
            told: false,
        }
    }

    fn refusal(&self) -> Answer {
        Answer::Refused(Refusal {
            code: 12,
            text: Bytes::new(self.alloc),
        })
    }

    fn asked(&mut self, request: Request) -> Outcome
        ensures { IsAsked result }
    {
        match request {
            Request::Put(_) => Outcome::Replied(self.refusal()),
            Request::Watch(_) => {
                self.watched = true;
                Outcome::Waiting
            }
            _ => Outcome::Waiting,
        }
    }

    fn message(&mut self) -> WatchItem {
        let header = Header {
            cluster: 1,
            member: 1,
            revision: 1,
            term: 1,
        };
        if self.told {
            self.told = false;
            self.watched = false;
            WatchItem::Canceled { header, compact: 0 }
        } else {
            self.told = true;
            WatchItem::Created(header)
        }
    }

    fn taken(&mut self) -> Outcome
        ensures { IsTaken result }
    {
        if !self.rested {
            return Outcome::Pending;
        }
        self.rested = false;
        if self.watched {
            Outcome::Item(Told::alone(self.message()))
        } else {
            Outcome::Replied(self.refusal())
        }
    }
}

impl Machine for Core {
    type Event = CoreEvent;

    type Outcome = Outcome;

    type Fault = StepFault;

    ghost may = { λ e. Unit {0} };

    ghost steps = { λ before event now answer after. FitsAnswer event answer };

    #[tactic(auto, using(crate::proofs::Fitting::ask_fits, crate::proofs::Fitting::take_fits))]
    fn step(&mut self, event: CoreEvent, now: u64) -> Result<Outcome, StepFault> {
        match event {
            CoreEvent::Ask {
                ticket,
                request,
                ..
            } => {
                if ticket <= self.used {
                    Err(StepFault::TicketUsed(ticket))
                } else {
                    Ok(self.asked(request))
                }
            }
            CoreEvent::Take { .. } => Ok(self.taken()),
            CoreEvent::Work => {
                self.rested = true;
                Ok(Outcome::Job(None))
            }
            CoreEvent::Answer { .. }
            | CoreEvent::Lost { .. }
            | CoreEvent::Tick { .. }
            | CoreEvent::Item { .. }
            | CoreEvent::Cut { .. }
            | CoreEvent::Leave { .. } => Ok(Outcome::Noted),
        }
    }
}
