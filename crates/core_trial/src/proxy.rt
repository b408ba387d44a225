ghost use Rattle.std.specs.Prelude.{◌≤◌};

use core_face::ProxyCore;
use etcd_types::{Bytes, Kv, NoMemory};
use proxy_core::{Core, CoreEvent, Outcome, Settings, StepFault};
use std::alloc::Global;

/// What is tried of a proxy. What its calls promise isn't needed here, so they are called through this, and no caller sees it.
pub trait Proxy: Drop {
    /// A proxy at its start, before at least one member.
    fn started(alloc: Global, settings: Settings) -> Result<Self, NoMemory>
        requires { 1 ≤ settings.members };

    /// One step, at this reading of the proxy's clock.
    fn stepped(&mut self, event: CoreEvent, now: u64) -> Result<Outcome, StepFault>;

    /// The least ticket whose reply stands.
    fn least_ready(&self) -> Option<u64>;

    /// Whether a job is due.
    fn is_due(&self) -> bool;

    /// The record held of a key, under a live session.
    fn held(&self, key: &Bytes, now: u64) -> Option<&Kv>;
}

impl Proxy for Core {
    fn started(alloc: Global, settings: Settings) -> Result<Core, NoMemory> {
        Core::new(alloc, settings)
    }

    fn stepped(&mut self, event: CoreEvent, now: u64) -> Result<Outcome, StepFault> {
        ProxyCore::step(self, event, now)
    }

    fn least_ready(&self) -> Option<u64> {
        self.ready()
    }

    fn is_due(&self) -> bool {
        self.has_job()
    }

    fn held(&self, key: &Bytes, now: u64) -> Option<&Kv> {
        self.peek(key, now)
    }
}
