ghost use Rattle.std.specs.Prelude.{◌≡◌, length};
ghost use Rattle.proxy_core.specs.Figures.{session_end};

use crate::proxy::Core;
use core_parts::Seat;

/// A proxy in numbers.
#[derive(Clone, Copy, Debug, PartialEq, Eq)]
pub struct Figures {
    /// The keys that it owns, those that it is giving up among them.
    pub owned: usize,
    /// The requests that were asked and whose reply wasn't taken, but for watches.
    pub requests: usize,
    /// The calls that it had made.
    pub calls: u64,
    /// Its steps that gave an outcome.
    pub steps: u64,
    /// The highest revision of the cluster's history that it was told; 0 before the first.
    pub revision: u64,
    /// The time in milliseconds of its clock from which on its session is dead, where one stands.
    pub session_end: Option<u64>,
}

/// When the session of this seat is dead, where one stands.
fn session_end(seat: &Option<Seat>) -> Option<u64>
    ensures { result ≡ session_end seat.now }
{
    match seat {
        Some(seat) => seat.session.deadline(),
        None => None,
    }
}

impl Core {
    /// The proxy in numbers, as the steps so far left it. It takes no memory, and changes nothing.
    pub fn figures(&self) -> Figures
        ensures owned { result.owned ≡ length self.now.own.entries }
        ensures requests { result.requests ≡ length self.now.asks }
        ensures calls { result.calls ≡ self.now.calls }
        ensures steps { result.steps ≡ self.now.steps }
        ensures revision { result.revision ≡ self.now.header.revision }
        ensures session_end { result.session_end ≡ session_end self.now.seat }
    {
        let kept = &self.kept;
        Figures {
            owned: kept.reads.table().len(),
            requests: kept.reads.asks().rows().len(),
            calls: kept.calls,
            steps: kept.steps,
            revision: kept.header.revision,
            session_end: session_end(&kept.seat),
        }
    }
}
