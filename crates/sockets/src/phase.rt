ghost use Rattle.std.specs.Prelude.{◌≡◌};
ghost use Rattle.sockets.specs.Phases.{is_between, IsWithin};

use outside::ReadMark;
use socket_limits::Until;

/// What is read next of a client's connection.
#[derive(Clone, Copy, Debug)]
pub(crate) enum Phase {
    /// The first byte of a request.
    Between,
    /// The rest of its head, up to that moment.
    Head(Until),
    /// Its body, for which nobody waits yet.
    Due,
    /// Its body, up to that moment.
    Body(Until),
}

impl Phase {
    /// Whether no byte of a request came.
    pub(crate) fn is_between(self) -> bool
        ensures { result ≡ is_between self }
    {
        matches!(self, Phase::Between)
    }

    /// What is read next once that was read.
    pub(crate) fn after(self, mark: ReadMark) -> Phase
        ensures head { mark ≡ ReadMark.Head → result ≡ Phase.Due }
        ensures body { mark ≡ ReadMark.Body → result ≡ Phase.Between }
        ensures within { IsWithin mark → result ≡ self }
    {
        match mark {
            ReadMark::Head => Phase::Due,
            ReadMark::Body => Phase::Between,
            ReadMark::Request(_) | ReadMark::Message | ReadMark::Rest => self,
        }
    }
}
