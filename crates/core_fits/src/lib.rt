//! What holds of one proxy beside that its parts agree, and that each step keeps it.
#![tactic(auto)]

ghost use Rattle.core_fits.specs.Fits.{AreServed, ReadsAlone, WritesAreAsked, CoreFits};
ghost use Rattle.core_fits.specs.Laws.{Starts, Lasts, RunsFit};
ghost use Rattle.core_fits.specs.Found.{WritingRequestsHaveWrites, SessionsCallIsOut};
ghost use Rattle.core_fits.specs.Ready.{NothingReadyIsNoneReplied, ReadyIsTaken};

/// What waits to be answered is served: no request that is refused is kept, nor is its write.
pub fn requests_are_served()
    ensures starts { Starts AreServed }
    ensures steps { Lasts AreServed }
{}

/// Only plain reads outside the leasing range wait for an acquire or for an owner write.
pub fn reads_wait_alone()
    ensures starts { Starts ReadsAlone }
    ensures steps { Lasts ReadsAlone }
{}

/// A request and a write of one ticket are the same request.
pub fn writes_are_asked()
    ensures starts { Starts WritesAreAsked }
    ensures steps { Lasts WritesAreAsked }
{}

/// With these, the session's call that is out is its grant or its keepalive under its own number, which is one of those that are kept
/// for sessions, the leasing stream is of the ownership keys, and the cached header is of the greatest revision seen.
pub fn cores_fit()
    ensures starts { Starts CoreFits }
    ensures steps { Lasts CoreFits }
    ensures runs { RunsFit }
{}

/// Where no ticket is ready, no request has its reply; and the ready ticket's reply is given to whoever takes it, once.
pub fn ready_replies_are_taken()
    ensures none { NothingReadyIsNoneReplied }
    ensures taken { ReadyIsTaken }
{}

/// So a request at the stage of writes has its write, which is the same request, and the call that is out for the session is there, as
/// its grant, or as its keepalive where it stands.
pub fn what_is_found_fits()
    ensures writes { WritingRequestsHaveWrites }
    ensures session { SessionsCallIsOut }
{}
