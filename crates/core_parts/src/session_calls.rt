ghost use Rattle.std.specs.Prelude.{◌≡◌};
ghost use Rattle.std.specs.Option.{option_map};
ghost use Rattle.core_model.specs.Sending.{session_out, seat_sent};
ghost use Rattle.core_model.specs.Sessions.{session_request};

use crate::seat::Seat;
use core_model::OutJob;
use etcd_types::Request;
use session_keep::Session;
use wait_model::Sending;

/// What the session's call is for: its grant where it doesn't stand yet, or else a keepalive.
pub fn session_out(session: &Session) -> OutJob
    ensures { result ≡ session_out session.now.number session.now.standing }
{
    let lease = session.number();
    match session.deadline() {
        None => OutJob::Grant { lease },
        Some(_) => OutJob::Keep { lease },
    }
}

/// What the session's call asks for, with this time to live in seconds for a grant.
pub fn session_request(ttl: u64, session: &Session) -> Request
    ensures { result ≡ session_request ttl session.now session.now.standing }
{
    let lease = session.number();
    match session.deadline() {
        None => Request::Grant { ttl, lease },
        Some(_) => Request::KeepAlive { lease },
    }
}

/// The session's call is sent under this number.
pub fn send_session(seat: &mut Option<Seat>, call: u64)
    ensures { seat.new ≡ option_map (λ s. seat_sent call s.session) seat.old }
{
    if let Some(seat) = seat {
        seat.call = Some(Sending::Out { call });
    }
}
