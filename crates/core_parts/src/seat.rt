ghost use Rattle.std.specs.Prelude.{◌≡◌, Some};
ghost use Rattle.core_model.specs.Lookups.{live_number, is_out_as};
ghost use Rattle.core_model.specs.Sessions.{drawn_session, drawn_seat, call_ticked, seat_ticked, is_over, seat_is_over, is_sent_as, seat_calls};
ghost use Rattle.core_model.specs.Sessions.{seat_granted, seat_free, seat_renewed};

use proxy_model::FIRST_SESSION;
use session_keep::Session;
use std::marker::Model;
use wait_model::Sending;

/// The session of a proxy; there is none before the first tick, and after its end.
#[derive(Debug, Drop)]
pub struct Seat {
    pub session: Session,
    /// Its grant where it doesn't stand yet, or else its keepalive, that is due or out.
    pub call: Option<Sending>,
}

impl Model for Seat {
    ghost use Rattle.core_model.specs.State.{Seat as Parts};

    ghost Value = { Parts };

    ghost view = { λ s. record { session = s.session; call = s.call } };
}

/// The number of the session, where it is live at this reading of the clock in milliseconds.
pub fn live_number(seat: &Option<Seat>, now: u64) -> Option<u64>
    ensures { result ≡ live_number seat.now now }
{
    match seat {
        Some(seat) if seat.session.is_live(now) => Some(seat.session.number()),
        _ => None,
    }
}

/// A tick: where there is no session, one is drawn by the random `word`, whose grant with this time to live in seconds is due since
/// this step; where there is one, a keepalive is due in time.
pub fn tick_seat(seat: &mut Option<Seat>, word: u64, ttl: u64, step: u64, now: u64)
    ensures { seat.new ≡ Some (seat_ticked word ttl step now seat.old) }
{
    match seat {
        None => *seat = Some(drawn_seat(word, ttl, step)),
        Some(seat) => seat.call = call_ticked(step, now, &seat.session, seat.call),
    }
}

/// A session whose number the random `word` draws, and its grant is due.
fn drawn_seat(word: u64, ttl: u64, step: u64) -> Seat
    ensures { result ≡ drawn_seat word ttl step }
{
    Seat {
        session: Session::start(drawn_session(word), ttl),
        call: Some(Sending::Due { since: step }),
    }
}

/// A session's number, which is none of those that clients may use.
fn drawn_session(word: u64) -> u64
    ensures { result ≡ drawn_session word }
{
    FIRST_SESSION + word % FIRST_SESSION
}

/// The session's call after a tick: a keepalive is due in time where no call is due or out.
fn call_ticked(step: u64, now: u64, session: &Session, call: Option<Sending>) -> Option<Sending>
    ensures { result ≡ call_ticked step now session.now call }
{
    match call {
        None if session.due(now) => Some(Sending::Due { since: step }),
        other => other,
    }
}

/// Whether there is a session that stands and whose deadline has come.
pub fn seat_is_over(seat: &Option<Seat>, now: u64) -> bool
    ensures { result ≡ seat_is_over seat.now now }
{
    match seat {
        None => false,
        Some(seat) => is_over(&seat.session, now),
    }
}

fn is_over(session: &Session, now: u64) -> bool
    ensures { result ≡ is_over session.now.standing now session.now }
{
    session.deadline().is_some() && !session.is_live(now)
}

/// Whether the session's call that is out is this one.
pub fn seat_calls(call: u64, seat: &Option<Seat>) -> bool
    ensures { result ≡ seat_calls call seat.now }
{
    match seat {
        None => false,
        Some(seat) => is_sent_as(call, seat.call),
    }
}

fn is_sent_as(call: u64, sending: Option<Sending>) -> bool
    ensures { result ≡ is_sent_as call sending }
{
    match sending {
        Some(Sending::Out { call: number }) => number == call,
        Some(Sending::Due { .. }) | None => false,
    }
}

/// The session's grant, sent then, was answered with this time to live.
pub fn grant_seat(seat: &mut Option<Seat>, sent_at: u64, ttl: u64)
    ensures { seat.new ≡ seat_granted sent_at ttl seat.old }
{
    if let Some(seat) = seat {
        seat.session.granted(sent_at, ttl);
        seat.call = None;
    }
}

/// The session's keepalive was lost or refused, which changes nothing else.
pub fn free_seat(seat: &mut Option<Seat>)
    ensures { seat.new ≡ seat_free seat.old }
{
    if let Some(seat) = seat {
        seat.call = None;
    }
}

/// The session's keepalive, sent then, was answered with this time to live, which isn't 0.
pub fn renew_seat(seat: &mut Option<Seat>, sent_at: u64, ttl: u64)
    ensures { seat.new ≡ seat_renewed sent_at ttl seat.old }
{
    if let Some(seat) = seat {
        seat.session.renewed(sent_at, ttl);
        seat.call = None;
    }
}
