ghost use Rattle.std.specs.Prelude.{◌≡◌, false, Some, IsTrue};
ghost use Rattle.std.specs.Arc.{arc_value};
ghost use Rattle.outside.specs.Faults.{Rose};
ghost use Rattle.turn_hub.specs.History.{Begins};
ghost use Rattle.turn_hub.specs.Known.{made};
ghost use Rattle.server_model.specs.Complete.{Completes};
ghost use Rattle.server_model.specs.Dialog.{Dialog};
ghost use Rattle.server_model.specs.Numbers.{LastNumbered};
ghost use Rattle.server_model.specs.Steps.{NoEvent};
ghost use Rattle.server_model.specs.StreamParts.{IsFollowed};
ghost use Rattle.server_model.specs.Working.{IsAt, ledger};
ghost use Rattle.server_model.specs.PartKinds.{IfConnection, IfFollower, IfTicker, IfWorker, draws, links, place_in, spawns};
ghost use Rattle.server_model.specs.Rounds.{IsSpent};
ghost use Rattle.server_model.specs.Ticking.{Ticking};
ghost use Rattle.proxy_parts.specs.Homes.{home_of};
ghost use Rattle.proxy_parts.specs.Parts.{Followed, Served};
ghost use Rattle.proxy_parts.specs.Passes.{Grows, IsSound, is_at_limit};

use crate::connection::serve_connection;
use crate::place::Place;
use crate::seated::Seated;
use crate::seating::Seating;
use crate::ticker::keep_ticking;
use crate::worker::{TURNS, keep_working};
use outside::{Clock, Draw, Follow, Link, Part, Sink, Source, Spawner, TicketRange};
use proxy_server::Answers;
use proxy_streams::follow_stream;
use server_model::{PartEnd, SessionEnd, StreamEnd};
use std::alloc::Global;
use std::sync::Wait;

/// What a part leaves: its place, and of a connection its source and sink.
#[derive(Drop)]
pub struct PartDone<S, K> {
    pub place: Place,
    pub source: Option<S>,
    pub sink: Option<K>,
    pub end: PartEnd,
}

/// Works over a place until no further step can be made.
#[inline(never)]
fn keep_at_work<R: Wait, L: Link, P: Spawner<Pass = Place>, C: Clock>(
    rt: &R,
    alloc: Global,
    place: Place,
    link: &mut L,
    spawner: &mut P,
    clock: &mut C,
) -> Place
where
    P::Conn: Drop,
    ensures home { home_of result ≡ home_of place }
    ensures spent { IsSpent (arc_value place.hosts) (IsAt home_of (home_of place)) NoEvent
        (IsTrue (is_at_limit result.pass)) TURNS (ledger (Some (made place.pass)) (L.made link.old)
        (P.handed spawner.old) (L.faults link.old) (P.faults spawner.old))
        (ledger (Some (made result.pass)) (L.made link.new) (P.handed spawner.new)
        (L.faults link.new) (P.faults spawner.new)) }
{
    let Place {
        hub,
        hosts,
        message_limit,
        form,
        pass,
    } = place;
    let mut seating = Seating::new(rt, &hub, &hosts, message_limit, form, pass);
    keep_working(rt, alloc, &mut seating, clock, link, spawner, &hosts);
    let pass = seating.into_pass();
    Place {
        hub,
        hosts,
        message_limit,
        form,
        pass,
    }
}

/// The same, and the place's pass has then seen all that it had seen before.
fn run_worker<R: Wait, L: Link, P: Spawner<Pass = Place>, C: Clock>(
    rt: &R,
    alloc: Global,
    place: Place,
    link: &mut L,
    spawner: &mut P,
    clock: &mut C,
) -> Place
where
    P::Conn: Drop,
    ensures home { home_of result ≡ home_of place }
    ensures grows { Grows place.pass result.pass }
    ensures spent { IsSpent (arc_value place.hosts) (IsAt home_of (home_of place)) NoEvent
        (IsTrue (is_at_limit result.pass)) TURNS (ledger (Some (made place.pass)) (L.made link.old)
        (P.handed spawner.old) (L.faults link.old) (P.faults spawner.old))
        (ledger (Some (made result.pass)) (L.made link.new) (P.handed spawner.new)
        (L.faults link.new) (P.faults spawner.new)) }
{
    let Place {
        hub,
        hosts,
        message_limit,
        form,
        mut pass,
    } = place;
    let mut before = hub.split(&mut pass);
    let placed = Place {
        hub,
        hosts,
        message_limit,
        form,
        pass,
    };
    let worked = keep_at_work(rt, alloc, placed, link, spawner, clock);
    let Place {
        hub,
        hosts,
        message_limit,
        form,
        mut pass,
    } = worked;
    hub.meet(&mut pass, &mut before);
    Place {
        hub,
        hosts,
        message_limit,
        form,
        pass,
    }
}

/// Ticks over a place until no further step can be made.
#[inline(never)]
fn run_ticker<R: Wait, C: Clock, D: Draw>(
    rt: &R,
    place: Place,
    clock: &mut C,
    draw: &mut D,
) -> Place
    ensures home { home_of result ≡ home_of place }
    ensures grows { Grows place.pass result.pass }
    ensures ticking { Ticking (IsTrue (is_at_limit result.pass)) (Some (made place.pass))
        (Some (made result.pass)) (D.given draw.old) (D.given draw.new) }
{
    let Place {
        hub,
        hosts,
        message_limit,
        form,
        pass,
    } = place;
    let mut seated = Seated::new(rt, &hub, pass);
    keep_ticking(rt, &mut seated, clock, draw);
    let pass = seated.into_pass();
    Place {
        hub,
        hosts,
        message_limit,
        form,
        pass,
    }
}

/// Serves a connection over a place.
#[inline(never)]
fn run_connection<R: Wait, S: Source, K: Sink, C: Clock, D: Draw, A: Answers>(
    rt: &R,
    alloc: Global,
    place: Place,
    source: &mut S,
    sink: &mut K,
    tickets: TicketRange,
    clock: &mut C,
    draw: &mut D,
    answers: &mut A,
) -> (Place, SessionEnd)
    ensures home { home_of result.0 ≡ home_of place }
    ensures known { A.known answers.new ≡ A.known answers.old }
    ensures grows { Grows place.pass result.0.pass }
    ensures read_cause { result.1 ≡ SessionEnd.ReadFault
        → Rose (S.faults source.old) (S.faults source.new) }
    ensures write_cause { result.1 ≡ SessionEnd.WriteFault
        → Rose (K.faults sink.old) (K.faults sink.new) }
    ensures numbered { LastNumbered result.1 tickets.end tickets.next (D.given draw.old)
        (D.given draw.new) (Some (made place.pass)) (Some (made result.0.pass)) }
    ensures dialog { Dialog place.form (A.gives (A.known answers.old)) NoEvent
        (IsTrue (is_at_limit result.0.pass)) (S.left source.old) (Some (made place.pass))
        (Some (made result.0.pass)) (K.written sink.old) (K.written sink.new) result.1 }
    ensures complete { Completes (S.left source.old) (Some (made place.pass))
        (Some (made result.0.pass)) (IsTrue (is_at_limit result.0.pass)) tickets.end tickets.next
        (S.faults source.old) (S.faults source.new) (K.faults sink.old)
        (K.faults sink.new) result.1 }
{
    let Place {
        hub,
        hosts,
        message_limit,
        form,
        mut pass,
    } = place;
    let end = serve_connection(
        rt, alloc, form, &hub, &mut pass, tickets, clock, draw, answers, source, sink,
    );
    (
        Place {
            hub,
            hosts,
            message_limit,
            form,
            pass,
        },
        end,
    )
}

/// Begins a stream and follows it over a place, by the place's limit of a message.
#[inline(never)]
fn run_follower<R: Wait, L: Link, C: Clock>(
    rt: &R,
    alloc: Global,
    place: Place,
    follow: &Follow,
    link: &mut L,
    clock: &mut C,
) -> (Place, StreamEnd)
    ensures home { home_of result.0 ≡ home_of place }
    ensures grows { Grows place.pass result.0.pass }
    ensures followed { IsFollowed (IsTrue (is_at_limit result.0.pass)) place.message_limit follow.now (L.made link.old)
        (L.made link.new) (L.faults link.old) (L.faults link.new) (Some (made place.pass))
        (Some (made result.0.pass)) result.1 }
{
    let Place {
        hub,
        hosts,
        message_limit,
        form,
        pass,
    } = place;
    let mut seated = Seated::new(rt, &hub, pass);
    let end = follow_stream(rt, alloc, &mut seated, clock, link, follow, message_limit);
    let pass = seated.into_pass();
    (
        Place {
            hub,
            hosts,
            message_limit,
            form,
            pass,
        },
        end,
    )
}

/// Runs the call that a part names: a worker works and a ticker ticks until no further step can be made, a connection is served and a
/// stream is followed once. `answers` says which requests of a connection need no step. It gives the place back, of the same hub, hosts and
/// limit, and a connection's source and sink. What the place's pass
/// has then seen is a history that the core allows, and begins with what it had seen before.
pub fn run_part<
    R: Wait,
    S: Source,
    K: Sink,
    L: Link,
    P: Spawner<Pass = Place>,
    C: Clock,
    D: Draw,
    A: Answers,
>(
    rt: &R,
    alloc: Global,
    part: Part<Place, (S, K)>,
    link: &mut L,
    spawner: &mut P,
    clock: &mut C,
    draw: &mut D,
    answers: &mut A,
) -> PartDone<S, K>
where
    P::Conn: Drop,
    ensures home { home_of result.place ≡ home_of (place_in part) }
    ensures allowed { IsSound result.place.pass }
    ensures grows { Begins (place_in part).pass.seen result.place.pass.seen }
    ensures worker { IfWorker part (λ place. (result.end ≡ PartEnd.Worn) × IsSpent
        (arc_value place.hosts) (IsAt home_of (home_of place)) NoEvent
        (IsTrue (is_at_limit result.place.pass)) TURNS (ledger (Some (made place.pass))
        (L.made link.old) (P.handed spawner.old) (L.faults link.old) (P.faults spawner.old))
        (ledger (Some (made result.place.pass)) (L.made link.new) (P.handed spawner.new)
        (L.faults link.new) (P.faults spawner.new))) }
    ensures ticker { IfTicker part (λ place. (result.end ≡ PartEnd.Worn) × Ticking
        (IsTrue (is_at_limit result.place.pass)) (Some (made place.pass))
        (Some (made result.place.pass)) (D.given draw.old) (D.given draw.new)) }
    ensures connection { IfConnection part (λ place connection tickets. Served place.form S.left S.faults
        K.written K.faults (A.gives (A.known answers.old)) connection tickets (IsTrue (is_at_limit result.place.pass))
        (Some (made place.pass)) (Some (made result.place.pass)) (D.given draw.old)
        (D.given draw.new) result.source result.sink result.end) }
    ensures follower { IfFollower part (λ place follow. Followed place.message_limit follow
        (IsTrue (is_at_limit result.place.pass)) (L.made link.old) (L.made link.new)
        (L.faults link.old) (L.faults link.new) (Some (made place.pass))
        (Some (made result.place.pass)) result.end) }
    ensures known { A.known answers.new ≡ A.known answers.old }
    ensures unlinked { links part ≡ false → link.new ≡ link.old }
    ensures unspawned { spawns part ≡ false → spawner.new ≡ spawner.old }
    ensures undrawn { draws part ≡ false → draw.new ≡ draw.old }
{
    match part {
        Part::Worker(place) => PartDone {
            place: run_worker(rt, alloc, place, link, spawner, clock),
            source: None,
            sink: None,
            end: PartEnd::Worn,
        },
        Part::Ticker(place) => PartDone {
            place: run_ticker(rt, place, clock, draw),
            source: None,
            sink: None,
            end: PartEnd::Worn,
        },
        Part::Connection(place, connection, tickets) => {
            let (mut source, mut sink) = connection;
            let (place, end) = run_connection(
                rt,
                alloc,
                place,
                &mut source,
                &mut sink,
                tickets,
                clock,
                draw,
                answers,
            );
            PartDone {
                place,
                source: Some(source),
                sink: Some(sink),
                end: PartEnd::Connection(end),
            }
        }
        Part::Follower(place, follow) => {
            let (place, end) = run_follower(rt, alloc, place, &follow, link, clock);
            PartDone {
                place,
                source: None,
                sink: None,
                end: PartEnd::Follower(end),
            }
        }
    }
}
