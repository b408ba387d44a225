ghost use Rattle.std.specs.Prelude.{◌≡◌, IsTrue};
ghost use Rattle.server_model.specs.Working.{IsAt, ledger};
ghost use Rattle.server_model.specs.Rounds.{IsSpent};

use etcd_types::{Bytes, List};
use outside::{Clock, Link, Spawner};
use proxy_workers::{Seats, WorkEnd, work};
use std::alloc::Global;
use std::sync::Wait;

/// A worker draws so many jobs in one call of `work`.
pub const TURNS: u64 = 1_000;

/// Where memory was wanting, a worker rests so many milliseconds before it goes on.
const SHORTAGE_MS: u64 = 100;

/// Works again and again, also where memory was wanting, until no further step can be made.
pub fn keep_working<R: Wait, T: Seats, L: Link, P: Spawner<Pass = T::Place>, C: Clock>(
    rt: &R,
    alloc: Global,
    turn: &mut T,
    clock: &mut C,
    link: &mut L,
    spawner: &mut P,
    hosts: &List<Bytes>,
)
where
    P::Conn: Drop,
    ensures home { T.home turn.new ≡ T.home turn.old }
    ensures allowed { T.allowed turn.old → T.allowed turn.new }
    ensures spent { IsSpent hosts.now (IsAt T.place_home (T.home turn.old)) T.rests
        (IsTrue (T.worn turn.new)) TURNS (ledger (T.made turn.old) (L.made link.old)
        (P.handed spawner.old) (L.faults link.old) (P.faults spawner.old))
        (ledger (T.made turn.new) (L.made link.new) (P.handed spawner.new) (L.faults link.new)
        (P.faults spawner.new)) }
{
    'rounds: for _ in rt.forever() {
        match work(rt, alloc, turn, clock, link, spawner, hosts, TURNS) {
            WorkEnd::Turns => {}
            WorkEnd::NoMemory => clock.pause(SHORTAGE_MS),
            WorkEnd::Worn => return,
        }
    }
    unreachable!()
}
