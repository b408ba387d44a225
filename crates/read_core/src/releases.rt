ghost use Rattle.std.specs.Prelude.{◌≡◌, map, true};
ghost use Rattle.read_core.specs.Falls.{stands_on, stays_at, stand_elsewhere, fallen, fallen_at, fallen-ticket, fallen_at-ticket};

use crate::decisions::called;
use crate::standing::{key_of, stands_at};
use acquire_rows::Acquires;
use etcd_types::Bytes;
use known_asks::{Asked, Asks, Rule, change_waiting, change_waiting_at};
use lease_table::LeaseTable;
use std::alloc::Global;

/// A read whose acquire or owner write is no more becomes a call of its own.
#[derive(Drop)]
struct Fallen<'a> {
    alloc: Global,
    table: &'a LeaseTable,
    acquires: &'a Acquires,
    step: u64,
}

impl<'a> Rule for Fallen<'a> {
    ghost changed = { λ s. fallen s.step s.table.now.entries s.acquires.now };

    fn change(&self, ask: &mut Asked) {
        if !self.stands(ask) {
            ask.stage = called(self.step);
        }
    }

    ghost keeps = { λ s a. fallen-ticket s.step s.table.now.entries s.acquires.now a };
}

impl<'a> Fallen<'a> {
    fn stands(&self, ask: &Asked) -> bool
        ensures { result ≡ stands_on self.now.table.now.entries self.now.acquires.now ask.now }
    {
        let empty = Bytes::new(self.alloc);
        stands_at(ask, key_of(&ask.request, &empty), self.table, self.acquires)
    }
}

/// The same of the reads of one key alone.
#[derive(Drop)]
struct FallenAt<'a> {
    alloc: Global,
    key: &'a Bytes,
    table: &'a LeaseTable,
    acquires: &'a Acquires,
    step: u64,
}

impl<'a> Rule for FallenAt<'a> {
    ghost changed = { λ s. fallen_at s.key.now s.step s.table.now.entries s.acquires.now };

    fn change(&self, ask: &mut Asked) {
        if !self.stays(ask) {
            ask.stage = called(self.step);
        }
    }

    ghost keeps = { λ s a. fallen_at-ticket s.key.now s.step s.table.now.entries s.acquires.now a };
}

impl<'a> FallenAt<'a> {
    fn stays(&self, ask: &Asked) -> bool
        ensures { result ≡ stays_at self.now.key.now self.now.table.now.entries self.now.acquires.now ask.now }
    {
        let empty = Bytes::new(self.alloc);
        let own = key_of(&ask.request, &empty);
        own != self.key || stands_at(ask, own, self.table, self.acquires)
    }
}

/// Each read whose acquire or owner write is no more becomes a call of its own. It takes no memory.
pub fn release(alloc: Global, asks: &mut Asks, table: &LeaseTable, acquires: &Acquires, step: u64)
    ensures { asks.new ≡ map (fallen step table.now.entries acquires.now) asks.old }
{
    let rule = Fallen {
        alloc,
        table,
        acquires,
        step,
    };
    change_waiting(asks, &rule);
}

/// The same where what ended stood at this key, so that what each read of another key waits for stands. It looks at the reads of the key
/// alone, and takes no memory.
pub fn release_at(
    alloc: Global,
    asks: &mut Asks,
    key: &Bytes,
    table: &LeaseTable,
    acquires: &Acquires,
    step: u64,
)
    requires { stand_elsewhere key.now table.now.entries acquires.now asks.old ≡ true }
    ensures { asks.new ≡ map (fallen step table.now.entries acquires.now) asks.old }
{
    let rule = FallenAt {
        alloc,
        key,
        table,
        acquires,
        step,
    };
    change_waiting_at(asks, key, &rule);
}
