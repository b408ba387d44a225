ghost use Rattle.std.specs.Prelude.{◌≡◌, OnOk};
ghost use Rattle.world_model.specs.Places.{is_among, with_number};
ghost use Rattle.world_model.specs.State.{no_numbers};

use etcd_types::NoMemory;
use std::alloc::Global;
use std::collections::BTreeSet;
use std::marker::Model;

/// The tickets that were used at a proxy. Clients mostly count them up, so the greatest stands beside them: a greater one isn't
/// looked for.
#[derive(Drop)]
pub struct Tickets {
    all: BTreeSet<u64>,
    most: u64,
}

impl Model for Tickets {
    ghost use Rattle.std.specs.Prelude.{ℕ, ◌≤◌, All};
    ghost use Rattle.std.specs.BTreeSet.{BTreeSet as Set};

    ghost Value = { Set ℕ };

    ghost view = { λ t. t.all };

    ghost invariant = { λ t. All (λ ticket. ticket ≤ t.most) t.all.keys };
}

impl Tickets {
    /// None. It takes no memory.
    pub fn new(alloc: Global) -> Tickets
        ensures { result ≡ no_numbers }
    {
        Tickets {
            all: BTreeSet::new(alloc),
            most: 0,
        }
    }

    pub fn contains(&self, ticket: u64) -> bool
        ensures { result ≡ is_among self.now ticket }
    {
        ticket <= self.most && self.all.contains(&ticket)
    }

    pub fn insert(&mut self, ticket: u64) -> Result<(), NoMemory>
        ensures { OnOk result (self.new ≡ with_number self.old ticket) }
    {
        self.all.insert(ticket)?;
        self.most = self.most.max(ticket);
        Ok(())
    }
}
