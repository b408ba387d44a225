ghost use Rattle.std.specs.Prelude.{◌≡◌, [], is_some, OnOk, OnErr};
ghost use Rattle.numbered_rows.specs.Numbered.{at};
ghost use Rattle.calls_out.specs.Counts.{with_more, with_fewer};

use etcd_types::NoMemory;
use numbered_rows::place;
use std::alloc::Global;
use std::marker::Model;

/// How many calls are out for each lease that has one.
#[derive(Debug, Drop)]
pub(crate) struct Counts {
    rows: Vec<(u64, u64)>,
}

impl Model for Counts {
    ghost use Rattle.std.specs.Prelude.{ℕ, IsTrue};
    ghost use Rattle.numbered_rows.specs.Numbered.{Numbered, is_in_order};

    ghost Value = { Numbered ℕ };

    ghost view = { λ c. c.rows.items };

    ghost invariant = { λ c. IsTrue (is_in_order c.rows.items) };
}

impl Counts {
    /// None. It takes no memory.
    pub(crate) fn new(alloc: Global) -> Counts
        ensures { result ≡ [] }
    {
        Counts {
            rows: Vec::new(alloc),
        }
    }

    /// Whether one is out for the lease. It takes logarithmic time.
    pub(crate) fn has(&self, lease: u64) -> bool
        ensures { result ≡ is_some (at self.now lease) }
    {
        match place(&self.rows, lease) {
            Ok(_) => true,
            Err(_) => false,
        }
    }

    /// One more for the lease. Where memory is wanting all is as before.
    pub(crate) fn add(&mut self, lease: u64) -> Result<(), NoMemory>
        ensures ok { OnOk result (self.new ≡ with_more lease self.old) }
        ensures err { OnErr result (self.new ≡ self.old) }
    {
        match place(&self.rows, lease) {
            Ok(at) => {
                // The numbers outlast any machine.
                let Some(more) = self.rows[at].1.checked_add(1) else {
                    return Err(NoMemory);
                };
                self.rows[at].1 = more;
            }
            Err(gap) => self.rows.insert(gap, (lease, 1))?,
        }
        Ok(())
    }

    /// One less for the lease, where there is one. It takes no memory.
    pub(crate) fn take(&mut self, lease: u64)
        ensures { self.new ≡ with_fewer lease self.old }
    {
        if let Ok(at) = place(&self.rows, lease) {
            let count = self.rows[at].1;
            if count <= 1 {
                let _ = self.rows.remove(at);
            } else {
                self.rows[at].1 = count - 1;
            }
        }
    }
}
