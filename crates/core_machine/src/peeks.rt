ghost use Rattle.std.specs.Prelude.{◌≡◌};
ghost use Rattle.std.specs.Option.{option_copied};
ghost use Rattle.core_model.specs.Asking.{held_record};
ghost use Rattle.core_model.specs.Takes.{peek, record_if};

use crate::machine::Machine;
use core_parts::live_number;
use etcd_types::{Bytes, Kv};
use lease_table::{Entry, Phase};

impl Machine {
    /// The record of a key that is held under a session that is live at this reading of the clock. It takes no memory.
    pub fn peek(&self, key: &Bytes, now: u64) -> Option<&Kv>
        ensures { option_copied result ≡ peek self.now.core key.now now }
    {
        match live_number(&self.seat, now) {
            Some(_) => record_of(self.reads.entry(key)),
            None => None,
        }
    }
}

/// The record of an entry that is held.
fn record_of(entry: Option<&Entry>) -> Option<&Kv>
    ensures { option_copied result ≡ record_if (held_record (option_copied entry.entry)) }
{
    match entry {
        Some(
            Entry {
                phase: Phase::Held,
                kv,
                ..
            },
        ) => kv.as_ref(),
        _ => None,
    }
}
