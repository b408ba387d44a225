ghost use Rattle.std.specs.Prelude.{◌≡◌, not, [], filter, None, Some, IsTrue, OnOk, OnErr};
ghost use Rattle.std.specs.Option.{option_copied, option_map};
ghost use Rattle.proxy_model.specs.Keyed.{at, with_at, changed_at, is_in_order};
ghost use Rattle.wait_model.specs.declared.sending.Sending.TheVariants as sending;
ghost use Rattle.read_model.specs.Acquires.{sent_out};
ghost use Rattle.read_model.specs.SessionEnd.{is_due, is_due_acquire};
ghost use Rattle.acquire_rows.specs.First.{IsFirstDueOf, row_seen};
ghost use Rattle.acquire_rows.specs.Marks.{unmarked};

use crate::dues::Dues;
use etcd_types::{Bytes, NoMemory};
use keyed_rows::{RowTest, Rows};
use read_model::Acquire;
use std::alloc::Global;
use std::marker::Model;
use wait_model::Sending;

/// The acquires that are due or out, by key.
#[derive(Debug, Drop)]
pub struct Acquires {
    rows: Rows<Acquire>,
    dues: Dues,
}

impl Model for Acquires {
    ghost use Rattle.proxy_model.specs.Keyed.{Keyed};
    ghost use Rattle.read_model.specs.declared.acquire.Acquire.{Acquire};
    ghost use Rattle.acquire_rows.specs.Marks.{AreMarked};

    ghost Value = { Keyed Acquire };

    ghost view = { λ a. a.rows };

    ghost invariant = { λ a. AreMarked a.dues a.rows };
}

/// An acquire that is due, and its key.
#[derive(Clone, Copy, Debug)]
pub struct DueAcquire<'a> {
    pub key: &'a Bytes,
    pub acquire: &'a Acquire,
}

impl Acquires {
    /// No acquires. It takes no memory.
    pub fn new(alloc: Global) -> Acquires
        ensures { result ≡ [] }
    {
        Acquires {
            rows: Rows::new(alloc),
            dues: Dues::new(alloc),
        }
    }

    /// All of them, in the order of their keys.
    pub fn as_slice(&self) -> &[(Bytes, Acquire)]
        ensures all { result.now ≡ self.now }
        ensures in_order { IsTrue (is_in_order self.now) }
    {
        self.rows.as_slice()
    }

    /// The acquire of the key.
    pub fn find(&self, key: &Bytes) -> Option<&Acquire>
        ensures { option_copied result ≡ at self.now key.now }
    {
        self.rows.find(key)
    }

    /// Whether the acquire of the key is due.
    pub fn is_due(&self, key: &Bytes) -> bool
        ensures { result ≡ is_due_acquire (at self.now key.now) }
    {
        match self.rows.find(key) {
            Some(acquire) => is_due(acquire.sending),
            None => false,
        }
    }

    /// The due acquire that is sent first, or none where none is due. It looks at no other one.
    pub fn first_due(&self) -> Option<DueAcquire<'_>>
        ensures first { IsFirstDueOf (option_map row_seen result) self.now }
        ensures in_order { IsTrue (is_in_order self.now) }
    {
        // For the prover: the acquires are in the order of their keys.
        let _rows = self.rows.as_slice();
        match self.dues.first() {
            None => None,
            Some(key) => match self.rows.find(key) {
                Some(acquire) => Some(DueAcquire { key, acquire }),
                None => unreachable!(),
            },
        }
    }

    /// An acquire of the key, which has none, is due since this step, for the read of this ticket and under this session. Where memory was
    /// wanting all is as before.
    pub fn begin(
        &mut self,
        alloc: Global,
        key: &Bytes,
        ticket: u64,
        session: u64,
        since: u64,
    ) -> Result<(), NoMemory>
        requires { at self.old key.now ≡ None }
        ensures ok { OnOk result (self.new ≡ with_at self.old key.now (Some (record { ticket = ticket; session = session; sending = sending.Due since }))) }
        ensures err { OnErr result (self.new ≡ self.old) }
    {
        let own = key.copy(alloc)?;
        self.dues.add(since, ticket, key.copy(alloc)?)?;
        let acquire = Acquire {
            ticket,
            session,
            sending: Sending::Due { since },
        };
        match self.rows.put(own, acquire) {
            Ok(()) => Ok(()),
            Err(fault) => {
                self.dues.remove(since, ticket, key);
                Err(fault)
            }
        }
    }

    /// The acquire of the key is out under this call. It takes no memory.
    pub fn send_out(&mut self, call: u64, key: &Bytes)
        ensures { self.new ≡ changed_at self.old key.now (sent_out call) }
    {
        let sent = match self.rows.find(key) {
            Some(acquire) => Acquire {
                sending: Sending::Out { call },
                ..*acquire
            },
            None => return,
        };
        unmark(&mut self.dues, key, self.rows.find(key));
        self.rows.replace(key, sent);
    }

    /// The key has no acquire any more. It takes no memory.
    pub fn remove(&mut self, key: &Bytes)
        ensures { self.new ≡ with_at self.old key.now None }
    {
        unmark(&mut self.dues, key, self.rows.find(key));
        self.rows.remove(key);
    }

    /// No acquire is due any more. It takes no memory.
    pub fn remove_due(&mut self)
        ensures { self.new ≡ filter (λ e. not (is_due e.1.sending)) self.old }
    {
        self.rows.remove_where(&IsDue {});
        self.dues.clear();
    }
}

/// The key's acquire isn't among the due ones any more, where it was due.
fn unmark(dues: &mut Dues, key: &Bytes, acquire: Option<&Acquire>)
    ensures { dues.new ≡ unmarked key.now (option_copied acquire.entry) dues.old }
{
    if let Some(acquire) = acquire {
        if let Sending::Due { since } = acquire.sending {
            dues.remove(since, acquire.ticket, key);
        }
    }
}

/// Whether an acquire is due.
#[derive(Drop)]
struct IsDue {}

impl RowTest<Acquire> for IsDue {
    ghost passes = { λ s k acquire. is_due acquire.sending };

    fn passes(&self, _key: &Bytes, acquire: &Acquire) -> bool {
        is_due(acquire.sending)
    }
}

fn is_due(sending: Sending) -> bool
    ensures { result ≡ is_due sending }
{
    matches!(sending, Sending::Due { .. })
}
