//! Which member of the cluster a call goes to, and which answers are too old, as the `ordering` package of etcd's
//! clientv3 has it: a client never reads behind what it has seen.
#![tactic(auto)]

ghost use Rattle.std.specs.Prelude.{◌≡◌, ◌≤◌, ◌++◌, Ok, Err, Some, codes, decimal, if◌then◌else◌};
ghost use Rattle.proxy_model.specs.Members.{first_members, failed, take_seen, is_stale};

use std::error::Error;
use std::fmt;
use std::marker::Model;

/// An answer came from a member that is behind: its header has revision `got`, and `needed` was seen when it was sent.
#[derive(Clone, Copy, Debug, PartialEq, Eq)]
pub struct Stale {
    pub needed: u64,
    pub got: u64,
}

impl fmt::Display for Stale {
    ghost output = { λ s. Some (codes "stale reply: revision " ++ decimal s.got ++ codes " is below " ++ decimal s.needed) };

    fn fmt<W: fmt::Write>(&self, f: &mut fmt::Formatter<W>) -> fmt::Result {
        write!(
            f,
            "stale reply: revision {} is below {}",
            self.got, self.needed
        )
    }
}

impl Error for Stale {}

/// The members of a cluster, numbered from 1, the current one among them, and the revision seen.
#[derive(Debug, Drop)]
pub struct Members {
    count: u32,
    current: u32,
    seen: u64,
}

impl Model for Members {
    ghost use Rattle.std.specs.Prelude.{◌≤◌};
    ghost use Rattle.proxy_model.specs.Members.{Members as Parts};

    ghost Value = { Parts };

    ghost view = { λ m. record { count = m.count; current = m.current; seen = m.seen } };

    ghost invariant = { λ m. (1 ≤ m.current) × (m.current ≤ m.count) };
}

impl Members {
    /// Of that many members the first is the current one, and no revision was seen.
    pub fn new(count: u32) -> Members
        requires { 1 ≤ count }
        ensures { result ≡ first_members count }
    {
        Members {
            count,
            current: 1,
            seen: 0,
        }
    }

    /// How many members there are.
    pub fn count(&self) -> u32
        ensures { result ≡ self.now.count }
    {
        self.count
    }

    /// The current member.
    pub fn pick(&self) -> u32
        ensures current { result ≡ self.now.current }
        ensures first { 1 ≤ result }
        ensures last { result ≤ self.now.count }
    {
        self.current
    }

    /// A call to this member was lost, or its reply was stale: the next one becomes current where it was the current one.
    pub fn failed(&mut self, member: u32)
        ensures { self.new ≡ failed self.old member }
    {
        if member == self.current {
            self.current = if self.current == self.count {
                1
            } else {
                self.current + 1
            };
        }
    }

    /// The greatest revision that was taken as seen, at first 0.
    pub fn seen(&self) -> u64
        ensures { result ≡ self.now.seen }
    {
        self.seen
    }

    /// Whether an answer with this revision may be given for a read that was sent when `sent_at` was the revision seen.
    /// `Stale` comes exactly where `revision` is below `sent_at`.
    pub fn check(&self, sent_at: u64, revision: u64) -> Result<(), Stale>
        ensures { result ≡ (if is_stale sent_at revision then Err (record { needed = sent_at; got = revision }) else Ok tt) }
    {
        if revision < sent_at {
            return Err(Stale {
                needed: sent_at,
                got: revision,
            });
        }
        Ok(())
    }

    /// A header with this revision was delivered.
    pub fn take_seen(&mut self, revision: u64)
        ensures { self.new ≡ take_seen self.old revision }
    {
        self.seen = self.seen.max(revision);
    }
}
