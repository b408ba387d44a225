//! One stream of watch messages that a proxy keeps open at a member, and where it goes on after a cut: at its next
//! revision, so that no event is lost and none comes twice (clientv3's watcher resumes so). A revision that would pass
//! 2^64 - 1 counts as that.
#![tactic(auto)]

ghost use Rattle.std.specs.Prelude.{◌≡◌, ◌≤◌, IsTrue};
ghost use Rattle.proxy_model.specs.Upstream.{opened, created, advance, cut, cancelled, known_next};

use etcd_types::KeyRange;
use std::marker::Model;

/// A stream, from its opening on, over all its cuts.
#[derive(Debug, Drop)]
pub struct Upstream {
    range: KeyRange,
    next: u64,
    created: bool,
}

impl Model for Upstream {
    ghost use Rattle.std.specs.Prelude.{◌≤◌, IsTrue};
    ghost use Rattle.proxy_model.specs.Upstream.{Upstream as Parts};

    ghost Value = { Parts };

    ghost view = { λ u. record { range = u.range; next = u.next; created = u.created } };

    ghost invariant = { λ u. IsTrue u.created → 1 ≤ u.next };
}

impl Upstream {
    /// A stream of the range's events from revision `start` on, or behind the newest one for 0.
    pub fn opened(range: KeyRange, start: u64) -> Upstream
        ensures { result ≡ opened range start }
    {
        Upstream {
            range,
            next: start,
            created: false,
        }
    }

    /// Its created message came, whose header has this revision.
    pub fn created(&mut self, revision: u64)
        ensures { self.new ≡ created self.old revision }
    {
        if self.next == 0 {
            self.next = revision.saturating_add(1);
        }
        self.created = true;
    }

    /// All events up to revision `last` were delivered: those of a batch that ends there, or those that a message
    /// without events with that revision speaks of.
    pub fn advance(&mut self, last: u64)
        ensures { self.new ≡ advance self.old last }
    {
        self.next = self.next.max(last.saturating_add(1));
    }

    /// The stream ended without a word.
    pub fn cut(&mut self)
        ensures { self.new ≡ cut self.old }
    {
        self.created = false;
    }

    /// The stream was cancelled. With a compaction revision it has to begin anew, from 0; without one, 0, it is a cut.
    pub fn cancelled(&mut self, compaction: u64)
        ensures { self.new ≡ cancelled self.old compaction }
    {
        self.cut();
        if compaction != 0 {
            self.next = 0;
        }
    }

    /// The next revision, or nothing as long as only the created message can tell it.
    pub fn known_next(&self) -> Option<u64>
        ensures { result ≡ known_next self.now }
    {
        match self.next {
            0 => None,
            next => Some(next),
        }
    }

    /// Whether it stands created: the created message came, and no cut or cancellation since.
    pub fn is_created(&self) -> bool
        ensures created { result ≡ self.now.created }
        ensures known { IsTrue result → 1 ≤ self.now.next }
    {
        self.created
    }

    /// Over which range and from which start it is to be opened, first or again.
    pub fn reopen(&self) -> (&KeyRange, u64)
        ensures range { result.0.now ≡ self.now.range }
        ensures start { result.1 ≡ self.now.next }
    {
        (&self.range, self.next)
    }
}
