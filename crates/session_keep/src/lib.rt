//! The session of a proxy: the lease under which it holds its ownership keys, when it is live, and when it wants a
//! keepalive. Times are milliseconds of the proxy's clock, times to live are seconds (etcd's lease API). A sum or
//! product that passes 2^64 - 1 counts as that.
#![tactic(auto)]

ghost use Rattle.std.specs.Prelude.{◌≡◌};
ghost use Rattle.proxy_model.specs.Session.{start, granted, renewed, ended, deadline_of, is_live, is_due, millis, expiry};

use proxy_model::Standing;
use std::marker::Model;

/// A session, from its start on. It stands once its grant was answered, until it is ended or given up.
#[derive(Debug, Drop)]
pub struct Session {
    number: u64,
    ttl: u64,
    standing: Option<Standing>,
}

impl Model for Session {
    ghost use Rattle.proxy_model.specs.Session.{Session as Parts};

    ghost Value = { Parts };

    ghost view = { λ s. record { number = s.number; ttl = s.ttl; standing = s.standing } };
}

impl Session {
    /// A session under this lease number that asks for this time to live. It isn't granted yet.
    pub fn start(number: u64, ttl: u64) -> Session
        ensures { result ≡ start number ttl }
    {
        Session {
            number,
            ttl,
            standing: None,
        }
    }

    /// Its grant, sent at `sent_at`, was answered with this time to live.
    pub fn granted(&mut self, sent_at: u64, ttl: u64)
        ensures { self.new ≡ granted self.old sent_at ttl }
    {
        self.standing = Some(Standing {
            deadline: expiry(sent_at, ttl),
            sent: sent_at,
        });
    }

    /// A keepalive of it, sent at `sent_at`, was answered with this time to live. The deadline never falls by it.
    pub fn renewed(&mut self, sent_at: u64, ttl: u64)
        ensures { self.new ≡ renewed self.old sent_at ttl }
    {
        if let Some(standing) = self.standing {
            let deadline = if ttl == 0 {
                standing.deadline
            } else {
                standing.deadline.max(expiry(sent_at, ttl))
            };
            self.standing = Some(Standing {
                deadline,
                sent: sent_at,
            });
        }
    }

    /// Its grant was lost or refused.
    pub fn lost(&mut self)
        ensures { self.new ≡ ended self.old }
    {
        self.end();
    }

    /// Whether it stands and its deadline lies ahead: at the deadline itself it is dead.
    pub fn is_live(&self, now: u64) -> bool
        ensures { result ≡ is_live self.now now }
    {
        match &self.standing {
            None => false,
            Some(standing) => now < standing.deadline,
        }
    }

    /// Whether it is live and a third of its time to live went by since what was answered last had been sent.
    pub fn due(&self, now: u64) -> bool
        ensures { result ≡ is_due self.now now }
    {
        match &self.standing {
            None => false,
            Some(standing) => {
                now < standing.deadline && standing.sent.saturating_add(millis(self.ttl) / 3) <= now
            }
        }
    }

    /// It is over.
    pub fn end(&mut self)
        ensures { self.new ≡ ended self.old }
    {
        self.standing = None;
    }

    /// Its lease number.
    pub fn number(&self) -> u64
        ensures { result ≡ self.now.number }
    {
        self.number
    }

    /// The time from which on it is dead, or nothing where it doesn't stand.
    pub fn deadline(&self) -> Option<u64>
        ensures { result ≡ deadline_of self.now.standing }
    {
        match &self.standing {
            None => None,
            Some(standing) => Some(standing.deadline),
        }
    }
}

fn millis(seconds: u64) -> u64
    ensures { result ≡ millis seconds }
{
    seconds.saturating_mul(1000)
}

fn expiry(sent_at: u64, ttl: u64) -> u64
    ensures { result ≡ expiry sent_at ttl }
{
    sent_at.saturating_add(millis(ttl))
}
