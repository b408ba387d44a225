ghost use Rattle.std.specs.Prelude.{◌≡◌, ◌*◌, ◌/◌, min};
ghost use Rattle.socket_limits.specs.Limits.{limit_for};

use outside::CallKind;

/// How long a client is waited for, in milliseconds.
#[derive(Clone, Copy, Debug, PartialEq, Eq)]
pub struct ConnectionLimits {
    /// For the first byte of a request.
    pub first_byte: u64,
    /// For the rest of its head, in all.
    pub head: u64,
    /// For its body, in all, and for a permit where it is large.
    pub body: u64,
    /// For one write to be taken whole.
    pub write: u64,
    /// For the bytes that it still sends when its connection is closed.
    pub linger: u64,
}

impl Default for ConnectionLimits {
    ghost is_default = { λ l. l ≡ record { first_byte = 600_000; head = 30_000; body = 30_000; write = 30_000; linger = 1_000 } };

    /// Ten minutes for a first byte; half a minute for a head, a body and a write; a second for the bytes at the end.
    fn default() -> ConnectionLimits {
        ConnectionLimits {
            first_byte: 600_000,
            head: 30_000,
            body: 30_000,
            write: 30_000,
            linger: 1_000,
        }
    }
}

/// How long a member is waited for, in milliseconds.
#[derive(Clone, Copy, Debug, PartialEq, Eq)]
pub struct LinkLimits {
    /// To take a connection.
    pub connect: u64,
    /// For a whole call that reads one key, grants or keeps alive, and for the sending of a call that begins a stream.
    pub read: u64,
    /// For a whole call that reads more than one key.
    pub scan: u64,
    /// For a whole call that writes.
    pub write: u64,
    /// A stream that said nothing for so long fails where its member is down.
    pub silence: u64,
    /// For a whole call that asks whether a member answers.
    pub ask: u64,
    /// A stream that said nothing for so long is cut, whatever its member answers.
    pub cut: u64,
}

impl LinkLimits {
    /// The limits of a proxy whose session lives for so many seconds. A call that reads one key, grants or keeps alive has a second
    /// and a half, one that reads more 4.8, one that writes five, and none has more than a third of the session's time to live, so
    /// that a member that hangs leaves time to try another.
    pub fn of_ttl(seconds: u64) -> LinkLimits
        ensures read { result.read ≡ min 1500 (seconds * 1000 / 3) }
        ensures scan { result.scan ≡ min 4800 (seconds * 1000 / 3) }
        ensures write { result.write ≡ min 5000 (seconds * 1000 / 3) }
        ensures rest { (result.connect ≡ 1000) × (result.ask ≡ 1500) × (result.silence ≡ 5000) × (result.cut ≡ 600000) }
    {
        // from 15 seconds on, a third is more than each of the three
        let third = seconds.min(15) * 1_000 / 3;
        LinkLimits {
            connect: 1_000,
            read: third.min(1_500),
            scan: third.min(4_800),
            write: third.min(5_000),
            silence: 5_000,
            ask: 1_500,
            cut: 600_000,
        }
    }

    /// How long a call of this kind is waited for, in all; one that begins a stream until it is sent.
    pub fn limit_for(&self, kind: CallKind) -> u64
        ensures { result ≡ limit_for self.now kind }
    {
        match kind {
            CallKind::Reads | CallKind::Session(_) | CallKind::Watches(_) => self.read,
            CallKind::Scans => self.scan,
            CallKind::Writes => self.write,
            CallKind::Asks => self.ask,
        }
    }
}
