ghost use Rattle.std.specs.Prelude.{◌≡◌, ◌^◌};

/// Lease numbers from this one on are sessions, which proxies draw for themselves: the lower half of all lease numbers is
/// the clients'.
pub const FIRST_SESSION: u64 = 1 << 62;

/// The first session's number.
pub fn first_session_is_stated()
    ensures { FIRST_SESSION ≡ 2 ^ 62 }
{}

/// A granted session that wasn't ended or given up: times in milliseconds of the proxy's clock.
#[derive(Clone, Copy, Debug, PartialEq, Eq)]
pub struct Standing {
    /// From this time on it is dead.
    pub deadline: u64,
    /// When the grant or keepalive that was answered last had been sent.
    pub sent: u64,
}
