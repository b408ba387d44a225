//! Moments of the system's clock by which something is to be done.
ghost use Rattle.std.specs.Prelude.{◌≤◌, ◌<◌, IfOk};
ghost use Rattle.socket_limits.specs.Times.{moment_in, NoLater, IsLeft};

use std::io;
use std::io::ErrorKind;
use std::rt::Clock as Times;
use std::time::Duration;

/// How often a call that a signal interrupted is tried in all. No signal comes so often.
pub const TRIES: u32 = u32::MAX;

/// The time since some start, in milliseconds, from 1 on.
pub fn time<R: Times>(rt: &R) -> io::Result<u64>
    ensures { IfOk result (λ time. 0 < time) }
{
    let time = rt.monotonic()?;
    Ok(u64::try_from(time.as_millis()).unwrap_or(u64::MAX).max(1))
}

/// A moment by which something is to be done, by `time`.
#[derive(Clone, Copy, Debug)]
pub struct Until {
    /// In milliseconds, from the same start.
    pub end: u64,
}

impl Until {
    /// The moment in so many milliseconds.
    pub fn after<R: Times>(rt: &R, millis: u64) -> io::Result<Until>
        ensures { IfOk result (λ until. moment_in millis ≤ until.end) }
    {
        let now = time(rt)?;
        Ok(Until {
            end: now.saturating_add(millis),
        })
    }

    /// How long it is until then. It is `TimedOut` where no time is left.
    pub fn left<R: Times>(self, rt: &R) -> io::Result<Duration>
        ensures { IfOk result (IsLeft self.end) }
    {
        let now = time(rt)?;
        if now < self.end {
            Ok(Duration::from_millis(self.end - now))
        } else {
            Err(io::Error::from(ErrorKind::TimedOut))
        }
    }

    /// This moment or the one in so many milliseconds, whichever comes first.
    pub fn or_after<R: Times>(self, rt: &R, millis: u64) -> io::Result<Until>
        ensures { IfOk result (λ until. NoLater self.end millis until.end) }
    {
        let other = Until::after(rt, millis)?;
        Ok(Until {
            end: self.end.min(other.end),
        })
    }
}
