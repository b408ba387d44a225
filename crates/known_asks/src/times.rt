ghost use Rattle.std.specs.Prelude.{◌≡◌, if◌then◌else◌, Some, None};
ghost use Rattle.std.specs.Option.{option_copied};
ghost use Rattle.core_model.specs.ClockWork.{is_replied, times_out};
ghost use Rattle.known_asks.specs.Times.{is_late};

use ask_tables::is_replied;
use mark_rows::Mark;
use read_model::Asked;

/// For so many milliseconds a request waits for its reply.
const REQUEST_TIME_MS: u64 = 5000;

/// Whether the request has no reply, and its time has passed at this reading.
fn times_out(ask: &Asked, now: u64) -> bool
    ensures { result ≡ times_out now ask.now }
{
    !is_replied(&ask.stage) && now.saturating_sub(ask.asked) >= REQUEST_TIME_MS
}

/// The request's ticket, where it times out at this reading.
pub(crate) fn late_ticket(ask: &Asked, now: u64) -> Option<u64>
    ensures { result ≡ (if times_out now ask.now then Some ask.now.ticket else None) }
{
    times_out(ask, now).then_some(ask.ticket)
}

/// The request, where it has no reply.
pub(crate) fn only_unanswered(ask: &Asked) -> Option<&Asked>
    ensures { option_copied result ≡ (if is_replied ask.now.stage then None else Some ask.now) }
{
    if is_replied(&ask.stage) {
        None
    } else {
        Some(ask)
    }
}

/// Whether the request of this mark has no reply, and its time has passed at this reading.
pub(crate) fn is_late(mark: &Mark, now: u64) -> bool
    ensures { result ≡ is_late mark.now now }
{
    mark.kind() == 0 && now.saturating_sub(mark.number()) >= REQUEST_TIME_MS
}
