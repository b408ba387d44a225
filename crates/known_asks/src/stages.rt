ghost use Rattle.std.specs.Prelude.{◌≡◌, if◌then◌else◌, Some, None};
ghost use Rattle.core_model.specs.ClockWork.{is_replied};

use ask_tables::is_replied;
use read_model::Asked;

/// The request's ticket, where its reply stands.
pub(crate) fn ready_ticket(ask: &Asked) -> Option<u64>
    ensures { result ≡ (if is_replied ask.now.stage then Some ask.now.ticket else None) }
{
    is_replied(&ask.stage).then_some(ask.ticket)
}
