ghost use Rattle.std.specs.Prelude.{◌≡◌};
ghost use Rattle.std.specs.Option.{option_map};
ghost use Rattle.watch_model.specs.Lookups.{stream_at};
ghost use Rattle.watch_streams.specs.Rows.{IsNumbered};

use watch_model::{Stream, StreamPhase};
use watch_streams::place_of;

/// How far the opening of the stream with this number has come.
pub fn phase_of(number: u64, streams: &[Stream]) -> Option<StreamPhase>
    requires { IsNumbered streams.now }
    ensures { result ≡ option_map (λ s. s.phase) (stream_at number streams.now) }
{
    let at = place_of(number, streams)?;
    Some(streams[at].phase)
}
