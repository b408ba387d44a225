ghost use Rattle.std.specs.Prelude.{◌≡◌};
ghost use Rattle.core_model.specs.ClockWork.{is_replied};

use read_model::Stage;

/// Whether a request at this stage has its reply.
pub fn is_replied(stage: &Stage) -> bool
    ensures { result ≡ is_replied stage.now }
{
    matches!(stage, Stage::Replied(_))
}
