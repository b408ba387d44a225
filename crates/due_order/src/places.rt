ghost use Rattle.std.specs.Prelude.{◌≡◌};
ghost use Rattle.wait_model.specs.DueOrder.{less_then, kind_rank, is_earlier};

use wait_model::{JobKind, Place};

/// Whether a job of this place is sent before one of that place.
pub(crate) fn is_earlier(place: &Place, other: &Place) -> bool
    ensures { result ≡ is_earlier place.now other.now }
{
    let rank = kind_rank(place.kind);
    let other_rank = kind_rank(other.kind);
    less_then(
        place.since,
        other.since,
        less_then(rank, other_rank, place.number < other.number),
    )
}

fn less_then(number: u64, other: u64, rest: bool) -> bool
    ensures { result ≡ less_then number other rest }
{
    number < other || (number == other && rest)
}

fn kind_rank(kind: JobKind) -> u64
    ensures { result ≡ kind_rank kind }
{
    match kind {
        JobKind::Revoke => 0,
        JobKind::Call => 1,
        JobKind::Close => 2,
        JobKind::Open => 3,
    }
}
