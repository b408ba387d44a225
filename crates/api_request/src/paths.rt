ghost use Rattle.std.specs.Prelude.{◌≡◌};
ghost use Rattle.json_model.specs.Faults.{GivesRequest};
ghost use Rattle.json_model.specs.Paths as spec;

use json_model::{ApiFault, Path};

/// The path's text.
pub(crate) fn path_text(path: Path) -> &'static str
    ensures { result.now ≡ spec.path_text path }
{
    match path {
        Path::Range => "/v3/kv/range",
        Path::Put => "/v3/kv/put",
        Path::DeleteRange => "/v3/kv/deleterange",
        Path::Txn => "/v3/kv/txn",
        Path::Compaction => "/v3/kv/compaction",
        Path::LeaseGrant => "/v3/lease/grant",
        Path::LeaseRevoke => "/v3/lease/revoke",
        Path::LeaseKeepAlive => "/v3/lease/keepalive",
        Path::LeaseTimeToLive => "/v3/lease/timetolive",
        Path::LeaseLeases => "/v3/lease/leases",
        Path::Watch => "/v3/watch",
    }
}

pub(crate) fn is_path(text: &[u8], path: Path) -> bool
    ensures { result ≡ spec.is_path text.now path }
{
    text == path_text(path).as_bytes()
}

fn path_among(text: &[u8], paths: &[Path]) -> Result<Path, ApiFault>
    ensures { GivesRequest (λ path. path) result (spec.path_among text.now paths.now) }
{
    for path in paths {
        if is_path(text, *path) {
            return Ok(*path);
        }
    }
    Err(ApiFault::NoSuchPath)
}

/// The path with this text.
#[tactic(auto, unfolding(json_model::specs::Paths::path_of))]
pub(crate) fn path_of(text: &[u8]) -> Result<Path, ApiFault>
    ensures { GivesRequest (λ path. path) result (spec.path_of text.now) }
{
    const PATHS: [Path; 11] = [
        Path::Range,
        Path::Put,
        Path::DeleteRange,
        Path::Txn,
        Path::Compaction,
        Path::LeaseGrant,
        Path::LeaseRevoke,
        Path::LeaseKeepAlive,
        Path::LeaseTimeToLive,
        Path::LeaseLeases,
        Path::Watch,
    ];
    path_among(text, &PATHS)
}
