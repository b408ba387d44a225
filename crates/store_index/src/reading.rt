ghost use Rattle.std.specs.Prelude.{◌≡◌};
ghost use Rattle.std.specs.Option.{option_copied};
ghost use Rattle.compaction_model.specs.Versions.{last_left, up_to};
ghost use Rattle.store_index.specs.Maps.{left_by};

use compaction_model::Version;
use etcd_types::Kv;

/// The record that the versions up to a revision left, or all versions where none is named.
pub(crate) fn left_by(versions: &[Version], revision: Option<u64>) -> Option<&Kv>
    ensures { option_copied result ≡ left_by revision versions.now }
{
    match revision {
        Some(revision) => left_at(versions, revision),
        None => left_now(versions),
    }
}

/// The record that the newest of these versions left.
pub fn left_now(versions: &[Version]) -> Option<&Kv>
    ensures { option_copied result ≡ last_left versions.now None }
{
    match versions.last() {
        Some(version) => version.left.as_ref(),
        None => None,
    }
}

/// The record that the newest of these versions up to a revision left. The last versions are tried first.
pub fn left_at(versions: &[Version], revision: u64) -> Option<&Kv>
    ensures { option_copied result ≡ last_left (up_to revision versions.now) None }
{
    let mut count = versions.len();
    while count > 0 {
        let version = &versions[count - 1];
        if version.revision <= revision {
            return version.left.as_ref();
        }
        count -= 1;
    }
    None
}
