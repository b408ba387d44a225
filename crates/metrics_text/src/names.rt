ghost use Rattle.std.specs.Prelude.{◌≡◌};
ghost use Rattle.metrics_text.specs.Names as spec;

use crate::figures::MemberState;
use outside::RequestKind;

/// The path of requests of a kind.
#[tactic(auto, unfolding(crate::specs::Names::path_of))]
pub(crate) fn path_of(kind: RequestKind) -> &'static [u8]
    ensures { result.now ≡ spec.path_of kind }
{
    match kind {
        RequestKind::Range => b"/v3/kv/range",
        RequestKind::Put => b"/v3/kv/put",
        RequestKind::Delete => b"/v3/kv/deleterange",
        RequestKind::Txn => b"/v3/kv/txn",
        RequestKind::Compact => b"/v3/kv/compaction",
        RequestKind::Grant => b"/v3/lease/grant",
        RequestKind::Revoke => b"/v3/lease/revoke",
        RequestKind::KeepAlive => b"/v3/lease/keepalive",
        RequestKind::TimeToLive => b"/v3/lease/timetolive",
        RequestKind::Leases => b"/v3/lease/leases",
        RequestKind::Watch => b"/v3/watch",
        RequestKind::Other => b"other",
    }
}

#[tactic(auto, unfolding(crate::specs::Names::state_text))]
pub(crate) fn state_text(state: MemberState) -> &'static [u8]
    ensures { result.now ≡ spec.state_text state }
{
    match state {
        MemberState::Up => b"up",
        MemberState::Suspect => b"suspect",
        MemberState::Down => b"down",
        MemberState::Barred => b"barred",
    }
}

/// 1 where calls go to a member, else 0.
#[tactic(auto, unfolding(crate::specs::Names::is_up))]
pub(crate) fn is_up(state: MemberState) -> u64
    ensures { result ≡ spec.is_up state }
{
    match state {
        MemberState::Up | MemberState::Suspect => 1,
        MemberState::Down | MemberState::Barred => 0,
    }
}
