//! What comes to a proxy and what it sends, as turns of what the view of true caches has of its keys.
#![tactic(auto)]

ghost use Rattle.row_laws.specs.Laws.{NoticesTurn, WinsTurn, WroteTurns, PassTurns, WriteSends, ReleasesTurn, TakenOffTurns, SessionOverTurns, BlockedTurns};
ghost use Rattle.row_laws.specs.Notices.{DeletesTurn, MessagesTurn, ResyncTurns, CancellationTurns};
ghost use Rattle.row_laws.specs.Endings.{RefusedTurns, LostTurns, AskingEndsTurns, AskingTurns, RescindedTurns, RescindLostTurns, FailsTurn, AcquireEndsTurn};
ghost use Rattle.row_laws.specs.Sendings.{RescindSends, AcquireSends, SpoiledTurns};

/// The leasing stream's messages turn what the view has of the proxy's keys: a put of the revoking word, a deletion, all events of a message
/// in order, and a stream that begins anew.
pub fn notices_turn()
    ensures revokes { NoticesTurn }
    ensures deletes { DeletesTurn }
    ensures messages { MessagesTurn }
    ensures resyncs { ResyncTurns }
    ensures cancellations { CancellationTurns }
{}

/// So does an acquire that succeeded, that failed, and that was refused or lost.
pub fn acquires_turn()
    ensures wins { WinsTurn }
    ensures fails { FailsTurn }
    ensures ends { AcquireEndsTurn }
{}

/// So does a write's answer or its loss.
pub fn writes_turn()
    ensures done { WroteTurns }
    ensures blocked { BlockedTurns }
    ensures refused { RefusedTurns }
    ensures lost { LostTurns }
{}

/// So do revoke calls and rescinds.
pub fn giving_up_turns()
    ensures asking_ends { AskingEndsTurns }
    ensures asking { AskingTurns }
    ensures rescinded { RescindedTurns }
    ensures rescind_lost { RescindLostTurns }
{}

/// So do waiting writes that go on.
pub fn passes_turn()
    ensures { PassTurns }
{}

/// So do requests that end without an answer, and the end of a session; what is decided again is seen by nobody.
pub fn ends_turn()
    ensures releases { ReleasesTurn }
    ensures taken_off { TakenOffTurns }
    ensures session_over { SessionOverTurns }
{}

/// A call that is sent is a move of its keys.
pub fn calls_are_sent()
    ensures writes { WriteSends }
    ensures rescinds { RescindSends }
    ensures acquires { AcquireSends }
    ensures spoiled { SpoiledTurns }
{}
