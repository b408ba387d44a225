//! A turn of a proxy that sends no call leaves a world of a replay that is shown by the view of true caches.
#![tactic(auto)]

ghost use Rattle.turn_laws.specs.Known.{WorldsAreKnown};
ghost use Rattle.turn_laws.specs.Laws.{TurnsStay};

/// Each turn of a proxy but the sending of a call keeps the world shown, its line counted: a request is asked or posted, a tick, a stream
/// that is opened, closed, cut or tells a message, a call that is answered or lost, a message that is taken, a client that leaves.
pub fn turns_stay()
    ensures { TurnsStay }
{}

/// What such turns ask for of the world's streams and of what its calls were answered holds behind every script of fewer than 2^60 lines.
pub fn worlds_are_known()
    ensures { WorldsAreKnown }
{}
