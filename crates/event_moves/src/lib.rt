//! What comes to a proxy, its clock work first, is a row of moves of the view of true caches.
#![tactic(auto)]

ghost use Rattle.event_moves.specs.Events.{EventsMove};

/// Each event but the sending of a job keeps the view, which sees the proxy after it.
pub fn events_move()
    ensures { EventsMove }
{}
