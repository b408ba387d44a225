//! A world of a replay is shown by the view of true caches: its first line makes such a world, and these of its lines keep it one.
#![tactic(auto)]

ghost use Rattle.bridge_laws.specs.Laws.{BeginsShown, CountsStayShown, StartsStayShown, ClocksStayShown, ExpiriesStayShown, AppliesStayShown};
ghost use Rattle.bridge_laws.specs.Laws.{RefusedPostsStayShown, PushesStayShown};
ghost use Rattle.bridge_laws.specs.Executions.{ExecutionsStayShown};
ghost use Rattle.bridge_laws.specs.Floors.{FloorsRise};
ghost use Rattle.bridge_laws.specs.Holder.{TicksDraw};
ghost use Rattle.bridge_laws.specs.Turns.{TurnsStayShown, TicksStayShown, SendersLast};

/// With leasing on, the world of a script's first line is shown, and it stays so when a proxy starts, its clock is set, a lease
/// expires, a member applies revisions, a post is refused, a message is pushed, and lines are counted.
pub fn worlds_are_shown()
    ensures begins { BeginsShown }
    ensures counts { CountsStayShown }
    ensures starts { StartsStayShown }
    ensures clocks { ClocksStayShown }
    ensures expiries { ExpiriesStayShown }
    ensures applies { AppliesStayShown }
    ensures posts { RefusedPostsStayShown }
    ensures pushes { PushesStayShown }
{}

/// So does the execution of a call, also late and of an earlier life of its proxy.
pub fn executions_stay_shown()
    ensures { ExecutionsStayShown }
{}

/// So does a step of a proxy that sends nothing, by moves of the view, where what holds of the proxy beside them is kept;
/// of that, what the sending of a job asks for is.
pub fn turns_stay_shown()
    ensures turns { TurnsStayShown }
    ensures ticks { TicksStayShown }
    ensures senders { SendersLast }
{}

/// A tick's line draws a number that is its proxy's by the script, and that nobody drew before.
pub fn ticks_draw()
    ensures { TicksDraw }
{}

/// A grant or a keepalive that is answered raises the floor that the world keeps as it raises the view's.
pub fn floors_rise()
    ensures { FloorsRise }
{}
