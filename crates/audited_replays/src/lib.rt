//! What a replay writes keeps the rules of an audit. Of the transcript of every script each item is in order, each answer and message is the
//! store's, each reply without a call is true, watches take what they may, and no session expires below its floor.
#![tactic(auto)]

ghost use Rattle.audited_replays.specs.Rules.{OrdersAreKept, AnswersAreKept, PushesAreKept, RepliesAreKept, FloorsAreKept, TakesAreKept, RulesAreKept};

/// Each item is in order.
pub fn orders_are_kept()
    ensures { OrdersAreKept }
{}

/// Each answer is the store's.
pub fn answers_are_kept()
    ensures { AnswersAreKept }
{}

/// Each message is the store's.
pub fn pushes_are_kept()
    ensures { PushesAreKept }
{}

/// Each reply with no call of its own so far is true.
pub fn replies_are_kept()
    ensures { RepliesAreKept }
{}

/// No session expires below its floor.
pub fn floors_are_kept()
    ensures { FloorsAreKept }
{}

/// Each message that a watch takes is what it may take.
pub fn takes_are_kept()
    ensures { TakesAreKept }
{}

/// The transcript of every script keeps all rules.
pub fn replayed_transcripts_keep_the_rules()
    ensures { RulesAreKept }
{}
