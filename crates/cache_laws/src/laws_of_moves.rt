//! The view of true caches, over all proxies and the store, and the moves that keep its invariant.
ghost use Rattle.cache_laws.specs.Moves.StoreMoves.{CallsKeep, AcquiresKeep, TermsKeep, EndsKeep};
ghost use Rattle.cache_laws.specs.Moves.Sends.{SendsKeep};
ghost use Rattle.cache_laws.specs.Moves.Answers.{TurnsKeep, ReachesKeep};
ghost use Rattle.cache_laws.specs.Moves.Sessions.{ClocksKeep, DrawsKeep, BeginsKeep, RenewsKeep, SessionEndsKeep, RestartsKeep};
ghost use Rattle.cache_laws.specs.Moves.Truth.{OpeningIsTrue, HeldIsTrue, HeldIsOwned, HeldByOne, LiveSessionsStand};

/// What the store does keeps the view: it executes a call, which may be an acquire, a grant or a keepalive, or a lease ends.
pub fn the_store_keeps_the_view()
    ensures calls { CallsKeep }
    ensures acquires { AcquiresKeep }
    ensures terms { TermsKeep }
    ensures ends { EndsKeep }
{}

/// What a proxy does with its keys keeps the view: it sends a call, or something comes to it.
pub fn proxies_keep_the_view()
    ensures sends { SendsKeep }
    ensures turns { TurnsKeep }
    ensures reaches { ReachesKeep }
{}

/// Clocks and sessions keep the view: a clock goes on, a session is drawn, begins, is renewed or ends, a proxy starts anew.
pub fn sessions_keep_the_view()
    ensures clocks { ClocksKeep }
    ensures draws { DrawsKeep }
    ensures begins { BeginsKeep }
    ensures renews { RenewsKeep }
    ensures ends { SessionEndsKeep }
    ensures restarts { RestartsKeep }
{}

/// The view begins true; a held entry of a live session is what the store has, and the proxy alone has it; a session that
/// is live has not expired at the store.
pub fn held_keys_are_true()
    ensures opening { OpeningIsTrue }
    ensures held { HeldIsTrue }
    ensures owned { HeldIsOwned }
    ensures one { HeldByOne }
    ensures sessions { LiveSessionsStand }
{}
