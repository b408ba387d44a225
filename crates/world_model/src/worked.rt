ghost use Rattle.world_model.specs.Worked.{PutIsPassedOn, LostCallIsExecuted, CallIsExecutedOnce, RestartedTakesNoAnswer, TicketsAreAProxys};
ghost use Rattle.world_model.specs.Worked.{WatchIsCreated, CutDropsMessages, SecondReadIsCached, SessionIsNotDue, SessionExpires};
ghost use Rattle.world_model.specs.Worked.{ClocksOutliveStarts, SessionIsTold, LiveBelowDeadline, NotLiveAtDeadline, EndsByStep, CachedReadIsUnsent};
ghost use Rattle.world_model.specs.Worked.{CachedReadShowsStore, RevisionsAreGiven, OneIsGenerated, OneIsSummed};

/// Worked scripts without leasing: the definitions give these by computation.
pub fn worked_scripts()
    ensures put_is_passed_on { PutIsPassedOn }
    ensures lost_call_is_executed { LostCallIsExecuted }
    ensures call_is_executed_once { CallIsExecutedOnce }
    ensures restarted_takes_no_answer { RestartedTakesNoAnswer }
    ensures tickets_are_a_proxys { TicketsAreAProxys }
    ensures watch_is_created { WatchIsCreated }
    ensures cut_drops_messages { CutDropsMessages }
{}

/// Worked scripts of proxies that lease: the definitions give these by computation.
pub fn worked_leases()
    ensures second_read_is_cached { SecondReadIsCached }
    ensures session_is_not_due { SessionIsNotDue }
    ensures session_expires { SessionExpires }
    ensures clocks_outlive_starts { ClocksOutliveStarts }
{}

/// What worked transcripts tell: the definitions give these by computation.
pub fn worked_tellings()
    ensures session_is_told { SessionIsTold }
    ensures live_below_deadline { LiveBelowDeadline }
    ensures not_live_at_deadline { NotLiveAtDeadline }
    ensures ends_by_step { EndsByStep }
    ensures cached_read_is_unsent { CachedReadIsUnsent }
    ensures cached_read_shows_store { CachedReadShowsStore }
    ensures revisions_are_given { RevisionsAreGiven }
{}

/// The generated script of 1, and what is told of it: the definitions give these by computation.
pub fn worked_generation()
    ensures one_is_generated { OneIsGenerated }
    ensures one_is_summed { OneIsSummed }
{}
