ghost use Rattle.audit_model.specs.Worked.{PutIsInOrder, OtherAnswerIsNamed, NothingKeepsTheRules, StartIsNoFirstItem, WorldIsOnce, ProxyIsStartedFirst, CallsAreNumbered, MembersAreTheWorlds, CallIsExecutedFirst, CallIsExecutedOnce, TicketIsRepliedOnce, ClocksRise, UnsentReadIsTrue, LaterCallNamesIt, UnsentReadShowsTheStore, NoHeaderIsNewer, NoHeaderIsOlder, NoSerializableReadIsUnsent, SnapshotIsTrue, SnapshotIsTheStores, EarlierLifesCallIsRefused, TicketsAreALifes, WatchTakesItsEvents, CreatedIsFirst, EventsComeOnce, MessagesAreTheStores, StreamIsSynced, PrevIsAskedFor, ProgressIsEqual, CancellationIsPushed, SessionIsEarly, SessionExpires, StoreItemsAreTheStores};

/// Worked transcripts of calls: the definitions give these by computation.
pub fn worked_orders()
    ensures put_is_in_order { PutIsInOrder }
    ensures other_answer_is_named { OtherAnswerIsNamed }
    ensures nothing_keeps_the_rules { NothingKeepsTheRules }
    ensures start_is_no_first_item { StartIsNoFirstItem }
    ensures world_is_once { WorldIsOnce }
    ensures proxy_is_started_first { ProxyIsStartedFirst }
    ensures calls_are_numbered { CallsAreNumbered }
    ensures members_are_the_worlds { MembersAreTheWorlds }
    ensures call_is_executed_first { CallIsExecutedFirst }
    ensures call_is_executed_once { CallIsExecutedOnce }
    ensures ticket_is_replied_once { TicketIsRepliedOnce }
    ensures clocks_rise { ClocksRise }
    ensures earlier_lifes_call_is_refused { EarlierLifesCallIsRefused }
    ensures tickets_are_a_lifes { TicketsAreALifes }
    ensures session_is_early { SessionIsEarly }
    ensures session_expires { SessionExpires }
    ensures store_items_are_the_stores { StoreItemsAreTheStores }
{}

/// Worked transcripts with unsent replies: the definitions give these by computation.
pub fn worked_reads()
    ensures unsent_read_is_true { UnsentReadIsTrue }
    ensures later_call_names_it { LaterCallNamesIt }
    ensures unsent_read_shows_the_store { UnsentReadShowsTheStore }
    ensures no_header_is_newer { NoHeaderIsNewer }
    ensures no_header_is_older { NoHeaderIsOlder }
    ensures no_serializable_read_is_unsent { NoSerializableReadIsUnsent }
    ensures snapshot_is_true { SnapshotIsTrue }
    ensures snapshot_is_the_stores { SnapshotIsTheStores }
{}

/// Worked transcripts of a watch: the definitions give these by computation.
pub fn worked_watches()
    ensures watch_takes_its_events { WatchTakesItsEvents }
    ensures created_is_first { CreatedIsFirst }
    ensures events_come_once { EventsComeOnce }
    ensures messages_are_the_stores { MessagesAreTheStores }
    ensures stream_is_synced { StreamIsSynced }
    ensures prev_is_asked_for { PrevIsAskedFor }
    ensures progress_is_equal { ProgressIsEqual }
    ensures cancellation_is_pushed { CancellationIsPushed }
{}
