// What a watch takes that isn't next for it.

use crate::events::events_said;
use crate::said::{Said, tell};
use audit_past::{
    Past, Trace, Watch, asked_at, cancelled_at, count_taken, event_behind, event_revision,
    first_in_life, is_cancellation, is_created, last_in_life, message_at, next_of, start_of,
};
use etcd_types::{NoMemory, Request, WatchAsk, WatchItem};
use script_text::Item;
use std::alloc::Global;

/// Why the message doesn't come first, where it doesn't.
fn begins_said(alloc: Global, watch: Watch, message: &WatchItem) -> Result<Option<Said>, NoMemory> {
    if is_created(message) {
        return Ok(None);
    }
    Ok(Some(tell(
        alloc,
        "the watch has taken nothing yet, and `created` comes first",
        &[],
        &[watch.asked],
    )?))
}

/// Why the message doesn't come behind the latest one, where it doesn't.
fn behind_said(
    alloc: Global,
    watch: Watch,
    latest: &WatchItem,
    message: &WatchItem,
) -> Result<Option<Said>, NoMemory> {
    if is_created(message) {
        return Ok(Some(tell(
            alloc,
            "the watch has taken `created` already",
            &[],
            &[watch.asked, watch.first],
        )?));
    }
    if is_cancellation(latest) {
        return Ok(Some(tell(
            alloc,
            "the watch was cancelled, and nothing comes behind that",
            &[],
            &[watch.asked, watch.latest],
        )?));
    }
    Ok(None)
}

/// Why the message doesn't come in turn, where it doesn't.
fn turn_said(
    alloc: Global,
    items: &[Item],
    watch: Watch,
    message: &WatchItem,
) -> Result<Option<Said>, NoMemory> {
    match message_at(items, watch.latest) {
        None => begins_said(alloc, watch, message),
        Some(latest) => behind_said(alloc, watch, latest, message),
    }
}

/// The revision of the watch's next event, where it isn't above this one.
fn missing_revision(
    past: &Past,
    items: &[Item],
    watch: Watch,
    ask: &WatchAsk,
    revision: u64,
) -> Option<u64> {
    let taken = count_taken(items, watch);
    let due = event_behind(past.events(), start_of(items, watch, ask), taken)?;
    let missing = event_revision(due);
    if missing <= revision {
        Some(missing)
    } else {
        None
    }
}

/// A message without events that the store couldn't send.
fn late_said(
    alloc: Global,
    items: &[Item],
    past: &Past,
    watch: Watch,
    ask: &WatchAsk,
    revision: u64,
) -> Result<Said, NoMemory> {
    match missing_revision(past, items, watch, ask, revision) {
        Some(missing) => {
            let places = [
                watch.asked,
                watch.first,
                watch.latest,
                past.made_at(missing),
            ];
            tell(
                alloc,
                "the message tells progress up to revision #, and the event of revision # wasn't taken",
                &[revision, missing],
                &places,
            )
        }
        None => tell(
            alloc,
            "the message tells progress up to revision #, and an event of a later one was taken",
            &[revision],
            &[watch.asked, watch.latest],
        ),
    }
}

/// A message without events that can't be taken, of a watch that asked for such.
fn early_said(
    alloc: Global,
    items: &[Item],
    past: &Past,
    watch: Watch,
    ask: &WatchAsk,
    revision: u64,
) -> Result<Said, NoMemory> {
    let newest = past.newest();
    if revision <= newest {
        return late_said(alloc, items, past, watch, ask, revision);
    }
    tell(
        alloc,
        "the store was at revision #, the message tells progress up to #",
        &[newest, revision],
        &[watch.asked, past.last_made()],
    )
}

/// A message without events that can't be taken.
fn progress_said(
    alloc: Global,
    items: &[Item],
    past: &mut Past,
    watch: Watch,
    ask: &WatchAsk,
    revision: u64,
) -> Result<Said, NoMemory> {
    if !ask.progress {
        let places = [watch.asked];
        return tell(
            alloc,
            "the watch didn't ask for messages without events",
            &[],
            &places,
        );
    }
    past.read_for(items, ask)?;
    early_said(alloc, items, past, watch, ask, revision)
}

/// A cancellation that can't be taken.
fn cancel_said(
    alloc: Global,
    items: &[Item],
    watch: Watch,
    ask: &WatchAsk,
    compaction: u64,
) -> Result<Said, NoMemory> {
    let pushed = cancelled_at(items, compaction);
    if pushed.is_none() {
        return tell(
            alloc,
            "no cancellation with compaction revision # was pushed into a stream",
            &[compaction],
            &[watch.asked],
        );
    }
    let next = next_of(items, watch, start_of(items, watch, ask));
    tell(
        alloc,
        "the watch's next revision is #, which isn't below the compaction revision #",
        &[next, compaction],
        &[watch.asked, watch.first, watch.latest, pushed],
    )
}

fn message_said(
    alloc: Global,
    items: &[Item],
    past: &mut Past,
    watch: Watch,
    ask: &WatchAsk,
    message: &WatchItem,
) -> Result<Said, NoMemory> {
    match message {
        WatchItem::Created(_) => tell(alloc, "the watch has begun", &[], &[watch.first]),
        WatchItem::Events { header, events } => {
            if events.len() == 0 {
                progress_said(alloc, items, past, watch, ask, header.revision)
            } else {
                events_said(alloc, items, past, watch, ask, *header, events.as_slice())
            }
        }
        WatchItem::Canceled { compact, .. } => cancel_said(alloc, items, watch, ask, *compact),
    }
}

/// A message that isn't next for the watch of this ticket.
pub(crate) fn watch_said(
    alloc: Global,
    items: &[Item],
    past: &mut Past,
    proxy: u64,
    ticket: u64,
    message: &WatchItem,
) -> Result<Said, NoMemory> {
    let watch = Watch {
        proxy,
        ticket,
        asked: last_in_life(Trace::Asks(proxy, ticket), proxy, items),
        first: first_in_life(Trace::Takes(proxy, ticket), proxy, items),
        latest: last_in_life(Trace::Takes(proxy, ticket), proxy, items),
    };
    let Some(Request::Watch(ask)) = asked_at(items, watch.asked) else {
        return tell(
            alloc,
            "ticket # wasn't asked as a watch",
            &[ticket],
            &[watch.asked],
        );
    };
    match turn_said(alloc, items, watch, message)? {
        Some(all) => Ok(all),
        None => message_said(alloc, items, past, watch, ask, message),
    }
}
