ghost use Rattle.std.specs.Prelude.{◌≡◌};
ghost use Rattle.equal_values.specs.Lists.{same_all};
ghost use Rattle.equal_values.specs.Messages.{same_change as is_same_change, same_event as is_same_event, same_message as is_same_message};

use crate::records::{same_bytes, same_header, same_kv, same_prev};
use etcd_types::{Change, Event, List, WatchItem};

/// Whether two changes are the same.
pub fn same_change(told: &Change, due: &Change) -> bool
    ensures { result ≡ is_same_change told.now due.now }
{
    match (told, due) {
        (Change::Put(told), Change::Put(due)) => same_kv(told, due),
        (
            Change::Delete { key, modified },
            Change::Delete {
                key: k,
                modified: m,
            },
        ) => { same_bytes(key, k) && *modified == *m }
        (_, _) => false,
    }
}

/// Whether two events have the same change, and the same record before it.
pub fn same_event(told: &Event, due: &Event) -> bool
    ensures { result ≡ is_same_event told.now due.now }
{
    same_change(&told.change, &due.change) && same_prev(&told.prev, &due.prev)
}

fn same_events(told: &List<Event>, due: &List<Event>) -> bool
    ensures { result ≡ same_all is_same_event told.now due.now }
{
    let due = due.as_slice();
    if told.len() != due.len() {
        return false;
    }
    for (place, one) in told.as_slice().iter().enumerate() {
        if !same_event(one, &due[place]) {
            return false;
        }
    }
    true
}

/// Whether two messages of a watch are the same.
pub fn same_message(told: &WatchItem, due: &WatchItem) -> bool
    ensures { result ≡ is_same_message told.now due.now }
{
    match (told, due) {
        (WatchItem::Created(told), WatchItem::Created(due)) => same_header(told, due),
        (
            WatchItem::Events { header, events },
            WatchItem::Events {
                header: h,
                events: es,
            },
        ) => same_header(header, h) && same_events(events, es),
        (
            WatchItem::Canceled { header, compact },
            WatchItem::Canceled {
                header: h,
                compact: c,
            },
        ) => same_header(header, h) && *compact == *c,
        (_, _) => false,
    }
}
