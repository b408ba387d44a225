//! The messages of a watch.
ghost use Rattle.std.specs.Prelude.{◌≡◌};
ghost use Rattle.serde_json.specs.View.{members_view};
ghost use Rattle.json_model.specs.Faults.{Gives};
ghost use Rattle.json_model.specs.WatchItems as spec;

use crate::answers::result_in;
use crate::events::events_in;
use crate::known::once_message_fields;
use crate::records::header_in;
use etcd_types::{Event, Header, List, WatchItem};
use json_fields::{FieldFault, flag, number};
use json_model::names::*;
use json_model::reply_names::*;
use serde_json::{Map, Value};
use std::alloc::Global;

/// What a message of a watch says beside its header and events.
#[derive(Drop)]
struct Marks {
    created: bool,
    canceled: bool,
    /// The compaction revision.
    compact: u64,
}

#[tactic(auto, unfolding(json_model::specs::WatchItems::marks_in))]
fn marks_in(alloc: Global, object: &Map<String, Value>) -> Result<Marks, FieldFault>
    ensures { Gives (λ x. (x.created, x.canceled, x.compact)) result (spec.marks_in (members_view object.now.entries)) }
{
    let created = flag(alloc, object, &CREATED)?;
    let canceled = flag(alloc, object, &CANCELED)?;
    let compact = number(alloc, object, &COMPACT_REVISION)?;
    Ok(Marks {
        created,
        canceled,
        compact,
    })
}

/// A cancellation counts before the rest, and the mark of the first message before events.
fn item_by(marks: Marks, header: Header, events: List<Event>) -> WatchItem
    ensures { result ≡ spec.item_by marks.created marks.canceled header marks.compact events }
{
    if marks.canceled {
        WatchItem::Canceled {
            header,
            compact: marks.compact,
        }
    } else if marks.created {
        WatchItem::Created(header)
    } else {
        WatchItem::Events { header, events }
    }
}

/// The message that the object of a watch's line is: its `result` has a header, and it is a cancellation, tells that the
/// watch was created, or has events.
#[tactic(auto, unfolding(json_model::specs::WatchItems::item_in))]
pub fn item_in(alloc: Global, object: &Map<String, Value>) -> Result<WatchItem, FieldFault>
    ensures { Gives (λ item. item) result (spec.item_in (members_view object.now.entries)) }
{
    let message = result_in(alloc, object)?;
    once_message_fields(alloc, message)?;
    let header = header_in(alloc, message)?;
    let marks = marks_in(alloc, message)?;
    let events = events_in(alloc, message)?;
    Ok(item_by(marks, header, events))
}
