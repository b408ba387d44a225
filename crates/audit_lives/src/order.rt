ghost use Rattle.std.specs.Prelude.{◌≡◌, ◌==◌, ◌+◌, List as Values};
ghost use Rattle.audit_lives.specs.Index.{TellsAll};
ghost use Rattle.audit_model.specs.Order.{about as is_about, fits_behind as is_in_order};
ghost use Rattle.script_text.specs.declared.item.Item.{Item as Told};

use crate::calls::can_settle;
use crate::index::Index;
use crate::streams::is_open_stream;
use crate::tickets::{can_reply, is_watch, knows_ticket, knows_watch};
use script_text::Item;

/// The number that a fault of order names: what the item is about, or 0 for a world.
pub fn about(item: &Item) -> u64
    ensures { result ≡ is_about item.now }
{
    match item {
        Item::World { .. } => 0,
        Item::Started { proxy } => *proxy,
        Item::Restarted { proxy } => *proxy,
        Item::Clock { proxy, .. } => *proxy,
        Item::Asked { ticket, .. } => *ticket,
        Item::Posted { ticket, .. } => *ticket,
        Item::Ticked { proxy } => *proxy,
        Item::Sent { call, .. } => *call,
        Item::Opened { stream, .. } => *stream,
        Item::Closed { stream, .. } => *stream,
        Item::Executed { call, .. } => *call,
        Item::Answered { call } => *call,
        Item::Lost { call } => *call,
        Item::Pushed { stream, .. } => *stream,
        Item::Delivered { stream } => *stream,
        Item::Cut { stream } => *stream,
        Item::Taken { ticket, .. } => *ticket,
        Item::Pending { ticket, .. } => *ticket,
        Item::Left { ticket, .. } => *ticket,
        Item::Expired { lease } => *lease,
        Item::Applied { member, .. } => *member,
        Item::Reply { ticket, .. } => *ticket,
        Item::Body { ticket, .. } => *ticket,
    }
}

/// Whether the number is the one behind so many.
fn is_next(number: u64, count: u64) -> bool
    ensures { result ≡ (number == count + 1) }
{
    number != 0 && number - 1 == count
}

/// Whether the item is in order behind these, of which one is the world's. What the store decides isn't looked at.
pub fn fits_behind(index: &Index, item: &Item) -> bool
    ensures { (items : Values Told) → TellsAll index.now items → result ≡ is_in_order items item.now }
{
    match item {
        Item::World { .. } => false,
        Item::Started { proxy } => !index.lives.has_started(*proxy),
        Item::Restarted { proxy } => index.lives.has_started(*proxy),
        Item::Clock { proxy, millis } => index.lives.has_started(*proxy)
            && index.lives.clock_of(*proxy) <= *millis,
        Item::Asked { proxy, ticket, .. } => {
            index.lives.has_started(*proxy) && !index.lives.is_asked(*proxy, *ticket)
        }
        Item::Posted { proxy, ticket, .. } => {
            index.lives.has_started(*proxy) && !index.lives.is_given_ticket(*proxy, *ticket)
        }
        Item::Ticked { proxy } => index.lives.has_started(*proxy),
        Item::Sent {
            proxy,
            call,
            member,
            request,
            ..
        } => {
            index.lives.has_started(*proxy)
                && is_next(*call, index.calls.count)
                && index.has_member(*member)
                && !is_watch(request)
        }
        Item::Opened {
            proxy,
            stream,
            member,
            request,
        } => {
            index.lives.has_started(*proxy)
                && is_next(*stream, index.streams.count)
                && index.has_member(*member)
                && is_watch(request)
        }
        Item::Closed { proxy, stream } => {
            index.lives.has_started(*proxy)
                && index.lives.opened_it(*proxy, *stream)
                && !index.streams.has_ended(*stream)
        }
        Item::Executed { call, .. } => index.sender_of(*call).is_some()
            && !index.calls.is_executed(*call),
        Item::Answered { call } => can_settle(index, *call) && index.calls.is_executed(*call),
        Item::Lost { call } => can_settle(index, *call),
        Item::Pushed { stream, .. } => is_open_stream(index, *stream)
            && !index.streams.has_cancelled(*stream),
        Item::Delivered { stream } => is_open_stream(index, *stream)
            && index.streams.has_next(*stream),
        Item::Cut { stream } => is_open_stream(index, *stream)
            && !index.streams.has_cancelled(*stream),
        Item::Taken { proxy, ticket, .. } => knows_watch(index, *proxy, *ticket),
        Item::Pending { proxy, ticket } => knows_watch(index, *proxy, *ticket),
        Item::Left { proxy, ticket } => knows_ticket(index, *proxy, *ticket),
        Item::Expired { .. } => true,
        Item::Applied { .. } => true,
        Item::Reply { proxy, ticket, .. } => can_reply(index, *proxy, *ticket),
        Item::Body { proxy, ticket, .. } => knows_ticket(index, *proxy, *ticket),
    }
}
